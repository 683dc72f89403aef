//! What the definitions that `command` names are.
ghost use Rattle.mx_command.specs.Layouts.{GreedyLayoutIs};

/// The greedy layout of a source, as a function, is its one layout by greedy plans.
pub fn greedy_layout_is()
    ensures { GreedyLayoutIs }
{}
