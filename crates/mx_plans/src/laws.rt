//! Laws of the rules, and of plan files.
ghost use Rattle.mx_plans.specs.Rules.{ValidKeepsRules, VerdictIsOne};
ghost use Rattle.mx_plans.specs.Printed.{GreedyPlanIs};
ghost use Rattle.mx_plans.specs.Copies.{PlannedByLines};

/// A plan is valid exactly where it keeps each rule, and there is at most one verdict on it.
pub fn rules_are_of_valid_plans()
    ensures valid { ValidKeepsRules }
    ensures one { VerdictIsOne }
{}

/// What the printed file of the list scheduler says is the greedy plan.
pub fn greedy_plan_is_printed()
    ensures { GreedyPlanIs }
{}

/// The slots of a block copy as many words as its line chooses.
pub fn copies_follow_lines()
    ensures { PlannedByLines }
{}
