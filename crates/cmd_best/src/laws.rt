//! What the lengths are.
ghost use Rattle.cmd_best.specs.Lengths.{GreedyLengthIs, ShortestLengthIs};

/// The lengths are those of the greedy plan, and of each shortest plan.
pub fn lengths_are_of_plans()
    ensures greedy { GreedyLengthIs }
    ensures shortest { ShortestLengthIs }
{}
