//! The law of the lower bound.
ghost use Rattle.lab_blocks.specs.Bounds;

/// No valid plan of a block is shorter than its lower bound, whatever made the plan, and however large the block is.
pub fn no_plan_is_shorter()
    ensures { Bounds.NoPlanIsShorter }
{}
