//! Laws of greedy plans.
ghost use Rattle.mx_reorg.specs.GreedyPlans.{GreedyExists, GreedyUnique, GreedyValid, PlansExist, PlansUnique};

/// Each block has exactly one greedy plan, and it is valid.
pub fn greedy_plan_exists()
    ensures exists { GreedyExists }
    ensures unique { GreedyUnique }
    ensures valid { GreedyValid }
{}

/// Each source has exactly one list of blocks, and exactly one list of greedy plans for these.
pub fn greedy_plans_exist()
    ensures exist { PlansExist }
    ensures unique { PlansUnique }
{}
