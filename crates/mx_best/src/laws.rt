//! Laws of the search and of shortest plans.
ghost use Rattle.mx_best.specs.Shortest;
ghost use Rattle.mx_best.specs.Visits;

/// Every valid plan, a shortest one among them, is one that the search visits.
pub fn valid_plan_is_visited()
    ensures { Visits.ValidIsVisited }
{}

/// Each block has a shortest plan.
pub fn shortest_plan_exists()
    ensures { Shortest.ShortestExists }
{}
