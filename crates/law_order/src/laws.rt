//! Laws over the definitions.
ghost use Rattle.law_order.specs.Laws.{ValidOrderKeepsEffect, ValidOrderStaysClean};
ghost use Rattle.law_order.specs.Parts.{ValidPlanHasParts, TerminatorDecidesAlike};

/// The items of a valid plan, run one after another, have the effect of the block in source order:
/// registers, MD, data, input bytes taken, console bytes, lawful accesses, and where the block leads.
pub fn valid_order_keeps_effect()
    ensures { ValidOrderKeepsEffect }
{}

/// A block whose accesses are lawful in source order has lawful accesses up to each place of a valid plan,
/// and its console bytes up to there are a prefix.
pub fn valid_order_stays_clean()
    ensures { ValidOrderStaysClean }
{}

/// A valid plan is body instructions and no-ops, at most two places for each instruction, and then by the
/// block's end nothing, the halt, or the transfer with its two slots, which are of the body too.
pub fn valid_plan_has_parts()
    ensures { ValidPlanHasParts }
{}

/// The terminator decides at its place in a valid plan what it decides behind the body in source order.
pub fn terminator_decides_alike()
    ensures { TerminatorDecidesAlike }
{}
