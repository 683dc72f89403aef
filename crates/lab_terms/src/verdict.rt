//! What is said of a meaning and a run.
ghost use Rattle.std.specs.Prelude.{◌≡◌, ◌≤◌};
ghost use Rattle.lab_terms.specs.Verdicts;

use cmd_meaning::Ending;
use mx_source::Why;

/// How a run stands beside the meaning.
#[derive(Clone, Copy)]
pub enum Verdict {
    /// Both halted.
    AsMeant,
    /// The meaning halts, and the run has not within its budget.
    BudgetShort,
    /// The meaning has not ended.
    Unended,
    /// The meaning is stuck, and nothing is promised of the run.
    Stuck(Why),
}

/// How a run that halted or did not stands beside a meaning that ended so.
pub fn verdict_of(ending: Ending, halted: bool) -> Verdict
    ensures { result ≡ Verdicts.verdict ending halted }
{
    match ending {
        Ending::Stuck(why) => Verdict::Stuck(why),
        Ending::Running => Verdict::Unended,
        Ending::Halted => {
            if halted {
                Verdict::AsMeant
            } else {
                Verdict::BudgetShort
            }
        }
    }
}

/// The budget with which a run halts whose meaning halts in so many statements, under so many interrupt requests.
pub fn enough_budget(statements: u32, requests: u32) -> u64
    ensures { result ≡ Verdicts.enough_budget statements requests }
{
    9 * u64::from(statements) + 96 * u64::from(requests) + 16
}
