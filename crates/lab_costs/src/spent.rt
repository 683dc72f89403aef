//! What the cycles of a run were spent on.
ghost use Rattle.std.specs.Prelude.{length};
ghost use Rattle.lab_costs.specs.Costs.{IsSpent};

use crate::subject::Subject;
use lab_profile::{LineCost, Spent, total};

/// What the cycles of a run were spent on, where these are the costs of the statements.
pub(crate) fn spent_in(subject: &Subject, costs: &[LineCost]) -> Spent
    ensures { IsSpent costs.now subject.now.profile.now.tally (length subject.now.linked.now.image.code.items) subject.now.profile.now.waiting result }
{
    let code = total(costs).plus(subject.behind());
    let handler = subject.handler();
    let stalls = code.stalls.saturating_add(handler.stalls);
    Spent {
        instructions: code.executed,
        noops: code.noops,
        squashed: code.cancelled,
        killed: code.killed,
        handler: handler.cycles.saturating_sub(handler.stalls),
        misses: stalls.saturating_add(subject.profile.waiting),
    }
}
