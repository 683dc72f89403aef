//! The run of a source by plans.
ghost use Rattle.std.specs.Prelude.{◌≡◌, ◌≤◌, ◌++◌, None, IfOk, IfErr, List, ℕ, length};
ghost use Rattle.mx_io.specs.declared.limits.TheConstants.{MAX_FILE_BYTES};
ghost use Rattle.cmd_answer.specs.Answer.{prints};
ghost use Rattle.cmd_answer.specs.Replies.{reply_answer};
ghost use Rattle.cmd_answer.specs.declared.Status.{Status as HowItEnds};
ghost use Rattle.lab_plans.specs.Terms.{IsRefusal, board, lines_said, marks_of, IsProposed};
ghost use Rattle.lab_plans.specs.Planned.{IsRunByPlans};
ghost use Rattle.lab_plans.specs.Runs.{run_answer};

use crate::linking::link_told;
use cmd_answer::Reply;
use cmd_options::Limits;
use cmd_simulate::simulate_on;
use lab_terms::given_to;
use lab_watch::{Watcher, watched_pipe};
use mx_board::Requests;
use mx_icache::LineCache;
use mx_io::Memory;
use mx_link::{LinkError, Linked};
use mx_plans::PlanLine;
use mx_source::Source;
use std::alloc::{AllocError, Global};

/// A reply that prints, with these lines before what it prints.
fn behind(mut lines: Vec<u8>, reply: Reply) -> Result<Reply, AllocError>
    ensures { IfOk result (λ r. (status : HowItEnds) (output : List ℕ)
        → reply_answer reply ≡ prints status output → reply_answer r ≡ prints status (lines.items ++ output)) }
{
    match reply {
        Reply::Prints { status, output } => {
            lines.extend_from_slice(output.as_slice())?;
            Ok(Reply::Prints {
                status,
                output: lines,
            })
        }
        Reply::Writes { name, bytes } => Ok(Reply::Writes { name, bytes }),
    }
}

/// The reply of the run of a linked source under the shipped handler.
fn run_reply<W: Watcher>(
    alloc: Global,
    source: &Source,
    linked: &Linked,
    requests: &Requests,
    input: &[u8],
    budget: u32,
    watcher: W,
) -> Result<Reply, Memory>
    requires { length input.now ≤ MAX_FILE_BYTES }
    ensures { IfOk result (λ r. reply_answer r ≡ run_answer source.now linked.now requests.now input.now budget) }
{
    let image = &linked.image;
    let given = given_to(source, input);
    let mut machine = watched_pipe(alloc, image, given, LineCache::new(), watcher)?;
    let limits = Limits {
        budget,
        trace: 0,
        dump: None,
        count: 1,
    };
    let run = simulate_on(alloc, &mut machine, image, requests, &limits)?;
    Ok(run)
}

/// Links a source by the plans that the lines of a file say, and runs it under the shipped handler with these requests:
/// a line for each plan that is rejected and for copies that are, and the report of the run. A rejected plan does not run: its block
/// is padded. Where its copies are rejected, it copies nothing. A watcher is told how far the run has come.
///
/// # Errors
///
/// Those of `link`.
pub fn planned_reply<W: Watcher>(
    alloc: Global,
    source: &Source,
    plans: &[PlanLine],
    requests: &Requests,
    input: &[u8],
    budget: u32,
    watcher: W,
) -> Result<Reply, LinkError>
    requires { length input.now ≤ MAX_FILE_BYTES }
    ensures planned { IfOk result (λ r. IsRunByPlans source.now (lines_said plans.now) requests.now input.now budget (reply_answer r)) }
    ensures refused { IfErr result (IsRefusal (IsProposed source.now (marks_of (lines_said plans.now))) source.now board) }
{
    let planned = link_told(alloc, source, plans)?;
    let linked = &planned.linked;
    let run = run_reply(alloc, source, linked, requests, input, budget, watcher)?;
    Ok(behind(planned.rejections, run)?)
}
