//! One run of an image, and its report.
ghost use Rattle.std.specs.Prelude.{◌≡◌, ◌≤◌, ◌++◌, [], IfOk, cond, min};
ghost use Rattle.std.specs.Option.{option_copied};
ghost use Rattle.mx_io.specs.declared.limits.TheConstants.{MAX_FILE_BYTES};
ghost use Rattle.mx_board.specs.Contents.{bytes_in};
ghost use Rattle.mx_turn.specs.Program.{Program};
ghost use Rattle.cmd_answer.specs.Replies.{reply_answer};
ghost use Rattle.cmd_simulate.specs.Simulated.{dump_of, image_answer, program_answer};

use cmd_answer::{Reply, Status};
use cmd_options::Limits;
use mx_board::Requests;
use mx_code::Image;
use mx_icache::LineCache;
use mx_io::Memory;
use mx_pipe::Pipe;
use mx_report::{Dump, drive, report};
use mx_turn::Machine;
use std::alloc::Global;

// The data words that a report shows, if any are asked for.
fn dump_of(limits: &Limits) -> Option<Dump>
    ensures { result ≡ dump_of limits.now }
{
    match limits.dump {
        Some(at) => Some(Dump {
            at,
            count: limits.count,
        }),
        None => None,
    }
}

/// How a run ended.
pub fn status_of(halted: bool) -> Status
    ensures { result ≡ cond halted Status.Halted Status.OutOfBudget }
{
    if halted {
        Status::Halted
    } else {
        Status::OutOfBudget
    }
}

/// Runs a machine that stands for the program of an image, from its start and with these requests, and reports the run.
pub fn simulate_on<M: Machine>(
    alloc: Global,
    machine: &mut M,
    image: &Image,
    requests: &Requests,
    limits: &Limits,
) -> Result<Reply, Memory>
    requires start { M.cycles machine.old ≡ 0 }
    ensures { IfOk result (λ r. (p : Program) → M.stands machine.old p []
        → reply_answer r ≡ program_answer p image.now.code.items requests.now limits.now) }
{
    let driven = drive(alloc, machine, requests, limits.budget, limits.trace)?;
    let dump = dump_of(limits);
    let output = report(alloc, &driven, machine, image, dump)?;
    let status = status_of(driven.halted);
    Ok(Reply::Prints { status, output })
}

/// Runs an image with an input or none, under the shipped handler and with these requests, and reports the run.
pub fn simulate(
    alloc: Global,
    image: &Image,
    input: Option<&[u8]>,
    requests: &Requests,
    limits: &Limits,
) -> Result<Reply, Memory>
    requires { bytes_in (option_copied input) ≤ MAX_FILE_BYTES }
    ensures { IfOk result
        (λ r. reply_answer r ≡ image_answer image.now.code.items image.now.user_data.items (option_copied input.entry) requests.now limits.now) }
{
    let mut machine = Pipe::new(alloc, image, input, LineCache::new())?;
    simulate_on(alloc, &mut machine, image, requests, limits)
}
