//! A run of an image of two programs, with the interrupt file that its options name.
ghost use Rattle.std.specs.Prelude.{◌≡◌, ◌++◌, IfOk, OnOk, codes, option_map, List, ℕ, cond};
ghost use Rattle.cmd_answer.specs.Protocol.{Performed};
ghost use Rattle.cmd_answer.specs.Replies.{reply_answer, OnAnswer};
ghost use Rattle.mx_tasks.specs.Sharing.{shared};
ghost use Rattle.cmd_share.specs.Runs.{console_of, shared_text, shared_answer, sharing_protocol};

use cmd_answer::{Failure, Reply};
use cmd_simulate::{read_requests, status_of};
use mx_board::Requests;
use mx_code::Image;
use mx_icache::LineCache;
use mx_io::{Memory, Shelf};
use mx_pipe::Pipe;
use mx_report::push_counts;
use mx_tasks::{SWITCH, SharedRun, drive_shared};
use mx_text::{push_count, push_line};
use std::alloc::{AllocError, Global};

// Appends the lines of a program's console.
fn push_console_of(
    alloc: Global,
    text: &mut Vec<u8>,
    name: &str,
    bytes: &[u8],
) -> Result<(), AllocError>
    ensures { OnOk result (text.new.items ≡ text.old.items ++ console_of name.now bytes.now) }
{
    push_count(alloc, text, name, bytes.len() as u64)?;
    text.extend_from_slice(bytes)?;
    text.push(b'\n')?;
    Ok(())
}

// The first line of a run's report.
fn ending(halted: bool) -> &'static str
    ensures { result.now ≡ cond halted (codes "halted") (codes "out of budget") }
{
    if halted { "halted" } else { "out of budget" }
}

// The report of a run.
fn text_of(alloc: Global, run: &SharedRun) -> Result<Vec<u8>, AllocError>
    ensures { IfOk result (λ text. text.items ≡ shared_text run.now.halted run.now.counts run.now.first.items run.now.second.items) }
{
    let mut text = Vec::new(alloc);
    push_line(&mut text, ending(run.halted))?;
    push_counts(alloc, &mut text, &run.counts)?;
    push_console_of(alloc, &mut text, "first", run.first.as_slice())?;
    push_console_of(alloc, &mut text, "second", run.second.as_slice())?;
    Ok(text)
}

// Runs an image of two programs under the switching handler, with these requests and no input, and reports the run.
fn simulate_shared(
    alloc: Global,
    image: &Image,
    requests: &Requests,
    budget: u32,
) -> Result<Reply, Memory>
    ensures { IfOk result (λ r. reply_answer r ≡ shared_answer (shared image.now.code.items image.now.user_data.items) requests.now budget) }
{
    let mut machine = Pipe::with(alloc, image, &SWITCH, None, LineCache::new())?;
    let run = drive_shared(alloc, &mut machine, requests, budget)?;
    let Ok(output) = text_of(alloc, &run) else {
        return Err(Memory);
    };
    let status = status_of(run.halted);
    Ok(Reply::Prints { status, output })
}

/// Reads the interrupt file, if one is named, runs an image of two programs under the switching handler and without input, and
/// reports the run: how it ended, its counts, and the console of each program.
pub fn run_shared<S: Shelf>(
    alloc: Global,
    shelf: &mut S,
    image: &Image,
    interrupts: Option<&str>,
    budget: u32,
) -> Result<Reply, Failure>
    ensures performed { OnAnswer result (Performed (S.told shelf.old)
        (sharing_protocol (option_map (λ s. s.now) interrupts.entry) budget image.now.code.items image.now.user_data.items)
        (S.counts shelf.old) (S.counts shelf.new)) }
    ensures told_stays { S.told shelf.new ≡ S.told shelf.old }
    ensures writes_stay { S.write_faults shelf.new ≡ S.write_faults shelf.old }
{
    let requests = read_requests(alloc, shelf, interrupts)?;
    let reply = simulate_shared(alloc, image, &requests, budget)?;
    Ok(reply)
}
