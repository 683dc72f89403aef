//! The reply of `explain`.
ghost use Rattle.std.specs.Prelude.{◌≡◌, if◌then◌else◌, IfOk};
ghost use Rattle.mx_turn.specs.Run.{run_of};
ghost use Rattle.lab_sources.specs.Runs.{loaded};

use crate::replies::{or_memory, printed};
use cmd_answer::{Reply, Status};
use lab_explain::{Explained, explained_json, explained_text};
use lab_failure::LabFailure;
use lab_measures::{Ran, Standing, run_machine, stand};
use lab_options::{Form, RunOptions};
use lab_sources::{GivenRun, noted_run};
use lab_watch::Watcher;
use mx_io::{Memory, Shelf};
use mx_lines::lines_of;
use std::alloc::{AllocError, Global};

/// How many statements more than its budget has cycles the meaning of a run is not to be stuck in.
const STATEMENTS_AHEAD: u32 = 64;

// The line of this number, from 1 on; empty where there is none.
fn line_at(alloc: Global, text: &[u8], number: u32) -> Result<&[u8], AllocError> {
    let lines = lines_of(alloc, text)?;
    let place = number.saturating_sub(1) as usize;
    Ok(lines.get(place).copied().unwrap_or(&[]))
}

// What is told of a run and a meaning, in the form that the options ask for.
fn told(
    alloc: Global,
    options: &RunOptions,
    run: &GivenRun,
    standing: Standing,
    ran: Ran,
) -> Result<Vec<u8>, AllocError> {
    let index = standing.index as usize;
    let line = run.program.source.lines().get(index).copied().unwrap_or(0);
    let text = line_at(alloc, &run.program.text, line)?;
    let explained = Explained {
        file: options.source,
        standing,
        steps: run.budget.saturating_add(STATEMENTS_AHEAD),
        ran,
        budget: run.budget,
        requests: run.stimulus.requests.list().len() as u32,
        line,
        text,
    };
    match options.form {
        Form::Json => explained_json(alloc, &explained),
        _ => explained_text(alloc, &explained),
    }
}

// The status of a run, as `run` has it.
fn status_of(ran: &Ran) -> Status
    ensures { result ≡ if ran.now.halted then Status.Halted else Status.OutOfBudget }
{
    if ran.halted {
        Status::Halted
    } else {
        Status::OutOfBudget
    }
}

// How the run of a linked source stands after its budget, under the shipped handler. A watcher is told how far it has come.
fn source_run<W: Watcher>(alloc: Global, run: &GivenRun, watcher: W) -> Result<Ran, Memory>
    ensures halted { IfOk result (λ r. r.halted ≡ (run_of (loaded run.now) run.now.stimulus.requests run.now.budget).halted) }
    ensures cycles { IfOk result (λ r. r.cycles ≡ (run_of (loaded run.now) run.now.stimulus.requests run.now.budget).counts.cycles) }
{
    let mut machine = run.pipe(alloc, watcher)?;
    let ran = run_machine(alloc, &mut machine, &run.stimulus.requests, run.budget)?;
    Ok(ran)
}

// The reply that tells of a run and of the meaning of its source.
fn run_reply<'w, W: Watcher>(
    alloc: Global,
    options: &RunOptions<'w>,
    run: &GivenRun,
    watcher: W,
) -> Result<Reply, LabFailure<'w>> {
    let steps = run.budget.saturating_add(STATEMENTS_AHEAD);
    let input = run.stimulus.input.as_slice();
    let standing = stand(alloc, &run.program.source, input, steps)?;
    let ran = source_run(alloc, run, watcher)?;
    let status = status_of(&ran);
    let reply = printed(status, or_memory(told(alloc, options, run, standing, ran)))?;
    Ok(reply)
}

/// The reply to `explain SOURCE`.
pub fn explain_reply<'w, S: Shelf, W: Watcher>(
    alloc: Global,
    options: &RunOptions<'w>,
    shelf: &mut S,
    watcher: W,
    notes: &mut Vec<u8>,
) -> Result<Reply, LabFailure<'w>> {
    let run = noted_run(alloc, shelf, options, notes)?;
    let reply = run_reply(alloc, options, &run, watcher)?;
    Ok(reply)
}
