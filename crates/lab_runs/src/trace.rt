//! The reply of `trace`.
use crate::replies::run_status;
use cmd_answer::Reply;
use lab_failure::LabFailure;
use lab_options::RunOptions;
use lab_sources::{GivenRun, noted_run};
use lab_trace::{Given, Traced, trace_of};
use lab_watch::Watcher;
use mx_io::{Memory, Shelf};
use std::alloc::Global;

// The trace of a run of the source of this name.
fn traced_run<W: Watcher>(
    alloc: Global,
    source: &str,
    run: &GivenRun,
    watcher: W,
) -> Result<Traced, Memory> {
    let mut machine = run.pipe(alloc, watcher)?;
    let given = Given {
        source,
        image: &run.program.linked.image,
        input: run.asked_input(),
        requests: &run.stimulus.requests,
        budget: run.budget,
    };
    trace_of(alloc, &mut machine, &given)
}

/// The reply to `trace SOURCE`. A line for each plan that is rejected is left in `notes`.
pub fn trace_reply<'w, S: Shelf, W: Watcher>(
    alloc: Global,
    options: &RunOptions<'w>,
    shelf: &mut S,
    watcher: W,
    notes: &mut Vec<u8>,
) -> Result<Reply, LabFailure<'w>> {
    let run = noted_run(alloc, shelf, options, notes)?;
    let Traced { text, halted } = traced_run(alloc, options.source, &run, watcher)?;
    Ok(Reply::Prints {
        status: run_status(halted),
        output: text,
    })
}
