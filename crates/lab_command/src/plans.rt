//! The reply of `plans`.
use cmd_answer::{Reply, Status};
use lab_failure::LabFailure;
use lab_options::PlansOptions;
use lab_plans::planned_reply;
use lab_runs::printed;
use lab_sources::{Stimulus, plans_of, read_source, read_stimulus, unlinked};
use lab_watch::Watcher;
use mx_io::Shelf;
use mx_plans::{PlanLine, print_plans};
use mx_source::Source;
use std::alloc::Global;

// The reply that runs a source by plans.
fn run_by_plans<'w, W: Watcher>(
    alloc: Global,
    options: &PlansOptions<'w>,
    source: &Source,
    plans: &[PlanLine],
    stimulus: &Stimulus,
    watcher: W,
) -> Result<Reply, LabFailure<'w>> {
    let requests = &stimulus.requests;
    let input = stimulus.input.as_slice();
    let budget = options.budget;
    match planned_reply(alloc, source, plans, requests, input, budget, watcher) {
        Ok(reply) => Ok(reply),
        Err(error) => Err(unlinked(options.source, error)),
    }
}

// The reply that runs a source by the plans of the file of this name.
fn run_by_file<'w, S: Shelf, W: Watcher>(
    alloc: Global,
    options: &PlansOptions<'w>,
    shelf: &mut S,
    source: &Source,
    file: &'w str,
    watcher: W,
) -> Result<Reply, LabFailure<'w>> {
    let plans = plans_of(alloc, shelf, source, file)?;
    let stimulus = read_stimulus(alloc, shelf, options.stimulus)?;
    run_by_plans(alloc, options, source, plans.as_slice(), &stimulus, watcher)
}

/// The reply to `plans SOURCE FILE`, or to `plans SOURCE --print`.
pub fn plans_reply<'w, S: Shelf, W: Watcher>(
    alloc: Global,
    options: &PlansOptions<'w>,
    shelf: &mut S,
    watcher: W,
) -> Result<Reply, LabFailure<'w>> {
    let source = read_source(alloc, shelf, options.source)?;
    match options.plans {
        Some(file) => run_by_file(alloc, options, shelf, &source, file, watcher),
        None => printed(Status::Done, print_plans(alloc, &source)),
    }
}
