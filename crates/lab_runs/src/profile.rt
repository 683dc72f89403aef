//! The reply of `profile`.
use crate::blocks_ran::profile_in;
use crate::replies::{or_memory, printed, run_status};
use cmd_answer::Reply;
use lab_costs::{By, Subject, callgrind, profile_json, profile_text};
use lab_failure::LabFailure;
use lab_options::{Form, Part, ProfileOptions, Sort};
use lab_profile::{Calls, Column, Profile, calls_of};
use lab_sources::{GivenRun, noted_run};
use lab_watch::Watcher;
use mx_io::{Memory, Shelf};
use std::alloc::Global;

// The parts that an option names.
fn part_of(part: Part) -> By {
    match part {
        Part::Line => By::Line,
        Part::Label => By::Label,
        Part::Function => By::Function,
        Part::C => By::C,
    }
}

// The column that an option names.
fn column_of(sort: Sort) -> Column {
    match sort {
        Sort::Line => Column::Line,
        Sort::Count => Column::Count,
        Sort::Cycles => Column::Cycles,
        Sort::Caused => Column::Caused,
        Sort::Cpi => Column::Cpi,
        Sort::Stalls => Column::Stalls,
        Sort::Noops => Column::Noops,
        Sort::Squashed => Column::Squashed,
        Sort::Killed => Column::Killed,
    }
}

// The calls of a run.
fn calls_in<W: Watcher>(alloc: Global, run: &GivenRun, watcher: W) -> Result<Calls, Memory> {
    let mut machine = run.pipe(alloc, watcher)?;
    let program = &run.program;
    let requests = &run.stimulus.requests;
    calls_of(
        alloc,
        &mut machine,
        &program.source,
        &program.linked,
        requests,
        run.budget,
    )
}

// A profile of a run for the tools that read Callgrind's files.
fn callgrind_of<W: Watcher>(
    alloc: Global,
    run: &GivenRun,
    subject: &Subject,
    by: By,
    watcher: W,
) -> Result<Vec<u8>, Memory> {
    let calls = calls_in(alloc, run, watcher)?;
    or_memory(callgrind(alloc, subject, &calls, by))
}

// A profile of a run in the form that the options ask for.
fn text_of<W: Watcher>(
    alloc: Global,
    options: &ProfileOptions,
    run: &GivenRun,
    profile: &Profile,
    watcher: W,
) -> Result<Vec<u8>, Memory> {
    let program = &run.program;
    let subject = Subject {
        file: options.run.source,
        text: program.text.as_slice(),
        source: &program.source,
        linked: &program.linked,
        profile,
    };
    let (by, column) = (part_of(options.by), column_of(options.sort));
    match options.run.form {
        Form::Json => profile_json(alloc, &subject, by, column),
        Form::Callgrind => callgrind_of(alloc, run, &subject, by, watcher),
        _ => or_memory(profile_text(alloc, &subject, by, column)),
    }
}

/// The reply to `profile SOURCE`. A line for each plan that is rejected is left in `notes`.
pub fn profile_reply<'w, S: Shelf, W: Watcher>(
    alloc: Global,
    options: &ProfileOptions<'w>,
    shelf: &mut S,
    watcher: W,
    notes: &mut Vec<u8>,
) -> Result<Reply, LabFailure<'w>> {
    let run = noted_run(alloc, shelf, &options.run, notes)?;
    let profile = profile_in(alloc, &run, watcher)?;
    let text = text_of(alloc, options, &run, &profile, watcher);
    let reply = printed(run_status(profile.halted), text)?;
    Ok(reply)
}
