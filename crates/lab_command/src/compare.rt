//! The reply of `compare`.
ghost use Rattle.std.specs.Prelude.{◌≤◌, length};
ghost use Rattle.mx_io.specs.declared.limits.TheConstants.{MAX_FILE_BYTES};

use crate::own::{NamedFile, OwnFigures, OwnPlans, columns_of, measure_own, named_files, read_own};
use cmd_answer::{Reply, Status};
use cmd_source::Program;
use lab_failure::LabFailure;
use lab_measures::{Comparison, Conditions, compare};
use lab_options::{CompareOptions, Form};
use lab_runs::{or_memory, printed};
use lab_sources::{Stimulus, read_program, read_stimulus, unlinked};
use lab_tables::{
    Column, Compared, comparison_csv, comparison_json, comparison_text, comparisons_csv,
    comparisons_json, comparisons_text,
};
use lab_watch::Watcher;
use mx_io::{Memory, Shelf};
use std::alloc::Global;

// The sources of these names, linked.
fn read_sources<'w, S: Shelf>(
    alloc: Global,
    shelf: &mut S,
    names: &[&'w str],
) -> Result<Vec<Program>, LabFailure<'w>> {
    let mut programs = Vec::new(alloc);
    for name in names {
        programs.push(read_program(alloc, shelf, *name)?)?;
    }
    Ok(programs)
}

// The comparison of the source of this name.
fn compare_one<'w, W: Watcher>(
    alloc: Global,
    name: &'w str,
    program: &Program,
    conditions: &Conditions,
    watcher: W,
) -> Result<Comparison, LabFailure<'w>>
    requires { length conditions.now.input.now ≤ MAX_FILE_BYTES }
{
    match compare(alloc, &program.source, conditions, watcher) {
        Ok(comparison) => Ok(comparison),
        Err(error) => Err(unlinked(name, error)),
    }
}

// The comparison of each source.
fn compare_each<'w, W: Watcher>(
    alloc: Global,
    names: &[&'w str],
    programs: &[Program],
    conditions: &Conditions,
    watcher: W,
) -> Result<Vec<Compared<'w>>, LabFailure<'w>>
    requires { length conditions.now.input.now ≤ MAX_FILE_BYTES }
{
    let mut compared = Vec::new(alloc);
    for (name, program) in names.iter().zip(programs) {
        let source = *name;
        let comparison = compare_one(alloc, source, program, conditions, watcher)?;
        compared.push(Compared { source, comparison })?;
    }
    Ok(compared)
}

// The comparison of one source in the form that the options ask for, with columns of plans from files.
fn text_of_one(
    alloc: Global,
    form: Form,
    one: &Compared,
    columns: &[Column],
) -> Result<Vec<u8>, Memory> {
    match form {
        Form::Json => comparison_json(alloc, one, columns),
        Form::Csv => comparison_csv(alloc, one, columns),
        _ => or_memory(comparison_text(alloc, &one.comparison, columns)),
    }
}

// The same with what plans from files come to.
fn text_with(
    alloc: Global,
    form: Form,
    one: &Compared,
    own: &[OwnFigures],
) -> Result<Vec<u8>, Memory> {
    match columns_of(alloc, own) {
        Ok(columns) => text_of_one(alloc, form, one, columns.as_slice()),
        Err(_) => Err(Memory),
    }
}

// Comparisons of several sources in the form that the options ask for.
fn text_of_all(alloc: Global, form: Form, compared: &[Compared]) -> Result<Vec<u8>, Memory> {
    match form {
        Form::Json => comparisons_json(alloc, compared),
        Form::Csv => comparisons_csv(alloc, compared),
        _ => or_memory(comparisons_text(alloc, compared)),
    }
}

// Comparisons in the form that the options ask for, with what plans from files come to.
fn text_of(
    alloc: Global,
    form: Form,
    compared: &[Compared],
    own: &[OwnFigures],
) -> Result<Vec<u8>, Memory> {
    match compared {
        [one] => text_with(alloc, form, one, own),
        _ => text_of_all(alloc, form, compared),
    }
}

// What plans from files come to, where there is one source.
fn own_figures<'w, W: Watcher>(
    alloc: Global,
    names: &[&'w str],
    programs: &[Program],
    plans: &[OwnPlans<'w>],
    conditions: &Conditions,
    watcher: W,
) -> Result<Vec<OwnFigures<'w>>, LabFailure<'w>>
    requires { length conditions.now.input.now ≤ MAX_FILE_BYTES }
{
    match (names, programs) {
        ([name], [one]) => measure_own(alloc, *name, &one.source, plans, conditions, watcher),
        _ => Ok(Vec::new(alloc)),
    }
}

// The reply that compares sources, and plans from files, under what is given to the run of each.
fn compared_reply<'w, W: Watcher>(
    alloc: Global,
    options: &CompareOptions<'_, 'w>,
    programs: &[Program],
    plans: &[OwnPlans<'w>],
    stimulus: &Stimulus,
    watcher: W,
) -> Result<Reply, LabFailure<'w>> {
    let names = options.sources.unwrap_or(&[]);
    let conditions = Conditions {
        requests: &stimulus.requests,
        input: stimulus.input.as_slice(),
        budget: options.budget,
    };
    let compared = compare_each(alloc, names, programs, &conditions, watcher)?;
    let own = own_figures(alloc, names, programs, plans, &conditions, watcher)?;
    printed(
        Status::Done,
        text_of(alloc, options.form, compared.as_slice(), own.as_slice()),
    )
}

// The plans of files, where there is one source.
fn own_plans<'w, S: Shelf>(
    alloc: Global,
    shelf: &mut S,
    programs: &[Program],
    files: &[NamedFile<'w>],
) -> Result<Vec<OwnPlans<'w>>, LabFailure<'w>> {
    match programs {
        [one] => read_own(alloc, shelf, &one.source, files),
        _ => Ok(Vec::new(alloc)),
    }
}

// The reply that compares sources, and the plans of files.
fn files_reply<'w, S: Shelf, W: Watcher>(
    alloc: Global,
    options: &CompareOptions<'_, 'w>,
    shelf: &mut S,
    programs: &[Program],
    files: &[NamedFile<'w>],
    watcher: W,
) -> Result<Reply, LabFailure<'w>> {
    let plans = own_plans(alloc, shelf, programs, files)?;
    let stimulus = read_stimulus(alloc, shelf, options.stimulus)?;
    compared_reply(
        alloc,
        options,
        programs,
        plans.as_slice(),
        &stimulus,
        watcher,
    )
}

/// The reply to `compare SOURCE ..`.
pub fn compare_reply<'w, S: Shelf, W: Watcher>(
    alloc: Global,
    options: &CompareOptions<'_, 'w>,
    shelf: &mut S,
    watcher: W,
) -> Result<Reply, LabFailure<'w>> {
    let names = options.sources.unwrap_or(&[]);
    let files = named_files(alloc, options.columns.unwrap_or(&[]), names.len())?;
    let programs = read_sources(alloc, shelf, names)?;
    files_reply(
        alloc,
        options,
        shelf,
        programs.as_slice(),
        files.as_slice(),
        watcher,
    )
}
