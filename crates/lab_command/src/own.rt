//! Plans from files, beside the four schedulers of `compare`.
ghost use Rattle.std.specs.Prelude.{◌≤◌, length};
ghost use Rattle.mx_io.specs.declared.limits.TheConstants.{MAX_FILE_BYTES};

use lab_failure::LabFailure;
use lab_measures::Conditions;
use lab_options::ArgumentFault;
use lab_plans::{PlannedFigures, figures_by_plans};
use lab_sources::{plans_of, unlinked};
use lab_tables::Column;
use lab_watch::Watcher;
use mx_io::Shelf;
use mx_plans::PlanLine;
use mx_source::Source;
use std::alloc::{AllocError, Global};

/// The most characters of a name.
const MOST_CHARACTERS: usize = 16;

/// The names that are those of the four schedulers.
static TAKEN: [&str; 4] = ["padded", "list", "copies", "best"];

/// A plan file, by the name that it is given.
#[derive(Clone, Copy)]
pub(crate) struct NamedFile<'a> {
    name: &'a str,
    file: &'a str,
}

/// The plans of a file.
#[derive(Drop)]
pub(crate) struct OwnPlans<'a> {
    name: &'a str,
    lines: Vec<PlanLine>,
}

/// What the plans of a file come to.
#[derive(Drop)]
pub(crate) struct OwnFigures<'a> {
    name: &'a str,
    planned: PlannedFigures,
}

// Whether a byte may stand in a name.
fn is_of_name(byte: u8) -> bool {
    byte.is_ascii_alphanumeric() || byte == b'_' || byte == b'-' || byte == b'.'
}

// Whether a text may be a name.
fn is_name(text: &str) -> bool {
    let bytes = text.as_bytes();
    !bytes.is_empty()
        && bytes.len() <= MOST_CHARACTERS
        && bytes.iter().all(|byte| is_of_name(*byte))
}

// The name and the file of a word, if it has both.
fn parts_of<'a>(word: &'a str) -> Option<NamedFile<'a>> {
    let (name, file) = word.split_once("=")?;
    if is_name(name) && !file.is_empty() {
        Some(NamedFile { name, file })
    } else {
        None
    }
}

// A name may not be that of a scheduler, nor one that is given before.
fn refuse_name<'w>(files: &[NamedFile], name: &'w str) -> Result<(), ArgumentFault<'w>> {
    if TAKEN.iter().any(|taken| *taken == name) {
        return Err(ArgumentFault::ColumnTaken(name));
    }
    if files.iter().any(|given| given.name == name) {
        return Err(ArgumentFault::ColumnTwice(name));
    }
    Ok(())
}

// The file of a column, which comes after these.
fn named_file<'w>(
    files: &[NamedFile<'w>],
    word: &'w str,
) -> Result<NamedFile<'w>, ArgumentFault<'w>> {
    let Some(named) = parts_of(word) else {
        return Err(ArgumentFault::ColumnWord(word));
    };
    refuse_name(files, named.name)?;
    Ok(named)
}

// Adds the file of a column.
fn add_file<'w>(word: &'w str, files: &mut Vec<NamedFile<'w>>) -> Result<(), LabFailure<'w>> {
    match named_file(files.as_slice(), word) {
        Ok(named) => Ok(files.push(named)?),
        Err(fault) => Err(LabFailure::Arguments(fault)),
    }
}

/// The plan files of columns, beside so many sources, or what is wrong with the first that is wrong. A plan file is that of one
/// source.
pub(crate) fn named_files<'w>(
    alloc: Global,
    columns: &[&'w str],
    sources: usize,
) -> Result<Vec<NamedFile<'w>>, LabFailure<'w>> {
    let mut files = Vec::new(alloc);
    for word in columns {
        add_file(*word, &mut files)?;
    }
    if sources > 1 && !files.is_empty() {
        let fault = ArgumentFault::ColumnsOfSeveral(sources);
        return Err(LabFailure::Arguments(fault));
    }
    Ok(files)
}

/// The plans of files for a source, or what is wrong with the first that is wrong.
pub(crate) fn read_own<'w, S: Shelf>(
    alloc: Global,
    shelf: &mut S,
    source: &Source,
    files: &[NamedFile<'w>],
) -> Result<Vec<OwnPlans<'w>>, LabFailure<'w>> {
    let mut plans = Vec::new(alloc);
    for named in files {
        let lines = plans_of(alloc, shelf, source, named.file)?;
        plans.push(OwnPlans {
            name: named.name,
            lines,
        })?;
    }
    Ok(plans)
}

// What plans come to for the source of this name.
fn figures_of<'w, W: Watcher>(
    alloc: Global,
    name: &'w str,
    source: &Source,
    lines: &[PlanLine],
    conditions: &Conditions,
    watcher: W,
) -> Result<PlannedFigures, LabFailure<'w>>
    requires { length conditions.now.input.now ≤ MAX_FILE_BYTES }
{
    match figures_by_plans(alloc, source, lines, conditions, watcher) {
        Ok(planned) => Ok(planned),
        Err(error) => Err(unlinked(name, error)),
    }
}

/// What the plans of files come to for the source of this name, under what is given to its run.
pub(crate) fn measure_own<'w, W: Watcher>(
    alloc: Global,
    source_name: &'w str,
    source: &Source,
    plans: &[OwnPlans<'w>],
    conditions: &Conditions,
    watcher: W,
) -> Result<Vec<OwnFigures<'w>>, LabFailure<'w>>
    requires { length conditions.now.input.now ≤ MAX_FILE_BYTES }
{
    let mut figures = Vec::new(alloc);
    for own in plans {
        let lines = own.lines.as_slice();
        let planned = figures_of(alloc, source_name, source, lines, conditions, watcher)?;
        figures.push(OwnFigures {
            name: own.name,
            planned,
        })?;
    }
    Ok(figures)
}

/// The columns of what plans of files come to.
pub(crate) fn columns_of<'w, 'f>(
    alloc: Global,
    figures: &'f [OwnFigures<'w>],
) -> Result<Vec<Column<'w, 'f>>, AllocError> {
    let mut columns = Vec::new(alloc);
    for own in figures {
        columns.push(Column {
            name: own.name,
            figures: own.planned.figures,
            rejections: own.planned.rejections.as_slice(),
        })?;
    }
    Ok(columns)
}
