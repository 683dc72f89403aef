//! The reply of `check`.
ghost use Rattle.std.specs.Prelude.{◌≤◌, length};
ghost use Rattle.mx_io.specs.declared.limits.TheConstants.{MAX_SOURCE_BYTES};

use cmd_answer::{Reply, Status};
use lab_check::{Checked, Finding, Form, MOST_LINES, check, findings_text};
use lab_failure::{LabFailure, LabFile, read_lab_file};
use lab_modules::{CheckedModules, MOST_MODULES, check_modules};
use lab_options::{ArgumentFault, CheckForm, CheckOptions};
use lab_runs::{or_memory, printed};
use mx_io::{Memory, Shelf};
use std::alloc::{AllocError, Global};

/// How many faulty lines and how many warnings are shown.
const MOST_SHOWN: usize = 20;

/// How many bytes modules have together.
const MOST_TOGETHER: usize = 4_000_000;

// How much is found: what it is found in, how many faulty lines, whether a branch does not reach its target, how many warnings, and
// how many of all these are shown.
#[derive(Clone, Copy)]
struct Sums {
    subject: &'static str,
    faults: usize,
    is_overlong: bool,
    warnings: usize,
    shown: usize,
}

// Appends how many lines are faulty, in words: `1 line has a fault`.
fn push_faults(text: &mut String, sums: Sums) -> Result<(), AllocError> {
    let subject = sums.subject;
    match sums.faults {
        0 if sums.is_overlong => text.push_str("a branch does not reach its target"),
        0 => write!(text, "{subject} no fault"),
        1 => text.push_str("1 line has a fault"),
        faults => write!(text, "{faults} lines have a fault"),
    }
}

// Appends how many warnings there are, in words.
fn push_warnings(text: &mut String, warnings: usize) -> Result<(), AllocError> {
    match warnings {
        0 => Ok(()),
        1 => text.push_str(", 1 warning"),
        _ => write!(text, ", {warnings} warnings"),
    }
}

// How many faulty lines or warnings are shown, beside a branch that does not reach its target.
fn shown_in(sums: Sums) -> usize {
    let branches = usize::from(sums.is_overlong);
    sums.shown.saturating_sub(branches)
}

// Appends how much of what was found is shown, where that is not all.
fn push_shown(text: &mut String, sums: Sums) -> Result<(), AllocError> {
    if sums.faults.max(sums.warnings) > shown_in(sums) {
        write!(
            text,
            ", of which the first {MOST_SHOWN} are shown: --all shows them all"
        )
    } else {
        Ok(())
    }
}

// Appends the last line: how much was found, and how much of it is shown.
fn push_sums(text: &mut String, sums: Sums) -> Result<(), AllocError> {
    push_faults(text, sums)?;
    push_warnings(text, sums.warnings)?;
    push_shown(text, sums)?;
    text.push('\n')
}

// Appends the same to bytes.
fn push_last(alloc: Global, output: &mut Vec<u8>, sums: Sums) -> Result<(), AllocError> {
    let mut text = String::new(alloc);
    push_sums(&mut text, sums)?;
    output.extend_from_slice(text.as_bytes())
}

// How much is found in a text.
fn sums_of(checked: &Checked) -> Sums {
    Sums {
        subject: "the text has",
        faults: checked.faults,
        is_overlong: checked.is_overlong,
        warnings: checked.warnings,
        shown: checked.findings.len(),
    }
}

// How many findings groups have together.
fn count_in(groups: &[Vec<Finding>]) -> usize {
    let mut count = 0usize;
    for group in groups {
        count = count.saturating_add(group.len());
    }
    count
}

// How much is found in modules.
fn module_sums(checked: &CheckedModules) -> Sums {
    Sums {
        subject: "the modules have",
        faults: checked.faults,
        is_overlong: checked.is_overlong,
        warnings: checked.warnings,
        shown: count_in(&checked.groups),
    }
}

// What is printed of a text.
fn report(alloc: Global, file: &str, checked: &Checked, form: Form) -> Result<Vec<u8>, AllocError> {
    let mut output = findings_text(alloc, file, &checked.findings, form)?;
    if form != Form::Json {
        push_last(alloc, &mut output, sums_of(checked))?;
    }
    Ok(output)
}

// The status of what is checked: it is refused where a line is faulty, or a branch does not reach its target.
fn status_of(sums: Sums) -> Status {
    if sums.faults == 0 && !sums.is_overlong {
        Status::Done
    } else {
        Status::Refused
    }
}

// How many findings the options ask for.
fn most_given(options: &CheckOptions) -> usize
    ensures { result ≤ MAX_SOURCE_BYTES }
{
    if options.is_all {
        MOST_LINES
    } else {
        MOST_SHOWN
    }
}

// The form that the options ask for.
fn form_given(options: &CheckOptions) -> Form {
    match options.form {
        CheckForm::Text => Form::Text,
        CheckForm::Coloured => Form::Coloured,
        CheckForm::Json => Form::Json,
    }
}

// The reply that tells what is wrong with the text of a file of this name.
fn text_reply<'w>(
    alloc: Global,
    options: &CheckOptions,
    name: &str,
    text: &[u8],
) -> Result<Reply, LabFailure<'w>>
    requires { length text.now ≤ MAX_SOURCE_BYTES }
{
    let checked = check(alloc, text, most_given(options))?;
    let said = report(alloc, name, &checked, form_given(options));
    printed(status_of(sums_of(&checked)), or_memory(said))
}

/// What `check` prints of a text with an error; nothing of another one.
pub(crate) fn errors_text(alloc: Global, name: &str, text: &[u8]) -> Result<Option<Vec<u8>>, Memory>
    requires { length text.now ≤ MAX_SOURCE_BYTES }
{
    let checked = check(alloc, text, MOST_SHOWN)?;
    if status_of(sums_of(&checked)) == Status::Done {
        return Ok(None);
    }
    match report(alloc, name, &checked, Form::Text) {
        Ok(said) => Ok(Some(said)),
        Err(_) => Err(Memory),
    }
}

// What is printed of modules of these names.
fn modules_report(
    alloc: Global,
    names: &[&str],
    checked: &CheckedModules,
    form: Form,
) -> Result<Vec<u8>, AllocError> {
    let mut output = Vec::new(alloc);
    for (name, group) in names.iter().zip(&checked.groups) {
        output.extend_from_slice(&findings_text(alloc, name, group, form)?)?;
    }
    if form != Form::Json {
        push_last(alloc, &mut output, module_sums(checked))?;
    }
    Ok(output)
}

// The texts of modules, whose files are read in order.
fn read_modules<'w, S: Shelf>(
    alloc: Global,
    shelf: &mut S,
    names: &[&'w str],
) -> Result<Vec<Vec<u8>>, LabFailure<'w>> {
    let mut texts = Vec::new(alloc);
    for name in names {
        texts.push(read_lab_file(alloc, shelf, LabFile::Source, *name)?)?;
    }
    Ok(texts)
}

// Texts as slices; none where they have too many bytes together.
fn slices_of(alloc: Global, texts: &[Vec<u8>]) -> Result<Option<Vec<&[u8]>>, AllocError> {
    let mut slices = Vec::new(alloc);
    let mut bytes = 0usize;
    for text in texts {
        bytes = bytes.saturating_add(text.len());
        slices.push(text.as_slice())?;
    }
    Ok(if bytes > MOST_TOGETHER {
        None
    } else {
        Some(slices)
    })
}

// The reply that tells what is wrong with modules of these texts.
fn texts_reply<'w>(
    alloc: Global,
    options: &CheckOptions,
    names: &[&str],
    texts: &[&[u8]],
) -> Result<Reply, LabFailure<'w>> {
    if texts.is_empty() || texts.len() > MOST_MODULES {
        return Err(LabFailure::Arguments(ArgumentFault::TooManyModules));
    }
    let checked = check_modules(alloc, texts, most_given(options))?;
    let said = modules_report(alloc, names, &checked, form_given(options));
    printed(status_of(module_sums(&checked)), or_memory(said))
}

// The reply that tells what is wrong with modules of these names.
fn modules_reply<'w, S: Shelf>(
    alloc: Global,
    options: &CheckOptions,
    shelf: &mut S,
    names: &[&'w str],
) -> Result<Reply, LabFailure<'w>> {
    let texts = read_modules(alloc, shelf, names)?;
    match slices_of(alloc, &texts)? {
        Some(slices) => texts_reply(alloc, options, names, &slices),
        None => Err(LabFailure::Arguments(ArgumentFault::TooLongModules)),
    }
}

// The reply that tells what is wrong with the source of this name.
fn source_reply<'w, S: Shelf>(
    alloc: Global,
    options: &CheckOptions,
    shelf: &mut S,
    name: &'w str,
) -> Result<Reply, LabFailure<'w>> {
    let text = read_lab_file(alloc, shelf, LabFile::Source, name)?;
    text_reply(alloc, options, name, &text)
}

/// The reply to `check SOURCE ..`: several sources are the modules of one program.
pub fn check_reply<'w, S: Shelf>(
    alloc: Global,
    options: &CheckOptions<'_, 'w>,
    shelf: &mut S,
) -> Result<Reply, LabFailure<'w>> {
    match options.sources.unwrap_or(&[]) {
        [name] => source_reply(alloc, options, shelf, *name),
        names => modules_reply(alloc, options, shelf, names),
    }
}
