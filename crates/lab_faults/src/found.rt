//! The faulty lines of a text that are shown.
ghost use Rattle.std.specs.Prelude.{◌≡◌, ◌≤◌, ◌-◌, [], map, take, get_or, length, IfOk};
ghost use Rattle.mx_io.specs.declared.limits.TheConstants.{MAX_SOURCE_BYTES};
ghost use Rattle.mx_lines.specs.Words.{texts};
ghost use Rattle.mx_faults.specs.Found.{faults_in};
ghost use Rattle.lab_faults.specs.Checked;
ghost use Rattle.lab_faults.specs.Checked.{shown_among, shown_lines};

use crate::marked::marks_under;
use mx_faults::{LineFault, Span, assemble_all};
use mx_io::Memory;
use mx_lines::{Fault, lines_of};
use std::alloc::{AllocError, Global};

/// How many bytes, and so how many lines, a text has at most.
pub const MOST_LINES: usize = 4_194_304;

/// A faulty line as it is shown: its number, counted from 1, its least fault, the line, and the marks under it.
#[derive(Drop)]
pub struct Shown<'a> {
    pub line: u32,
    pub fault: Fault,
    pub text: &'a [u8],
    pub marks: Vec<u8>,
    pub span: Option<Span>,
}

/// The faulty lines of a text that are shown, and how many there are in all.
#[derive(Drop)]
pub struct Findings<'a> {
    pub shown: Vec<Shown<'a>>,
    pub count: usize,
}

/// The line with this number, counted from 1; an empty one where there is none.
#[tactic(auto, using(crate::proofs::Marks::line_there, crate::proofs::Marks::line_beyond))]
pub fn line_at<'a>(lines: &[&'a [u8]], number: u32) -> &'a [u8]
    ensures { result.now ≡ get_or (texts lines.now) (number - 1) [] }
{
    let place = number.saturating_sub(1) as usize;
    if place < lines.len() {
        lines[place]
    } else {
        &[]
    }
}

// A line that was found, as it is shown.
fn shown_line<'a>(
    alloc: Global,
    lines: &[&'a [u8]],
    found: &LineFault,
) -> Result<Shown<'a>, AllocError>
    ensures { IfOk result (λ s. Checked.as_shown s ≡ shown_among (texts lines.now) found.now) }
{
    let text = line_at(lines, found.line);
    Ok(Shown {
        line: found.line,
        fault: found.fault,
        text,
        marks: marks_under(alloc, text, found.span)?,
        span: found.span,
    })
}

// The lines that were found, as they are shown.
#[tactic(auto, using(crate::proofs::Marks::push_more))]
fn shown_of<'a>(
    alloc: Global,
    lines: &[&'a [u8]],
    found: &[LineFault],
) -> Result<Vec<Shown<'a>>, AllocError>
    ensures { IfOk result (λ v. map Checked.as_shown v.items ≡ map (shown_among (texts lines.now)) found.now) }
{
    let mut shown = Vec::new(alloc);
    for one in found {
        shown.push(shown_line(alloc, lines, one)?)?;
    }
    Ok(shown)
}

// The first of the lines that were found.
#[tactic(auto, using(crate::proofs::Marks::take_within))]
fn first_of(found: &[LineFault], at_most: usize) -> &[LineFault]
    ensures { result.now ≡ take at_most found.entry.now }
{
    &found[..found.len().min(at_most)]
}

/// The faulty lines of a text that are shown: those of `assemble_all`, the first of them, up to so many.
#[tactic(auto, using(crate::proofs::Marks::shown_are, crate::proofs::Marks::count_is))]
pub fn check_text(alloc: Global, text: &[u8], at_most: usize) -> Result<Findings<'_>, Memory>
    requires short { length text.now ≤ MAX_SOURCE_BYTES }
    requires most { at_most ≤ MAX_SOURCE_BYTES }
    ensures shown { IfOk result (λ c. map Checked.as_shown c.shown.items ≡ shown_lines at_most text.now) }
    ensures count { IfOk result (λ c. c.count ≡ length (take 4194304 (faults_in 256 65536 text.now))) }
{
    let found = assemble_all(alloc, 256, 65536, text, MOST_LINES as u32)?;
    let Ok(lines) = lines_of(alloc, text) else {
        return Err(Memory);
    };
    match shown_of(alloc, &lines, first_of(&found, at_most)) {
        Ok(shown) => Ok(Findings {
            shown,
            count: found.len(),
        }),
        Err(_) => Err(Memory),
    }
}
