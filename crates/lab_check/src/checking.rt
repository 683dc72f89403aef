//! What is found in a text.
ghost use Rattle.std.specs.Prelude.{◌≤◌, length};
ghost use Rattle.mx_io.specs.declared.limits.TheConstants.{MAX_SOURCE_BYTES};

use crate::error::fault_finding;
use crate::finding::Finding;
use crate::follow::causes_of;
use crate::labels::{Definition, definitions_of};
use crate::warning::{Notice, notice_finding, overlong, warnings};
use lab_faults::{Findings, Shown, check_text};
use mx_asm::assemble;
use mx_io::Memory;
use mx_isa::BOARD;
use mx_lines::{AsmError, lines_of};
use mx_link::{LinkError, link};
use mx_reorg::ListProposer;
use mx_source::Source;
use std::alloc::{AllocError, Global};

/// What is found in a text: what is shown of it, how many faulty lines it has, whether a branch does not reach its target,
/// and how many warnings there are.
#[derive(Drop)]
pub struct Checked<'a> {
    pub findings: Vec<Finding<'a>>,
    pub faults: usize,
    pub is_overlong: bool,
    pub warnings: usize,
}

impl<'a> Checked<'a> {
    /// Nothing is found.
    pub fn nothing(alloc: Global) -> Checked<'a> {
        Checked {
            findings: Vec::new(alloc),
            faults: 0,
            is_overlong: false,
            warnings: 0,
        }
    }
}

// Faulty lines, as they are told.
fn fault_findings<'a>(
    alloc: Global,
    shown: &[Shown<'a>],
    definitions: &[Definition],
    causes: &[Option<u32>],
) -> Result<Vec<Finding<'a>>, AllocError> {
    let mut findings = Vec::new(alloc);
    for (one, cause) in shown.iter().zip(causes) {
        findings.push(fault_finding(alloc, one, definitions, *cause)?)?;
    }
    Ok(findings)
}

// The faulty lines that are shown, as they are told in a text that defines these labels, each with the line that it follows from.
fn faults_told<'a>(
    alloc: Global,
    faulty: &Findings<'a>,
    definitions: &[Definition],
    causes: &[Option<u32>],
) -> Result<Checked<'a>, AllocError> {
    let findings = fault_findings(alloc, &faulty.shown, definitions, causes)?;
    Ok(Checked {
        findings,
        faults: faulty.count,
        is_overlong: false,
        warnings: 0,
    })
}

// The faulty lines that are shown, as they are told in a text of these lines.
fn told_faults<'a>(
    alloc: Global,
    lines: &[&'a [u8]],
    faulty: &Findings<'a>,
) -> Result<Checked<'a>, AllocError> {
    let definitions = definitions_of(alloc, lines)?;
    let causes = causes_of(alloc, lines, &faulty.shown)?;
    faults_told(alloc, faulty, &definitions, &causes)
}

/// The first branch of a source that does not reach its target.
pub fn overlong_in(alloc: Global, source: &Source) -> Result<Option<Notice>, AllocError> {
    let _statements = source.statements();
    match link(alloc, source, BOARD, &mut ListProposer) {
        Ok(_) => Ok(None),
        Err(LinkError::Displacement { line, from, to }) => Ok(Some(overlong(line, from, to))),
        Err(LinkError::Memory) => Err(AllocError),
    }
}

// Adds what is found in a source without faults, as it is told.
fn push_notices<'a>(
    alloc: Global,
    lines: &[&'a [u8]],
    notices: &[Notice],
    findings: &mut Vec<Finding<'a>>,
) -> Result<(), AllocError> {
    for notice in notices {
        findings.push(notice_finding(alloc, lines, *notice)?)?;
    }
    Ok(())
}

// Adds a branch, if there is one, and warnings, as they are told.
fn push_told<'a>(
    alloc: Global,
    lines: &[&'a [u8]],
    overlong: Option<Notice>,
    warned: &[Notice],
    findings: &mut Vec<Finding<'a>>,
) -> Result<(), AllocError> {
    if let Some(branch) = overlong {
        push_notices(alloc, lines, &[branch], findings)?;
    }
    push_notices(alloc, lines, warned, findings)
}

/// A branch and warnings, as they are told: the branch if there is one, and at most so many warnings.
pub fn told_warnings<'a>(
    alloc: Global,
    lines: &[&'a [u8]],
    overlong: Option<Notice>,
    warned: &[Notice],
    at_most: usize,
) -> Result<Checked<'a>, AllocError> {
    let first = warned.get(..at_most).unwrap_or(warned);
    let mut findings = Vec::new(alloc);
    push_told(alloc, lines, overlong, first, &mut findings)?;
    Ok(Checked {
        findings,
        faults: 0,
        is_overlong: overlong.is_some(),
        warnings: warned.len(),
    })
}

// What is found in a source without faults: a branch that does not reach its target, and at most so many warnings.
fn told_source<'a>(
    alloc: Global,
    lines: &[&'a [u8]],
    source: &Source,
    at_most: usize,
) -> Result<Checked<'a>, AllocError> {
    let overlong = overlong_in(alloc, source)?;
    let warned = warnings(alloc, lines, source)?;
    told_warnings(alloc, lines, overlong, &warned, at_most)
}

// What is found in a text of these lines.
fn check_lines<'a>(
    alloc: Global,
    lines: &[&'a [u8]],
    text: &'a [u8],
    at_most: usize,
) -> Result<Checked<'a>, AllocError>
    requires short { length text.now ≤ MAX_SOURCE_BYTES }
    requires most { at_most ≤ MAX_SOURCE_BYTES }
{
    match assemble(alloc, text) {
        Ok(source) => told_source(alloc, lines, &source, at_most),
        Err(AsmError::Refused { .. }) => match check_text(alloc, text, at_most) {
            Ok(faulty) => told_faults(alloc, lines, &faulty),
            Err(_) => Err(AllocError),
        },
        Err(AsmError::Memory) => Err(AllocError),
    }
}

/// What is found in a text: its faulty lines, up to so many, or, where it has none, a branch that does not reach its target,
/// and warnings, up to so many.
pub fn check(alloc: Global, text: &[u8], at_most: usize) -> Result<Checked<'_>, Memory>
    requires short { length text.now ≤ MAX_SOURCE_BYTES }
    requires most { at_most ≤ MAX_SOURCE_BYTES }
{
    let Ok(lines) = lines_of(alloc, text) else {
        return Err(Memory);
    };
    match check_lines(alloc, &lines, text, at_most) {
        Ok(checked) => Ok(checked),
        Err(_) => Err(Memory),
    }
}
