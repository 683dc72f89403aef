//! What is found in the modules of a program, once it is known whether they are refused.
ghost use Rattle.std.specs.Prelude.{◌≤◌, length};

use crate::checking::{Checked, overlong_in, told_warnings};
use crate::closing::closed_text;
use crate::error::fault_finding;
use crate::finding::Finding;
use crate::follow::causes_of;
use crate::labels::{Definition, definitions_of};
use crate::link_error::link_finding;
use crate::module::{Module, exporter};
use crate::sentence::token_of;
use crate::used::used_in;
use crate::warning::warnings_with;
use lab_faults::{MOST_LINES, Shown, check_text, line_at};
use lab_writer::Writer;
use mx_lines::{Fault, lines_of};
use mx_module::JoinFault;
use mx_source::Source;
use std::alloc::{AllocError, Global};

/// What is found in the modules of a program: for each what is shown of it, how many faulty lines there are, whether a branch
/// does not reach its target, and how many warnings there are.
#[derive(Drop)]
pub struct CheckedModules<'a> {
    pub groups: Vec<Vec<Finding<'a>>>,
    pub faults: usize,
    pub is_overlong: bool,
    pub warnings: usize,
}

/// Where modules are refused: the place of a module, a line of it, and its fault.
#[derive(Clone, Copy)]
pub struct Refusal {
    pub place: usize,
    pub line: u32,
    pub fault: JoinFault,
}

// What is found in a module, and how many of its lines are faulty.
#[derive(Drop)]
struct Found<'a> {
    findings: Vec<Finding<'a>>,
    count: usize,
}

// A finding at another line, which is this one.
fn placed<'a>(finding: Finding, line: u32, text: &'a [u8]) -> Finding<'a> {
    let Finding {
        marks,
        span,
        severity,
        code,
        name,
        message,
        hint,
        follows,
        ..
    } = finding;
    Finding {
        line,
        text,
        marks,
        span,
        severity,
        code,
        name,
        message,
        hint,
        follows,
    }
}

// ---- faults

// Whether a faulty line of the closed text of a module is one of its own: it does not follow the module, it is not the line that is told
// already, and it does not name an import that no module exports, which is told where it is imported.
fn is_own(own: &Module, told: u32, shown: &Shown) -> bool {
    let is_there = shown.line as usize <= own.whole.len() && shown.line != told;
    match shown.fault {
        Fault::UndefinedLabel => is_there && !own.imports(token_of(shown)),
        _ => is_there,
    }
}

// The faulty lines of a module among those of its closed text.
fn own_faults<'t>(
    alloc: Global,
    own: &Module,
    told: u32,
    shown: Vec<Shown<'t>>,
) -> Result<Vec<Shown<'t>>, AllocError> {
    let mut kept = Vec::new(alloc);
    for one in shown {
        if is_own(own, told, &one) {
            kept.push(one)?;
        }
    }
    Ok(kept)
}

// What helps where a label is not defined that another module exports.
fn import_hint(
    alloc: Global,
    modules: &[Module],
    place: usize,
    shown: &Shown,
) -> Result<Option<String>, AllocError> {
    let name = token_of(shown);
    match shown.fault {
        Fault::UndefinedLabel if exporter(modules, place, name).is_some() => {
            let mut hint = Writer::new(alloc);
            hint.push_str("another module exports it: add '.import ");
            hint.push_bytes(name);
            hint.push('\'');
            Ok(Some(hint.into_text()?))
        }
        _ => Ok(None),
    }
}

// A faulty line of the module at this place, as it is told.
fn told_fault<'a>(
    alloc: Global,
    modules: &[Module<'a>],
    place: usize,
    shown: &Shown,
    definitions: &[Definition],
    cause: Option<u32>,
) -> Result<Finding<'a>, AllocError> {
    let mut finding = fault_finding(alloc, shown, definitions, cause)?;
    if let Some(hint) = import_hint(alloc, modules, place, shown)? {
        finding.hint = Some(hint);
    }
    let text = match modules.get(place) {
        Some(own) => line_at(&own.whole, shown.line),
        None => &[],
    };
    Ok(placed(finding, shown.line, text))
}

// The first faulty lines of the module at this place, as they are told, in a closed text of these lines.
fn told_faults<'a>(
    alloc: Global,
    modules: &[Module<'a>],
    place: usize,
    lines: &[&[u8]],
    faulty: &[Shown],
) -> Result<Vec<Finding<'a>>, AllocError> {
    let definitions = definitions_of(alloc, lines)?;
    let causes = causes_of(alloc, lines, faulty)?;
    let mut findings = Vec::new(alloc);
    for (one, cause) in faulty.iter().zip(&causes) {
        findings.push(told_fault(alloc, modules, place, one, &definitions, *cause)?)?;
    }
    Ok(findings)
}

// The faulty lines of a text; none where it is too long for one.
fn faulty_lines(alloc: Global, text: &[u8]) -> Result<Vec<Shown<'_>>, AllocError> {
    if text.len() > MOST_LINES {
        return Ok(Vec::new(alloc));
    }
    match check_text(alloc, text, MOST_LINES) {
        Ok(faulty) => Ok(faulty.shown),
        Err(_) => Err(AllocError),
    }
}

// What is found in the module at this place, beside the line that is told already.
fn found_in<'a>(
    alloc: Global,
    modules: &[Module<'a>],
    place: usize,
    own: &Module<'a>,
    told: u32,
    at_most: usize,
) -> Result<Found<'a>, AllocError> {
    let text = closed_text(alloc, modules, place, own)?;
    let lines = lines_of(alloc, &text)?;
    let faulty = own_faults(alloc, own, told, faulty_lines(alloc, &text)?)?;
    let first = faulty.get(..at_most).unwrap_or(&faulty);
    Ok(Found {
        findings: told_faults(alloc, modules, place, &lines, first)?,
        count: faulty.len(),
    })
}

// How many findings stand before a line.
fn before_line(findings: &[Finding], line: u32) -> usize
    ensures { result ≤ length findings.now }
{
    let mut count = 0usize;
    for finding in findings {
        if finding.line < line {
            count = count.saturating_add(1);
        }
    }
    count.min(findings.len())
}

// Adds the line for which modules are refused to what is found in its module.
fn add_refusal<'a>(
    alloc: Global,
    own: &Module<'a>,
    refusal: Refusal,
    found: &mut Found<'a>,
) -> Result<(), AllocError> {
    let text = line_at(&own.whole, refusal.line);
    let finding = link_finding(alloc, text, refusal.line, refusal.fault)?;
    let at = before_line(&found.findings, refusal.line);
    found.findings.insert(at, finding)?;
    found.count = found.count.saturating_add(1);
    Ok(())
}

// Whether modules are refused for an import or export line of the module at this place.
fn is_link_of(refusal: Refusal, place: usize) -> bool {
    match refusal.fault {
        JoinFault::Line(_) => false,
        _ => refusal.place == place,
    }
}

// What is found in the module at this place of modules that are refused.
fn refused_in<'a>(
    alloc: Global,
    modules: &[Module<'a>],
    place: usize,
    own: &Module<'a>,
    refusal: Refusal,
    at_most: usize,
) -> Result<Found<'a>, AllocError> {
    let is_link = is_link_of(refusal, place);
    let told = if is_link { refusal.line } else { 0 };
    let mut found = found_in(alloc, modules, place, own, told, at_most)?;
    if is_link {
        add_refusal(alloc, own, refusal, &mut found)?;
    }
    Ok(found)
}

// Adds what is found in a module, and tells how many are to be shown still.
fn add_found<'a>(
    checked: &mut CheckedModules<'a>,
    found: Found<'a>,
    at_most: usize,
) -> Result<usize, AllocError> {
    let left = at_most.saturating_sub(found.findings.len());
    checked.faults = checked.faults.saturating_add(found.count);
    checked.groups.push(found.findings)?;
    Ok(left)
}

// What is found in modules that are refused, without the fault that none of their lines has alone.
fn found_in_each<'a>(
    alloc: Global,
    modules: &[Module<'a>],
    refusal: Refusal,
    at_most: usize,
) -> Result<CheckedModules<'a>, AllocError> {
    let mut checked = CheckedModules {
        groups: Vec::new(alloc),
        faults: 0,
        is_overlong: false,
        warnings: 0,
    };
    let mut left = at_most;
    for (place, own) in modules.iter().enumerate() {
        let found = refused_in(alloc, modules, place, own, refusal, left)?;
        left = add_found(&mut checked, found, left)?;
    }
    Ok(checked)
}

// Adds the line for which modules are refused, where no line is faulty by itself: the program has too much of something.
fn add_last<'a>(
    alloc: Global,
    modules: &[Module<'a>],
    refusal: Refusal,
    groups: &mut Vec<Vec<Finding<'a>>>,
) -> Result<(), AllocError> {
    if let (Some(own), Some(group)) = (modules.get(refusal.place), groups.get_mut(refusal.place)) {
        let text = line_at(&own.whole, refusal.line);
        group.push(link_finding(alloc, text, refusal.line, refusal.fault)?)?;
    }
    Ok(())
}

/// What is found in modules that are refused: the faulty lines of each, or, where no line is faulty by itself, the one for which they
/// are refused, which is not counted.
pub fn refused_findings<'a>(
    alloc: Global,
    modules: &[Module<'a>],
    refusal: Refusal,
    at_most: usize,
) -> Result<CheckedModules<'a>, AllocError> {
    let mut checked = found_in_each(alloc, modules, refusal, at_most)?;
    if checked.faults == 0 {
        add_last(alloc, modules, refusal, &mut checked.groups)?;
    }
    Ok(checked)
}

// ---- warnings

// A text behind so many empty lines.
fn lowered(alloc: Global, before: usize, text: &[u8]) -> Result<Vec<u8>, AllocError> {
    let mut lowered = vec![in alloc; b'\n'; before]?;
    lowered.extend_from_slice(text)?;
    Ok(lowered)
}

/// The texts of modules, each behind as many empty lines as the modules before it have lines, so that joined they are numbered
/// through all of them.
pub fn numbered_texts(
    alloc: Global,
    modules: &[Module],
    given: &[&[u8]],
) -> Result<Vec<Vec<u8>>, AllocError> {
    let mut lowered_texts = Vec::new(alloc);
    let mut before = 0usize;
    for (module, text) in modules.iter().zip(given) {
        lowered_texts.push(lowered(alloc, before, text)?)?;
        before = before.saturating_add(module.whole.len());
    }
    Ok(lowered_texts)
}

// The lines of all modules, one module after the other.
fn all_lines<'a>(alloc: Global, modules: &[Module<'a>]) -> Result<Vec<&'a [u8]>, AllocError> {
    let mut lines = Vec::new(alloc);
    for module in modules {
        lines.extend_from_slice(&module.whole)?;
    }
    Ok(lines)
}

// The place of the module that has a line of those of all modules, and the number of the line there.
fn place_of(modules: &[Module], line: u32) -> (usize, u32) {
    let mut left = line;
    for (place, module) in modules.iter().enumerate() {
        let count = u32::try_from(module.whole.len()).unwrap_or(u32::MAX);
        if left <= count {
            return (place, left);
        }
        left = left.saturating_sub(count);
    }
    (0, line)
}

// Puts a finding at a line of all modules into the group of its module.
fn push_placed<'a>(
    modules: &[Module<'a>],
    groups: &mut Vec<Vec<Finding<'a>>>,
    finding: Finding<'a>,
) -> Result<(), AllocError> {
    let (place, line) = place_of(modules, finding.line);
    if let Some(group) = groups.get_mut(place) {
        let text = finding.text;
        group.push(placed(finding, line, text))?;
    }
    Ok(())
}

// Findings at lines of all modules, by their modules.
fn grouped<'a>(
    alloc: Global,
    modules: &[Module<'a>],
    findings: Vec<Finding<'a>>,
) -> Result<Vec<Vec<Finding<'a>>>, AllocError> {
    let mut groups = Vec::new(alloc);
    for _ in modules {
        groups.push(Vec::new(alloc))?;
    }
    for finding in findings {
        push_placed(modules, &mut groups, finding)?;
    }
    Ok(groups)
}

// What is found in the source of modules without faults, whose lines are numbered through all of them.
fn warned<'a>(
    alloc: Global,
    modules: &[Module<'a>],
    source: &Source,
    at_most: usize,
) -> Result<Checked<'a>, AllocError> {
    let lines = all_lines(alloc, modules)?;
    let overlong = overlong_in(alloc, source)?;
    let used = used_in(alloc, source, modules)?;
    let warned = warnings_with(alloc, &lines, source, &used)?;
    told_warnings(alloc, &lines, overlong, &warned, at_most)
}

/// What is found in modules without faults, whose lines are numbered through all of them in this source; nothing where there is none.
pub fn accepted_findings<'a>(
    alloc: Global,
    modules: &[Module<'a>],
    source: Option<&Source>,
    at_most: usize,
) -> Result<CheckedModules<'a>, AllocError> {
    let checked = match source {
        Some(source) => warned(alloc, modules, source, at_most)?,
        None => Checked::nothing(alloc),
    };
    Ok(CheckedModules {
        groups: grouped(alloc, modules, checked.findings)?,
        faults: 0,
        is_overlong: checked.is_overlong,
        warnings: checked.warnings,
    })
}
