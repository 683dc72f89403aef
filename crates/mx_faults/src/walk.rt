//! All faulty lines of a text.
ghost use Rattle.std.specs.Prelude.{◌≡◌, ◌≤◌, ◌<◌, ◌+◌, ◌-◌, ◌^◌, ◌++◌, [], map, length, take, All, IfOk, IfSome, OnOk};
ghost use Rattle.std.specs.List.{cons_option};
ghost use Rattle.mx_isa.specs.declared.board.TheConstants.{DATA_END};
ghost use Rattle.mx_io.specs.declared.limits.TheConstants.{MAX_SOURCE_BYTES};
ghost use Rattle.mx_asm.specs.Faults;
ghost use Rattle.mx_asm.specs.Positions;
ghost use Rattle.mx_asm.specs.Positions.{line_words};
ghost use Rattle.mx_lines.specs.declared.labels.TheConstants.{PAST_END};
ghost use Rattle.mx_lines.specs.Shapes.{word};
ghost use Rattle.mx_asm.specs.Texts.{text_fault};
ghost use Rattle.mx_lines.specs.Words.{texts};
ghost use Rattle.mx_faults.specs.Found.{HasSpan, faults_in, first, numbered};
ghost use Rattle.mx_faults.specs.Showing.{span_by};
ghost use Rattle.mx_faults.specs.Walking.{IsShown, IsShownAs, kind_by, walked, with_number, with_span};

use crate::front::define_front;
use crate::line::{Bounds, fault_alone, settled};
use crate::line_fault::LineFault;
use crate::shown::fault_span;
use crate::span::Span;
use mx_asm::{Position, define_all, line_words, place_fault, statement_words};
use mx_io::Memory;
use mx_lines::{Fault, Labels, Word, lines_of};
use std::alloc::{AllocError, Global};

/// The fault of a line, the bytes that show it, and where the next one stands.
#[derive(Drop)]
struct Seen {
    fault: Option<Fault>,
    span: Option<Span>,
    next: Position,
}

/// The bytes that show the fault of a line, if it has one.
fn shown(
    alloc: Global,
    labels: &Labels,
    repeated: Option<usize>,
    line: &[u8],
    words: &[Word],
    fault: Option<Fault>,
) -> Result<Option<Span>, AllocError>
    requires { map word words.now ≡ line_words line.now }
    ensures { IfOk result (λ o. IfSome fault (λ f. o ≡ span_by repeated (kind_by labels.now) line.now f)) }
{
    match fault {
        Some(fault) => fault_span(alloc, labels, repeated, line, words, fault),
        None => Ok(None),
    }
}

/// Sees a line that stands here, and defines its labels.
fn see(
    alloc: Global,
    labels: &Labels,
    bounds: &Bounds,
    earlier: &mut Labels,
    position: &Position,
    line: &[u8],
) -> Result<Seen, AllocError>
    requires room { position.now.index < 2 ^ 32 - 1 }
    requires near { position.now.address ≤ PAST_END }
    requires order { bounds.now.data_start ≤ bounds.now.end }
    requires within { bounds.now.end ≤ DATA_END }
    ensures fault { IfOk result (λ s. s.fault ≡ Faults.line_fault labels.now bounds.now.end position.now earlier.old line.now) }
    ensures span { IfOk result (λ s. IfSome s.fault (IsShownAs labels.now earlier.old position.now line.now s.span)) }
    ensures next { IfOk result (λ s. s.next ≡ Positions.after position.now (Positions.line_words line.now)) }
    ensures index { IfOk result (λ s. s.next.index ≤ position.now.index + 1) }
    ensures near { IfOk result (λ s. s.next.address ≤ PAST_END) }
    ensures earlier { OnOk result (earlier.new ≡ Positions.with_labels position.now earlier.old (Positions.line_words line.now)) }
{
    let words = line_words(alloc, line)?;
    let repeated = define_front(earlier, position.label(), &words)?;
    let next = position.after(statement_words(&words));
    let alone = fault_alone(alloc, labels, bounds, position.section, line)?;
    let placed = place_fault(bounds.end, position, &next, line.len(), &words);
    let fault = settled(alone, repeated.is_some(), placed);
    let span = shown(alloc, labels, repeated, line, &words, fault)?;
    Ok(Seen { fault, span, next })
}

/// Adds a line, if it has a fault.
fn push_fault(
    found: &mut Vec<LineFault>,
    line: u32,
    fault: Option<Fault>,
    span: Option<Span>,
) -> Result<(), AllocError>
    ensures items { OnOk result (found.new.items ≡ found.old.items ++ cons_option (with_span line span fault) []) }
    ensures found { OnOk result (map numbered found.new.items ≡ map numbered found.old.items ++ cons_option (with_number line fault) []) }
    ensures few { OnOk result (length found.new.items ≤ length found.old.items + 1) }
{
    if let Some(fault) = fault {
        found.push(LineFault { line, fault, span })?;
    }
    Ok(())
}

/// The faulty lines among lines, up to so many.
fn walk(
    alloc: Global,
    labels: &Labels,
    bounds: &Bounds,
    lines: &[&[u8]],
    at_most: u32,
) -> Result<Vec<LineFault>, AllocError>
    requires few { length lines.now ≤ MAX_SOURCE_BYTES }
    requires order { bounds.now.data_start ≤ bounds.now.end }
    requires within { bounds.now.end ≤ DATA_END }
    ensures spans { IfOk result (λ v. All (IsShown labels.now bounds.now.data_start (texts lines.now)) v.items) }
    ensures found { IfOk result
        (λ v. map numbered v.items ≡ take at_most (walked labels.now bounds.now.end (Positions.start bounds.now.data_start) [] 1 (texts lines.now))) }
{
    let mut found = Vec::new(alloc);
    let mut earlier = Labels::new(alloc);
    let mut position = Position::start(bounds.data_start);
    let mut number = 1u32;
    for line in lines {
        if found.len() >= at_most as usize {
            return Ok(found);
        }
        let seen = see(alloc, labels, bounds, &mut earlier, &position, line)?;
        push_fault(&mut found, number, seen.fault, seen.span)?;
        position = seen.next;
        number += 1;
    }
    Ok(found)
}

/// The faulty lines of a text, up to so many.
fn found_in(
    alloc: Global,
    bounds: &Bounds,
    text: &[u8],
    at_most: u32,
) -> Result<Vec<LineFault>, AllocError>
    requires order { bounds.now.data_start ≤ bounds.now.end }
    requires within { bounds.now.end ≤ DATA_END }
    requires short { length text.now ≤ MAX_SOURCE_BYTES }
    ensures found { IfOk result (λ v. map numbered v.items ≡ take at_most (faults_in bounds.now.data_start bounds.now.end text.now)) }
    ensures spans { IfOk result (λ v. All (HasSpan bounds.now.data_start bounds.now.end text.now) v.items) }
{
    let lines = lines_of(alloc, text)?;
    let definitions = define_all(alloc, &lines, Position::start(bounds.data_start))?;
    walk(alloc, &definitions.labels, bounds, &lines, at_most)
}

/// The faulty lines of a text, each with its least fault and the bytes of the token that shows it, in order, up to so many
/// of them. Data words and data labels stand from one address to before another.
///
/// # Errors
///
/// `Memory` where there is no room for them.
pub fn assemble_all(
    alloc: Global,
    data_start: u32,
    end: u32,
    text: &[u8],
    at_most: u32,
) -> Result<Vec<LineFault>, Memory>
    requires order { data_start ≤ end }
    requires within { end ≤ DATA_END }
    requires short { length text.now ≤ MAX_SOURCE_BYTES }
    ensures faults { IfOk result (λ v. map numbered v.items ≡ take at_most (faults_in data_start end text.now)) }
    ensures spans { IfOk result (λ v. All (HasSpan data_start end text.now) v.items) }
    ensures first { 0 < at_most → IfOk result (λ v. first (map numbered v.items) ≡ text_fault data_start end text.now) }
{
    match found_in(alloc, &Bounds { data_start, end }, text, at_most) {
        Ok(found) => Ok(found),
        Err(_) => Err(Memory),
    }
}
