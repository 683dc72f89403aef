//! Reading a plan file.
ghost use Rattle.std.specs.Prelude.{◌≡◌, ◌≤◌, ◌==◌, OnOk, IfOk, IfErr, length, ltb, None, Ok, Err};
ghost use Rattle.std.specs.List.{list_any};
ghost use Rattle.mx_io.specs.declared.limits.TheConstants.{MAX_SOURCE_BYTES};
ghost use Rattle.mx_plans.specs.Marks.{is_terminator};
ghost use Rattle.mx_plans.specs.Files.{after_word, after_piece, line_marks, with_count, after_said, line_read, is_silent, line_said, plans_in, said_of, lines_said, IsRefused};

use crate::mark::{Mark, copies_word, is_terminator, mark_of};
use crate::pieces::first_piece;
use arrayvec::ArrayVec;
use mx_text::split_line;
use std::alloc::Global;
use thiserror::Error;

/// The most items of a plan.
const MOST_ITEMS: usize = 131;

/// What is wrong with a line of a plan file: its first word with one of these.
#[derive(Clone, Copy, Debug, PartialEq, Eq, Error)]
pub enum PlanFault {
    /// The word is not a number of one or two digits up to 63, `-` or `/`, nor `+0`, `+1` or `+2` in a plan file.
    #[error("BadWord")]
    BadWord,
    /// It is the 132nd item of the line's plan.
    #[error("TooLong")]
    TooLong,
    /// It is the second `/` of the line.
    #[error("TwoPlaces")]
    TwoPlaces,
    /// It is the second of `+0`, `+1` and `+2` in the line.
    #[error("TwoCounts")]
    TwoCounts,
    /// The line has words without a fault, and the source has no block for it.
    #[error("NoBlock")]
    NoBlock,
}

/// Why a plan file is refused.
#[derive(Clone, Copy, Debug, PartialEq, Eq, Error)]
pub enum PlanError {
    /// The first faulty line, counted from 1, with its first fault.
    #[error("line {line}: {fault}")]
    Refused { line: u32, fault: PlanFault },
    /// Memory ran out.
    #[error("out of memory")]
    Memory,
}

/// What one line says.
#[derive(Drop)]
pub struct PlanLine {
    /// The items of the plan. Where there are none, the block is left to the list scheduler.
    pub marks: ArrayVec<Mark, 131>,
    /// How many words of the target the slots copy. Where this is not said, as many as can be copied.
    pub copies: Option<u8>,
}

/// Whether one of the words is `/`.
fn has_terminator(marks: &[Mark]) -> bool
    ensures { result ≡ list_any is_terminator marks.now }
{
    marks.iter().any(|mark| is_terminator(*mark))
}

/// Takes what one more word says.
fn add_mark(marks: &mut ArrayVec<Mark, 131>, mark: Mark) -> Result<(), PlanFault>
    ensures taken { OnOk result (after_word marks.old.items (Some mark) ≡ Ok marks.new.items) }
    ensures fault { IfErr result (λ fault. after_word marks.old.items (Some mark) ≡ Err fault) }
{
    if marks.len() >= MOST_ITEMS {
        return Err(PlanFault::TooLong);
    }
    if is_terminator(mark) && has_terminator(marks.as_slice()) {
        return Err(PlanFault::TwoPlaces);
    }
    marks.push(mark);
    Ok(())
}

/// Takes what one more piece says, if it is a word.
fn add_piece(marks: &mut ArrayVec<Mark, 131>, piece: &[u8]) -> Result<(), PlanFault>
    ensures taken { OnOk result (after_piece marks.old.items piece.now ≡ Ok marks.new.items) }
    ensures fault { IfErr result (λ fault. after_piece marks.old.items piece.now ≡ Err fault) }
{
    if piece.is_empty() {
        return Ok(());
    }
    match mark_of(piece) {
        Some(mark) => add_mark(marks, mark),
        None => Err(PlanFault::BadWord),
    }
}

/// The words of a line, or its first fault.
fn line_marks(line: &[u8]) -> Result<ArrayVec<Mark, 131>, PlanFault>
    ensures read { IfOk result (λ marks. line_marks line.now ≡ Ok marks.items) }
    ensures fault { IfErr result (λ fault. line_marks line.now ≡ Err fault) }
{
    let mut marks = ArrayVec::new();
    let mut left = line;
    'pieces: loop {
        let (piece, rest) = first_piece(left);
        add_piece(&mut marks, piece)?;
        let Some(rest) = rest else {
            return Ok(marks);
        };
        left = rest;
    }
}

/// The items of one line without a count, or its first fault.
pub fn read_marks(line: &[u8]) -> Result<PlanLine, PlanFault>
    ensures read { IfOk result (λ l. line_marks line.now ≡ Ok l.marks.items) }
    ensures alone { IfOk result (λ l. l.copies ≡ None) }
    ensures fault { IfErr result (λ fault. line_marks line.now ≡ Err fault) }
{
    let marks = line_marks(line)?;
    Ok(PlanLine {
        marks,
        copies: None,
    })
}

/// Takes a count.
fn add_count(copies: &mut Option<u8>, count: u8) -> Result<(), PlanFault>
    ensures taken { OnOk result (with_count copies.old count ≡ Ok copies.new) }
    ensures fault { IfErr result (λ fault. with_count copies.old count ≡ Err fault) }
{
    if copies.is_some() {
        return Err(PlanFault::TwoCounts);
    }
    *copies = Some(count);
    Ok(())
}

/// Takes what one more piece says, a count or an item.
fn add_said(line: &mut PlanLine, piece: &[u8]) -> Result<(), PlanFault>
    ensures taken { OnOk result (after_said (said_of line.old) piece.now ≡ Ok (said_of line.new)) }
    ensures fault { IfErr result (λ fault. after_said (said_of line.old) piece.now ≡ Err fault) }
{
    match copies_word(piece) {
        Some(count) => add_count(&mut line.copies, count),
        None => add_piece(&mut line.marks, piece),
    }
}

/// What a line says, or its first fault.
fn line_read(line: &[u8]) -> Result<PlanLine, PlanFault>
    ensures read { IfOk result (λ l. line_read line.now ≡ Ok (said_of l)) }
    ensures fault { IfErr result (λ fault. line_read line.now ≡ Err fault) }
{
    let mut said = PlanLine {
        marks: ArrayVec::new(),
        copies: None,
    };
    let mut left = line;
    'pieces: loop {
        let (piece, rest) = first_piece(left);
        add_said(&mut said, piece)?;
        let Some(rest) = rest else {
            return Ok(said);
        };
        left = rest;
    }
}

/// Whether a line has neither items nor a count.
fn is_silent(said: &PlanLine) -> bool
    ensures { result ≡ is_silent said.now.marks.items said.now.copies }
{
    said.marks.is_empty() && said.copies.is_none()
}

/// What a line says, with a block for it or not, or its first fault.
fn line_said(is_there: bool, line: &[u8]) -> Result<PlanLine, PlanFault>
    ensures read { IfOk result (λ l. line_said is_there line.now ≡ Ok (said_of l)) }
    ensures fault { IfErr result (λ fault. line_said is_there line.now ≡ Err fault) }
{
    let said = line_read(line)?;
    if is_there || is_silent(&said) {
        Ok(said)
    } else {
        Err(PlanFault::NoBlock)
    }
}

/// The lines of a plan file for so many blocks, or its first faulty line.
pub fn read_plans(alloc: Global, blocks: usize, text: &[u8]) -> Result<Vec<PlanLine>, PlanError>
    requires { length text.now ≤ MAX_SOURCE_BYTES }
    ensures read { IfOk result (λ lines. plans_in blocks text.now ≡ Ok (lines_said lines.items)) }
    ensures refused { IfErr result (IsRefused (plans_in blocks text.now)) }
{
    let mut lines = Vec::new(alloc);
    let mut left = text;
    'lines: loop {
        let (line, rest) = split_line(left);
        match line_said(lines.len() < blocks, line) {
            Ok(said) => {
                if lines.push(said).is_err() {
                    return Err(PlanError::Memory);
                }
            }
            Err(fault) => {
                let line = lines.len() as u32 + 1;
                return Err(PlanError::Refused { line, fault });
            }
        }
        let Some(rest) = rest else {
            return Ok(lines);
        };
        left = rest;
    }
}
