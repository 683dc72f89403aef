//! The assembler.
ghost use Rattle.std.specs.Prelude.{◌≡◌, ◌≤◌, [], length, IfOk, IfErr, OnOk};
ghost use Rattle.mx_asm.specs.Terms.{MAX_SOURCE_BYTES, DATA_BASE, DATA_END, MAX_STATEMENTS, lines_of, texts, named_labels, AreApart, IsSource, plain_source};
ghost use Rattle.mx_asm.specs.Faults.{first_fault, first_repeat};
ghost use Rattle.mx_asm.specs.Faults;
ghost use Rattle.mx_asm.specs.Listings;
ghost use Rattle.mx_asm.specs.Listings.{IsListingOf, IsRefusal};
ghost use Rattle.mx_asm.specs.Printable.{ReadsPrinted};
ghost use Rattle.mx_asm.specs.Texts.{ReadsAs, text_fault};

use crate::definitions::{Definitions, define_text};
use crate::line::read_line;
use crate::listing::{Listing, add};
use crate::position::Position;
use indexmap::IndexMap;
use mx_isa::{DATA_BASE, DATA_END};
use mx_lines::{AsmError, Labels, LineError, Word, split_line};
use mx_source::{Label, Name, Source};
use std::alloc::Global;

/// What the lines so far do, and the number and the place of the next one.
#[derive(Drop)]
pub(crate) struct Reading {
    pub(crate) listing: Listing,
    pub(crate) position: Position,
    pub(crate) number: u32,
}

impl Reading {
    ghost use Rattle.mx_asm.specs.Readings.{Reads, Refuses};

    /// Adds what the next line does.
    ///
    /// `words` are those of a line before, and of this one from then on.
    fn read<'a>(
        &mut self,
        alloc: Global,
        words: &mut Vec<Word<'a>>,
        labels: &Labels,
        end: u32,
        repeated: Option<u32>,
        line: &'a [u8],
    ) -> Result<(), AsmError>
        requires room { self.old.position.index ≤ MAX_STATEMENTS }
        requires near { self.old.position.address ≤ DATA_END }
        requires number { self.old.number ≤ MAX_SOURCE_BYTES }
        ensures reads { OnOk result (Reads labels.now end repeated line.entry.now self.old self.new) }
        ensures refused { IfErr result (Refuses labels.now end repeated line.entry.now self.old) }
    {
        let again = is_line(repeated, self.number);
        let read = match read_line(alloc, words, labels, end, &self.position, again, line) {
            Ok(read) => read,
            Err(error) => return Err(refusal(self.number, error)),
        };
        self.position = read.next;
        add(&mut self.listing, self.number, read.effect)?;
        self.number += 1;
        Ok(())
    }
}

/// What all lines do from a position on, or the first faulty line.
///
/// A name stands for what it names among `labels`.
pub fn read_lines(
    alloc: Global,
    labels: &Labels,
    repeated: Option<u32>,
    lines: &[&[u8]],
    from: Position,
    end: u32,
) -> Result<Listing, AsmError>
    requires few { length lines.now ≤ MAX_SOURCE_BYTES }
    requires room { from.index ≤ MAX_STATEMENTS }
    requires order { from.address ≤ end }
    requires within { end ≤ DATA_END }
    requires repeated { first_repeat from [] 1 (texts lines.now) ≡ repeated }
    ensures read { IfOk result (IsListingOf labels.now end from (texts lines.now)) }
    ensures refused { IfErr result (IsRefusal (first_fault labels.now end from [] 1 (texts lines.now))) }
{
    let mut reading = Reading {
        listing: Listing::new(alloc),
        position: from,
        number: 1,
    };
    let mut words = Vec::new(alloc);
    for line in lines {
        reading.read(alloc, &mut words, labels, end, repeated, line)?;
    }
    let Reading { listing, .. } = reading;
    Ok(listing)
}

/// What the lines of a text do from a position on, or the first faulty one.
fn read_text(
    alloc: Global,
    labels: &Labels,
    repeated: Option<u32>,
    text: &[u8],
    from: Position,
    end: u32,
) -> Result<Listing, AsmError>
    requires short { length text.now ≤ MAX_SOURCE_BYTES }
    requires room { from.index ≤ MAX_STATEMENTS }
    requires order { from.address ≤ end }
    requires within { end ≤ DATA_END }
    requires repeated { first_repeat from [] 1 (lines_of text.now) ≡ repeated }
    ensures read { IfOk result (IsListingOf labels.now end from (lines_of text.now)) }
    ensures refused { IfErr result (IsRefusal (first_fault labels.now end from [] 1 (lines_of text.now))) }
{
    let mut reading = Reading {
        listing: Listing::new(alloc),
        position: from,
        number: 1,
    };
    let mut words = Vec::new(alloc);
    let mut rest = text;
    while !rest.is_empty() {
        let (line, behind) = split_line(rest);
        reading.read(alloc, &mut words, labels, end, repeated, line)?;
        rest = behind;
    }
    let Reading { listing, .. } = reading;
    Ok(listing)
}

/// The refusal of a text by the fault of this line.
fn refusal(line: u32, error: LineError) -> AsmError
    ensures { result ≡ Listings.refusal line error }
{
    match error {
        LineError::Fault(fault) => AsmError::Refused { line, fault },
        LineError::Memory => AsmError::Memory,
    }
}

/// The line that was found is this one.
fn is_line(found: Option<u32>, number: u32) -> bool
    ensures { result ≡ Faults.is_line found number }
{
    match found {
        Some(line) => line == number,
        None => false,
    }
}

/// The source that a text reads as, its data from address 256 to 65535.
///
/// # Errors
///
/// `Refused` with the first faulty line and its least fault, exactly where some line has a fault.
/// `Memory` where there is no room for the source. The canonical text of a printable source is not
/// refused.
pub fn assemble(alloc: Global, text: &[u8]) -> Result<Source, AsmError>
    requires { length text.now ≤ MAX_SOURCE_BYTES }
    ensures source { IfOk result (ReadsAs DATA_BASE DATA_END text.now) }
    ensures refused { IfErr result (IsRefusal (text_fault DATA_BASE DATA_END text.now)) }
    ensures printed { ReadsPrinted text.now result }
{
    assemble_at(alloc, text, DATA_BASE, DATA_END)
}

/// The source that a text reads as, its data words and data labels from one address to before another.
///
/// # Errors
///
/// Those of `assemble`.
pub fn assemble_at(alloc: Global, text: &[u8], user_data: u32, end: u32) -> Result<Source, AsmError>
    requires low { DATA_BASE ≤ user_data }
    requires order { user_data ≤ end }
    requires within { end ≤ DATA_END }
    requires short { length text.now ≤ MAX_SOURCE_BYTES }
    ensures source { IfOk result (ReadsAs user_data end text.now) }
    ensures refused { IfErr result (IsRefusal (text_fault user_data end text.now)) }
{
    let start = Position::start(user_data);
    let Definitions {
        labels,
        repeated,
        last: _,
    } = define_text(alloc, text, start)?;
    match read_text(alloc, &labels, repeated, text, start, end) {
        Ok(listing) => Ok(listed_source(listing, labels.into_table())),
        Err(error) => Err(error),
    }
}

/// The source of a listing and its labels.
pub fn listed_source(listing: Listing, labels: IndexMap<Name, Label>) -> Source
    requires { AreApart (named_labels labels.entries)
        → IsSource (plain_source listing.statements.items listing.lines.items listing.user_data.items (named_labels labels.entries)) }
    ensures { result ≡ record {
      statements = listing.statements.items;
      lines = listing.lines.items;
      user_data = listing.user_data.items;
      labels = named_labels labels.entries;
      input = listing.input;
    } }
{
    let Listing {
        statements,
        lines,
        user_data,
        input,
    } = listing;
    let source = Source::make(statements, lines, user_data, labels);
    match input {
        Some(line) => source.with_input(line),
        None => source,
    }
}
