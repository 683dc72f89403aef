//! Where a line stands.
ghost use Rattle.std.specs.Prelude.{◌≡◌, ◌+◌, ◌-◌, ◌^◌, ◌≤◌, ◌<◌, map};
ghost use Rattle.mx_asm.specs.Directives.{directive_named};
ghost use Rattle.mx_asm.specs.Positions;
ghost use Rattle.mx_asm.specs.Terms.{PAST_END, IsNear, word};

use crate::directive::{Directive, directive_named, is_dotted, space_count};
use mx_lines::{PAST_END, Word};
use mx_source::Label;

/// A section of the source.
#[derive(Clone, Copy)]
pub enum Section {
    Code,
    Data,
}

/// Where a line stands: its section, the index of the next instruction, and the address of the next data word.
#[derive(Clone, Copy)]
pub struct Position {
    pub section: Section,
    pub index: u32,
    pub address: u32,
}

impl Position {
    /// Where a text begins, its data at this address.
    pub fn start(address: u32) -> Position
        ensures { result ≡ Positions.start address }
    {
        Position {
            section: Section::Code,
            index: 0,
            address,
        }
    }

    /// What a label that stands here names.
    pub fn label(&self) -> Label
        ensures label { result ≡ Positions.label_here self.now }
        ensures near { self.now.address ≤ PAST_END → IsNear result }
    {
        match self.section {
            Section::Code => Label::Code(self.index),
            Section::Data => Label::Data(self.address),
        }
    }

    /// Where the line behind this one stands.
    #[tactic(auto, unfolding(crate::specs::Positions::behind))]
    pub fn after(&self, statement: &[Word]) -> Position
        requires room { self.now.index < 2 ^ 32 - 1 }
        requires near { self.now.address ≤ PAST_END }
        ensures position { result ≡ Positions.behind self.now (map word statement.now) }
        ensures index { result.index ≤ self.now.index + 1 }
        ensures near { result.address ≤ PAST_END }
    {
        let words = u64::from(self.address) + word_count(statement);
        Position {
            section: section_after(self.section, statement),
            index: self.index + instruction_count(statement),
            address: words.min(u64::from(PAST_END)) as u32,
        }
    }
}

/// The section behind a statement.
fn section_after(section: Section, statement: &[Word]) -> Section
    ensures { result ≡ Positions.section_after section (map word statement.now) }
{
    match statement {
        [Word::Name(name)] => match directive_named(name) {
            Some(Directive::Code) => Section::Code,
            Some(Directive::Data) => Section::Data,
            _ => section,
        },
        _ => section,
    }
}

/// How many instructions a statement is.
fn instruction_count(statement: &[Word]) -> u32
    ensures count { result ≡ Positions.instruction_count (map word statement.now) }
    ensures few { result ≤ 1 }
{
    match statement {
        [Word::Name(name), ..] => { if is_dotted(name) { 0 } else { 1 } }
        _ => 0,
    }
}

/// How many data words a statement asks for.
fn word_count(statement: &[Word]) -> u64
    ensures count { result ≡ Positions.word_count (map word statement.now) }
    ensures few { result < 2 ^ 63 }
{
    match statement {
        [Word::Name(name), operands @ ..] => {
            if is_dotted(name) {
                asked(name, operands)
            } else {
                0
            }
        }
        _ => 0,
    }
}

/// How many data words a directive asks for.
fn asked(name: &[u8], operands: &[Word]) -> u64
    ensures count { result ≡ Positions.asked (directive_named name.now) (map word operands.now) }
    ensures few { result < 2 ^ 63 }
{
    match directive_named(name) {
        Some(Directive::Word) => (operands.len() as u64 + 1) / 2,
        Some(Directive::Space) => match space_count(operands) {
            Ok(count) => u64::from(count),
            Err(_) => 0,
        },
        _ => 0,
    }
}
