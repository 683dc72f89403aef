//! What a picture shows.
use lab_draw::Drawing;
use lab_words::PlaceNames;
use mx_code::decode;
use mx_isa::{CODE_BASE, Inst};
use mx_link::{Linked, Origin};
use mx_turn::SHIPPED;

/// The words of the handler, which stand at the addresses from 0 on.
pub static HANDLER: [u32; 23] = SHIPPED;

/// A linked source and cycles of its run.
#[derive(Clone, Copy)]
pub struct Subject<'a> {
    /// The name of the source's file.
    pub file: &'a str,
    /// The text of the source.
    pub text: &'a [u8],
    /// The line of each of its statements.
    pub lines: &'a [u32],
    pub linked: &'a Linked,
    /// The scheduler whose plans it is linked by.
    pub scheduler: &'a str,
    pub names: &'a PlaceNames<'a>,
    /// The first cycle of the drawing.
    pub from: u32,
    /// The cycles of the run at most.
    pub budget: u32,
    pub drawing: &'a Drawing,
}

// The word at a place.
fn word_in(words: &[u32], place: u32) -> Option<u32> {
    match words.get(place as usize) {
        Some(word) => Some(*word),
        None => None,
    }
}

impl Subject<'_> {
    /// The name of the source's file, without its folder.
    pub fn name(&self) -> &str {
        match self.file.rsplit_once('/') {
            Some((_, name)) => name,
            None => self.file,
        }
    }

    /// The word at a code address, of the program or of the handler.
    pub fn word_at(&self, address: u32) -> Option<u32> {
        match address.checked_sub(CODE_BASE) {
            Some(place) => word_in(self.linked.image.code.as_slice(), place),
            None => word_in(&HANDLER, address),
        }
    }

    /// What the word at a code address does, where it is a word of an instruction.
    pub fn inst_at(&self, address: u32) -> Option<Inst> {
        decode(self.word_at(address)?)
    }

    /// Where the word at a code address comes from: a line, with the mark `+` where the word is a copy, or a mark alone, which is `-` for a
    /// no-op that was put in and `h` for the handler. Neither where no word stands there.
    pub fn origin_of(&self, address: Option<u32>) -> (&'static str, Option<u32>) {
        match address {
            Some(address) if self.word_at(address).is_some() => self.origin_at(address),
            _ => ("", None),
        }
    }

    // Where the word at a code address comes from, where one stands there.
    fn origin_at(&self, address: u32) -> (&'static str, Option<u32>) {
        match address.checked_sub(CODE_BASE) {
            Some(place) => self.mark_of(self.code_origin(place)),
            None => ("h", None),
        }
    }

    /// Where the statement of the word at a code address goes, or of which place it makes the address. Of the handler's words nothing is known.
    pub fn aim_at(&self, address: u32) -> Option<u32> {
        match self.code_origin(address.checked_sub(CODE_BASE)?) {
            Origin::Own(statement) | Origin::Copy(statement) => self.names.aim(statement),
            Origin::Pad => None,
        }
    }

    // Where the word at a place of the program's code comes from.
    fn code_origin(&self, place: u32) -> Origin {
        match self.linked.origin.get(place as usize) {
            Some(origin) => *origin,
            None => Origin::Pad,
        }
    }

    // The mark and the line of an origin.
    fn mark_of(&self, origin: Origin) -> (&'static str, Option<u32>) {
        match origin {
            Origin::Own(statement) => ("", Some(self.line_of(statement))),
            Origin::Copy(statement) => ("+", Some(self.line_of(statement))),
            Origin::Pad => ("-", None),
        }
    }

    // The line of a statement; 0 where there is none.
    fn line_of(&self, statement: u32) -> u32 {
        match self.lines.get(statement as usize) {
            Some(line) => *line,
            None => 0,
        }
    }
}
