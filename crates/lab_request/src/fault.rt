//! What may be wrong with a field.

use crate::Field;

/// What is wrong.
#[derive(Clone, Copy)]
pub enum Fault {
    LeftOut,
    NoString,
    NoName,
    NoCycles,
    NoBytes,
    TooLong,
    NoForm,
    NoScheduler,
    NoNumber { least: u64, most: u64 },
}

/// A field, and what is wrong with it.
#[derive(Clone, Copy)]
pub struct Wrong {
    pub field: Field,
    pub fault: Fault,
}

impl Fault {
    ghost use Rattle.std.specs.Prelude.{◌≡◌};
    ghost use Rattle.lab_request.specs.Answers.{plain_words};

    /// Its words, before the range of a number.
    pub fn words(self) -> &'static str
        ensures { result.now ≡ plain_words self }
    {
        match self {
            Fault::LeftOut => "left out",
            Fault::NoString => "no string",
            Fault::NoName => "no name of the form [A-Za-z0-9_][A-Za-z0-9_.-]{0,63}",
            Fault::NoCycles => "no list of at most 65536 ascending numbers from 0 to 4294967295",
            Fault::NoBytes => "no string, and no list of numbers from 0 to 255",
            Fault::TooLong => "more than 1048576 bytes",
            Fault::NoForm => "none of json, text, svg, html, kanata, vcd",
            Fault::NoScheduler => "none of padded, list, copies, best",
            Fault::NoNumber { .. } => "no number",
        }
    }
}
