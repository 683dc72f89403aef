//! Kinds of cases.
use crate::{encoded, faulty_lines, numbers, texts};
use anyhow::Result;
use test_case_files::Cases;

/// A kind of cases, each a line of one file.
#[derive(Clone, Copy)]
pub enum Kind {
    Words,
    Compute,
    Conditions,
    Faults,
    Meanings,
    Statements,
    Generated,
    Encoded,
    Handler,
    FaultyLines,
}

impl Kind {
    pub const ALL: [Kind; 10] = [
        Kind::Words,
        Kind::Compute,
        Kind::Conditions,
        Kind::Faults,
        Kind::Meanings,
        Kind::Statements,
        Kind::Generated,
        Kind::Encoded,
        Kind::Handler,
        Kind::FaultyLines,
    ];
}

impl Cases for Kind {
    fn file(&self) -> &'static str {
        match *self {
            Kind::Words => "words.txt",
            Kind::Compute => "compute.txt",
            Kind::Conditions => "conditions.txt",
            Kind::Faults => "faults.txt",
            Kind::Meanings => "meanings.txt",
            Kind::Statements => "statements.txt",
            Kind::Generated => "generated.txt",
            Kind::Encoded => "encoded.txt",
            Kind::Handler => "handler.txt",
            Kind::FaultyLines => "faulty_lines.txt",
        }
    }

    fn answered(&self, rt: &HostRuntime, line: &str) -> Result<String> {
        let alloc = rt.alloc();
        match *self {
            Kind::Words => numbers::word(alloc, line),
            Kind::Compute => numbers::computed(alloc, line),
            Kind::Conditions => numbers::held(alloc, line),
            Kind::Faults => texts::fault(rt, line),
            Kind::Meanings => texts::meaning(rt, line),
            Kind::Statements => texts::statement(alloc, line),
            Kind::Generated => texts::generated(alloc, line),
            Kind::Encoded => encoded::text(alloc, line),
            Kind::Handler => encoded::handler(alloc, line),
            Kind::FaultyLines => faulty_lines::faulty_lines(alloc, line),
        }
    }
}
