//! Kinds of cases.
use crate::{sources, texts, traced};
use anyhow::Result;
use test_case_files::Cases;

/// A kind of cases, each a line of one file.
#[derive(Clone, Copy)]
pub enum Kind {
    Runs,
    Parts,
    Traced,
    Sources,
}

impl Kind {
    pub const ALL: [Kind; 4] = [Kind::Runs, Kind::Parts, Kind::Traced, Kind::Sources];
}

impl Cases for Kind {
    fn file(&self) -> &'static str {
        match *self {
            Kind::Runs => "runs.txt",
            Kind::Parts => "parts.txt",
            Kind::Traced => "traced.txt",
            Kind::Sources => "sources.txt",
        }
    }

    fn answered(&self, rt: &HostRuntime, line: &str) -> Result<String> {
        match *self {
            Kind::Runs => texts::whole(rt, line),
            Kind::Parts => texts::parts(rt, line),
            Kind::Traced => traced::traced(rt, line),
            Kind::Sources => sources::told(rt, line),
        }
    }
}
