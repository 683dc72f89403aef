//! Kinds of cases.
use crate::case;
use anyhow::Result;
use test_case_files::Cases;

/// A kind of cases, each a line of one file.
#[derive(Clone, Copy)]
pub enum Kind {
    Runs,
    Refusals,
}

impl Kind {
    pub const ALL: [Kind; 2] = [Kind::Runs, Kind::Refusals];
}

impl Cases for Kind {
    fn file(&self) -> &'static str {
        match *self {
            Kind::Runs => "runs.txt",
            Kind::Refusals => "refusals.txt",
        }
    }

    fn answered(&self, rt: &HostRuntime, line: &str) -> Result<String> {
        match *self {
            Kind::Runs => case::run(rt, line),
            Kind::Refusals => case::refusal(rt, line),
        }
    }
}
