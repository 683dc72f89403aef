//! The kinds of cases.
use crate::{apart, drawn, pieces, sides, traced};
use anyhow::Result;
use test_case_files::Cases;

/// A kind of cases.
#[derive(Clone, Copy)]
pub enum Kind {
    Worked,
    Drawn,
    Pieces,
    Fields,
    Traces,
}

impl Kind {
    /// Every kind.
    pub const ALL: [Kind; 5] = [
        Kind::Worked,
        Kind::Drawn,
        Kind::Pieces,
        Kind::Fields,
        Kind::Traces,
    ];
}

impl Cases for Kind {
    fn file(&self) -> &'static str {
        match self {
            Kind::Worked => "worked.txt",
            Kind::Drawn => "drawn.txt",
            Kind::Pieces => "pieces.txt",
            Kind::Fields => "fields.txt",
            Kind::Traces => "traces.txt",
        }
    }

    fn answered(&self, rt: &HostRuntime, line: &str) -> Result<String> {
        match self {
            Kind::Worked => sides::worked(rt.alloc(), line),
            Kind::Drawn => drawn::alike(rt.alloc(), line),
            Kind::Pieces => pieces::alike(rt.alloc(), line),
            Kind::Fields => apart::fields(rt.alloc(), line),
            Kind::Traces => traced::traced(rt, line),
        }
    }
}
