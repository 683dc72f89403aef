//! Kinds of cases.
use crate::{accepted, images, puts, repeated, runs, shared};
use anyhow::Result;
use test_case_files::Cases;

/// A kind of cases, each a line of one file.
#[derive(Clone, Copy)]
pub enum Kind {
    Runs,
    Failing,
    Built,
    Joined,
    Images,
    Fronts,
    Long,
    Stops,
    Puts,
    Repeated,
    Listed,
    Shared,
    AtEach,
    Accepted,
}

impl Kind {
    pub const ALL: [Kind; 14] = [
        Kind::Runs,
        Kind::Failing,
        Kind::Built,
        Kind::Joined,
        Kind::Images,
        Kind::Fronts,
        Kind::Long,
        Kind::Stops,
        Kind::Puts,
        Kind::Repeated,
        Kind::Listed,
        Kind::Shared,
        Kind::AtEach,
        Kind::Accepted,
    ];
}

impl Cases for Kind {
    fn file(&self) -> &'static str {
        match *self {
            Kind::Runs => "runs.txt",
            Kind::Failing => "failing.txt",
            Kind::Built => "built.txt",
            Kind::Joined => "joined.txt",
            Kind::Images => "images.txt",
            Kind::Fronts => "fronts.txt",
            Kind::Long => "long.txt",
            Kind::Stops => "stops.txt",
            Kind::Puts => "puts.txt",
            Kind::Repeated => "repeated.txt",
            Kind::Listed => "listed.txt",
            Kind::Shared => "shared.txt",
            Kind::AtEach => "at_each.txt",
            Kind::Accepted => "accepted.txt",
        }
    }

    fn answered(&self, rt: &HostRuntime, line: &str) -> Result<String> {
        let alloc = rt.alloc();
        match *self {
            Kind::Runs => runs::run(rt, line),
            Kind::Failing => runs::failing(rt, line),
            Kind::Built => runs::built(rt, line),
            Kind::Joined => runs::joined(rt, line),
            Kind::Images => images::image(alloc, line),
            Kind::Fronts => images::fronts(rt, line),
            Kind::Long => images::long(alloc, line),
            Kind::Stops => runs::stops(rt, line),
            Kind::Puts => puts::puts(rt, line),
            Kind::Repeated => repeated::repeated(alloc, line),
            Kind::Listed => repeated::listed(alloc, line),
            Kind::Shared => shared::shared(rt, line),
            Kind::AtEach => shared::at_each(rt, line),
            Kind::Accepted => accepted::accepted(rt, line),
        }
    }
}
