//! Texts of which the headline speaks: `can_be_run` tells by running whether there is such a run, and its contract that it is one.
use crate::case::Case;
use anyhow::Result;
use mx_command::can_be_run;
use std::alloc::Global;
use test_case_files::{answered, before};

/// The most bytes of a text, and of an interrupt file.
const MOST_TEXT: usize = 4_194_304;

const MOST_REQUESTS: usize = 1_048_576;

/// Whether the headline speaks of the run of a text under the interrupts of a file, for the case `TEXT INTERRUPTS -> yes`.
pub fn accepted(rt: &HostRuntime, line: &str) -> Result<String> {
    let words = before(line, " -> ")?;
    let answer = speaks_of_stored(rt, words)?;
    answered(rt.alloc(), words, answer)
}

fn speaks_of_stored(rt: &HostRuntime, words: &str) -> Result<&'static str> {
    let case = Case::stored(rt, words)?;
    speaks_of(rt.alloc(), case.file(0)?, case.file(1)?)
}

/// Whether the headline speaks of the run of a text under these interrupts.
fn speaks_of(alloc: Global, text: &[u8], interrupts: &[u8]) -> Result<&'static str> {
    if text.len() > MOST_TEXT || interrupts.len() > MOST_REQUESTS {
        return Ok("too long");
    }
    if can_be_run(alloc, text, interrupts)? {
        Ok("yes")
    } else {
        Ok("no")
    }
}
