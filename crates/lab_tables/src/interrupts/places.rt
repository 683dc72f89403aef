//! The source lines of the words of a code.
use mx_isa::CODE_BASE;
use mx_link::Origin;
use std::alloc::{AllocError, Global};

/// For each word of a code the line of the statement that it belongs to, counted from 1; 0 where there is none.
#[derive(Drop)]
pub struct Places {
    lines: Vec<u32>,
}

impl Places {
    /// The line of the word at an address; 0 where no statement's word stands there.
    pub fn line_at(&self, address: u32) -> u32 {
        match address.checked_sub(CODE_BASE) {
            Some(place) => self.lines.get(place as usize).copied().unwrap_or(0),
            None => 0,
        }
    }
}

// The line of a statement; 0 where there is none.
fn line_of(lines: &[u32], statement: u32) -> u32 {
    lines.get(statement as usize).copied().unwrap_or(0)
}

/// The places of a code, by where its words come from and the line of each statement. A copy belongs to the statement that is
/// copied, a no-op that was put in to the last statement whose own word stands before it.
pub fn places_of(alloc: Global, lines: &[u32], origin: &[Origin]) -> Result<Places, AllocError> {
    let mut places = Vec::new(alloc);
    let mut before = 0;
    for from in origin {
        let line = match from {
            Origin::Own(statement) => {
                before = line_of(lines, *statement);
                before
            }
            Origin::Copy(statement) => line_of(lines, *statement),
            Origin::Pad => before,
        };
        places.push(line)?;
    }
    Ok(Places { lines: places })
}
