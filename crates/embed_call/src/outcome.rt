//! What a call gives back.
ghost use Rattle.std.specs.Prelude.{◌≡◌, ◌⊎◌, List, ℕ, [], length, min};
ghost use Rattle.std.specs.Str.{IsUtf8};
ghost use Rattle.embed_call.specs.Held.{held_by};
ghost use Rattle.embed_call.specs.Answered.{Answered, asked_by};
ghost use Rattle.embed_call.specs.Buffers.{filled};
ghost use Rattle.embed_call.specs.Outcomes.{Returns, number_in, IsOutcome, memory_number, no_text_number};

use crate::{Call, CallEnd, CallFault, end_of};
use std::alloc::Global;

/// The number of a call for which memory ran out.
pub const MEMORY: u32 = 6;

/// The number of a call whose words are not UTF-8.
pub const NOT_TEXT: u32 = 10;

/// The number of a call that was answered, and one of whose buffers is too short for the answer.
pub const TOO_SHORT: u32 = 11;

/// How a call ended.
#[repr(C)]
#[derive(Clone, Copy, Debug, PartialEq, Eq)]
pub struct Outcome {
    /// The number of how it ended: the exit status of the program, or one of those above.
    pub status: u32,
    /// How many bytes of output are in its buffer.
    pub output: usize,
    /// How many there are in all.
    pub output_needed: usize,
    /// How many bytes of the file that was written are in its buffer.
    pub file: usize,
    /// How many there are in all.
    pub file_needed: usize,
}

// Puts a text at the front of a buffer, as much of it as there is room for, and says how much that is.
fn fill(buffer: &mut [u8], text: &[u8]) -> usize
    ensures count { result ≡ min (length text.now) (length buffer.old) }
    ensures after { buffer.new ≡ filled text.now buffer.old }
{
    let count = text.len().min(buffer.len());
    buffer[..count].copy_from_slice(&text[..count]);
    count
}

// The outcome of this number, with these texts in the buffers.
fn give(status: u32, text: &[u8], written: &[u8], output: &mut [u8], file: &mut [u8]) -> Outcome
    ensures { Returns status text.now written.now output.old output.new file.old file.new result }
{
    Outcome {
        status,
        output: fill(output, text),
        output_needed: text.len(),
        file: fill(file, written),
        file_needed: written.len(),
    }
}

// The number of a call that ended so, into buffers of these lengths.
fn number_of(ended: &CallEnd, room: usize, file_room: usize) -> u32
    ensures { result ≡ number_in ended.now.status (length ended.now.output.items) room (length ended.now.file.items) file_room }
{
    if ended.output.len() <= room && ended.file.len() <= file_room {
        u32::from(ended.status.number())
    } else {
        TOO_SHORT
    }
}

/// Answers a call into two buffers: all that the command puts out, and the file that it writes.
pub fn answer_call(alloc: Global, call: &Call, output: &mut [u8], file: &mut [u8]) -> Outcome
    // Words that are not UTF-8 ask for nothing, and nothing comes back but their number.
    ensures not_text { ¬ IsUtf8 call.now.words.now → Returns no_text_number [] [] output.old output.new file.old file.new result }

    // Else memory ran out, and nothing comes back but its number, or the answer of `command` came back.
    ensures answered { IsUtf8 call.now.words.now → Returns memory_number [] [] output.old output.new file.old file.new result
        ⊎ IsOutcome (asked_by call.now) (held_by call.now) output.old output.new file.old file.new result }
{
    match end_of(alloc, call) {
        Ok(ended) => give(
            number_of(&ended, output.len(), file.len()),
            ended.output.as_slice(),
            ended.file.as_slice(),
            output,
            file,
        ),
        Err(CallFault::NotText) => give(NOT_TEXT, &[], &[], output, file),
        Err(CallFault::Memory) => give(MEMORY, &[], &[], output, file),
    }
}
