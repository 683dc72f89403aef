//! `command` for other languages: one function under the calling convention of C, which include/zanderanvil.h declares.
#![tactic(auto)]

ghost use Rattle.std.specs.Prelude.{◌⊎◌, []};
ghost use Rattle.std.specs.Str.{IsUtf8};
ghost use Rattle.embed_call.specs.Held.{held_by};
ghost use Rattle.embed_call.specs.Answered.{asked_by};
ghost use Rattle.embed_call.specs.Outcomes.{Returns, IsOutcome, memory_number, no_text_number};

use embed_call::{Call, Outcome, answer_call};
use std::alloc::Global;

/// Answers a call into two buffers: all that the command puts out, and the file that it writes. C passes nothing for
/// `alloc`, and a pointer and a length for each buffer.
#[unsafe(no_mangle)]
pub extern "C" fn zanderanvil_command(
    alloc: Global,
    call: &Call,
    output: &mut [u8],
    file: &mut [u8],
) -> Outcome
    // Words that are not UTF-8 ask for nothing, and nothing comes back but their number.
    ensures not_text { ¬ IsUtf8 call.now.words.now → Returns no_text_number [] [] output.old output.new file.old file.new result }

    // Else memory ran out, and nothing comes back but its number, or the answer of `command` came back.
    ensures answered { IsUtf8 call.now.words.now → Returns memory_number [] [] output.old output.new file.old file.new result
        ⊎ IsOutcome (asked_by call.now) (held_by call.now) output.old output.new file.old file.new result }
{
    answer_call(alloc, call, output, file)
}
