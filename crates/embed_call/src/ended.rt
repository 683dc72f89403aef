//! The end of a call.
ghost use Rattle.std.specs.Prelude.{◌≡◌, ◌≢◌, true, false, Err, IfOk, map, string_bytes};
ghost use Rattle.std.specs.Str.{IsUtf8};
ghost use Rattle.std.specs.Str.Lines.{lines};
ghost use Rattle.cmd_table.specs.Asked.{command_of};
ghost use Rattle.embed_call.specs.Held.{held_by};
ghost use Rattle.embed_call.specs.QuietShelf.{held_in};
ghost use Rattle.embed_call.specs.Answered.{Answered, asked_by};

use crate::target::{read_target, target_of};
use crate::words::words_of;
use crate::{Call, QuietShelf, TextSink};
use mx_command::{Status, command};
use mx_io::Memory;
use std::alloc::Global;
use thiserror::Error;

/// How a command ended, all that it put out, and the bytes of the file that it wrote, if it wrote one.
#[derive(Debug, Drop)]
pub struct CallEnd {
    pub status: Status,
    pub output: Vec<u8>,
    pub file: Vec<u8>,
}

/// Why a call has no answer.
#[derive(Clone, Copy, Debug, PartialEq, Eq, Error)]
pub enum CallFault {
    /// The words are not UTF-8.
    #[error("not text")]
    NotText,
    /// Memory ran out.
    #[error("out of memory")]
    Memory,
}

// Whether memory ran out: that status alone has no answer, and every other one is handed on.
fn is_memory(status: Status) -> bool
    ensures memory { result ≡ true → status ≡ Status.Memory }
    ensures answer { result ≡ false → status ≢ Status.Memory }
{
    matches!(status, Status::Memory)
}

/// How the command that words ask for ends over the files of a shelf.
pub fn run_on_shelf(
    alloc: Global,
    words: &[String],
    mut shelf: QuietShelf,
) -> Result<CallEnd, Memory>
    ensures { IfOk result (λ e. Answered (command_of (map string_bytes words.now)) (held_in shelf) e.status e.output.items e.file.items) }
{
    let target = target_of(alloc, words)?;
    let mut out = TextSink::new(alloc);
    let status = command(alloc, words, &mut shelf, &mut out);
    if is_memory(status) {
        return Err(Memory);
    }
    let Some(output) = out.into_bytes() else {
        return Err(Memory);
    };
    let file = read_target(alloc, &mut shelf, status, target)?;
    Ok(CallEnd {
        status,
        output,
        file,
    })
}

// How the command of a call's words ends over its files.
fn run_words(alloc: Global, words: &[String], call: &Call) -> Result<CallEnd, Memory>
    requires { map string_bytes words.now ≡ lines call.now.words.now }
    ensures { IfOk result (λ e. Answered (asked_by call.now) (held_by call.now) e.status e.output.items e.file.items) }
{
    let shelf = QuietShelf::new(alloc, call)?;
    run_on_shelf(alloc, words, shelf)
}

/// How a call ends: as `command` does on a shelf that holds just the files of the call.
pub fn end_of(alloc: Global, call: &Call) -> Result<CallEnd, CallFault>
    ensures answered { IfOk result (λ e. Answered (asked_by call.now) (held_by call.now) e.status e.output.items e.file.items) }
    ensures not_text { ¬ IsUtf8 call.now.words.now → result ≡ Err CallFault.NotText }
    ensures text { IsUtf8 call.now.words.now → result ≢ Err CallFault.NotText }
{
    let Ok(text) = str::from_utf8(call.words) else {
        return Err(CallFault::NotText);
    };
    let Ok(words) = words_of(alloc, text) else {
        return Err(CallFault::Memory);
    };
    match run_words(alloc, words.as_slice(), call) {
        Ok(ended) => Ok(ended),
        Err(Memory) => Err(CallFault::Memory),
    }
}
