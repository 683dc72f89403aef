//! Who runs the commands of requests: the toolchain and the laboratory.
ghost use Rattle.std.specs.Prelude.{◌≡◌, ℕ, false, IfOk, map, string_bytes};
ghost use Rattle.mx_io.specs.MemoryShelf.{held_in, fails_at};
ghost use Rattle.cmd_answer.specs.Exit.{exit_number};
ghost use Rattle.embed_call.specs.TextSink.{written_in};
ghost use Rattle.mx_serve.specs.Ends.{RunEnds};

use cmd_answer::Status;
use embed_call::{CallEnd, QuietShelf, TextSink, run_on_shelf};
use lab_command::{ExitReport, Unknown, lab};
use lab_request::{CommandEnd, Commands, WorkbenchCommand};
use lab_watch::Unwatched;
use mx_io::{Memory, MemoryShelf};
use std::alloc::Global;

/// The toolchain runs `run`, the laboratory all other commands.
#[derive(Clone, Copy)]
pub struct Programs;

// How a command of the toolchain ends.
fn toolchain_ends(alloc: Global, words: &[String], files: MemoryShelf) -> Result<CommandEnd, Memory>
    requires { (n : ℕ) → fails_at files n ≡ false }
    ensures { IfOk result (λ e. RunEnds (map string_bytes words.now) (held_in files) e.status e.output.items e.errors.items) }
{
    let CallEnd { status, output, .. } = run_on_shelf(alloc, words, QuietShelf::of(files))?;
    Ok(CommandEnd {
        status: status.number(),
        output,
        errors: Vec::new(alloc),
    })
}

// A command of the laboratory that ended so, with all that it put out. Want of memory is none of its answers.
fn handed_on(ended: ExitReport, out: TextSink) -> Result<CommandEnd, Memory>
    ensures { IfOk result (λ e. (e.status ≡ exit_number ended.status) × (e.output.items ≡ written_in out) × (e.errors ≡ ended.errors)) }
{
    if ended.status == Status::Memory {
        return Err(Memory);
    }
    match out.into_bytes() {
        Some(output) => Ok(CommandEnd {
            status: ended.status.number(),
            output,
            errors: ended.errors,
        }),
        None => Err(Memory),
    }
}

// How a command of the laboratory ends.
fn laboratory_ends(
    alloc: Global,
    words: &[String],
    mut files: MemoryShelf,
) -> Result<CommandEnd, Memory> {
    let mut out = TextSink::new(alloc);
    let ended = lab(alloc, words, &mut files, &mut out, Unwatched, Unknown);
    handed_on(ended, out)
}

impl Commands for Programs {
    ghost use Rattle.mx_serve.specs.Ends.{ends_in};

    ghost ends = { ends_in };

    fn run(
        &self,
        alloc: Global,
        command: WorkbenchCommand,
        words: &[String],
        files: MemoryShelf,
    ) -> Result<CommandEnd, Memory> {
        match command {
            WorkbenchCommand::Run => toolchain_ends(alloc, words, files),
            WorkbenchCommand::Check
            | WorkbenchCommand::Explain
            | WorkbenchCommand::Draw
            | WorkbenchCommand::Profile
            | WorkbenchCommand::Compare
            | WorkbenchCommand::Disassemble
            | WorkbenchCommand::Blocks
            | WorkbenchCommand::Planned
            | WorkbenchCommand::Caches
            | WorkbenchCommand::Sweep => laboratory_ends(alloc, words, files),
        }
    }
}
