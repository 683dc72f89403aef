//! Who runs commands.
ghost use Rattle.std.specs.Prelude.{◌≡◌, ℕ, List, false, IfOk, map, string_bytes};
ghost use Rattle.mx_io.specs.MemoryShelf.{held_in, fails_at};
ghost use Rattle.lab_request.specs.declared.command.WorkbenchCommand.{WorkbenchCommand as SomeCommand};
ghost use Rattle.lab_request.specs.Requests.{Held};

use crate::WorkbenchCommand;
use mx_io::{Memory, MemoryShelf};
use std::alloc::Global;

/// How a command ended: its exit status, and what it printed on standard output and on standard error.
#[derive(Drop)]
pub struct CommandEnd {
    pub status: u8,
    pub output: Vec<u8>,
    pub errors: Vec<u8>,
}

/// Runs commands over files in memory.
pub trait Commands {
    /// Of a command, its words and what the names hold: the exit statuses, outputs and errors with which it may end.
    ghost ends: { SomeCommand → List (List ℕ) → Held → ℕ → List ℕ → List ℕ → Type 0 };

    /// How the command of these words ends over these files.
    fn run(
        &self,
        alloc: Global,
        command: WorkbenchCommand,
        words: &[String],
        files: MemoryShelf,
    ) -> Result<CommandEnd, Memory>
        requires { (n : ℕ) → fails_at files n ≡ false }
        ensures { IfOk result (λ e. ends command (map string_bytes words.now) (held_in files) e.status e.output.items e.errors.items) };
}
