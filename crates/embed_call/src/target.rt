//! The file that a command writes.
ghost use Rattle.std.specs.Prelude.{◌≡◌, IfOk, map, option_map, string_bytes};
ghost use Rattle.cmd_table.specs.Asked.{command_of};
ghost use Rattle.embed_call.specs.QuietShelf.{held_in};
ghost use Rattle.embed_call.specs.Targets.{target_in, bytes_at, target_bytes};

use crate::QuietShelf;
use cmd_answer::Status;
use cmd_table::{Command, read_command};
use mx_io::{Memory, Shelf, ShelfFault};
use std::alloc::Global;

/// The name that the words' command writes, if it writes a file.
pub fn target_of<'a>(alloc: Global, words: &'a [String]) -> Result<Option<&'a str>, Memory>
    ensures { IfOk result (λ t. option_map (λ name. name.now) t ≡ target_in (command_of (map string_bytes words.entry.now))) }
{
    match read_command(alloc, words)? {
        Some(Command::Build { target, .. }) => Ok(Some(target)),
        Some(Command::Migrate { target, .. }) => Ok(Some(target)),
        _ => Ok(None),
    }
}

// What a name holds; nothing where it is not there.
fn read_back(alloc: Global, shelf: &mut QuietShelf, name: &str) -> Result<Vec<u8>, Memory>
    ensures { IfOk result (λ v. v.items ≡ bytes_at (held_in shelf.old) name.now) }
{
    match shelf.read(alloc, name, usize::MAX) {
        Ok(bytes) => Ok(bytes),
        Err(ShelfFault::Failed) => Ok(Vec::new(alloc)),
        Err(_) => Err(Memory),
    }
}

/// The bytes that a command which ended with this status left under its target.
pub fn read_target(
    alloc: Global,
    shelf: &mut QuietShelf,
    status: Status,
    target: Option<&str>,
) -> Result<Vec<u8>, Memory>
    ensures { IfOk result (λ v. v.items ≡ target_bytes (held_in shelf.old) (option_map (λ name. name.now) target.entry) status) }
{
    match (status, target) {
        (Status::Done, Some(name)) => read_back(alloc, shelf, name),
        _ => Ok(Vec::new(alloc)),
    }
}
