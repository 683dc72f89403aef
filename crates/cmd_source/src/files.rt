//! The file that a command reads first.
ghost use Rattle.std.specs.Prelude.{◌≡◌, ◌≤◌, length, IfOk, List, ℕ};
ghost use Rattle.cmd_answer.specs.Files.{limit_of};
ghost use Rattle.cmd_answer.specs.Answer.{Answer};
ghost use Rattle.mx_io.specs.Shelves.{Counts};
ghost use Rattle.cmd_answer.specs.Protocol.{Protocol, Reads, Performed};
ghost use Rattle.cmd_answer.specs.Readings.{Gives, Refuses};
ghost use Rattle.cmd_answer.specs.Replies.{IfAnswered};
ghost use Rattle.cmd_source.specs.Replied.{IsReplied};

use cmd_answer::{Failure, FileKind, read_file};
use mx_io::Shelf;
use std::alloc::Global;

/// The bytes of a file, or the reply to its fault.
pub fn read_named<S: Shelf>(
    alloc: Global,
    shelf: &mut S,
    kind: FileKind,
    name: &str,
) -> Result<Vec<u8>, Failure>
    ensures within { IfOk result (λ bytes. length bytes.items ≤ limit_of kind) }
    ensures given { IfOk result (λ bytes. Gives (Reads kind name.now) (S.told shelf.old) (S.counts shelf.old) (S.counts shelf.new) bytes.items) }
    ensures refused { IfAnswered result (Refuses (Reads kind name.now) (S.told shelf.old) (S.counts shelf.old) (S.counts shelf.new)) }
    ensures replied { IfAnswered result IsReplied }
    ensures told_stays { S.told shelf.new ≡ S.told shelf.old }
    ensures writes_stay { S.write_faults shelf.new ≡ S.write_faults shelf.old }
{
    let bytes = read_file(alloc, shelf, kind, name)?;
    Ok(bytes)
}
