//! Reading the files of a command.
ghost use Rattle.std.specs.Prelude.{◌≡◌, ◌++◌, codes, List, ℕ, IfOk};
ghost use Rattle.cmd_answer.specs.declared.status.Status.TheVariants.{ReadFault};
ghost use Rattle.cmd_answer.specs.Files.{file_word};
ghost use Rattle.cmd_answer.specs.Answer.{prints, text_line};
ghost use Rattle.mx_io.specs.Shelves.{Told, Counts, IsRead};
ghost use Rattle.cmd_answer.specs.Protocol.{IsGiven, IsFault};
ghost use Rattle.cmd_answer.specs.Replies.{reply_answer, IfAnswered};

use crate::{Failure, FileKind, Reply, Status, line_reply};
use mx_io::{Memory, Shelf, ShelfFault};
use std::alloc::Global;

/// The bytes of a file, or the reply to its fault: `read fault: KIND failed` or `read fault: KIND too long`.
pub fn read_file<S: Shelf>(
    alloc: Global,
    shelf: &mut S,
    kind: FileKind,
    name: &str,
) -> Result<Vec<u8>, Failure>
    ensures read { IsRead (S.counts shelf.old) (S.counts shelf.new) }
    ensures given { IfOk result (λ v. IsGiven (S.told shelf.old) kind name.now v.items
        (S.counts shelf.old) (S.counts shelf.new)) }
    ensures fault { IfAnswered result (IsFault (S.told shelf.old) kind name.now (S.counts shelf.old) (S.counts shelf.new)) }
    ensures told_stays { S.told shelf.new ≡ S.told shelf.old }
    ensures writes_stay { S.write_faults shelf.new ≡ S.write_faults shelf.old }
{
    match shelf.read(alloc, name, kind.limit()) {
        Ok(bytes) => Ok(bytes),
        Err(ShelfFault::Failed) => Err(Failure::Answered(fault_reply(alloc, kind, " failed")?)),
        Err(ShelfFault::TooLong) => {
            Err(Failure::Answered(fault_reply(alloc, kind, " too long")?))
        }
        Err(ShelfFault::Memory) => Err(Failure::Memory),
    }
}

// The reply to a fault.
fn fault_reply(alloc: Global, kind: FileKind, fault: &str) -> Result<Reply, Memory>
    ensures { IfOk result (λ r. reply_answer r ≡ prints ReadFault (text_line (codes "read fault: " ++ file_word kind ++ fault.now))) }
{
    let Ok(word) = kind.word(alloc) else {
        return Err(Memory);
    };
    match format!(in alloc; "read fault: {word}{fault}") {
        Ok(text) => line_reply(alloc, Status::ReadFault, text.as_str()),
        Err(_) => Err(Memory),
    }
}
