//! Reading the files that arguments name.
ghost use Rattle.std.specs.Prelude.{◌≡◌, IfOk, IfErr};
ghost use Rattle.lab_failure.specs.Files.{IsReadAs, IsUnread};

use crate::failure::{LabFailure, LabFile, ReadFault};
use lab_options::file_by;
use mx_io::{Shelf, ShelfFault};
use std::alloc::Global;

/// The bytes of the file that an argument names, at most those of its kind.
///
/// # Errors
///
/// The file cannot be read, or has more bytes.
pub fn read_lab_file<'w, S: Shelf>(
    alloc: Global,
    shelf: &mut S,
    kind: LabFile,
    name: &'w str,
) -> Result<Vec<u8>, LabFailure<'w>>
    ensures read { IfOk result (λ bytes. IsReadAs (S.told shelf.old) kind name.entry.now bytes.items (S.counts shelf.old) (S.counts shelf.new)) }
    ensures unread { IfErr result (IsUnread kind name.entry.now (S.counts shelf.old) (S.counts shelf.new)) }
    ensures told_stays { S.told shelf.new ≡ S.told shelf.old }
    ensures writes_stay { S.write_faults shelf.new ≡ S.write_faults shelf.old }
{
    match shelf.read(alloc, file_by(name), kind.limit()) {
        Ok(bytes) => Ok(bytes),
        Err(ShelfFault::Failed) => Err(LabFailure::Unread {
            name,
            kind,
            fault: ReadFault::Failed,
        }),
        Err(ShelfFault::TooLong) => Err(LabFailure::Unread {
            name,
            kind,
            fault: ReadFault::TooLong,
        }),
        Err(ShelfFault::Memory) => Err(LabFailure::Memory),
    }
}
