//! What a shelf counts and logs.
ghost use Rattle.std.specs.Prelude.{◌≡◌, [], IfOk};
ghost use Rattle.mx_io.specs.Shelves.{no_reads, with_read};

use crate::{ByteLog, ReadLog, ShelfFault, WriteLog};

/// The counts of a shelf, and its logs.
#[derive(Drop)]
pub(crate) struct Tally {
    pub reads: u64,
    pub taken: u64,
    pub read_faults: u64,
    pub write_faults: u64,
    pub log: ReadLog,
    pub wrote: WriteLog,
}

impl Tally {
    ghost use Rattle.mx_io.specs.Tallies.{counts_in};

    /// That of a shelf with no read or write so far.
    pub(crate) fn new() -> Tally
        ensures counts { counts_in result ≡ no_reads }
        ensures log { result.log.reads ≡ [] }
        ensures write_faults { result.write_faults ≡ 0 }
        ensures wrote { result.wrote.files ≡ [] }
    {
        Tally {
            reads: 0,
            taken: 0,
            read_faults: 0,
            write_faults: 0,
            log: ReadLog::new(),
            wrote: WriteLog::new(),
        }
    }

    /// Logs what a read gave back; where it gave bytes, they are those that came.
    pub(crate) fn note_read(
        &mut self,
        name: &str,
        limit: usize,
        came: &ByteLog,
        answer: &Result<Vec<u8>, ShelfFault>,
    )
        requires came { IfOk answer.now (λ v. came.now.bytes ≡ v.items) }
        ensures log { self.new.log.reads ≡ with_read self.old.log.reads name.now limit answer.now }
        ensures rest { self.new ≡ record self.old { log = self.new.log } }
    {
        match answer {
            Ok(_) => self.log.given(name, limit, came),
            Err(fault) => self.log.refused(name, limit, *fault),
        }
    }
}
