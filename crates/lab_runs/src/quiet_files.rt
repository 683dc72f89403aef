//! The files of a session, which were read, as a shelf in memory.
ghost use Rattle.std.specs.Prelude.{◌≡◌, ℕ, false, IfOk, Some, codes};
ghost use Rattle.mx_io.specs.MemoryShelf.{fails_at};

use mx_io::{Memory, MemoryShelf, Shelf, ShelfFault};
use std::alloc::Global;

/// The names that the files have there.
pub(crate) const INTERRUPTS: &str = "interrupts";

pub(crate) const INPUT: &str = "input";

/// A shelf in memory, in which no read and no write fails but for want of memory.
#[derive(Drop)]
pub struct QuietFiles {
    files: MemoryShelf,
    ghost never_fails: { (n : ℕ) → fails_at files n ≡ false },
}

impl QuietFiles {
    ghost use Rattle.lab_runs.specs.QuietFiles.{told_of};

    /// A shelf that holds an interrupt file and an input with these bytes.
    pub fn new(alloc: Global, interrupts: &[u8], input: &[u8]) -> Result<QuietFiles, Memory>
        ensures interrupts { IfOk result (λ s. (told_of s).held (codes "interrupts") ≡ Some interrupts.now) }
        ensures input { IfOk result (λ s. (told_of s).held (codes "input") ≡ Some input.now) }
    {
        let mut files = MemoryShelf::new(alloc);
        files.add(INTERRUPTS, interrupts)?;
        files.add(INPUT, input)?;
        Ok(QuietFiles { files })
    }
}

impl Shelf for QuietFiles {
    ghost use Rattle.lab_runs.specs.QuietFiles.{told_of, counts_of};

    ghost told = { told_of };

    ghost counts = { counts_of };

    ghost write_faults = { λ _. 0 };

    fn read(&mut self, alloc: Global, name: &str, limit: usize) -> Result<Vec<u8>, ShelfFault> {
        self.files.read(alloc, name, limit)
    }

    fn write(&mut self, name: &str, bytes: &[u8]) -> Result<(), ShelfFault> {
        self.files.write(name, bytes)
    }
}
