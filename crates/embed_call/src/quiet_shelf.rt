//! The files of a call as a shelf.
ghost use Rattle.std.specs.Prelude.{◌≡◌, List, ℕ, false, IfOk};
ghost use Rattle.mx_io.specs.MemoryShelf.{fails_at};
ghost use Rattle.mx_io.specs.MemoryShelf as memory;
ghost use Rattle.embed_call.specs.Held.{held_by};

use crate::Call;
use mx_io::{Memory, MemoryShelf, Shelf, ShelfFault};
use std::alloc::Global;

/// A shelf in memory, in which no read and no write fails but for want of memory.
#[derive(Drop)]
pub struct QuietShelf {
    files: MemoryShelf,
    ghost never_fails: { (n : ℕ) → fails_at files n ≡ false },
}

impl QuietShelf {
    ghost use Rattle.embed_call.specs.QuietShelf.{held_in};

    /// Files that never fail, as such a shelf.
    pub fn of(files: MemoryShelf) -> QuietShelf
        requires { (n : ℕ) → fails_at files n ≡ false }
        ensures { (n : List ℕ) → held_in result n ≡ memory.held_in files n }
    {
        QuietShelf { files }
    }

    /// A shelf that holds just the files of a call.
    pub fn new(alloc: Global, call: &Call) -> Result<QuietShelf, Memory>
        ensures { IfOk result (λ s. (n : List ℕ) → held_in s n ≡ held_by call.now n) }
    {
        let mut files = MemoryShelf::new(alloc);
        files.add("image", call.image)?;
        files.add("interrupts", call.interrupts)?;
        files.add("input", call.input)?;
        files.add("second", call.second)?;
        files.add("source", call.source)?;
        Ok(QuietShelf { files })
    }
}

impl Shelf for QuietShelf {
    ghost use Rattle.embed_call.specs.QuietShelf.{told_of, counts_of};

    ghost told = { told_of };

    ghost counts = { counts_of };

    ghost write_faults = { λ _. 0 };

    fn read(&mut self, alloc: Global, name: &str, limit: usize) -> Result<Vec<u8>, ShelfFault> {
        self.files.read(alloc, name, limit)
    }

    fn write(&mut self, name: &str, bytes: &[u8]) -> Result<(), ShelfFault> {
        self.files.write(name, bytes)
    }
}
