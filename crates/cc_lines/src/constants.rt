//! Names of numbers.
ghost use Rattle.std.specs.Prelude.{◌≡◌, OnOk};
ghost use Rattle.indexmap.specs.IndexMap.{IsEmpty, get_by, insert_entry};
ghost use Rattle.cc_lines.specs.Names.{same_name};

use indexmap::IndexMap;
use std::alloc::{AllocError, Global};

/// The names that lines so far gave numbers, each with the last one.
#[derive(Drop)]
pub struct Constants<'a> {
    /// The number of each name.
    pub values: IndexMap<&'a [u8], u32>,
}

impl<'a> Constants<'a> {
    /// No names.
    pub fn new(alloc: Global) -> Constants<'a>
        ensures { IsEmpty result.values }
    {
        Constants {
            values: IndexMap::new(alloc),
        }
    }

    /// Forgets all names.
    pub fn clear(&mut self)
        ensures { IsEmpty self.new.values }
    {
        self.values.clear();
    }

    /// Gives a name a number, in place of the one that it has.
    pub fn set(&mut self, name: &'a [u8], value: u32) -> Result<(), AllocError>
        ensures { OnOk result (self.new.values.entries ≡ insert_entry same_name self.old.values.entries name.entry value) }
    {
        self.values.insert(name, value)?;
        Ok(())
    }

    /// The number of a name, if it has one.
    pub fn value(&self, name: &[u8]) -> Option<u32>
        ensures { result ≡ get_by (same_name name.entry) self.now.values }
    {
        self.values.get(name).copied()
    }
}
