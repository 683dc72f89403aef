//! A cache kept as lists.
ghost use Rattle.std.specs.Prelude.{◌≡◌, ◌<◌, []};
ghost use Rattle.mx_icache.specs.PlainSets.{PlainHolds};

use crate::FetchCache;
use crate::plain_set::PlainSet;

/// A cache of 4 sets, each a list of at most 8 lines with their valid words.
#[derive(Drop)]
pub struct PlainCache {
    sets: [PlainSet; 4],
}

impl PlainCache {
    /// An empty cache.
    pub fn new() -> PlainCache
        ensures { PlainHolds result [] }
    {
        PlainCache {
            sets: [
                PlainSet::new(),
                PlainSet::new(),
                PlainSet::new(),
                PlainSet::new(),
            ],
        }
    }
}

impl FetchCache for PlainCache {
    ghost holds = { PlainHolds };

    fn fetch(&mut self, address: u32) -> bool {
        let set = &mut self.sets[(address / 16 % 4) as usize];
        set.fetch(address)
    }

    fn reach(&self, _address: u32) -> u32 {
        0
    }
}
