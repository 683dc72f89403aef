//! A cache kept as tags, masks and counters.
ghost use Rattle.std.specs.Prelude.{◌≡◌, ◌<◌, [], None};
ghost use Rattle.mx_icache.specs.LineSets.{CacheHolds};

use crate::{FetchCache, Set};

/// A cache of 4 sets; the line of an address is in set line modulo 4.
#[derive(Clone, Copy, Debug)]
pub struct LineCache {
    pub sets: [Set; 4],
}

impl LineCache {
    /// An empty cache.
    pub fn new() -> LineCache
        ensures { CacheHolds result [] }
    {
        LineCache {
            sets: [Set::empty(); 4],
        }
    }
}

impl FetchCache for LineCache {
    ghost holds = { CacheHolds };

    // Once a turn: a call costs a tenth of it.
    #[inline(always)]
    fn fetch(&mut self, address: u32) -> bool {
        let set = &mut self.sets[(address / 16 % 4) as usize];
        set.fetch(address)
    }

    fn reach(&self, address: u32) -> u32 {
        let set = &self.sets[(address / 16 % 4) as usize];
        set.reach(address)
    }
}
