//! A cache of any geometry.
ghost use Rattle.std.specs.Prelude.{◌≡◌, ◌<◌, ℕ, List, [], ◌++◌, IfOk};
ghost use Rattle.lab_cache.specs.Misses.{IsCache, set_of};
ghost use Rattle.lab_cache.specs.Visits.{IsVisit, gone};

use crate::set::Set;
use lab_terms::Geometry;
use std::alloc::{AllocError, Global};

/// A cache that holds lines in sets.
#[derive(Drop)]
pub struct Cache {
    pub geometry: Geometry,
    pub sets: Vec<Set>,
    pub misses: u64,
}

impl Cache {
    ghost use Rattle.lab_cache.specs.Sets.{CacheHolds};

    /// An empty cache.
    pub fn new(alloc: Global, geometry: Geometry) -> Result<Cache, AllocError>
        ensures geometry { IfOk result (λ cache. cache.geometry ≡ geometry) }
        ensures begins { IfOk result (λ cache. CacheHolds cache []) }
    {
        let mut sets = Vec::new(alloc);
        for _ in 0..geometry.sets {
            sets.push(Set::new(alloc, geometry.ways)?)?;
        }
        Ok(Cache {
            geometry,
            sets,
            misses: 0,
        })
    }

    // The number of a line's set.
    fn set_of(&self, line: u32) -> usize
        ensures { 0 < self.now.geometry.sets → result ≡ set_of self.now.geometry line }
    {
        line.checked_rem(self.geometry.sets).unwrap_or(0) as usize
    }

    /// Takes a visit of a line, which fetches a word of each of these groups: each group that is not valid is a miss and makes
    /// it so, as none of its line is replaced while a visit lasts. Answers the line that had to go, if one had.
    pub fn fetch(&mut self, line: u32, groups: u64) -> Option<u32>
        ensures geometry { self.new.geometry ≡ self.old.geometry }
        ensures gone { (past : List ℕ) → IsCache self.old.geometry → CacheHolds self.old past → result ≡ gone self.old.geometry past line }
        ensures next { (past visit : List ℕ) → IsCache self.old.geometry → IsVisit self.old.geometry line groups visit → CacheHolds self.old past
            → CacheHolds self.new (visit ++ past) }
    {
        let index = self.set_of(line);
        let Some(set) = self.sets.get_mut(index) else {
            return None;
        };
        let fetched = set.fetch(line, groups);
        self.misses = self.misses.saturating_add(u64::from(fetched.missed));
        fetched.gone
    }
}
