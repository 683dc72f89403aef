//! A cache that is asked only where it may miss.
ghost use Rattle.std.specs.Prelude.{◌≡◌, [], IfOk, IfSome, IfNone, slice_index, slice_set};
ghost use Rattle.std.specs.List.{All};
ghost use Rattle.lab_cache.specs.Misses.{IsCache};

use crate::cache::Cache;
use lab_terms::Geometry;
use std::alloc::{AllocError, Global};

/// How many lines, from address 0 on, have a row.
const ROWS: usize = 8192;

/// A cache, and for each line that has a row the groups of it that are known to be valid: a visit of these alone changes
/// nothing, so that the cache is not asked.
#[derive(Drop)]
pub struct QuickCache {
    pub cache: Cache,
    pub known: Vec<u64>,
}

// Rows in which nothing is known.
fn rows(alloc: Global, count: usize) -> Result<Vec<u64>, AllocError>
    ensures { IfOk result (λ known. All (λ groups. groups ≡ 0) known.items) }
{
    Ok(vec![in alloc; 0u64; count]?)
}

impl QuickCache {
    ghost use Rattle.lab_cache.specs.Quick.{QuickHolds, Visits};

    /// An empty cache.
    pub fn new(alloc: Global, geometry: Geometry) -> Result<QuickCache, AllocError>
        ensures geometry { IfOk result (λ quick. quick.cache.geometry ≡ geometry) }
        ensures begins { IfOk result (λ quick. IsCache geometry → QuickHolds quick []) }
    {
        Ok(QuickCache {
            cache: Cache::new(alloc, geometry)?,
            known: rows(alloc, ROWS)?,
        })
    }

    // The groups of a line that are known to be valid.
    fn known(&self, line: u32) -> u64
        ensures { result ≡ slice_index self.now.known.items line }
    {
        self.known.get(line as usize).copied().unwrap_or(0)
    }

    // Notes the groups of a line that are valid.
    fn note(&mut self, line: u32, groups: u64)
        ensures cache { self.new.cache ≡ self.old.cache }
        ensures known { self.new.known.items ≡ slice_set self.old.known.items line groups }
    {
        if let Some(known) = self.known.get_mut(line as usize) {
            *known = groups;
        }
    }

    // Nothing is known of a line that went.
    fn forget(&mut self, gone: Option<u32>)
        ensures cache { self.new.cache ≡ self.old.cache }
        ensures gone { IfSome gone (λ l. self.new.known.items ≡ slice_set self.old.known.items l 0) }
        ensures none { IfNone gone (self.new.known.items ≡ self.old.known.items) }
    {
        if let Some(line) = gone {
            self.note(line, 0);
        }
    }

    // Has the cache take a visit, and notes which line went.
    fn ask(&mut self, line: u32, groups: u64)
        ensures { Visits self.old self.new line groups }
    {
        let known = self.known(line);
        let gone = self.cache.fetch(line, groups);
        self.forget(gone);
        self.note(line, known | groups);
    }

    /// Takes a visit of a line, which fetches a word of each of these groups.
    pub fn visit(&mut self, line: u32, groups: u64)
        ensures { Visits self.old self.new line groups }
    {
        if groups & !self.known(line) != 0 {
            self.ask(line, groups);
        }
    }
}
