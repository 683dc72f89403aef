//! Caches side by side whose lines have as many words, of which a miss brings as many.
ghost use Rattle.std.specs.Prelude.{◌≡◌, ◌<◌, ◌≤◌, ◌/◌, ◌^◌, ◌-◌, ◌∷◌, ◌++◌, ℕ, List, [], Some, IfOk, IfSome, slice_get, slice_index};
ghost use Rattle.lab_terms.specs.declared.geometry.Geometry.{Geometry};
ghost use Rattle.lab_cache.specs.Alike.{AreAlike, AreBits, AreHeld, AllVisits, IsGoing, CachesHold};

use crate::quick::QuickCache;
use lab_terms::Geometry;
use std::alloc::{AllocError, Global};

/// Consecutive fetches from one line: its number, its first address, and a bit for each group of its words that was fetched.
#[derive(Clone, Copy)]
pub struct Visit {
    pub line: u32,
    pub first: u32,
    pub groups: u64,
}

/// Before the first fetch.
const NOWHERE: Visit = Visit {
    line: 0,
    first: 0,
    groups: 0,
};

/// Caches, and the visit of a line that goes on. No line is replaced while a visit lasts, so a group misses at most once in it,
/// whatever the order of the fetches and however often each is done: each cache is asked once a visit.
#[derive(Drop)]
pub struct Caches {
    pub line: u32,
    /// For each word of a line the bit of its group.
    pub bits: Vec<u64>,
    pub caches: Vec<QuickCache>,
    pub visit: Visit,
}

// The bit of a word's group.
fn bit_for(word: u32, brings: u32) -> u64
    ensures { word < 64 → 0 < brings → result ≡ 2 ^ (word / brings) }
{
    let group = word.checked_div(brings).unwrap_or(0);
    1u64.checked_shl(group).unwrap_or(0)
}

// For each word of a line the bit of its group.
fn bits_of(alloc: Global, line: u32, brings: u32) -> Result<Vec<u64>, AllocError>
    ensures { IfOk result (λ bits. line ≤ 64 → 0 < brings → AreBits line brings bits.items) }
{
    let mut bits = Vec::new(alloc);
    for word in 0..line {
        bits.push(bit_for(word, brings))?;
    }
    Ok(bits)
}

// Empty caches.
fn caches_of(alloc: Global, geometries: &[Geometry]) -> Result<Vec<QuickCache>, AllocError>
    ensures { IfOk result (λ caches. (line brings : ℕ) → AreAlike line brings geometries.now → AreHeld geometries.now caches.items []) }
{
    let mut caches = Vec::new(alloc);
    for geometry in geometries {
        caches.push(QuickCache::new(alloc, *geometry)?)?;
    }
    Ok(caches)
}

// Has each cache take a visit.
fn visit_all(caches: &mut Vec<QuickCache>, line: u32, groups: u64)
    ensures { AllVisits caches.old.items caches.new.items line groups }
{
    for cache in caches.iter_mut() {
        cache.visit(line, groups);
    }
}

impl Caches {
    /// Empty caches of geometries that have these lines.
    pub fn new(
        alloc: Global,
        line: u32,
        brings: u32,
        geometries: &[Geometry],
    ) -> Result<Caches, AllocError>
        ensures { IfOk result (λ caches. AreAlike line brings geometries.now → CachesHold caches geometries.now []) }
    {
        Ok(Caches {
            line,
            bits: bits_of(alloc, line, brings)?,
            caches: caches_of(alloc, geometries)?,
            visit: NOWHERE,
        })
    }

    /// Ends the last visit.
    pub fn end(&mut self)
        ensures { (gs : List Geometry) (past : List ℕ) → CachesHold self.old gs past → AreHeld gs self.new.caches.items past }
    {
        self.leave();
    }

    // The bit of an address in the line that is visited.
    fn bit_of(&self, address: u32) -> Option<u64>
        ensures within { IfSome result (λ bit. self.now.visit.first ≤ address) }
        ensures bit { IfSome result (λ bit. slice_get self.now.bits.items (address - self.now.visit.first) ≡ Some bit) }
    {
        let word = address.checked_sub(self.visit.first)?;
        self.bits.get(word as usize).copied()
    }

    // The bit of a word of a line.
    fn bit_at(&self, word: u32) -> u64
        ensures { result ≡ slice_index self.now.bits.items word }
    {
        self.bits.get(word as usize).copied().unwrap_or(0)
    }

    // The line of an address.
    fn line_of(&self, address: u32) -> u32
        ensures { 0 < self.now.line → result ≡ address / self.now.line }
    {
        address.checked_div(self.line).unwrap_or(0)
    }

    // Ends the visit.
    fn leave(&mut self)
        ensures { (gs : List Geometry) (brings : ℕ) (before visit : List ℕ) → IsGoing self.old gs brings before visit
            → IsGoing self.new gs brings (visit ++ before) [] }
    {
        let Visit { line, groups, .. } = self.visit;
        if groups != 0 {
            visit_all(&mut self.caches, line, groups);
            self.visit = NOWHERE;
        }
    }

    // Begins a visit with the fetch of an address.
    fn enter(&mut self, address: u32)
        ensures { (gs : List Geometry) (brings : ℕ) (before : List ℕ) → IsGoing self.old gs brings before []
            → IsGoing self.new gs brings before (address ∷ []) }
    {
        let line = self.line_of(address);
        let first = line.saturating_mul(self.line);
        let groups = self.bit_at(address.saturating_sub(first));
        self.visit = Visit {
            line,
            first,
            groups,
        };
    }

    /// Fetches the word at an address.
    pub fn fetch(&mut self, address: u32)
        ensures { (gs : List Geometry) (past : List ℕ) → CachesHold self.old gs past → CachesHold self.new gs (address ∷ past) }
    {
        match self.bit_of(address) {
            Some(bit) => self.visit.groups |= bit,
            None => {
                self.leave();
                self.enter(address);
            }
        }
    }
}
