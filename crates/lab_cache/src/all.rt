//! Caches of any geometries.
ghost use Rattle.std.specs.Prelude.{◌≡◌, ◌<◌, ◌≤◌, ◌∷◌, ◌++◌, ℕ, List, [], Some, IfOk, OnOk, length, map, slice_get};
ghost use Rattle.std.specs.List.{flat_map};
ghost use Rattle.lab_terms.specs.declared.geometry.Geometry.{Geometry};
ghost use Rattle.lab_cache.specs.declared.alike.Caches.{Caches};
ghost use Rattle.lab_cache.specs.All.{AreCaches, counted, AllHold, noted, noted_in, Fetches, Ends, Each};

use crate::alike::Caches;
use crate::quick::QuickCache;
use lab_terms::Geometry;
use std::alloc::{AllocError, Global};

/// What a cache has counted.
#[derive(Clone, Copy)]
pub struct Counted {
    pub geometry: Geometry,
    pub misses: u64,
}

/// Caches, those with the same lines side by side.
#[derive(Drop)]
pub struct AllCaches {
    pub groups: Vec<Caches>,
}

// How many geometries from the first on have these lines.
fn alike_count(rest: &[Geometry], line: u32, brings: u32) -> usize
    ensures within { result ≤ length rest.now }
    ensures lines { (k : ℕ) (g : Geometry) → k < result → slice_get rest.now k ≡ Some g → g.line ≡ line }
    ensures groups { (k : ℕ) (g : Geometry) → k < result → slice_get rest.now k ≡ Some g → g.brings ≡ brings }
{
    for (count, geometry) in rest.iter().enumerate() {
        if geometry.line != line || geometry.brings != brings {
            return count;
        }
    }
    rest.len()
}

// Adds empty caches, those with the same lines side by side.
fn push_all(alloc: Global, all: &mut Vec<Caches>, geometries: &[Geometry]) -> Result<(), AllocError>
    ensures { OnOk result (AreCaches geometries.now → all.old.items ≡ [] → AllHold all.new.items geometries.now []) }
{
    let mut rest = geometries;
    while let Some((first, others)) = rest.split_first() {
        let count = alike_count(others, first.line, first.brings);
        let (alike, later) = rest.split_at(count + 1);
        all.push(Caches::new(alloc, first.line, first.brings, alike)?)?;
        rest = later;
    }
    Ok(())
}

// Adds what caches have counted.
fn push_counted(rows: &mut Vec<Counted>, caches: &[QuickCache]) -> Result<(), AllocError>
    ensures { OnOk result (rows.new.items ≡ rows.old.items ++ map noted caches.now) }
{
    for quick in caches {
        rows.push(Counted {
            geometry: quick.cache.geometry,
            misses: quick.cache.misses,
        })?;
    }
    Ok(())
}

// What the caches of these groups have counted.
fn counted_of(alloc: Global, groups: &[Caches]) -> Result<Vec<Counted>, AllocError>
    ensures { IfOk result (λ rows. rows.items ≡ flat_map noted_in groups.now) }
{
    let mut rows = Vec::new(alloc);
    for caches in groups {
        push_counted(&mut rows, caches.caches.as_slice())?;
    }
    Ok(rows)
}

// Has each cache fetch the word at an address.
fn fetch_all(groups: &mut [Caches], address: u32)
    ensures { Each (Fetches address) groups.old groups.new }
{
    for caches in groups.iter_mut() {
        caches.fetch(address);
    }
}

// Ends each visit.
fn end_all(groups: &mut [Caches])
    ensures { Each Ends groups.old groups.new }
{
    for caches in groups.iter_mut() {
        caches.end();
    }
}

impl AllCaches {
    /// Empty caches of these geometries.
    pub fn new(alloc: Global, geometries: &[Geometry]) -> Result<AllCaches, AllocError>
        ensures { IfOk result (λ all. AreCaches geometries.now → AllHold all.groups.items geometries.now []) }
    {
        let mut groups = Vec::new(alloc);
        push_all(alloc, &mut groups, geometries)?;
        Ok(AllCaches { groups })
    }

    /// Has each cache fetch the word at an address.
    pub fn fetch(&mut self, address: u32)
        ensures { (gs : List Geometry) (past : List ℕ) → AllHold self.old.groups.items gs past → AllHold self.new.groups.items gs (address ∷ past) }
    {
        fetch_all(self.groups.as_mut_slice(), address);
    }

    /// What each cache has counted, in the order of the geometries.
    pub fn counted(&mut self, alloc: Global) -> Result<Vec<Counted>, AllocError>
        ensures { IfOk result (λ rows. (gs : List Geometry) (past : List ℕ) → AllHold self.old.groups.items gs past → rows.items ≡ map (counted past) gs) }
    {
        end_all(self.groups.as_mut_slice());
        let rows = counted_of(alloc, self.groups.as_slice())?;
        Ok(rows)
    }
}
