//! What a cache is.
ghost use Rattle.std.specs.Prelude.{◌≡◌, ◌*◌, ◌+◌, ◌++◌, OnOk, IfOk};
ghost use Rattle.lab_terms.specs.declared.geometry.TheConstants.{SIZES, WAYS};
ghost use Rattle.lab_terms.specs.Geometries.{words_in, cycles_with, saturated_32, whole, of_size, looked_at, AreLookedAt};

use std::alloc::{AllocError, Global};

/// A cache of code words. The line of an address is the address divided by the words of a line, and its set is the line modulo
/// the sets. On a miss the words of a group that begins at a multiple of `brings` within the line become valid; of a full set
/// the line that was allocated first is replaced.
#[derive(Clone, Copy, PartialEq, Eq)]
pub struct Geometry {
    pub sets: u32,
    /// How many lines a set holds.
    pub ways: u32,
    /// How many words a line has, at most 64.
    pub line: u32,
    /// How many words a miss brings.
    pub brings: u32,
    /// How many cycles a miss costs.
    pub penalty: u32,
}

/// The cache of the machine.
pub const SHIPPED_CACHE: Geometry = Geometry {
    sets: 4,
    ways: 8,
    line: 16,
    brings: 2,
    penalty: 2,
};

/// The sizes that are looked at, in words, and the ways.
const SIZES: [u32; 5] = [128, 256, 512, 1024, 2048];

const WAYS: [u32; 4] = [1, 2, 4, 8];

impl Geometry {
    /// How many words it holds.
    pub fn words(self) -> u64
        ensures { result ≡ words_in self }
    {
        u64::from(self.sets)
            .saturating_mul(u64::from(self.ways))
            .saturating_mul(u64::from(self.line))
    }

    /// How many cycles so many fetches take of which so many miss.
    pub fn cycles(self, fetches: u64, misses: u64) -> u64
        ensures { result ≡ cycles_with self fetches misses }
    {
        fetches.saturating_add(misses.saturating_mul(u64::from(self.penalty)))
    }
}

// Adds the cache of so many words and ways, where these make whole sets.
fn push_whole(
    all: &mut Vec<Geometry>,
    size: u32,
    ways: u32,
    line: u32,
    brings: u32,
    penalty: u32,
) -> Result<(), AllocError>
    ensures { OnOk result (all.new.items ≡ all.old.items ++ whole size (saturated_32 (ways * line)) ways line brings penalty) }
{
    let row = ways.saturating_mul(line);
    let sets = size.checked_div(row).unwrap_or(0);
    if sets > 0 && sets.saturating_mul(row) == size {
        all.push(Geometry {
            sets,
            ways,
            line,
            brings,
            penalty,
        })?;
    }
    Ok(())
}

// Adds the caches of so many words, with each of these numbers of ways.
fn push_size(
    all: &mut Vec<Geometry>,
    size: u32,
    numbers: &[u32],
    line: u32,
    brings: u32,
    penalty: u32,
) -> Result<(), AllocError>
    ensures { OnOk result (all.new.items ≡ all.old.items ++ of_size size numbers.now line brings penalty) }
{
    for ways in numbers {
        push_whole(all, size, *ways, line, brings, penalty)?;
    }
    Ok(())
}

// Adds the caches of these sizes, with each of these numbers of ways.
fn push_all(
    all: &mut Vec<Geometry>,
    sizes: &[u32],
    numbers: &[u32],
    line: u32,
    brings: u32,
    penalty: u32,
) -> Result<(), AllocError>
    ensures { OnOk result (all.new.items ≡ all.old.items ++ looked_at sizes.now numbers.now line brings penalty) }
{
    for size in sizes {
        push_size(all, *size, numbers, line, brings, penalty)?;
    }
    Ok(())
}

/// The caches that are looked at, with lines of so many words, of which a miss brings so many, at this cost: each size with each
/// number of ways, where they make whole sets. The cache of the machine is the first where it is not among them.
pub fn geometries(
    alloc: Global,
    line: u32,
    brings: u32,
    penalty: u32,
) -> Result<Vec<Geometry>, AllocError>
    ensures { IfOk result (λ all. AreLookedAt (looked_at SIZES WAYS line brings penalty) all.items) }
{
    let mut all = Vec::new(alloc);
    push_all(&mut all, &SIZES, &WAYS, line, brings, penalty)?;
    if !all.iter().any(|geometry| *geometry == SHIPPED_CACHE) {
        all.insert(0, SHIPPED_CACHE)?;
    }
    Ok(all)
}
