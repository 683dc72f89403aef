//! How numbers are spread.
ghost use Rattle.std.specs.Prelude.{IfOk};
ghost use Rattle.std.specs.List.Sorted.{IsSorted};
ghost use Rattle.std.specs.Ordering.{int_cmp};
ghost use Rattle.lab_measures.specs.Spreads.{IsSpreadOf, Tells};

use std::alloc::{AllocError, Global};

/// How often a number stands.
#[derive(Clone, Copy)]
pub struct Bin {
    pub number: i64,
    pub runs: u64,
}

/// The least of some numbers, the one in the middle (the lower of two), the greatest, and how often each stands, in order.
#[derive(Drop)]
pub struct Spread {
    pub least: i64,
    pub median: i64,
    pub greatest: i64,
    pub bins: Vec<Bin>,
}

// How often each of some numbers stands, which are in order.
fn bins_of(alloc: Global, sorted: &[i64]) -> Result<Vec<Bin>, AllocError>
    ensures { IfOk result (λ bins. IsSorted int_cmp sorted.now → Tells bins.items sorted.now) }
{
    let mut bins = Vec::new(alloc);
    let mut runs = 0;
    for at in 0..sorted.len() {
        let number = sorted[at];
        runs += 1;
        if at + 1 == sorted.len() || sorted[at + 1] != number {
            bins.push(Bin { number, runs })?;
            runs = 0;
        }
    }
    Ok(bins)
}

/// How some numbers are spread, if there is one.
pub fn spread_of(alloc: Global, numbers: &[i64]) -> Result<Option<Spread>, AllocError>
    ensures { IfOk result (IsSpreadOf numbers.now) }
{
    let mut sorted = Vec::from_slice(alloc, numbers)?;
    sorted.sort()?;
    if sorted.is_empty() {
        return Ok(None);
    }
    let last = sorted.len() - 1;
    Ok(Some(Spread {
        least: sorted[0],
        median: sorted[last / 2],
        greatest: sorted[last],
        bins: bins_of(alloc, sorted.as_slice())?,
    }))
}
