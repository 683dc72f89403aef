//! Sizes of blocks, and the addresses at which they stand.
ghost use Rattle.std.specs.Prelude.{◌≡◌, ◌≤◌, ◌+◌, ◌++◌, map, replicate, sum, IfOk, OnOk, length};
ghost use Rattle.mx_isa.specs.declared.board.TheConstants.{LAST_ADDRESS};
ghost use Rattle.mx_layout.specs.Layout.{plan_size};
ghost use Rattle.mx_layout.specs.Overlong.{padded_size};
ghost use Rattle.mx_layout.specs.Addresses.{starts_from, statement_starts};

use mx_blocks::{Block, Plan};
use mx_validate::padded;
use std::alloc::{AllocError, Global};

/// The number of words of each plan.
pub(crate) fn plan_sizes(alloc: Global, plans: &[Plan]) -> Result<Vec<u32>, AllocError>
    ensures { IfOk result (λ sizes. sizes.items ≡ map plan_size plans.now) }
{
    let mut sizes = Vec::new(alloc);
    for plan in plans {
        sizes.push(plan_size(plan))?;
    }
    Ok(sizes)
}

/// The number of words of each block's padded plan.
pub(crate) fn padded_sizes(alloc: Global, blocks: &[Block]) -> Result<Vec<u32>, AllocError>
    ensures { IfOk result (λ sizes. sizes.items ≡ map padded_size blocks.now) }
{
    let mut sizes = Vec::new(alloc);
    for block in blocks {
        sizes.push(plan_size(&padded(block)))?;
    }
    Ok(sizes)
}

fn plan_size(plan: &Plan) -> u32
    ensures { result ≡ plan_size plan.now }
{
    plan.items.len() as u32
}

/// The address of each block's first word, where blocks of these sizes stand from an address on.
pub(crate) fn starts_of(alloc: Global, first: u32, sizes: &[u32]) -> Result<Vec<u32>, AllocError>
    requires { first + sum sizes.now ≤ LAST_ADDRESS }
    ensures { IfOk result (λ starts. starts.items ≡ starts_from first sizes.now) }
{
    let mut starts = Vec::new(alloc);
    let mut at = first;
    for size in sizes {
        starts.push(at)?;
        at += *size;
    }
    Ok(starts)
}

/// For each statement of blocks of these sizes the address at which its block begins, and at last the address after
/// the last word.
pub(crate) fn links_of(
    alloc: Global,
    first: u32,
    blocks: &[Block],
    sizes: &[u32],
) -> Result<Vec<u32>, AllocError>
    requires sizes { length sizes.now ≡ length blocks.now }
    requires room { first + sum sizes.now ≤ LAST_ADDRESS }
    ensures { IfOk result (λ links. links.items ≡ statement_starts first blocks.now sizes.now) }
{
    let mut links = Vec::new(alloc);
    let mut at = first;
    for k in 0..blocks.len() {
        push_times(&mut links, at, blocks[k].insts.len())?;
        at += sizes[k];
    }
    links.push(at)?;
    Ok(links)
}

/// Appends an address so many times.
fn push_times(links: &mut Vec<u32>, at: u32, count: usize) -> Result<(), AllocError>
    ensures { OnOk result (links.new.items ≡ links.old.items ++ replicate count at) }
{
    for _ in 0..count {
        links.push(at)?;
    }
    Ok(())
}
