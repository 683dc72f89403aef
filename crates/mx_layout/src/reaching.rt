//! Whether each branch reaches its target, had each block its padded plan.
ghost use Rattle.std.specs.Prelude.{◌≡◌, ◌≤◌, ◌<◌, ◌+◌, ◌*◌, ◌^◌, ℕ, None, OnOk, IfErr, map, sum, length, slice_index};
ghost use Rattle.mx_isa.specs.declared.board.TheConstants.{LAST_ADDRESS};
ghost use Rattle.mx_source.specs.SourceValue.{IsSource};
ghost use Rattle.mx_blocks.specs.Leaders.{AreBlocks, IsBlockOf};
ghost use Rattle.mx_layout.specs.Overlong.{padded_link, padded_size, branch_target, overlong_to, overlong_from, IsReported};

use crate::LinkError;
use crate::addresses::{links_of, padded_sizes};
use mx_blocks::{Block, End};
use mx_source::Source;
use mx_squash::reaches;
use mx_validate::padded;
use std::alloc::Global;

/// Refuses the first branch, in source order, that would not reach its target, had each block its padded plan and
/// began the code at an address.
pub(crate) fn check_reach(
    alloc: Global,
    source: &Source,
    first: u32,
    blocks: &[Block],
) -> Result<(), LinkError>
    requires blocks { AreBlocks source.now blocks.now }
    requires room { first + 3 * length source.now.statements ≤ LAST_ADDRESS }
    ensures reached { OnOk result (overlong_from source.now (padded_link first blocks.now) first blocks.now ≡ None) }
    ensures refused { IfErr result (IsReported (overlong_from source.now (padded_link first blocks.now) first blocks.now)) }
{
    let sizes = padded_sizes(alloc, blocks)?;
    let links = links_of(alloc, first, blocks, sizes.as_slice())?;
    check_branches(source, first, blocks, sizes.as_slice(), links.as_slice())
}

/// Refuses the first branch, in source order, that does not reach its target by the link map of padded blocks.
fn check_branches(
    source: &Source,
    first: u32,
    blocks: &[Block],
    sizes: &[u32],
    links: &[u32],
) -> Result<(), LinkError>
    requires blocks { AreBlocks source.now blocks.now }
    requires sizes { sizes.now ≡ map padded_size blocks.now }
    requires room { first + sum sizes.now ≤ LAST_ADDRESS }
    requires count { length source.now.statements < length links.now }
    requires links { (i : ℕ) → i ≤ length source.now.statements → slice_index links.now i ≡ padded_link first blocks.now i }
    ensures reached { OnOk result (overlong_from source.now (padded_link first blocks.now) first blocks.now ≡ None) }
    ensures refused { IfErr result (IsReported (overlong_from source.now (padded_link first blocks.now) first blocks.now)) }
{
    let mut at = first;
    for k in 0..blocks.len() {
        check_branch(source, at, &blocks[k], links)?;
        at += sizes[k];
    }
    Ok(())
}

/// Refuses the branch at the end of a block that begins at an address, if it does not reach its target by the link map.
fn check_branch(source: &Source, at: u32, block: &Block, links: &[u32]) -> Result<(), LinkError>
    requires block { IsBlockOf source.now block.now }
    requires at { at ≤ LAST_ADDRESS }
    requires count { length source.now.statements < length links.now }
    ensures source { IsSource source.now }
    ensures reached { OnOk result (overlong_to source.now (slice_index links.now) at block.now (branch_target block.now.end) ≡ None) }
    ensures refused { IfErr result (IsReported (overlong_to source.now (slice_index links.now) at block.now (branch_target block.now.end))) }
{
    let lines = source.lines();
    match branch_target(block.end) {
        Some(target) => {
            let from = at + u32::from(padded(block).place);
            let to = links[target as usize];
            if reaches(from.into(), to.into()) {
                return Ok(());
            }
            let line = lines[block.first as usize + block.insts.len() - 1];
            Err(LinkError::Displacement { line, from, to })
        }
        None => Ok(()),
    }
}

/// The target of the branch with which a block ends, if it does.
fn branch_target(end: End) -> Option<u32>
    ensures { result ≡ branch_target end }
{
    match end {
        End::Branches { target } => Some(target),
        End::Falls | End::Halts | End::Calls { .. } | End::Jumps => None,
    }
}
