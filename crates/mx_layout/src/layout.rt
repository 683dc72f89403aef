//! The layout of a source.
ghost use Rattle.std.specs.Prelude.{◌≡◌, ◌≤◌, ◌+◌, ◌*◌, ℕ, true, None, Some, All, IfOk, IfErr, length, slice_index};
ghost use Rattle.mx_isa.specs.declared.board.TheConstants.{LAST_ADDRESS};
ghost use Rattle.mx_validate.specs.Validity.{Valid};
ghost use Rattle.mx_squash.specs.Copies.{Site, sites, reaches};
ghost use Rattle.mx_layout.specs.Layout.{IsLayout, link_of, end_of};
ghost use Rattle.mx_layout.specs.Kept.{AreKept};
ghost use Rattle.mx_layout.specs.Overlong.{overlong, branch_target, IsRefusal};

use crate::LinkError;
use crate::addresses::{links_of, plan_sizes, starts_of};
use crate::choosing::{Choices, choose_all};
use crate::reaching::check_reach;
use mx_blocks::{Block, Plan, blocks};
use mx_isa::Place;
use mx_source::Source;
use mx_validate::Proposer;
use std::alloc::Global;

/// A source laid out: its blocks in order, with the plan and the address of each, and what was proposed for it.
#[derive(Drop)]
pub struct Layout {
    pub blocks: Vec<Block>,
    /// The plan of each block: its proposal where that is valid, else its padded plan.
    pub plans: Vec<Plan>,
    /// The address of each block's first word.
    pub starts: Vec<u32>,
    /// For each statement the address at which its block begins, and at last the address after the last word.
    pub links: Vec<u32>,
    /// What was proposed for each block.
    pub proposals: Vec<Plan>,
    /// How many proposals are not valid.
    pub rejected: u32,
}

/// Lays out a source from the beginning of the place's code on, with a plan for each block.
///
/// # Errors
///
/// `Displacement` exactly where some branch would not reach its target, had each block its padded plan: the first one in
/// source order. `Memory` where there is no room.
pub fn lay_out<P: Proposer>(
    alloc: Global,
    source: &Source,
    place: Place,
    proposer: &mut P,
) -> Result<Layout, LinkError>
    requires { place.code + 3 * length source.now.statements ≤ LAST_ADDRESS }
    ensures plans { IfOk result (λ l. length l.plans.items ≡ length l.blocks.items) }
    ensures starts { IfOk result (λ l. length l.starts.items ≡ length l.blocks.items) }
    ensures layout { IfOk result (λ l. IsLayout Valid source.now place (sites l.blocks.items l.plans.items l.starts.items)) }
    ensures kept { IfOk result (λ l. AreKept P.proposes l.rejected (sites l.blocks.items l.plans.items l.starts.items) l.proposals.items) }
    ensures links_count { IfOk result (λ l. length l.links.items ≡ length source.now.statements + 1) }
    ensures links { IfOk result (λ l. (i : ℕ) → i ≤ length source.now.statements
        → slice_index l.links.items i ≡ link_of place.code (sites l.blocks.items l.plans.items l.starts.items) i) }
    ensures short { IfOk result (λ l. end_of place.code (sites l.blocks.items l.plans.items l.starts.items) ≤ place.code + 3 * length source.now.statements) }
    ensures fits { IfOk result (λ l. overlong source.now place l.blocks.items ≡ None) }
    // No plan is longer than the padded one, so that each branch reaches its target also here.
    ensures reach { IfOk result (λ l. All (λ (s : Site). (target : ℕ) → branch_target s.block.end ≡ Some target
        → reaches (s.start + s.plan.place) (link_of place.code (sites l.blocks.items l.plans.items l.starts.items) target) ≡ true)
        (sites l.blocks.items l.plans.items l.starts.items)) }
    ensures refused { IfErr result (IsRefusal P.proposes source.now place) }
{
    let blocks = blocks(alloc, source)?;
    let Choices {
        proposals,
        plans,
        rejected,
    } = choose_all(alloc, blocks.as_slice(), proposer)?;
    check_reach(alloc, source, place.code, blocks.as_slice())?;
    let sizes = plan_sizes(alloc, plans.as_slice())?;
    let starts = starts_of(alloc, place.code, sizes.as_slice())?;
    let links = links_of(alloc, place.code, blocks.as_slice(), sizes.as_slice())?;
    Ok(Layout {
        blocks,
        plans,
        starts,
        links,
        proposals,
        rejected,
    })
}
