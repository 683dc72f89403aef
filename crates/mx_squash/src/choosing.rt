//! Copies of as many words as another linker wants.
ghost use Rattle.std.specs.Prelude.{◌≡◌, ◌<◌, None, Some, length, slice_get};
ghost use Rattle.mx_squash.specs.Ordered.{AreOfOneSource};
ghost use Rattle.mx_squash.specs.Copies.{Site, sites, site_of, is_target};
ghost use Rattle.mx_squash.specs.Chosen.{target_fault, copies_asked};

use crate::copying::{
    Copied, copied_words, copyable, is_branch, is_hazard, no_copies, reaches, room,
};
use crate::search::target_of;
use mx_blocks::{Block, Plan};

/// What forbids that so many words are copied into the slots of a transfer.
#[derive(Clone, Copy, Debug, PartialEq, Eq)]
pub enum CopyRule {
    /// The block goes to no label, or to one behind the last statement.
    Target,
    /// The slots do not hold so many no-ops: a conditional branch copies into both slots or none, `b` and `call` into both or
    /// the second one.
    Room,
    /// The target does not begin with so many instructions before its terminator.
    Front,
    /// The branch would not reach what is behind the copied words.
    Reach,
    /// The word in the first slot is a load of a register that the copied word reads.
    Load,
}

/// The first rule that forbids a block, its plan and its start so many copies from a target's, of which there are some.
fn target_fault(
    count: u8,
    block: &Block,
    plan: &Plan,
    start: u32,
    goal: &Block,
    goal_plan: &Plan,
    goal_start: u32,
) -> Option<CopyRule>
    ensures { result ≡ target_fault count (record { block = block.now; plan = plan.now; start = start })
        (record { block = goal.now; plan = goal_plan.now; start = goal_start }) }
{
    let free = room(block, plan);
    let from = u64::from(start) + u64::from(plan.place);
    let to = u64::from(goal_start) + u64::from(count);
    if free < count {
        Some(CopyRule::Room)
    } else if copyable(goal_plan) < count {
        Some(CopyRule::Front)
    } else if is_branch(block.end) && !reaches(from, to) {
        Some(CopyRule::Reach)
    } else if free == 1 && is_hazard(block, plan, goal, goal_plan) {
        Some(CopyRule::Load)
    } else {
        None
    }
}

/// So many copies of a block, its plan and its start, among all.
fn asked_of(
    count: u8,
    block: &Block,
    plan: &Plan,
    start: u32,
    blocks: &[Block],
    plans: &[Plan],
    starts: &[u32],
) -> Result<Copied, CopyRule>
    requires blocks { AreOfOneSource blocks.now }
    requires plans { length plans.now ≡ length blocks.now }
    requires starts { length starts.now ≡ length blocks.now }
    ensures { result ≡ copies_asked count (record { block = block.now; plan = plan.now; start = start })
        (site_of (is_target block.now.end) (sites blocks.now plans.now starts.now)) }
{
    match target_of(blocks, block.end) {
        Some(goal) => asked_between(
            count,
            block,
            plan,
            start,
            &blocks[goal],
            &plans[goal],
            starts[goal],
        ),
        None => asked_nowhere(count),
    }
}

/// So many copies of a block, its plan and its start, from a target's.
fn asked_between(
    count: u8,
    block: &Block,
    plan: &Plan,
    start: u32,
    goal: &Block,
    goal_plan: &Plan,
    goal_start: u32,
) -> Result<Copied, CopyRule>
    ensures { result ≡ copies_asked count (record { block = block.now; plan = plan.now; start = start })
        (Some (record { block = goal.now; plan = goal_plan.now; start = goal_start })) }
{
    if count == 0 {
        return Ok(copied_words(block, plan, goal_plan, count));
    }
    match target_fault(count, block, plan, start, goal, goal_plan, goal_start) {
        Some(rule) => Err(rule),
        None => Ok(copied_words(block, plan, goal_plan, count)),
    }
}

/// So many copies where there is no target.
fn asked_nowhere(count: u8) -> Result<Copied, CopyRule>
    ensures { (site : Site) → result ≡ copies_asked count site None }
{
    if count == 0 {
        Ok(no_copies())
    } else {
        Err(CopyRule::Target)
    }
}

/// So many copies of the block of number `branch`, which begins at `starts[branch]`, as of each other block. Where `copies`
/// takes as many words as it can, another linker may take fewer.
///
/// # Errors
///
/// The first rule that forbids so many; none forbids to copy no word.
pub fn copies_asked(
    blocks: &[Block],
    plans: &[Plan],
    starts: &[u32],
    branch: u32,
    count: u8,
) -> Result<Copied, CopyRule>
    requires blocks { AreOfOneSource blocks.now }
    requires plans { length plans.now ≡ length blocks.now }
    requires starts { length starts.now ≡ length blocks.now }
    requires within { branch < length blocks.now }
    ensures { let all = sites blocks.now plans.now starts.now in (s : Site) → slice_get all branch ≡ Some s
        → result ≡ copies_asked count s (site_of (is_target s.block.end) all) }
{
    let site = branch as usize;
    asked_of(
        count,
        &blocks[site],
        &plans[site],
        starts[site],
        blocks,
        plans,
        starts,
    )
}
