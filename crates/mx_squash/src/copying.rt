//! Copies of a target's first words.
ghost use Rattle.std.specs.Prelude.{◌≡◌, ◌<◌, ◌≤◌, ◌^◌, length, slice_get, Some, if◌then◌else◌};
ghost use Rattle.std.specs.Option.{option_copied};
ghost use Rattle.mx_squash.specs.Ordered.{AreOfOneSource};
ghost use Rattle.mx_squash.specs.Copies.{copies_at, sites, site_of, is_target, copied, copied_words, no_copies, copyable, may_copy, item_at, may_stay, always_goes, terminator, room_for, room, is_nop, slot, reaches, item_inst, is_hazard, filled, is_branch_end};

use crate::search::target_of;
use mx_blocks::{Block, End, Item, Plan};
use mx_depend::feeds;
use mx_isa::{Cond, Inst};

/// What goes into the slots of a transfer.
#[derive(Clone, Copy, Debug, PartialEq, Eq)]
pub struct Copied {
    /// For slot 1 and slot 2 an instruction of the target's block, or a no-op where the slot keeps its own item.
    pub from: [Item; 2],
    /// How many words are copied, so that the transfer goes on behind them.
    pub count: u8,
    /// Whether the branch cancels its slots where it does not go.
    pub squash: bool,
}

/// The copies of the block of number `branch`, which begins at `starts[branch]`, as of each other block.
///
/// A conditional branch whose two slots are no-ops takes one or two words and squashes; `b` and `call` take
/// words into their trailing no-ops (Hennessy and Gross). A branch copies nothing where its displacement would
/// not fit 16 bits then, and nothing goes into slot 2 behind a load of a register that the word reads.
pub fn copies(blocks: &[Block], plans: &[Plan], starts: &[u32], branch: u32) -> Copied
    requires blocks { AreOfOneSource blocks.now }
    requires plans { length plans.now ≡ length blocks.now }
    requires starts { length starts.now ≡ length blocks.now }
    requires within { branch < length blocks.now }
    ensures { let all = sites blocks.now plans.now starts.now in result ≡ copies_at all (slice_get all branch) }
{
    let site = branch as usize;
    copies_of(
        &blocks[site],
        &plans[site],
        starts[site],
        blocks,
        plans,
        starts,
    )
}

/// The copies of a block, its plan and its start, among all.
fn copies_of(
    block: &Block,
    plan: &Plan,
    start: u32,
    blocks: &[Block],
    plans: &[Plan],
    starts: &[u32],
) -> Copied
    requires blocks { AreOfOneSource blocks.now }
    requires plans { length plans.now ≡ length blocks.now }
    requires starts { length starts.now ≡ length blocks.now }
    ensures { result ≡ copied (record { block = block.now; plan = plan.now; start = start })
        (site_of (is_target block.now.end) (sites blocks.now plans.now starts.now)) }
{
    match target_of(blocks, block.end) {
        Some(goal) => copies_between(
            block,
            plan,
            start,
            &blocks[goal],
            &plans[goal],
            starts[goal],
        ),
        None => no_copies(),
    }
}

/// The copies of a block, its plan and its start, from a target's.
fn copies_between(
    block: &Block,
    plan: &Plan,
    start: u32,
    goal: &Block,
    goal_plan: &Plan,
    goal_start: u32,
) -> Copied
    ensures { result ≡ copied (record { block = block.now; plan = plan.now; start = start })
        (Some (record { block = goal.now; plan = goal_plan.now; start = goal_start })) }
{
    let free = room(block, plan);
    let most = free.min(copyable(goal_plan));
    let from = u64::from(start) + u64::from(plan.place);
    let to = u64::from(goal_start) + u64::from(most);
    let too_far = is_branch(block.end) && !reaches(from, to);
    let fed = free == 1 && is_hazard(block, plan, goal, goal_plan);
    copied_words(block, plan, goal_plan, unless(too_far || fed, most))
}

/// The copies of so many words of a target's plan into the slots of a block's.
pub(crate) fn copied_words(block: &Block, plan: &Plan, goal_plan: &Plan, count: u8) -> Copied
    ensures { result ≡ copied_words count block.now plan.now goal_plan.now }
{
    Copied {
        from: filled(
            room(block, plan),
            count,
            item_at(goal_plan, 0),
            item_at(goal_plan, 1),
        ),
        count,
        squash: count > 0 && may_stay(block),
    }
}

/// No word is copied.
pub(crate) fn no_copies() -> Copied
    ensures { result ≡ no_copies }
{
    Copied {
        from: [Item::Nop, Item::Nop],
        count: 0,
        squash: false,
    }
}

/// The number, or 0 where the test holds.
fn unless(test: bool, n: u8) -> u8
    ensures { result ≡ (if test then 0 else n) }
{
    if test { 0 } else { n }
}

/// How many words fit into the slots of a block's plan.
pub(crate) fn room(block: &Block, plan: &Plan) -> u8
    ensures { result ≡ room block.now plan.now }
{
    room_for(block.end, may_stay(block), is_nop(plan, 1), is_nop(plan, 2))
}

/// Whether slot 1 is a load of a register that the target's first word reads.
pub(crate) fn is_hazard(block: &Block, plan: &Plan, goal: &Block, goal_plan: &Plan) -> bool
    ensures { result ≡ is_hazard block.now plan.now goal.now goal_plan.now }
{
    match (
        slot_inst(block, plan, plan.place as usize + 1),
        slot_inst(goal, goal_plan, 0),
    ) {
        (Some(load), Some(reader)) => feeds(load, reader),
        _ => false,
    }
}

/// The instruction of the item at a place, if one stands there.
fn slot_inst<'a>(block: &'a Block, plan: &Plan, place: usize) -> Option<&'a Inst>
    ensures { option_copied result ≡ item_inst block.now (slice_get plan.now.items.items place) }
{
    match plan.items.as_slice().get(place) {
        Some(Item::Op(k)) => block.insts.as_slice().get(*k as usize),
        _ => None,
    }
}

/// How many words may be copied from the front of a plan.
pub(crate) fn copyable(plan: &Plan) -> u8
    ensures { result ≡ copyable plan.now }
{
    if !may_copy(plan, 0) {
        0
    } else if !may_copy(plan, 1) {
        1
    } else {
        2
    }
}

/// Whether item `k` is an instruction before the terminator's place.
fn may_copy(plan: &Plan, k: usize) -> bool
    ensures { result ≡ may_copy plan.now k }
{
    k < plan.place as usize && matches!(plan.items.as_slice().get(k), Some(Item::Op(_)))
}

/// Whether slot `n` holds a no-op.
fn is_nop(plan: &Plan, n: usize) -> bool
    requires { n ≤ 2 }
    ensures { result ≡ is_nop (slot plan.now n) }
{
    matches!(
        plan.items.as_slice().get(plan.place as usize + n),
        Some(Item::Nop)
    )
}

fn item_at(plan: &Plan, k: usize) -> Item
    ensures { result ≡ item_at plan.now k }
{
    match plan.items.as_slice().get(k) {
        Some(item) => *item,
        None => Item::Nop,
    }
}

pub(crate) fn is_branch(end: End) -> bool
    ensures { result ≡ is_branch_end end }
{
    matches!(end, End::Branches { .. })
}

/// Whether the block ends with a conditional branch other than `b`.
fn may_stay(block: &Block) -> bool
    ensures { result ≡ may_stay block.now }
{
    is_branch(block.end) && !always_goes(block)
}

/// Whether the last instruction is `beq r0,r0`.
fn always_goes(block: &Block) -> bool
    ensures { result ≡ always_goes (terminator block.now) }
{
    match block.insts.as_slice().last() {
        Some(inst) => is_b(inst),
        None => false,
    }
}

fn is_b(inst: &Inst) -> bool
    ensures { result ≡ always_goes (Some inst.now) }
{
    match *inst {
        Inst::Branch { a, b, cond, .. } => {
            cond == Cond::Eq && a.number() == 0 && b.number() == 0
        }
        _ => false,
    }
}

/// How many words fit into slots that hold no-ops.
fn room_for(end: End, stays: bool, first: bool, second: bool) -> u8
    ensures { result ≡ room_for end stays first second }
{
    match end {
        End::Branches { .. } => {
            if first && second {
                2
            } else if second && !stays {
                1
            } else {
                0
            }
        }
        End::Calls { .. } => {
            if first && second {
                2
            } else if second {
                1
            } else {
                0
            }
        }
        _ => 0,
    }
}

/// Whether a branch at an address reaches another.
pub fn reaches(from: u64, to: u64) -> bool
    requires from { from < 2 ^ 40 }
    requires to { to < 2 ^ 40 }
    ensures { result ≡ reaches from to }
{
    to <= from + 32_767 && from <= to + 32_768
}

/// What goes into the slots.
fn filled(free: u8, count: u8, first: Item, second: Item) -> [Item; 2]
    ensures { result ≡ filled free count first second }
{
    if count == 0 {
        [Item::Nop, Item::Nop]
    } else if free == 1 {
        [Item::Nop, first]
    } else if count == 1 {
        [first, Item::Nop]
    } else {
        [first, second]
    }
}
