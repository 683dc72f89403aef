//! The search for a valid plan of a given length, from its last place to its first.
ghost use Rattle.std.specs.Prelude.{◌≡◌, ◌↔◌, ◌≤◌, ◌<◌, ◌+◌, ◌==◌, not, true, false, suc, ℕ, IsTrue, [], length, drop, slice_set};
ghost use Rattle.mx_best.specs.Terms.{is_load, Independent, feeds, inst_at, Plan, StandsAt, insts_of, items_of, Valid, end_count, Stands};
ghost use Rattle.mx_best.specs.Visits.{KeepsDelay, IsFollowed, MayPrecede, MayStand, EndsAs, no_ops, is_terminator};

use mx_blocks::{Block, End, Item, Plan};
use mx_depend::{feeds, independent};
use mx_validate::valid;

/// Fills the places before `from`, the last of them first, so that the plan is valid, and tells whether that
/// can be. What stands from there on is kept, and `spare` no-ops stand before it.
pub(crate) fn fill(block: &Block, plan: &mut Plan, from: usize, spare: usize) -> bool
    requires within { from ≤ length (items_of plan.old) }
    requires known { (p k : ℕ) → StandsAt (items_of plan.old) p k → k < length (insts_of block.now) }
    requires spare { spare + no_ops (drop from (items_of plan.old)) + length (insts_of block.now) ≡ length (items_of plan.old) }
    ensures found { result ≡ true → Valid block.now plan.new }
    ensures kept { EndsAs plan.old from plan.new }
    ensures known { (p k : ℕ) → StandsAt (items_of plan.new) p k → k < length (insts_of block.now) }
    ensures none { result ≡ false → (other : Plan) → EndsAs plan.old from other → ¬ Valid block.now other }
{
    if from == 0 {
        return valid(block, plan);
    }
    let at = from - 1;
    for k in 0..block.insts.len() {
        if may_stand(block, plan, at, k) {
            put(plan, at, Item::Op(k as u8));
            if fill(block, plan, at, spare) {
                return true;
            }
        }
    }
    if spare == 0 || is_place(plan, at) {
        return false;
    }
    put(plan, at, Item::Nop);
    fill(block, plan, at, spare - 1)
}

/// Writes an item at a place.
fn put(plan: &mut Plan, at: usize, item: Item)
    requires { at < length (items_of plan.old) }
    ensures items { items_of plan.new ≡ slice_set (items_of plan.old) at item }
    ensures place { plan.new.place ≡ plan.old.place }
{
    plan.items[at] = item;
}

/// Whether instruction `k` may stand at a place, before what stands behind it.
fn may_stand(block: &Block, plan: &Plan, at: usize, k: usize) -> bool
    requires place { at < length (items_of plan.now) }
    requires within { k < length (insts_of block.now) }
    requires known { (p k : ℕ) → StandsAt (items_of plan.now) p k → k < length (insts_of block.now) }
    ensures { IsTrue result ↔ MayStand block.now plan.now at (Item.Op k) }
{
    let in_place = is_place(plan, at) == is_terminator(block, k);
    in_place && may_precede(block, behind(plan, at), k)
}

/// Whether this is the terminator's place.
fn is_place(plan: &Plan, at: usize) -> bool
    ensures { result ≡ (at == plan.now.place) }
{
    at == plan.place as usize
}

/// What stands behind a place.
fn behind(plan: &Plan, at: usize) -> &[Item]
    requires { at < length (items_of plan.now) }
    ensures { result.now ≡ drop (suc at) (items_of plan.now) }
{
    &plan.items.as_slice()[at + 1..]
}

/// Whether the block has a terminator and this is its number.
fn is_terminator(block: &Block, k: usize) -> bool
    requires { k < length (insts_of block.now) }
    ensures { result ≡ is_terminator block.now (Item.Op k) }
{
    match block.end {
        End::Falls => false,
        End::Halts | End::Branches { .. } | End::Calls { .. } | End::Jumps => {
            k == block.insts.len() - 1
        }
    }
}

/// Whether instruction `k` may stand directly before these items, which end a plan.
fn may_precede(block: &Block, behind: &[Item], k: usize) -> bool
    requires within { k < length (insts_of block.now) }
    requires known { (p k : ℕ) → StandsAt behind.now p k → k < length (insts_of block.now) }
    ensures { IsTrue result ↔ MayPrecede block.now behind.now k }
{
    !stands(behind, k) && is_followed(block, behind, k) && keeps_delay(block, behind, k)
}

/// Whether the number stands in the list.
fn stands(items: &[Item], k: usize) -> bool
    ensures { IsTrue result ↔ Stands items.now k }
{
    for item in items {
        if is_op(*item, k) {
            return true;
        }
    }
    false
}

fn is_op(item: Item, k: usize) -> bool
    ensures { IsTrue result ↔ (item ≡ Item.Op k) }
{
    match item {
        Item::Op(j) => j as usize == k,
        Item::Nop => false,
    }
}

/// Whether all that depend on instruction `k` stand in the list.
fn is_followed(block: &Block, behind: &[Item], k: usize) -> bool
    requires { k < length (insts_of block.now) }
    ensures { IsTrue result ↔ IsFollowed block.now behind.now k }
{
    let count = block.insts.len();
    for y in k + 1..count {
        if !stands(behind, y) && !are_independent(block, k, y) {
            return false;
        }
    }
    true
}

fn are_independent(block: &Block, x: usize, y: usize) -> bool
    requires first { x < length (insts_of block.now) }
    requires second { y < length (insts_of block.now) }
    ensures { IsTrue result ↔ Independent (inst_at (insts_of block.now) x) (inst_at (insts_of block.now) y) block.now.input }
{
    independent(&block.insts[x], &block.insts[y], block.input)
}

/// Whether instruction `k` is no load of a register that the first of these items reads, and no load at the end.
fn keeps_delay(block: &Block, behind: &[Item], k: usize) -> bool
    requires within { k < length (insts_of block.now) }
    requires known { (p k : ℕ) → StandsAt behind.now p k → k < length (insts_of block.now) }
    ensures { IsTrue result ↔ KeepsDelay block.now behind.now k }
{
    match behind.first() {
        Some(item) => !feeds_item(block, k, *item),
        None => !loads_at(block, k),
    }
}

/// Whether instruction `k` is a load of a register that the item reads.
fn feeds_item(block: &Block, k: usize, item: Item) -> bool
    requires within { k < length (insts_of block.now) }
    requires known { (j : ℕ) → item ≡ Item.Op j → j < length (insts_of block.now) }
    ensures { IsTrue (not result) ↔ ((j : ℕ) → item ≡ Item.Op j → feeds (inst_at (insts_of block.now) k) (inst_at (insts_of block.now) j) ≡ false) }
{
    match item {
        Item::Op(j) => feeds_at(block, k, j as usize),
        Item::Nop => false,
    }
}

fn feeds_at(block: &Block, k: usize, j: usize) -> bool
    requires first { k < length (insts_of block.now) }
    requires second { j < length (insts_of block.now) }
    ensures { result ≡ feeds (inst_at (insts_of block.now) k) (inst_at (insts_of block.now) j) }
{
    feeds(&block.insts[k], &block.insts[j])
}

fn loads_at(block: &Block, k: usize) -> bool
    requires { k < length (insts_of block.now) }
    ensures { result ≡ is_load (inst_at (insts_of block.now) k) }
{
    block.insts[k].is_load()
}
