//! What stands at a place.
ghost use Rattle.std.specs.Prelude.{◌≡◌, ◌↔◌, ◌⊎◌, ◌<◌, ◌≤◌, ◌+◌, ◌==◌, ◌||◌, not, ℕ, true, false, IsTrue, length};
ghost use Rattle.mx_isa.specs.Views.{is_load};
ghost use Rattle.mx_depend.specs.Independence.{feeds};
ghost use Rattle.mx_depend.specs.Graphs.{IsGraph, has_bit, inst_at};
ghost use Rattle.mx_blocks.specs.Items.{StandsAt};
ghost use Rattle.mx_validate.specs.Padded.{insts_of, body_count};
ghost use Rattle.mx_reorg.specs.Greedy.{Stands, LeavesApart, IsReady, IsCandidate, Fills, AllStand, loads};
ghost use Rattle.mx_reorg.specs.Making.{IsBetter};

use mx_blocks::{Block, End, Item};
use mx_depend::{Graph, feeds, with_bit};
use mx_isa::Inst;

/// The best candidate behind these items, or a no-op where there is none.
pub(crate) fn next_item(block: &Block, graph: &Graph, before: &[Item]) -> Item
    requires graph { IsGraph (insts_of block.now) block.now.input graph.now }
    requires known { (p k : ℕ) → StandsAt before.now p k → k < length (insts_of block.now) }
    ensures fills { Fills block.now before.now result }
    ensures low { (k : ℕ) → result ≡ Item.Op k → k < length (insts_of block.now) }
{
    let placed = placed_in(block, before);
    let mut best = Item::Nop;
    for x in 0..body_count(block) {
        if is_candidate(block, graph, before, placed, x) {
            best = better(block, graph, best, x);
        }
    }
    best
}

/// The one of the best so far and a later candidate that stands first.
fn better(block: &Block, graph: &Graph, best: Item, x: u8) -> Item
    requires graph { IsGraph (insts_of block.now) block.now.input graph.now }
    requires within { x < length (insts_of block.now) }
    requires known { (b : ℕ) → best ≡ Item.Op b → b < length (insts_of block.now) }
    ensures none { best ≡ Item.Nop → result ≡ Item.Op x }
    ensures one { (b : ℕ) → best ≡ Item.Op b → b ≤ x → IsBetter block.now b x result }
{
    match best {
        Item::Nop => Item::Op(x),
        Item::Op(b) => {
            if graph.height(b) < graph.height(x) {
                Item::Op(x)
            } else {
                best
            }
        }
    }
}

/// Whether instruction `x` is a candidate behind these items.
fn is_candidate(block: &Block, graph: &Graph, before: &[Item], placed: u64, x: u8) -> bool
    requires graph { IsGraph (insts_of block.now) block.now.input graph.now }
    requires known { (p k : ℕ) → StandsAt before.now p k → k < length (insts_of block.now) }
    requires placed { (k : ℕ) → IsTrue (has_bit placed k) ↔ Stands before.now k }
    requires body { x < body_count block.now }
    requires within { x < length (insts_of block.now) }
    requires small { x < 64 }
    ensures { IsTrue result ↔ IsCandidate block.now before.now x }
{
    !has(placed, x) && is_ready(block, graph, before, placed, x)
}

/// Whether instruction `x` is ready behind these items.
pub(crate) fn is_ready(block: &Block, graph: &Graph, before: &[Item], placed: u64, x: u8) -> bool
    requires graph { IsGraph (insts_of block.now) block.now.input graph.now }
    requires known { (p k : ℕ) → StandsAt before.now p k → k < length (insts_of block.now) }
    requires placed { (k : ℕ) → IsTrue (has_bit placed k) ↔ Stands before.now k }
    requires within { x < length (insts_of block.now) }
    ensures { IsTrue result ↔ IsReady block.now before.now x }
{
    is_within(graph.before(x), placed) && !is_fed(block, before, x)
}

/// Whether the last item is a load of a register that instruction `x` reads.
fn is_fed(block: &Block, before: &[Item], x: u8) -> bool
    requires known { (p k : ℕ) → StandsAt before.now p k → k < length (insts_of block.now) }
    requires within { x < length (insts_of block.now) }
    ensures { IsTrue (not result) ↔ LeavesApart block.now before.now x }
{
    match before.last() {
        Some(item) => feeds_item(block, *item, x),
        None => false,
    }
}

/// Whether the item is a load of a register that instruction `x` reads.
fn feeds_item(block: &Block, item: Item, x: u8) -> bool
    requires known { (k : ℕ) → item ≡ Item.Op k → k < length (insts_of block.now) }
    requires within { x < length (insts_of block.now) }
    ensures { IsTrue (not result) ↔ ((k : ℕ) → item ≡ Item.Op k → feeds (inst_at (insts_of block.now) k) (inst_at (insts_of block.now) x) ≡ false) }
{
    match item {
        Item::Op(k) => feeds_at(block.insts.as_slice(), k as usize, x as usize),
        Item::Nop => false,
    }
}

fn feeds_at(insts: &[Inst], k: usize, j: usize) -> bool
    requires first { k < length insts.now }
    requires second { j < length insts.now }
    ensures { result ≡ feeds (inst_at insts.now k) (inst_at insts.now j) }
{
    feeds(&insts[k], &insts[j])
}

/// Whether the item is a load.
pub(crate) fn loads(block: &Block, item: Item) -> bool
    requires { (k : ℕ) → item ≡ Item.Op k → k < length (insts_of block.now) }
    ensures { result ≡ loads block.now item }
{
    match item {
        Item::Op(k) => loads_at(block.insts.as_slice(), k as usize),
        Item::Nop => false,
    }
}

fn loads_at(insts: &[Inst], k: usize) -> bool
    requires { k < length insts.now }
    ensures { result ≡ is_load (inst_at insts.now k) }
{
    insts[k].is_load()
}

/// Whether all body instructions stand in the list.
pub(crate) fn all_stand(block: &Block, items: &[Item]) -> bool
    requires { (p k : ℕ) → StandsAt items.now p k → k < length (insts_of block.now) }
    ensures { IsTrue result ↔ AllStand block.now items.now }
{
    let placed = placed_in(block, items);
    for k in 0..body_count(block) {
        if !has(placed, k) {
            return false;
        }
    }
    true
}

/// The number of instructions before the terminator.
fn body_count(block: &Block) -> u8
    ensures count { result ≡ body_count block.now }
    ensures within { result ≤ length (insts_of block.now) }
    ensures few { length (insts_of block.now) ≤ 64 }
{
    match block.end {
        End::Falls => block.insts.len() as u8,
        End::Halts | End::Branches { .. } | End::Calls { .. } | End::Jumps => (block.insts.len()
            - 1) as u8,
    }
}

/// The numbers that stand in the list, as bits.
pub(crate) fn placed_in(block: &Block, items: &[Item]) -> u64
    requires { (p k : ℕ) → StandsAt items.now p k → k < length (insts_of block.now) }
    ensures { (k : ℕ) → IsTrue (has_bit result k) ↔ Stands items.now k }
{
    let mut placed = 0;
    for i in 0..items.len() {
        placed = with_item(block, placed, items[i]);
    }
    placed
}

/// The mask with the number of an item.
fn with_item(block: &Block, mask: u64, item: Item) -> u64
    requires { (k : ℕ) → item ≡ Item.Op k → k < length (insts_of block.now) }
    ensures { (k : ℕ) → IsTrue (has_bit result k) ↔ (IsTrue (has_bit mask k) ⊎ (item ≡ Item.Op k)) }
{
    match item {
        Item::Op(k) => {
            let count = block.insts.len();
            if (k as usize) < count {
                with_bit(mask, k.into())
            } else {
                mask
            }
        }
        Item::Nop => mask,
    }
}

/// Whether the mask has the number.
fn has(mask: u64, x: u8) -> bool
    requires { x < 64 }
    ensures { result ≡ has_bit mask x }
{
    mask >> x & 1 == 1
}

/// Whether the second mask has each number of the first.
fn is_within(mask: u64, other: u64) -> bool
    ensures { IsTrue result ↔ ((k : ℕ) → IsTrue (has_bit mask k) → IsTrue (has_bit other k)) }
{
    mask | other == other
}
