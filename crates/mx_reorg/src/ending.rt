//! Where the terminator may stand.
ghost use Rattle.std.specs.Prelude.{◌≡◌, ◌↔◌, ◌<◌, ◌≤◌, ◌+◌, ◌++◌, ◌∷◌, [], ℕ, IsTrue, length};
ghost use Rattle.mx_reorg.specs.Terms.{IsGraph, StandsAt, insts_of, EndsWithoutLoad};
ghost use Rattle.mx_reorg.specs.Greedy.{IsReady, MayEnd, RestFits, terminator};
ghost use Rattle.mx_reorg.specs.Making.{HasSlots};

use crate::choosing::{all_stand, is_ready, loads, next_item, placed_in};
use arrayvec::ArrayVec;
use mx_blocks::{Block, End, Item};
use mx_depend::Graph;

/// Whether the terminator may stand behind these items, or a block that falls through may end there.
pub(crate) fn may_end(block: &Block, graph: &Graph, before: &[Item]) -> bool
    requires graph { IsGraph (insts_of block.now) block.now.input graph.now }
    requires known { (p k : ℕ) → StandsAt before.now p k → k < length (insts_of block.now) }
    requires room { length before.now + 3 ≤ 131 }
    ensures { IsTrue result ↔ MayEnd block.now.end block.now before.now }
{
    match block.end {
        End::Falls => all_stand(block, before) && ends_without_load(block, before),
        End::Halts => all_stand(block, before),
        End::Branches { .. } | End::Calls { .. } | End::Jumps => may_leave(block, graph, before),
    }
}

/// Whether a transfer may stand behind these items.
fn may_leave(block: &Block, graph: &Graph, before: &[Item]) -> bool
    requires graph { IsGraph (insts_of block.now) block.now.input graph.now }
    requires known { (p k : ℕ) → StandsAt before.now p k → k < length (insts_of block.now) }
    requires room { length before.now + 3 ≤ 131 }
    ensures { IsTrue result ↔ (IsReady block.now before.now (terminator block.now) × RestFits block.now before.now) }
{
    let placed = placed_in(block, before);
    is_ready(block, graph, before, placed, last_of(block)) && rest_fits(block, graph, before)
}

/// The number of the last instruction.
fn last_of(block: &Block) -> u8
    ensures value { result ≡ terminator block.now }
    ensures within { result < length (insts_of block.now) }
    ensures few { length (insts_of block.now) ≤ 64 }
{
    (block.insts.len() - 1) as u8
}

/// Whether the two slots behind the terminator take all that is left, and no load stands in the second.
fn rest_fits(block: &Block, graph: &Graph, before: &[Item]) -> bool
    requires graph { IsGraph (insts_of block.now) block.now.input graph.now }
    requires known { (p k : ℕ) → StandsAt before.now p k → k < length (insts_of block.now) }
    requires room { length before.now + 3 ≤ 131 }
    ensures { IsTrue result ↔ RestFits block.now before.now }
{
    let mut items = copy_of(before);
    let second = push_slots(block, graph, &mut items);
    all_stand(block, items.as_slice()) && !loads(block, second)
}

/// Appends the terminator and what fills its two slots, and tells the second.
pub(crate) fn push_slots(block: &Block, graph: &Graph, items: &mut ArrayVec<Item, 131>) -> Item
    requires graph { IsGraph (insts_of block.now) block.now.input graph.now }
    requires known { (p k : ℕ) → StandsAt items.old.items p k → k < length (insts_of block.now) }
    requires room { length items.old.items + 3 ≤ 131 }
    ensures slots { HasSlots block.now items.old.items items.new.items result }
    ensures known { (p k : ℕ) → StandsAt items.new.items p k → k < length (insts_of block.now) }
    ensures second { (k : ℕ) → result ≡ Item.Op k → k < length (insts_of block.now) }
{
    push_terminator(block, items);
    let first = next_item(block, graph, items.as_slice());
    push_item(block, items, first);
    let second = next_item(block, graph, items.as_slice());
    push_item(block, items, second);
    second
}

pub(crate) fn push_terminator(block: &Block, items: &mut ArrayVec<Item, 131>)
    requires known { (p k : ℕ) → StandsAt items.old.items p k → k < length (insts_of block.now) }
    requires room { length items.old.items < 131 }
    ensures items { items.new.items ≡ items.old.items ++ Item.Op (terminator block.now) ∷ [] }
    ensures known { (p k : ℕ) → StandsAt items.new.items p k → k < length (insts_of block.now) }
{
    let last = last_of(block);
    push_item(block, items, Item::Op(last));
}

fn push_item(block: &Block, items: &mut ArrayVec<Item, 131>, item: Item)
    requires known { (p k : ℕ) → StandsAt items.old.items p k → k < length (insts_of block.now) }
    requires item { (k : ℕ) → item ≡ Item.Op k → k < length (insts_of block.now) }
    requires room { length items.old.items < 131 }
    ensures items { items.new.items ≡ items.old.items ++ item ∷ [] }
    ensures known { (p k : ℕ) → StandsAt items.new.items p k → k < length (insts_of block.now) }
{
    items.push(item);
}

fn copy_of(before: &[Item]) -> ArrayVec<Item, 131>
    requires { length before.now ≤ 131 }
    ensures { result.items ≡ before.now }
{
    let mut items = ArrayVec::new();
    // There is room for all of them.
    let _copied = items.try_extend_from_slice(before);
    items
}

fn ends_without_load(block: &Block, before: &[Item]) -> bool
    requires { (p k : ℕ) → StandsAt before.now p k → k < length (insts_of block.now) }
    ensures { IsTrue result ↔ EndsWithoutLoad (insts_of block.now) before.now }
{
    match before.last() {
        Some(item) => !loads(block, *item),
        None => true,
    }
}
