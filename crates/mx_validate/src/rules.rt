//! The tests of the rules of a valid plan, one by one.
ghost use Rattle.std.specs.Prelude.{◌≡◌, ◌↔◌, ◌<◌, ◌-◌, ◌≤◌, ◌+◌, ℕ, suc, true, false, not, IsTrue, length};
ghost use Rattle.mx_isa.specs.Views.{is_load};
ghost use Rattle.mx_depend.specs.Independence.{Independent, feeds};
ghost use Rattle.mx_depend.specs.Graphs.{inst_at};
ghost use Rattle.mx_blocks.specs.Items.{StandsAt, ops, times};
ghost use Rattle.mx_validate.specs.Padded.{insts_of, items_of, falls};
ghost use Rattle.mx_validate.specs.Validity.{EachOnce, KeepsOrder, KeepsApart, EndsWithoutLoad, end_count};

use crate::padding::end_count;
use mx_blocks::{Block, End, Item, Plan};
use mx_depend::{feeds, independent};
use mx_isa::Inst;

/// Whether each number below `n` stands once, and no other number.
pub fn stands_once(items: &[Item], n: usize) -> bool
    ensures { IsTrue result ↔ EachOnce n items.now }
{
    are_below(items, n) && are_all_there(items, n)
}

/// Whether only numbers below `n` stand.
fn are_below(items: &[Item], n: usize) -> bool
    ensures { IsTrue result ↔ ((p k : ℕ) → StandsAt items.now p k → k < n) }
{
    for item in items {
        if !is_below(*item, n) {
            return false;
        }
    }
    true
}

fn is_below(item: Item, n: usize) -> bool
    ensures { IsTrue result ↔ ((k : ℕ) → item ≡ Item.Op k → k < n) }
{
    match item {
        Item::Op(k) => (k as usize) < n,
        Item::Nop => true,
    }
}

/// Whether each number below `n` stands once.
fn are_all_there(items: &[Item], n: usize) -> bool
    ensures { IsTrue result ↔ ((k : ℕ) → k < n → times k (ops items.now) ≡ 1) }
{
    for k in 0..n {
        if times_standing(items, k) != 1 {
            return false;
        }
    }
    true
}

/// How often the number stands.
fn times_standing(items: &[Item], k: usize) -> usize
    ensures { result ≡ times k (ops items.now) }
{
    let mut count = 0;
    for item in items {
        if is_op(*item, k) {
            count += 1;
        }
    }
    count
}

fn is_op(item: Item, k: usize) -> bool
    ensures { IsTrue result ↔ (item ≡ Item.Op k) }
{
    match item {
        Item::Op(j) => j as usize == k,
        Item::Nop => false,
    }
}

/// Whether the terminator, if there is one, stands at the plan's place.
pub fn has_place(block: &Block, plan: &Plan) -> bool
    ensures { IsTrue result ↔ (falls block.now.end ≡ false
        → StandsAt (items_of plan.now) plan.now.place (length (insts_of block.now) - 1)) }
{
    match block.end {
        End::Falls => true,
        End::Halts | End::Branches { .. } | End::Calls { .. } | End::Jumps => {
            stands_at(
                plan.items.as_slice(),
                plan.place as usize,
                block.insts.len() - 1,
            )
        }
    }
}

/// Whether the number stands at the place.
fn stands_at(items: &[Item], place: usize, k: usize) -> bool
    ensures { IsTrue result ↔ StandsAt items.now place k }
{
    match items.get(place) {
        Some(item) => is_op(*item, k),
        None => false,
    }
}

/// Whether the plan has as many items as its place and the block's end ask for.
pub fn has_length(block: &Block, plan: &Plan) -> bool
    ensures { IsTrue result ↔ (length (items_of plan.now) ≡ plan.now.place + end_count block.now.end) }
{
    plan.items.len() == plan.place as usize + end_count(block.end)
}

/// Whether instructions in the opposite order of the source are independent. Only numbers of instructions stand, as
/// `stands_once` tells.
pub fn keeps_order(insts: &[Inst], items: &[Item], input: bool) -> bool
    requires { (p k : ℕ) → StandsAt items.now p k → k < length insts.now }
    ensures { IsTrue result ↔ KeepsOrder insts.now input items.now }
{
    for p in 0..items.len() {
        if !may_stand_before_rest(insts, items, p, input) {
            return false;
        }
    }
    true
}

/// Whether the item may stand before those behind it.
fn may_stand_before_rest(insts: &[Inst], items: &[Item], p: usize, input: bool) -> bool
    requires within { p < length items.now }
    requires known { (p k : ℕ) → StandsAt items.now p k → k < length insts.now }
    ensures { IsTrue result
        ↔ ((q k j : ℕ) → StandsAt items.now p k → StandsAt items.now q j → p < q → j < k
        → Independent (inst_at insts.now j) (inst_at insts.now k) input) }
{
    for q in p + 1..items.len() {
        if !may_stand_before(insts, items[p], items[q], input) {
            return false;
        }
    }
    true
}

/// Whether the first item may stand before the second.
fn may_stand_before(insts: &[Inst], first: Item, second: Item, input: bool) -> bool
    requires first { (k : ℕ) → first ≡ Item.Op k → k < length insts.now }
    requires second { (k : ℕ) → second ≡ Item.Op k → k < length insts.now }
    ensures { IsTrue result
        ↔ ((k j : ℕ) → first ≡ Item.Op k → second ≡ Item.Op j → j < k
        → Independent (inst_at insts.now j) (inst_at insts.now k) input) }
{
    match (first, second) {
        (Item::Op(k), Item::Op(j)) => {
            k <= j || are_independent(insts, j as usize, k as usize, input)
        }
        _ => true,
    }
}

/// Whether no load is directly followed by a reader of its register. Only numbers of instructions stand.
pub fn keeps_apart(insts: &[Inst], items: &[Item]) -> bool
    requires { (p k : ℕ) → StandsAt items.now p k → k < length insts.now }
    ensures { IsTrue result ↔ KeepsApart insts.now items.now }
{
    for p in 1..items.len() {
        if item_feeds(insts, items[p - 1], items[p]) {
            return false;
        }
    }
    true
}

/// Whether the first item is a load of a register that the second reads.
fn item_feeds(insts: &[Inst], first: Item, second: Item) -> bool
    requires first { (k : ℕ) → first ≡ Item.Op k → k < length insts.now }
    requires second { (k : ℕ) → second ≡ Item.Op k → k < length insts.now }
    ensures feeding { result ≡ true
        → (k : ℕ) × (j : ℕ) × (first ≡ Item.Op k) × (second ≡ Item.Op j) × (feeds (inst_at insts.now k) (inst_at insts.now j) ≡ true) }
    ensures apart { result ≡ false
        → (k j : ℕ) → first ≡ Item.Op k → second ≡ Item.Op j → feeds (inst_at insts.now k) (inst_at insts.now j) ≡ false }
{
    match (first, second) {
        (Item::Op(k), Item::Op(j)) => feeds_at(insts, k as usize, j as usize),
        _ => false,
    }
}

/// Whether the last item is not a load. Only numbers of instructions stand.
pub fn ends_without_load(insts: &[Inst], items: &[Item]) -> bool
    requires { (p k : ℕ) → StandsAt items.now p k → k < length insts.now }
    ensures { IsTrue result ↔ EndsWithoutLoad insts.now items.now }
{
    match items.last() {
        Some(last) => !item_loads(insts, *last),
        None => true,
    }
}

/// Whether the item is a load.
fn item_loads(insts: &[Inst], item: Item) -> bool
    requires { (k : ℕ) → item ≡ Item.Op k → k < length insts.now }
    ensures { IsTrue (not result) ↔ ((k : ℕ) → item ≡ Item.Op k → is_load (inst_at insts.now k) ≡ false) }
{
    match item {
        Item::Op(k) => loads_at(insts, k as usize),
        Item::Nop => false,
    }
}

fn are_independent(insts: &[Inst], j: usize, k: usize, input: bool) -> bool
    requires first { j < length insts.now }
    requires second { k < length insts.now }
    ensures { IsTrue result ↔ Independent (inst_at insts.now j) (inst_at insts.now k) input }
{
    independent(&insts[j], &insts[k], input)
}

fn feeds_at(insts: &[Inst], k: usize, j: usize) -> bool
    requires first { k < length insts.now }
    requires second { j < length insts.now }
    ensures { result ≡ feeds (inst_at insts.now k) (inst_at insts.now j) }
{
    feeds(&insts[k], &insts[j])
}

fn loads_at(insts: &[Inst], k: usize) -> bool
    requires { k < length insts.now }
    ensures { result ≡ is_load (inst_at insts.now k) }
{
    insts[k].is_load()
}
