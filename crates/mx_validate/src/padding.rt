//! The padded plan.
ghost use Rattle.std.specs.Prelude.{◌≡◌, ◌≤◌, ◌+◌, ◌++◌, ◌∷◌, length};
ghost use Rattle.arrayvec.specs.ArrayVec.{array_vec_len};
ghost use Rattle.mx_validate.specs.Padded.{IsPadded, no_ops_after};
ghost use Rattle.mx_validate.specs.Validity.{Valid, end_count};

use arrayvec::ArrayVec;
use mx_blocks::{Block, End, Item, Plan};
use mx_isa::Inst;

/// The plan that is lawful for every block: the source order, with one no-op after each load and two
/// after a transfer.
pub fn padded(block: &Block) -> Plan
    ensures padded { IsPadded block.now result }
    ensures valid { Valid block.now result }
{
    let mut items = ArrayVec::new();
    for k in 0..block.insts.len() {
        push_padded(&mut items, k as u8, &block.insts[k]);
    }
    let place = (items.len() - end_count(block.end)) as u8;
    Plan { items, place }
}

/// Appends an instruction and the no-ops after it.
fn push_padded(items: &mut ArrayVec<Item, 131>, k: u8, inst: &Inst)
    requires { array_vec_len items.old + 3 ≤ 131 }
    ensures { items.new.items ≡ items.old.items ++ Item.Op k ∷ no_ops_after inst.now }
{
    items.push(Item::Op(k));
    if inst.is_load() {
        items.push(Item::Nop);
    } else if inst.is_transfer() {
        items.push(Item::Nop);
        items.push(Item::Nop);
    }
}

/// The number of items from the terminator on.
pub(crate) fn end_count(end: End) -> usize
    ensures { result ≡ end_count end }
{
    match end {
        End::Falls => 0,
        End::Halts => 1,
        End::Branches { .. } | End::Calls { .. } | End::Jumps => 3,
    }
}
