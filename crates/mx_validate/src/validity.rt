//! The test whether a plan is valid.
ghost use Rattle.std.specs.Prelude.{◌≡◌, ◌↔◌, ◌-◌, ◌+◌, false, IsTrue, length};
ghost use Rattle.mx_blocks.specs.Items.{StandsAt};
ghost use Rattle.mx_validate.specs.Padded.{insts_of, items_of, falls};
ghost use Rattle.mx_validate.specs.Validity.{Valid, end_count};

use crate::padded;
use crate::rules::{
    ends_without_load, has_length, has_place, keeps_apart, keeps_order, stands_once,
};
use mx_blocks::{Block, Plan};

/// Whether the plan is one in which the block may be laid out:
///
/// - each instruction of the block stands once, and the terminator at the stated place;
/// - two items follow a transfer, and nothing a halt;
/// - instructions in the opposite order of the source are independent, the terminator among them;
/// - no load is directly followed by a reader of its register, and the last item is not a load;
/// - no more items stand before the terminator's place than in the padded plan.
pub fn valid(block: &Block, plan: &Plan) -> bool
    ensures { IsTrue result ↔ Valid block.now plan.now }
{
    let insts = block.insts.as_slice();
    let items = plan.items.as_slice();
    if !stands_once(items, insts.len()) || !has_end(block, plan) {
        return false;
    }
    if !keeps_order(insts, items, block.input) {
        return false;
    }
    if !keeps_apart(insts, items) || !ends_without_load(insts, items) {
        return false;
    }
    plan.place <= padded(block).place
}

/// Whether the list ends as the block does, with the terminator at the plan's place.
fn has_end(block: &Block, plan: &Plan) -> bool
    ensures { IsTrue result
        ↔ ((length (items_of plan.now) ≡ plan.now.place + end_count block.now.end)
        × (falls block.now.end ≡ false → StandsAt (items_of plan.now) plan.now.place (length (insts_of block.now) - 1))) }
{
    has_length(block, plan) && has_place(block, plan)
}
