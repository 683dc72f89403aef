//! The shortest plan.
ghost use Rattle.std.specs.Prelude.{◌≡◌, ◌≤◌, ◌+◌, ℕ, IfSome, IfNone, length, replicate};
ghost use Rattle.mx_blocks.specs.declared.block.Plan.{Plan};
ghost use Rattle.mx_blocks.specs.Leaders.{size};
ghost use Rattle.mx_validate.specs.Padded.{items_of};
ghost use Rattle.mx_validate.specs.Validity.{Valid, end_count};
ghost use Rattle.mx_reorg.specs.Greedy.{IsGreedy};
ghost use Rattle.mx_best.specs.Shortest.{IsShortest, most_searched};

use crate::search::fill;
use arrayvec::ArrayVec;
use mx_blocks::{Block, Item, Plan};
use mx_reorg::ListProposer;
use mx_validate::Proposer;

/// The greatest number of instructions of a block whose shortest plan is looked for.
pub const MOST_SEARCHED: usize = 8;

/// A valid plan of a block of at most `MOST_SEARCHED` instructions; no valid plan of it has fewer items. Where the greedy
/// plan is such a plan, it is the answer.
///
/// The greedy plan bounds the length, and each shorter length is searched, the least first.
pub fn best(block: &Block) -> Plan
    requires { size block.now ≤ most_searched }
    ensures shortest { IsShortest block.now result }
    ensures greedy { (plan : Plan) → IsGreedy block.now plan → IsShortest block.now plan → result ≡ plan }
{
    let mut scheduler = ListProposer;
    let greedy = scheduler.propose(block);
    let tail = greedy.items.len() - greedy.place as usize;
    for place in block.insts.len().saturating_sub(tail)..greedy.place as usize {
        if let Some(plan) = plan_with(block, place, tail) {
            return plan;
        }
    }
    greedy
}

/// A valid plan with the terminator at this place, if there is one; `tail` items stand from there on.
fn plan_with(block: &Block, place: usize, tail: usize) -> Option<Plan>
    requires tail { tail ≡ end_count block.now.end }
    requires enough { size block.now ≤ place + tail }
    requires room { place + tail ≤ 131 }
    ensures found { IfSome result (λ plan. (plan.place ≡ place) × Valid block.now plan) }
    ensures none { IfNone result ((other : Plan) → other.place ≡ place → ¬ Valid block.now other) }
{
    let count = place + tail;
    let mut plan = Plan {
        items: no_ops(count),
        place: place as u8,
    };
    if fill(block, &mut plan, count, count - block.insts.len()) {
        Some(plan)
    } else {
        None
    }
}

/// A list of this many no-ops.
fn no_ops(count: usize) -> ArrayVec<Item, 131>
    requires { count ≤ 131 }
    ensures { result.items ≡ replicate count Item.Nop }
{
    let mut items = ArrayVec::new();
    for _i in 0..count {
        items.push(Item::Nop);
    }
    items
}
