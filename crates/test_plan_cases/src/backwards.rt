//! A proposer whose plans are mostly not lawful.
ghost use Rattle.std.specs.Prelude.{◌≡◌, ◌≤◌, length};

use arrayvec::ArrayVec;
use mx_blocks::{Block, End, Item, Plan};
use mx_validate::Proposer;

/// Proposes the body backwards, then the terminator, then no-ops in its slots.
#[derive(Clone, Copy)]
pub struct Backwards;

impl Proposer for Backwards {
    ghost use Rattle.mx_blocks.specs.declared.Block.{Block};
    ghost use Rattle.mx_blocks.specs.declared.Plan.{Plan};

    ghost proposes = { λ (block : Block) (plan : Plan). Unit {0} };

    fn propose(&mut self, block: &Block) -> Plan {
        let body = body_count(block);
        let mut items = reversed(body);
        let place = body as u8;
        if body < block.insts.len() {
            items.push(Item::Op(place));
        }
        if !matches!(block.end, End::Falls | End::Halts) {
            items.push(Item::Nop);
            items.push(Item::Nop);
        }
        Plan { items, place }
    }
}

/// The number of instructions before the terminator.
fn body_count(block: &Block) -> usize
    ensures { result ≤ 64 }
{
    let count = block.insts.len();
    match block.end {
        End::Falls => count,
        _ => count.saturating_sub(1),
    }
}

/// The first instructions, the last of them first.
fn reversed(count: usize) -> ArrayVec<Item, 131>
    requires { count ≤ 64 }
    ensures { length result.items ≡ count }
{
    let mut items = ArrayVec::new();
    for k in 0..count {
        items.push(Item::Op((count - 1 - k) as u8));
    }
    items
}
