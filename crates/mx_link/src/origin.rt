//! Where the words of a block come from.
ghost use Rattle.std.specs.Prelude.{◌≡◌, ◌<◌, ◌≤◌, ◌+◌};
ghost use Rattle.mx_isa.specs.declared.board.TheConstants.{MAX_STATEMENTS};
ghost use Rattle.mx_link.specs.Origins.{goal_of, own, over, copied_to};

use crate::Origin;
use mx_blocks::{Block, End, Item, Plan};
use mx_squash::Copied;

/// The statement to which a block goes by its label.
fn goal_of(end: End) -> u32
    ensures { result ≡ goal_of end }
{
    match end {
        End::Branches { target } => target,
        End::Calls { target } => target,
        End::Falls | End::Halts | End::Jumps => 0,
    }
}

/// An item of the block that begins at a statement.
fn own(first: u32, item: Item) -> Origin
    requires { first ≤ MAX_STATEMENTS }
    ensures { result ≡ own first item }
{
    match item {
        Item::Op(k) => Origin::Own(first + u32::from(k)),
        Item::Nop => Origin::Pad,
    }
}

/// An item that is copied from the block that begins at a statement, over what its slot holds.
fn over(goal: u32, item: Item, kept: Origin) -> Origin
    requires { goal ≤ MAX_STATEMENTS }
    ensures { result ≡ over goal item kept }
{
    match item {
        Item::Op(k) => Origin::Copy(goal + u32::from(k)),
        Item::Nop => kept,
    }
}

/// What is copied to place `p`.
fn copied_to(copied: &Copied, place: u8, p: usize) -> Item
    ensures { result ≡ copied_to copied.now place p }
{
    let [first, second] = copied.from;
    let place = place as usize;
    if p == place + 1 {
        first
    } else if p == place + 2 {
        second
    } else {
        Item::Nop
    }
}

/// Where the word at place `p` of a block's plan comes from.
pub(crate) fn origin_at(block: &Block, plan: &Plan, copied: &Copied, p: usize, item: Item) -> Origin
    requires first { block.now.first ≤ MAX_STATEMENTS }
    requires goal { goal_of block.now.end ≤ MAX_STATEMENTS }
    ensures { result ≡ over (goal_of block.now.end) (copied_to copied.now plan.now.place p) (own block.now.first item) }
{
    over(
        goal_of(block.end),
        copied_to(copied, plan.place, p),
        own(block.first, item),
    )
}
