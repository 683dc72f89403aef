//! Blocks and plans.
ghost use Rattle.std.specs.Prelude.{◌≡◌, true};
ghost use Rattle.mx_blocks.specs.Ends.{GoesOn, ends_as};

use arrayvec::ArrayVec;
use mx_isa::Inst;

/// How a block ends. A target is the index of a statement, or the number of statements.
#[derive(Clone, Copy, Debug, PartialEq, Eq)]
pub enum End {
    /// It goes on to the next statement.
    Falls,
    /// It ends with a halt.
    Halts,
    /// It ends with a conditional branch, `b` among them.
    Branches { target: u32 },
    /// It ends with a `call`.
    Calls { target: u32 },
    /// It ends with a `callr` or `jr`, whose target is a register's value.
    Jumps,
}

/// A run of statements that is entered at its first one alone and left after its last, as instructions.
///
/// Displacements and code addresses that are not known yet are 0. Every instruction but the last is
/// neither a transfer nor a halt, and the last is what `end` says.
#[derive(Drop)]
pub struct Block {
    /// The index of its first statement.
    pub first: u32,
    pub insts: ArrayVec<Inst, 64>,
    pub end: End,
    /// Whether the source has input, so that loads keep their order.
    pub input: bool,
    ghost last: { ends_as end insts.items ≡ true },
    ghost body: { GoesOn insts.items },
}

/// What stands at one place of a plan: an instruction of the block by its number, or a no-op.
#[derive(Clone, Copy, Debug, PartialEq, Eq)]
pub enum Item {
    Op(u8),
    Nop,
}

impl Default for Item {
    fn default() -> Item
        ensures { result ≡ Item.Nop }
    {
        Item::Nop
    }
}

/// An order in which the instructions of a block may stand, with no-ops among them.
///
/// `place` is where the terminator stands, or the number of items in the plan of a block that falls through.
#[derive(Drop)]
pub struct Plan {
    pub items: ArrayVec<Item, 131>,
    pub place: u8,
}
