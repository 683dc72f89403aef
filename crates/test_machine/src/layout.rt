//! The layout, by plans that are kept and by plans that are longer than they may be.
use crate::programs::COUNTS_DOWN;
use crate::same::same;
use arrayvec::ArrayVec;
use mx_asm::assemble;
use mx_blocks::{Block, Item, Plan};
use mx_isa::Place;
use mx_layout::{Layout, lay_out};
use mx_validate::Proposer;
use std::alloc::Global;
use std::test::Fail;

/// Proposes these items and the terminator behind two of them, whatever the block is.
#[derive(Clone, Copy)]
struct Proposes(&'static [Item]);

impl Proposer for Proposes {
    ghost proposes = { λ _ _. Unit {0} };

    fn propose(&mut self, _block: &Block) -> Plan {
        let mut items = ArrayVec::new();
        for item in self.0 {
            let _ = items.try_push(*item);
        }
        Plan { items, place: 2 }
    }
}

/// The first two instructions in the opposite order.
static SWAPPED: [Item; 2] = [Item::Op(1), Item::Op(0)];

/// A no-op, and behind it the first two instructions.
static WAITING: [Item; 3] = [Item::Nop, Item::Op(0), Item::Op(1)];

/// The layout of a text at the board's place.
fn laid_out(alloc: Global, text: &[u8], items: &'static [Item]) -> Result<Layout, Fail> {
    if text.len() > 1000 {
        return Err("too long".into());
    }
    let source = assemble(alloc, text)?;
    let _few = source.statements();
    let layout = lay_out(alloc, &source, Place::board(), &mut Proposes(items));
    drop(source);
    Ok(layout?)
}

/// Whether blocks and statements have these addresses, and how many proposals were rejected and made.
fn told(layout: Layout, starts: &[u32], links: &[u32]) -> (bool, u32, usize) {
    let right = layout.starts.as_slice() == starts && layout.links.as_slice() == links;
    (right, layout.rejected, layout.proposals.len())
}

#[test]
fn a_valid_proposal_is_kept(rt: HostRuntime) -> Result<(), Fail> {
    let layout = laid_out(rt.alloc(), COUNTS_DOWN, &SWAPPED)?;
    let starts = [4096, 4098, 4103];
    let links = [4096, 4096, 4098, 4098, 4098, 4103, 4104];
    same(&rt, &told(layout, &starts, &links), &(true, 2, 3));
    Ok(())
}

#[test]
fn a_plan_longer_than_the_padded_one_is_rejected(rt: HostRuntime) -> Result<(), Fail> {
    let layout = laid_out(rt.alloc(), b"addi r0,#1,r1\nhalt\n", &WAITING)?;
    same(
        &rt,
        &told(layout, &[4096], &[4096, 4096, 4098]),
        &(true, 1, 1),
    );
    Ok(())
}
