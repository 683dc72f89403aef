//! The lengths of a block's plans.
ghost use Rattle.std.specs.Prelude.{◌≡◌, length};
ghost use Rattle.mx_best.specs.Shortest.{IsProposed};
ghost use Rattle.mx_reorg.specs.Greedy.{IsGreedy};
ghost use Rattle.mx_validate.specs.Padded.{IsPadded, items_of};
ghost use Rattle.lab_blocks.specs.Lengths.{HasLength};

use mx_best::BestProposer;
use mx_blocks::{Block, Plan};
use mx_reorg::ListProposer;
use mx_validate::{Proposer, padded};

/// How many words a block has by each scheduler. Copies fill slots, so that a block with copies is as long as without them.
#[derive(Clone, Copy, Debug, PartialEq, Eq)]
pub struct Lengths {
    /// By its padded plan.
    pub padded: u8,
    /// By its greedy plan.
    pub list: u8,
    /// By its shortest plan where it is small, else by its greedy plan.
    pub best: u8,
}

fn length_of(plan: &Plan) -> u8
    ensures { result ≡ length (items_of plan.now) }
{
    plan.items.len() as u8
}

/// How many words the block has by each scheduler.
pub fn lengths_of(block: &Block) -> Lengths
    ensures padded { HasLength IsPadded block.now result.padded }
    ensures list { HasLength IsGreedy block.now result.list }
    ensures best { HasLength IsProposed block.now result.best }
{
    let (mut list, mut best) = (ListProposer, BestProposer);
    Lengths {
        padded: length_of(&padded(block)),
        list: length_of(&list.propose(block)),
        best: length_of(&best.propose(block)),
    }
}
