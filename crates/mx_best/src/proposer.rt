//! The proposer of shortest plans.
ghost use Rattle.mx_best.specs.Shortest.{IsProposed};

use crate::best;
use crate::shortest::MOST_SEARCHED;
use mx_blocks::{Block, Plan};
use mx_reorg::ListProposer;
use mx_validate::Proposer;

/// Proposes a shortest plan for a block of at most `MOST_SEARCHED` instructions, and the greedy plan for any other.
#[derive(Clone, Copy, Debug, PartialEq, Eq)]
pub struct BestProposer;

impl Proposer for BestProposer {
    ghost use Rattle.mx_best.specs.Shortest.{IsProposed};

    ghost proposes = { λ block plan. IsProposed block plan };

    fn propose(&mut self, block: &Block) -> Plan
        ensures { IsProposed block.now result }
    {
        if block.insts.len() <= MOST_SEARCHED {
            best(block)
        } else {
            let mut scheduler = ListProposer;
            scheduler.propose(block)
        }
    }
}
