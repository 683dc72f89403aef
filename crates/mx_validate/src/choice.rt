//! The choice of a plan.
ghost use Rattle.std.specs.Prelude.{◌≡◌, ◌↔◌, true, false, IsTrue};
ghost use Rattle.mx_validate.specs.Padded.{IsPadded};
ghost use Rattle.mx_validate.specs.Validity.{Valid};

use crate::{padded, valid};
use arrayvec::ArrayVec;
use mx_blocks::{Block, Plan};

/// What proposes a plan for each block.
///
/// Its meaning is the relation `proposes`, which each implementation states for itself and which does not
/// change with its state. A plan that is proposed need not be valid.
pub trait Proposer {
    ghost use Rattle.mx_blocks.specs.declared.block.Block.{Block};
    ghost use Rattle.mx_blocks.specs.declared.block.Plan.{Plan};

    ghost proposes: { Block → Plan → Type 0 };

    fn propose(&mut self, block: &Block) -> Plan
        ensures { proposes block.now result };
}

/// A proposal and the plan that was taken for it.
#[derive(Drop)]
pub struct Chosen {
    /// What the proposer answered.
    pub proposal: Plan,
    /// The proposal where it is valid, else the padded plan.
    pub plan: Plan,
    /// Whether the proposal is not valid.
    pub rejected: bool,
}

/// Asks for a plan of the block, and takes the padded plan in place of one that is not valid.
pub fn choose<P: Proposer>(block: &Block, proposer: &mut P) -> Chosen
    ensures proposes { P.proposes block.now result.proposal }
    ensures rejected { IsTrue result.rejected ↔ (¬ Valid block.now result.proposal) }
    ensures padded { result.rejected ≡ true → IsPadded block.now result.plan }
    ensures kept { result.rejected ≡ false → result.plan ≡ result.proposal }
    ensures valid { Valid block.now result.plan }
{
    let proposal = proposer.propose(block);
    let accepted = valid(block, &proposal);
    let plan = if accepted {
        copy_of(&proposal)
    } else {
        padded(block)
    };
    Chosen {
        proposal,
        plan,
        rejected: !accepted,
    }
}

fn copy_of(plan: &Plan) -> Plan
    ensures { result ≡ plan.now }
{
    let mut items = ArrayVec::new();
    // There is room for all of them, as there was in the plan.
    let _copied = items.try_extend_from_slice(plan.items.as_slice());
    Plan {
        items,
        place: plan.place,
    }
}
