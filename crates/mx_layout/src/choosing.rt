//! The plans that are taken for the blocks.
ghost use Rattle.std.specs.Prelude.{◌≡◌, ◌<◌, ◌+◌, ◌^◌, ◌++◌, ◌∷◌, [], ℕ, List, IfOk, OnOk, length, if◌then◌else◌};
ghost use Rattle.mx_squash.specs.Copies.{sites};
ghost use Rattle.mx_layout.specs.Kept.{AreKept};

use mx_blocks::{Block, Plan};
use mx_validate::{Chosen, Proposer, choose};
use std::alloc::{AllocError, Global};

/// What was proposed and taken for blocks, in their order.
#[derive(Drop)]
pub(crate) struct Choices {
    pub(crate) proposals: Vec<Plan>,
    pub(crate) plans: Vec<Plan>,
    /// How many proposals are not valid.
    pub(crate) rejected: u32,
}

impl Choices {
    fn add(&mut self, chosen: Chosen) -> Result<(), AllocError>
        requires { self.old.rejected + 1 < 2 ^ 32 }
        ensures proposals { OnOk result (self.new.proposals.items ≡ self.old.proposals.items ++ chosen.proposal ∷ []) }
        ensures plans { OnOk result (self.new.plans.items ≡ self.old.plans.items ++ chosen.plan ∷ []) }
        ensures rejected { OnOk result (self.new.rejected ≡ (if chosen.rejected then self.old.rejected + 1 else self.old.rejected)) }
    {
        if chosen.rejected {
            self.rejected += 1;
        }
        self.proposals.push(chosen.proposal)?;
        self.plans.push(chosen.plan)?;
        Ok(())
    }
}

/// Asks for a plan of each block, and takes the padded one in place of each that is not valid.
pub(crate) fn choose_all<P: Proposer>(
    alloc: Global,
    blocks: &[Block],
    proposer: &mut P,
) -> Result<Choices, AllocError>
    requires { length blocks.now < 2 ^ 32 }
    ensures plans { IfOk result (λ c. length c.plans.items ≡ length blocks.now) }
    ensures kept { IfOk result (λ c. (starts : List ℕ) → length starts ≡ length blocks.now
        → AreKept P.proposes c.rejected (sites blocks.now c.plans.items starts) c.proposals.items) }
{
    let mut choices = Choices {
        proposals: Vec::new(alloc),
        plans: Vec::new(alloc),
        rejected: 0,
    };
    for block in blocks {
        choices.add(choose(block, proposer))?;
    }
    Ok(choices)
}
