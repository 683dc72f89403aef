//! Linking by what a scheduler proposes.
ghost use Rattle.std.specs.Prelude.{◌≡◌, ◌≤◌, ◌+◌, ◌*◌, IfOk, IfErr, cond, length};
ghost use Rattle.mx_blocks.specs.declared.block.Block.{Block};
ghost use Rattle.mx_blocks.specs.declared.block.Plan.{Plan};
ghost use Rattle.mx_validate.specs.Padded.{IsPadded};
ghost use Rattle.lab_measures.specs.Terms.{IsRefusal, from_target, from_nowhere, IsLinked, board};

use mx_blocks::{Block, Plan};
use mx_isa::BOARD;
use mx_link::{LinkError, Linked, link, link_plain};
use mx_source::Source;
use mx_validate::{Proposer, padded};
use std::alloc::Global;

/// Proposes the padded plan.
#[derive(Clone, Copy)]
pub struct PaddedProposer;

impl Proposer for PaddedProposer {
    ghost use Rattle.mx_validate.specs.Padded.{IsPadded};

    ghost proposes = { λ block plan. IsPadded block plan };

    fn propose(&mut self, block: &Block) -> Plan
        ensures { IsPadded block.now result }
    {
        padded(block)
    }
}

/// A source, linked at the board's place by what a proposer proposes, its slots filled from their targets or not.
///
/// # Errors
///
/// Those of `link`.
pub fn linked_with<P: Proposer>(
    alloc: Global,
    source: &Source,
    proposer: &mut P,
    copies: bool,
) -> Result<Linked, LinkError>
    ensures linked { IfOk result (IsLinked P.proposes (cond copies from_target from_nowhere) source.now board) }
    ensures refused { IfErr result (IsRefusal P.proposes source.now board) }
{
    let _statements = source.statements();
    if copies {
        link(alloc, source, BOARD, proposer)
    } else {
        link_plain(alloc, source, BOARD, proposer)
    }
}
