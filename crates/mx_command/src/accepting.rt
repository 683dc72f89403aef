//! Of which texts the headline speaks.
ghost use Rattle.std.specs.Prelude.{◌≡◌, ◌≤◌, length, true, IfOk, List, ℕ, None, Some, Ok};
ghost use Rattle.mx_isa.specs.declared.board.TheConstants.{DATA_BASE, DATA_END};
ghost use Rattle.mx_io.specs.declared.limits.TheConstants.{MAX_SOURCE_BYTES, MAX_FILE_BYTES};
ghost use Rattle.mx_asm.specs.Texts.{source_of, text_fault};
ghost use Rattle.cmd_options.specs.declared.Limits.{Limits};
ghost use Rattle.mx_command.specs.Terms.{requests_of, Site, IsLayout, blocks_in, overlong, IsGreedy, from_target, IsLinked, board, CanBeRun, Held};

use cmd_answer::Failure;
use cmd_source::{assembled, linked_source};
use mx_board::{EventError, Requests};
use mx_io::Memory;
use mx_link::Linked;
use std::alloc::Global;

// Whether an interrupt file is well formed.
fn are_requests(alloc: Global, bytes: &[u8]) -> Result<bool, Memory>
    requires { length bytes.now ≤ MAX_FILE_BYTES }
    ensures { IfOk result (λ are. are ≡ true → (requests : List ℕ) × (requests_of bytes.now ≡ Ok requests)) }
{
    match Requests::parse(alloc, bytes) {
        Ok(_) => Ok(true),
        Err(EventError::Memory) => Err(Memory),
        _ => Ok(false),
    }
}

// The program of a text, linked by greedy plans.
fn linked(alloc: Global, text: &[u8]) -> Result<Linked, Failure>
    requires { length text.now ≤ MAX_SOURCE_BYTES }
    ensures faultless { IfOk result (λ _. text_fault DATA_BASE DATA_END text.now ≡ None) }
    ensures linked { IfOk result (IsLinked IsGreedy from_target (source_of DATA_BASE text.now) board) }
{
    let source = assembled(alloc, text)?;
    linked_source(alloc, &source)
}

// Whether a text has no fault, and each branch of its source, laid out by greedy plans, reaches its target.
fn is_linkable(alloc: Global, text: &[u8]) -> Result<bool, Memory>
    requires { length text.now ≤ MAX_SOURCE_BYTES }
    ensures { IfOk result (λ can. can ≡ true → (text_fault DATA_BASE DATA_END text.now ≡ None)
        × (sites : List Site) × IsLayout IsGreedy (source_of DATA_BASE text.now) board sites
        × (overlong (source_of DATA_BASE text.now) board (blocks_in sites) ≡ None)) }
{
    match linked(alloc, text) {
        Ok(_) => Ok(true),
        Err(Failure::Answered(_)) => Ok(false),
        Err(Failure::Memory) => Err(Memory),
    }
}

/// Whether the text has no fault, none of its branches is overlong, and the interrupt file is well formed: then the headline
/// speaks of `run` of this text under these interrupts, whatever the two files are called and whatever the limits are.
#[tactic(auto, using(crate::proofs::Premises::can_be))]
pub fn can_be_run(alloc: Global, text: &[u8], interrupts: &[u8]) -> Result<bool, Memory>
    requires text { length text.now ≤ MAX_SOURCE_BYTES }
    requires interrupts { length interrupts.now ≤ MAX_FILE_BYTES }
    ensures { IfOk result (λ can. can ≡ true → CanBeRun text.now interrupts.now) }
{
    if is_linkable(alloc, text)? {
        let wanted = are_requests(alloc, interrupts)?;
        return Ok(wanted);
    }
    Ok(false)
}
