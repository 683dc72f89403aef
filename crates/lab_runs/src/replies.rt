//! Replies of texts.
ghost use Rattle.std.specs.Prelude.{◌≡◌, if◌then◌else◌, Ok, Err, MatchResult};
ghost use Rattle.std.specs.Result.{result_ok};
ghost use Rattle.lab_failure.specs.declared.failure.LabFailure.TheVariants as failure;

use cmd_answer::{Reply, Status};
use lab_failure::LabFailure;
use mx_io::Memory;
use std::alloc::AllocError;

/// A text, or that there was no memory for it.
pub fn or_memory(text: Result<Vec<u8>, AllocError>) -> Result<Vec<u8>, Memory>
    ensures { result_ok result ≡ result_ok text }
{
    match text {
        Ok(text) => Ok(text),
        Err(_) => Err(Memory),
    }
}

/// The reply that prints a text and ends with a status. Where there is no text, there was no memory for it.
pub fn printed<'w>(status: Status, text: Result<Vec<u8>, Memory>) -> Result<Reply, LabFailure<'w>>
    ensures { MatchResult text (λ output. result ≡ Ok (Reply.Prints status output)) (λ _. result ≡ Err failure.Memory) }
{
    match text {
        Ok(output) => Ok(Reply::Prints { status, output }),
        Err(_) => Err(LabFailure::Memory),
    }
}

/// How a command ends that tells of runs: whether they halted.
pub fn run_status(halted: bool) -> Status
    ensures { result ≡ if halted then Status.Done else Status.OutOfBudget }
{
    if halted {
        Status::Done
    } else {
        Status::OutOfBudget
    }
}
