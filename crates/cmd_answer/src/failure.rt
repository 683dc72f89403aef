//! Why a step of a command gives no value.
ghost use Rattle.std.specs.Prelude.{◌≡◌};
ghost use Rattle.cmd_answer.specs.Replies.{replied};
ghost use Rattle.cmd_answer.specs.declared.failure.Failure.TheVariants as failure;

use crate::Reply;
use mx_io::Memory;
use std::alloc::AllocError;

/// Why a step of a command gives no value: the command is answered already, or memory ran out.
#[derive(Drop)]
pub enum Failure {
    /// The reply to what is wrong.
    Answered(Reply),
    Memory,
}

impl From<Memory> for Failure {
    ghost from_gives = { λ _ e. e ≡ failure.Memory };

    fn from(_fault: Memory) -> Failure {
        Failure::Memory
    }
}

impl From<AllocError> for Failure {
    ghost from_gives = { λ _ e. e ≡ failure.Memory };

    fn from(_fault: AllocError) -> Failure {
        Failure::Memory
    }
}

/// The reply to a command, whichever of its steps gave it.
pub fn replied(outcome: Result<Reply, Failure>) -> Result<Reply, Memory>
    ensures { result ≡ replied outcome }
{
    match outcome {
        Ok(reply) | Err(Failure::Answered(reply)) => Ok(reply),
        Err(Failure::Memory) => Err(Memory),
    }
}
