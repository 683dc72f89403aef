//! Why a source is not linked.
ghost use Rattle.std.specs.Prelude.{◌≡◌};
ghost use Rattle.mx_layout.specs.declared.error.LinkError.TheVariants.{Memory as OutOfMemory};

use mx_io::Memory;
use std::alloc::AllocError;
use thiserror::Error;

/// Why a source is not linked.
#[derive(Clone, Copy, Debug, PartialEq, Eq, Error)]
pub enum LinkError {
    /// The branch on the line, at one address, does not reach another: the displacement between them
    /// does not fit 16 bits. The addresses are those of the layout in which every block has its padded plan.
    #[error("line {line}: no displacement reaches from {from} to {to}")]
    Displacement { line: u32, from: u32, to: u32 },
    /// Memory ran out.
    #[error("out of memory")]
    Memory,
}

impl From<Memory> for LinkError {
    ghost from_gives = { λ _ e. e ≡ OutOfMemory };

    fn from(_: Memory) -> LinkError {
        LinkError::Memory
    }
}

impl From<AllocError> for LinkError {
    ghost from_gives = { λ _ e. e ≡ OutOfMemory };

    fn from(_: AllocError) -> LinkError {
        LinkError::Memory
    }
}
