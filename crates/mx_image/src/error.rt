//! Why bytes are no image file.
ghost use Rattle.mx_image.specs.declared.error.ImageError.TheVariants.{Memory};
ghost use Rattle.std.specs.Prelude.{◌≡◌};

use std::alloc::{AllocError, AllocFailed};
use thiserror::Error;

/// Why bytes are no image file. Offsets count bytes from 0; the first cause in the order of the file is answered.
#[derive(Clone, Copy, Debug, PartialEq, Eq, Error)]
pub enum ImageError {
    /// One of the first four bytes, as far as they are there, is not that of `MXIM`.
    #[error("no image file")]
    BadMagic,
    /// The bytes end here, before the file does.
    #[error("the file ends at byte {at}")]
    Truncated { at: u64 },
    /// The number at this offset is out of its range.
    #[error("the number at byte {at} is out of range")]
    BadRange { at: u64 },
    /// The file ends here, and more bytes follow.
    #[error("more bytes from byte {at} on")]
    Trailing { at: u64 },
    /// Memory ran out.
    #[error("out of memory")]
    Memory,
}

impl From<AllocError> for ImageError {
    ghost from_gives = { λ _ e. e ≡ Memory };

    fn from(_fault: AllocError) -> ImageError {
        ImageError::Memory
    }
}

impl<T: Drop> From<AllocFailed<T>> for ImageError {
    ghost from_gives = { λ _ e. e ≡ Memory };

    fn from(_fault: AllocFailed<T>) -> ImageError {
        ImageError::Memory
    }
}
