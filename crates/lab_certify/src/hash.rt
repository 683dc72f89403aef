//! The hash of a source.
ghost use Rattle.std.specs.Prelude.{◌≡◌, IfOk};
ghost use Rattle.std.specs.String.{string_bytes};
ghost use Rattle.lab_certify.specs.Hash.{hash_digits};

use sha2::{Digest, Sha256};
use std::alloc::{AllocError, Global};

/// The SHA-256 of bytes, as 64 hexadecimal digits.
pub fn hash_digits(alloc: Global, bytes: &[u8]) -> Result<String, AllocError>
    ensures { IfOk result (λ digits. string_bytes digits ≡ hash_digits bytes.now) }
{
    let mut hasher = Sha256::new();
    hasher.update(bytes);
    let digest: [u8; 32] = hasher.finalize();
    hex::encode(alloc, digest)
}
