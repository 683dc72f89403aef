//! What both versions have: the magic, fields of four bytes, and an end.
ghost use Rattle.std.specs.Prelude.{◌≡◌, ◌≤◌, ◌+◌, length, Some, None, MatchResult, IfOk, OnOk};
ghost use Rattle.mx_image.specs.Bytes.{number_at};
ghost use Rattle.mx_image.specs.Files.{or_next, magic_refusal, short_refusal, long_refusal, field_refusal};

use crate::ImageError;
use crate::words::number_at;

/// The first bytes of every image file.
pub const MAGIC: [u8; 4] = *b"MXIM";

/// How many words of each sort a file has.
#[derive(Clone, Copy)]
pub struct Sizes {
    pub code: usize,
    pub user_data: usize,
    pub links: usize,
}

/// Refuses bytes that are not the magic's, as far as they are there.
fn check_magic(bytes: &[u8]) -> Result<(), ImageError>
    ensures { MatchResult result (λ _. magic_refusal bytes.now ≡ None) (λ e. magic_refusal bytes.now ≡ Some e) }
{
    let front = if bytes.len() < 4 { bytes } else { &bytes[..4] };
    if MAGIC.starts_with(front) {
        Ok(())
    } else {
        Err(ImageError::BadMagic)
    }
}

/// Refuses bytes that end before `end`.
pub fn check_short(bytes: &[u8], end: usize) -> Result<(), ImageError>
    ensures cause { MatchResult result (λ _. short_refusal end bytes.now ≡ None) (λ e. short_refusal end bytes.now ≡ Some e) }
    ensures room { OnOk result (end ≤ length bytes.now) }
{
    if bytes.len() < end {
        return Err(ImageError::Truncated {
            at: bytes.len() as u64,
        });
    }
    Ok(())
}

/// Refuses bytes that go on after `end`.
pub fn check_long(bytes: &[u8], end: usize) -> Result<(), ImageError>
    ensures cause { MatchResult result (λ _. long_refusal end bytes.now ≡ None) (λ e. long_refusal end bytes.now ≡ Some e) }
    ensures room { OnOk result (length bytes.now ≤ end) }
{
    if bytes.len() > end {
        return Err(ImageError::Trailing { at: end as u64 });
    }
    Ok(())
}

/// Refuses bytes that do not begin with the magic and a version.
pub fn check_head(bytes: &[u8]) -> Result<(), ImageError>
    ensures magic { MatchResult result (λ _. or_next (magic_refusal bytes.now) (short_refusal 8 bytes.now) ≡ None)
        (λ e. or_next (magic_refusal bytes.now) (short_refusal 8 bytes.now) ≡ Some e) }
    ensures room { OnOk result (8 ≤ length bytes.now) }
{
    check_magic(bytes)?;
    check_short(bytes, 8)
}

/// The number of a field, which is `most` at most.
pub fn field(bytes: &[u8], at: usize, most: u32) -> Result<usize, ImageError>
    requires { at ≤ 20 }
    ensures cause { MatchResult result (λ _. field_refusal at most bytes.now ≡ None) (λ e. field_refusal at most bytes.now ≡ Some e) }
    ensures value { IfOk result (λ n. n ≡ number_at at bytes.now) }
    ensures within { IfOk result (λ n. n ≤ most) }
    ensures room { OnOk result (at + 4 ≤ length bytes.now) }
{
    check_short(bytes, at + 4)?;
    let n = number_at(bytes, at);
    if n > most {
        return Err(ImageError::BadRange { at: at as u64 });
    }
    Ok(n as usize)
}
