//! Words as bytes, the most significant byte first.
ghost use Rattle.std.specs.Prelude.{◌≡◌, ◌≤◌, ◌<◌, ◌+◌, ◌*◌, ◌^◌, ◌++◌, length, drop, vec_len, IfOk, OnOk};
ghost use Rattle.mx_image.specs.Bytes.{word_bytes, words_bytes, number_at, numbers};

use byteorder::{BigEndian, ByteOrder};
use std::alloc::{AllocError, Global};

/// The number in the four bytes from an offset on.
pub fn number_at(bytes: &[u8], at: usize) -> u32
    requires { at + 4 ≤ length bytes.now }
    ensures { result ≡ number_at at bytes.now }
{
    BigEndian::read_u32(&bytes[at..])
}

/// This many words from an offset on.
pub fn words_at(
    alloc: Global,
    bytes: &[u8],
    at: usize,
    count: usize,
) -> Result<Vec<u32>, AllocError>
    requires { at + 4 * count ≤ length bytes.now }
    ensures words { IfOk result (λ v. v.items ≡ numbers count (drop at bytes.now)) }
    ensures len { IfOk result (λ v. vec_len v ≡ count) }
{
    let mut words = Vec::with_capacity(alloc, count)?;
    for k in 0..count {
        words.push(number_at(bytes, at + 4 * k))?;
    }
    Ok(words)
}

/// Adds a word's bytes.
fn push_word(out: &mut Vec<u8>, word: u32) -> Result<(), AllocError>
    ensures { OnOk result (out.new.items ≡ out.old.items ++ word_bytes word) }
{
    let mut bytes = [0u8; 4];
    BigEndian::write_u32(&mut bytes, word);
    out.extend_from_slice(&bytes)
}

/// Adds the bytes of words.
pub fn push_words(out: &mut Vec<u8>, words: &[u32]) -> Result<(), AllocError>
    ensures { OnOk result (out.new.items ≡ out.old.items ++ words_bytes words.now) }
{
    for word in words {
        push_word(out, *word)?;
    }
    Ok(())
}
