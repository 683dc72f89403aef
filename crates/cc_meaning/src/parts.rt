//! Loads and stores of a word and of its parts.
ghost use Rattle.std.specs.Prelude.{◌≡◌, ◌<◌};
ghost use Rattle.cc_meaning.specs.Memory;

use crate::value::{Bytes, UNSPECIFIED, Value, Why, half_of, value_of};
use cc_lines::Width;

/// The byte with a number, from 0 at the most significant one to 3.
fn byte_at(bytes: Bytes, at: u32) -> Option<u8>
    ensures { result ≡ Memory.byte_at bytes at }
{
    match at {
        0 => bytes.first,
        1 => bytes.second,
        2 => bytes.third,
        _ => bytes.fourth,
    }
}

/// The bytes with another one at this number.
pub(crate) fn with_byte(bytes: Bytes, at: u32, byte: Option<u8>) -> Bytes
    ensures { result ≡ Memory.with_byte bytes at byte }
{
    let Bytes {
        first,
        second,
        third,
        fourth,
    } = bytes;
    match at {
        0 => Bytes {
            first: byte,
            second,
            third,
            fourth,
        },
        1 => Bytes {
            first,
            second: byte,
            third,
            fourth,
        },
        2 => Bytes {
            first,
            second,
            third: byte,
            fourth,
        },
        _ => Bytes {
            first,
            second,
            third,
            fourth: byte,
        },
    }
}

/// The bytes of a word from this one on, and after them the last ones of a register: `lwl`.
fn left_loaded(word: Bytes, at: u32, register: Bytes) -> Bytes
    ensures { result ≡ Memory.left_loaded word at register }
{
    match at {
        0 => word,
        1 => Bytes {
            first: word.second,
            second: word.third,
            third: word.fourth,
            fourth: register.fourth,
        },
        2 => Bytes {
            first: word.third,
            second: word.fourth,
            third: register.third,
            fourth: register.fourth,
        },
        _ => Bytes {
            first: word.fourth,
            second: register.second,
            third: register.third,
            fourth: register.fourth,
        },
    }
}

/// The first bytes of a register, and after them those of a word up to this one: `lwr`.
fn right_loaded(word: Bytes, at: u32, register: Bytes) -> Bytes
    ensures { result ≡ Memory.right_loaded word at register }
{
    match at {
        0 => Bytes {
            first: register.first,
            second: register.second,
            third: register.third,
            fourth: word.first,
        },
        1 => Bytes {
            first: register.first,
            second: register.second,
            third: word.first,
            fourth: word.second,
        },
        2 => Bytes {
            first: register.first,
            second: word.first,
            third: word.second,
            fourth: word.third,
        },
        _ => word,
    }
}

/// The word after the first bytes of a register are stored from this byte on: `swl`.
fn left_stored(word: Bytes, at: u32, register: Bytes) -> Bytes
    ensures { result ≡ Memory.left_stored word at register }
{
    match at {
        0 => register,
        1 => Bytes {
            first: word.first,
            second: register.first,
            third: register.second,
            fourth: register.third,
        },
        2 => Bytes {
            first: word.first,
            second: word.second,
            third: register.first,
            fourth: register.second,
        },
        _ => Bytes {
            first: word.first,
            second: word.second,
            third: word.third,
            fourth: register.first,
        },
    }
}

/// The word after the last bytes of a register are stored up to this byte: `swr`.
fn right_stored(word: Bytes, at: u32, register: Bytes) -> Bytes
    ensures { result ≡ Memory.right_stored word at register }
{
    match at {
        0 => Bytes {
            first: register.fourth,
            second: word.second,
            third: word.third,
            fourth: word.fourth,
        },
        1 => Bytes {
            first: register.third,
            second: register.fourth,
            third: word.third,
            fourth: word.fourth,
        },
        2 => Bytes {
            first: register.second,
            second: register.third,
            third: register.fourth,
            fourth: word.fourth,
        },
        _ => register,
    }
}

/// A byte as a value, with its sign or without.
fn byte_value(signed: bool, byte: Option<u8>) -> Value
    ensures { result ≡ Memory.byte_value signed byte }
{
    match byte {
        Some(byte) if signed && byte >= 128 => Value::Number(u32::from(byte) + 0xffff_ff00),
        Some(byte) => Value::Number(u32::from(byte)),
        None => UNSPECIFIED,
    }
}

/// Half a word as a value, with its sign or without.
fn half_value(signed: bool, upper: Option<u8>, lower: Option<u8>) -> Value
    ensures { result ≡ Memory.half_value signed upper lower }
{
    match (upper, lower) {
        (Some(a), Some(b)) => Value::Number(extended_half(signed, half_of(a, b))),
        _ => UNSPECIFIED,
    }
}

/// Half a word as a word, with its sign or without.
fn extended_half(signed: bool, half: u32) -> u32
    requires { half < 65536 }
    ensures { result ≡ Memory.extended signed 16 half }
{
    if signed && half >= 32768 {
        half + 0xffff_0000
    } else {
        half
    }
}

/// The half from a byte on.
fn half_at(signed: bool, bytes: Bytes, at: u32) -> Value
    ensures { result ≡ Memory.half_at signed bytes at }
{
    if at == 0 {
        half_value(signed, bytes.first, bytes.second)
    } else {
        half_value(signed, bytes.third, bytes.fourth)
    }
}

/// The bytes with others in the half from a byte on.
fn with_half(bytes: Bytes, at: u32, half: Bytes) -> Bytes
    ensures { result ≡ Memory.with_half bytes at half }
{
    if at == 0 {
        Bytes {
            first: half.third,
            second: half.fourth,
            third: bytes.third,
            fourth: bytes.fourth,
        }
    } else {
        Bytes {
            first: bytes.first,
            second: bytes.second,
            third: half.third,
            fourth: half.fourth,
        }
    }
}

/// What a load from a byte of a word of memory leaves in a register.
pub(crate) fn loaded(width: Width, at: u32, word: Value, register: Value) -> Result<Value, Why>
    ensures { result ≡ Memory.loaded width at word register }
{
    match width {
        Width::Word if at == 0 => Ok(word),
        Width::Half { signed } if at % 2 == 0 => Ok(half_at(signed, word.bytes()?, at)),
        Width::Word | Width::Half { .. } => Err(Why::Misaligned),
        Width::Byte { signed } => Ok(byte_value(signed, byte_at(word.bytes()?, at))),
        Width::Left => Ok(value_of(left_loaded(word.bytes()?, at, register.known_bytes()))),
        Width::Right => Ok(value_of(right_loaded(word.bytes()?, at, register.known_bytes()))),
    }
}

/// What a store of a register to a byte of a word of memory leaves in that word.
pub(crate) fn stored(width: Width, at: u32, word: Value, register: Value) -> Result<Value, Why>
    ensures { result ≡ Memory.stored width at word register }
{
    match width {
        Width::Word if at == 0 => Ok(register),
        Width::Half { .. } if at % 2 == 0 => {
            Ok(value_of(with_half(word.known_bytes(), at, register.bytes()?)))
        }
        Width::Word | Width::Half { .. } => Err(Why::Misaligned),
        Width::Byte { .. } => {
            Ok(value_of(with_byte(word.known_bytes(), at, register.bytes()?.fourth)))
        }
        Width::Left => Ok(value_of(left_stored(word.known_bytes(), at, register.bytes()?))),
        Width::Right => Ok(value_of(right_stored(word.known_bytes(), at, register.bytes()?))),
    }
}
