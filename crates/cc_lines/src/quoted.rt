//! Texts in quotes.
ghost use Rattle.cc_lines.specs.Bytes.{Extends};

use crate::cursor::digit;
use crate::refusal::{LineError, Refusal};

/// How far a quoted text was read.
#[derive(Clone, Copy)]
enum Reading {
    Outside,
    Inside,
    Escaped,
    /// In an octal number, with its value and how many digits may follow.
    Octal(u8, u8),
    /// In a hexadecimal number, with the low byte of its value.
    Hexadecimal(u8),
}

/// The byte that a letter after `\` means.
pub(crate) fn escape(letter: u8) -> Option<u8> {
    Some(match letter {
        b'n' => b'\n',
        b't' => b'\t',
        b'r' => b'\r',
        b'b' => 8,
        b'f' => 12,
        b'v' => 11,
        b'"' | b'\\' | b'\'' => letter,
        _ => return None,
    })
}

/// The byte of 8 times a number and a digit.
fn octal(value: u8, digit: u8) -> u8 {
    value.wrapping_mul(8).wrapping_add(digit.wrapping_sub(b'0'))
}

/// The low byte of 16 times a number and a digit.
fn hexadecimal(value: u8, digit: u32) -> u8 {
    let [.., low] = digit.to_be_bytes();
    value.wrapping_mul(16).wrapping_add(low)
}

/// Where the reading is after a byte inside quotes.
fn inside(bytes: &mut Vec<u8>, byte: u8, ended: bool) -> Result<Reading, LineError>
    ensures { Extends bytes.old.items bytes.new.items }
{
    match byte {
        b'\\' => Ok(Reading::Escaped),
        b'"' => {
            if ended {
                bytes.push(0)?;
            }
            Ok(Reading::Outside)
        }
        _ => {
            bytes.push(byte)?;
            Ok(Reading::Inside)
        }
    }
}

/// Where the reading is after a byte that follows `\`.
fn escaped(bytes: &mut Vec<u8>, byte: u8) -> Result<Reading, LineError>
    ensures { Extends bytes.old.items bytes.new.items }
{
    match byte {
        b'0'..=b'7' => return Ok(Reading::Octal(octal(0, byte), 2)),
        b'x' => return Ok(Reading::Hexadecimal(0)),
        _ => {}
    }
    match escape(byte) {
        Some(value) => {
            bytes.push(value)?;
            Ok(Reading::Inside)
        }
        None => Err(LineError::Refused(Refusal::BadText)),
    }
}

/// Where the reading is after one byte more.
#[tactic(auto, using(crate::proofs::Extends::extends_more))]
fn next_reading(
    bytes: &mut Vec<u8>,
    reading: Reading,
    byte: u8,
    ended: bool,
) -> Result<Reading, LineError>
    ensures { Extends bytes.old.items bytes.new.items }
{
    match reading {
        Reading::Outside => match byte {
            b'"' => Ok(Reading::Inside),
            b' ' | b'\t' | b',' => Ok(Reading::Outside),
            _ => Err(LineError::Refused(Refusal::BadText)),
        },
        Reading::Inside => inside(bytes, byte, ended),
        Reading::Escaped => escaped(bytes, byte),
        Reading::Octal(value, left) => {
            if left > 0 && matches!(byte, b'0'..=b'7') {
                return Ok(Reading::Octal(octal(value, byte), left - 1));
            }
            bytes.push(value)?;
            inside(bytes, byte, ended)
        }
        Reading::Hexadecimal(value) => {
            if let Some(digit) = digit(byte, 16) {
                return Ok(Reading::Hexadecimal(hexadecimal(value, digit)));
            }
            bytes.push(value)?;
            inside(bytes, byte, ended)
        }
    }
}

/// Adds the bytes of quoted texts between commas, each with a byte 0 after it where they are `ended`.
#[tactic(auto, using(crate::proofs::Extends::extends_more, crate::proofs::Extends::extends_same))]
pub fn push_quoted(bytes: &mut Vec<u8>, text: &[u8], ended: bool) -> Result<(), LineError>
    ensures { Extends bytes.old.items bytes.new.items }
{
    let mut reading = Reading::Outside;
    for byte in text {
        reading = next_reading(bytes, reading, *byte, ended)?;
    }
    match reading {
        Reading::Outside => Ok(()),
        _ => Err(LineError::Refused(Refusal::BadText)),
    }
}
