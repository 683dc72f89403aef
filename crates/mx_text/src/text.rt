//! Numbers, words and lines, appended to a text.
//!
//! Each function fails only where there is no memory, and the text is then as it was.
ghost use Rattle.std.specs.Prelude.{◌≡◌, ◌++◌, ◌∷◌, ◌<◌, OnOk, OnErr};
ghost use Rattle.std.specs.Fmt.{decimal};
ghost use Rattle.std.specs.Option.{option_to_list};
ghost use Rattle.mx_text.specs.Text.{hex_digit, word_text, line, named_line, count_line, register_line, word_line, console_lines};
ghost use Rattle.mx_text.specs.Parts.{joined};

use std::alloc::{AllocError, Global};

// A digit from 0 to 15.
fn hex_byte(digit: u32) -> u8
    requires { digit < 16 }
    ensures { result ≡ hex_digit digit }
{
    if digit < 10 {
        48 + digit as u8
    } else {
        87 + digit as u8
    }
}

// The digits of a word, eight of them and hexadecimal, in lower case.
#[tactic(auto, unfolding(crate::specs::Text::word_text))]
fn word_digits(word: u32) -> [u8; 8]
    ensures { result ≡ word_text word }
{
    [
        hex_byte(word >> 28),
        hex_byte((word >> 24) & 15),
        hex_byte((word >> 20) & 15),
        hex_byte((word >> 16) & 15),
        hex_byte((word >> 12) & 15),
        hex_byte((word >> 8) & 15),
        hex_byte((word >> 4) & 15),
        hex_byte(word & 15),
    ]
}

// Appends the parts, one after the other, or nothing.
fn push_parts(text: &mut Vec<u8>, parts: &[&[u8]]) -> Result<(), AllocError>
    ensures ok { OnOk result (text.new.items ≡ text.old.items ++ joined parts.now) }
    ensures err { OnErr result (text.new.items ≡ text.old.items) }
{
    let before = text.len();
    for part in parts {
        if let Err(error) = text.extend_from_slice(part) {
            text.truncate(before);
            return Err(error);
        }
    }
    Ok(())
}

/// Appends a byte, if there is one.
pub fn push_byte(text: &mut Vec<u8>, byte: Option<u8>) -> Result<(), AllocError>
    ensures ok { OnOk result (text.new.items ≡ text.old.items ++ option_to_list byte) }
    ensures err { OnErr result (text.new.items ≡ text.old.items) }
{
    match byte {
        Some(byte) => {
            text.push(byte)?;
            Ok(())
        }
        None => Ok(()),
    }
}

/// Appends a word as eight hexadecimal digits in lower case.
pub fn push_word(text: &mut Vec<u8>, word: u32) -> Result<(), AllocError>
    ensures ok { OnOk result (text.new.items ≡ text.old.items ++ word_text word) }
    ensures err { OnErr result (text.new.items ≡ text.old.items) }
{
    text.extend_from_slice(&word_digits(word))
}

/// Appends a number in decimal.
pub fn push_decimal(alloc: Global, text: &mut Vec<u8>, n: u64) -> Result<(), AllocError>
    ensures ok { OnOk result (text.new.items ≡ text.old.items ++ decimal n) }
    ensures err { OnErr result (text.new.items ≡ text.old.items) }
{
    let digits = format!(in alloc; "{n}")?;
    text.extend_from_slice(digits.as_bytes())
}

/// Appends the line `NAME VALUE`.
pub fn push_named(text: &mut Vec<u8>, name: &[u8], value: &[u8]) -> Result<(), AllocError>
    ensures ok { OnOk result (text.new.items ≡ text.old.items ++ named_line name.now value.now) }
    ensures err { OnErr result (text.new.items ≡ text.old.items) }
{
    push_parts(text, &[name, b" ", value, b"\n"])
}

/// Appends the line `NAME N`, in decimal.
pub fn push_count(alloc: Global, text: &mut Vec<u8>, name: &str, n: u64) -> Result<(), AllocError>
    ensures ok { OnOk result (text.new.items ≡ text.old.items ++ count_line name.now n) }
    ensures err { OnErr result (text.new.items ≡ text.old.items) }
{
    let digits = format!(in alloc; "{n}")?;
    push_named(text, name.as_bytes(), digits.as_bytes())
}

/// Appends the line `rN VALUE`.
pub fn push_register(
    alloc: Global,
    text: &mut Vec<u8>,
    n: u64,
    value: &[u8],
) -> Result<(), AllocError>
    ensures ok { OnOk result (text.new.items ≡ text.old.items ++ register_line n value.now) }
    ensures err { OnErr result (text.new.items ≡ text.old.items) }
{
    let digits = format!(in alloc; "{n}")?;
    push_parts(text, &[b"r", digits.as_bytes(), b" ", value, b"\n"])
}

/// Appends `console N`, the N bytes, and the end of the line.
pub fn push_console(alloc: Global, text: &mut Vec<u8>, bytes: &[u8]) -> Result<(), AllocError>
    ensures ok { OnOk result (text.new.items ≡ text.old.items ++ console_lines bytes.now) }
    ensures err { OnErr result (text.new.items ≡ text.old.items) }
{
    let count = bytes.len();
    let digits = format!(in alloc; "{count}")?;
    push_parts(text, &[b"console ", digits.as_bytes(), b"\n", bytes, b"\n"])
}

/// Appends the line `ADDRESS WORD`, both in hexadecimal.
pub fn push_word_line(text: &mut Vec<u8>, address: u32, word: u32) -> Result<(), AllocError>
    ensures ok { OnOk result (text.new.items ≡ text.old.items ++ word_line address word) }
    ensures err { OnErr result (text.new.items ≡ text.old.items) }
{
    push_named(text, &word_digits(address), &word_digits(word))
}

/// Appends a line of text.
pub fn push_line(text: &mut Vec<u8>, words: &str) -> Result<(), AllocError>
    ensures ok { OnOk result (text.new.items ≡ text.old.items ++ line words.now) }
    ensures err { OnErr result (text.new.items ≡ text.old.items) }
{
    push_parts(text, &[words.as_bytes(), b"\n"])
}
