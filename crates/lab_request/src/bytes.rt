//! Strings and lists of JSON, made of bytes.
ghost use Rattle.std.specs.Prelude.{◌≡◌, ◌++◌, ◌<◌, OnOk, map};
ghost use Rattle.std.specs.List.{flat_map};
ghost use Rattle.mx_text.specs.Text.{hex_digit};
ghost use Rattle.lab_request.specs.Documents.{sign, json_string, without_feed, comma_for_feed, as_list};

use std::alloc::AllocError;

// A digit from 0 to 15.
fn hex_digit(digit: u8) -> u8
    requires { digit < 16 }
    ensures { result ≡ hex_digit digit }
{
    if digit < 10 { 48 + digit } else { 87 + digit }
}

// Appends the sign of a byte.
fn push_sign(text: &mut Vec<u8>, byte: u8) -> Result<(), AllocError>
    ensures { OnOk result (text.new.items ≡ text.old.items ++ sign byte) }
{
    match byte {
        b'"' => text.extend_from_slice(&[b'\\', b'"']),
        b'\\' => text.extend_from_slice(&[b'\\', b'\\']),
        b'\n' => text.extend_from_slice(&[b'\\', b'n']),
        32..=126 => text.extend_from_slice(&[byte]),
        _ => text.extend_from_slice(&[
            b'\\',
            b'u',
            b'0',
            b'0',
            hex_digit(byte / 16),
            hex_digit(byte % 16),
        ]),
    }
}

// Appends the signs of bytes.
fn push_signs(text: &mut Vec<u8>, bytes: &[u8]) -> Result<(), AllocError>
    ensures { OnOk result (text.new.items ≡ text.old.items ++ flat_map sign bytes.now) }
{
    for byte in bytes {
        push_sign(text, *byte)?;
    }
    Ok(())
}

/// Appends bytes as a string.
pub fn push_string(text: &mut Vec<u8>, bytes: &[u8]) -> Result<(), AllocError>
    ensures { OnOk result (text.new.items ≡ text.old.items ++ json_string bytes.now) }
{
    text.push(b'"')?;
    push_signs(text, bytes)?;
    text.push(b'"')?;
    Ok(())
}

// The bytes without a line feed at their end.
fn without_feed(bytes: &[u8]) -> &[u8]
    ensures { result.now ≡ without_feed bytes.entry.now }
{
    match bytes.last() {
        Some(b'\n') => &bytes[..bytes.len() - 1],
        _ => bytes,
    }
}

// Appends bytes, with a comma for each line feed.
fn push_commas(text: &mut Vec<u8>, bytes: &[u8]) -> Result<(), AllocError>
    ensures { OnOk result (text.new.items ≡ text.old.items ++ map comma_for_feed bytes.now) }
{
    for byte in bytes {
        text.push(if *byte == b'\n' { b',' } else { *byte })?;
    }
    Ok(())
}

/// Appends lines as a list, whose items they are.
pub fn push_list(text: &mut Vec<u8>, lines: &[u8]) -> Result<(), AllocError>
    ensures { OnOk result (text.new.items ≡ text.old.items ++ as_list lines.now) }
{
    text.push(b'[')?;
    push_commas(text, without_feed(lines))?;
    text.push(b']')?;
    Ok(())
}
