//! Names that the source language takes.
ghost use Rattle.std.specs.Prelude.{◌≡◌};
ghost use Rattle.std.specs.List.{list_all};
ghost use Rattle.cc_lines.specs.Bytes;
ghost use Rattle.cc_fits.specs.Fits;

use crate::numbers::is_word;
use cc_emit::LONGEST_FILE;
use cc_program::Symbols;

/// Whether a byte may be in a name.
fn is_named(byte: u8) -> bool
    ensures { result ≡ Bytes.is_named byte }
{
    byte.is_ascii_alphanumeric() || byte == b'_' || byte == b'.' || byte == b'$'
}

/// Whether a digit is the second byte of a name.
fn has_digit_second(name: &[u8]) -> bool
    ensures { result ≡ Fits.has_digit_second name.now }
{
    match name.get(1) {
        Some(byte) => byte.is_ascii_digit(),
        None => false,
    }
}

/// Whether a digit would be the first byte of a name in the source, which has none for the `$` in front.
fn begins_with_digit(name: &[u8]) -> bool
    ensures { result ≡ Fits.begins_with_digit name.now }
{
    name.starts_with(b"$") && has_digit_second(name)
}

/// Whether these are bytes of names.
fn are_named(bytes: &[u8]) -> bool
    ensures { result ≡ list_all Bytes.is_named bytes.now }
{
    bytes.iter().all(|byte| is_named(*byte))
}

/// Whether the source has a name for this name of the assembly.
fn name_fits(name: &[u8]) -> bool
    ensures { result ≡ Fits.name_fits name.now }
{
    !begins_with_digit(name) && are_named(name)
}

/// Whether the source has a name for the symbol with this number.
pub(crate) fn symbol_fits(symbols: &Symbols, number: u32) -> bool
    ensures { result ≡ Fits.symbol_fits symbols.now.list.items number }
{
    match symbols.at(symbols.resolved(number)) {
        Some(symbol) => name_fits(symbol.name) && is_word(symbol.owner),
        None => false,
    }
}

/// Whether a byte ends a line.
fn ends_line(byte: u8) -> bool
    ensures { result ≡ Fits.ends_line byte }
{
    byte == b'\n' || byte == b'\r'
}

/// Whether no byte ends a line.
fn is_one_line(text: &[u8]) -> bool
    ensures { result ≡ Fits.is_one_line text.now }
{
    text.iter().all(|byte| !ends_line(*byte))
}

/// Whether a comment can name this file, if one does.
pub(crate) fn file_fits(name: Option<&[u8]>) -> bool
    ensures { result ≡ Fits.file_fits name.entry }
{
    match name {
        Some(name) => name.len() > LONGEST_FILE || is_one_line(name),
        None => true,
    }
}
