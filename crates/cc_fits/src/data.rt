//! Data that the source language takes.
ghost use Rattle.std.specs.Prelude.{◌≡◌};
ghost use Rattle.std.specs.List.{list_all};
ghost use Rattle.cc_fits.specs.Fits;

use crate::names::symbol_fits;
use crate::numbers::{is_byte, is_word};
use cc_emit::Output;
use cc_program::{Object, Reference, Symbols};
use indexmap::IndexSet;

/// Whether the source has a name for each symbol whose place a datum holds.
fn references_fit(symbols: &Symbols, references: &[Reference]) -> bool
    ensures { result ≡ list_all (Fits.reference_fits symbols.now.list.items) references.now }
{
    references
        .iter()
        .all(|one| symbol_fits(symbols, one.symbol))
}

/// Whether bytes have 8 bits, as their type says.
fn bytes_fit(bytes: &[u8]) -> bool
    ensures { result ≡ list_all Fits.is_byte bytes.now }
{
    bytes.iter().all(|byte| is_byte(*byte))
}

/// Whether a datum is left out, or fits: it has a name, bytes, and symbols that have names.
pub(crate) fn object_fits(symbols: &Symbols, object: &Object) -> bool
    ensures { result ≡ Fits.object_fits symbols.now.list.items object.now }
{
    let content = &object.content;
    !object.kept
        || (symbol_fits(symbols, object.symbol)
            && references_fit(symbols, &content.references)
            && bytes_fit(&content.bytes))
}

/// Whether numbers have 32 bits, as their type says.
fn numbers_fit(numbers: &IndexSet<u32>) -> bool
    ensures { result ≡ list_all Fits.is_word numbers.now.keys }
{
    numbers.iter().all(|number| is_word(*number))
}

/// Whether the numbers of the data that the translation adds have 32 bits.
pub(crate) fn added_fits(out: &Output) -> bool
    ensures { result ≡ Fits.added_fits out.now }
{
    numbers_fit(&out.numbers)
        && numbers_fit(&out.ends)
        && is_word(out.statements)
        && is_word(out.instructions)
}
