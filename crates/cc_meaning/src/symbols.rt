//! What symbols stand for.
ghost use Rattle.std.specs.Prelude.{◌≡◌};
ghost use Rattle.cc_meaning.specs.Instructions;
ghost use Rattle.cc_meaning.specs.Layouts;

use crate::layout::Layout;
use crate::value::Value;
use cc_program::{Meaning, Program};

/// The item that a symbol with this meaning names, if that is one of code.
fn item_meant(program: &Program<'_>, meaning: Meaning) -> Option<usize>
    ensures { result ≡ Layouts.item_meant program.now meaning }
{
    match meaning {
        Meaning::Function(number) => match program.functions.get(number as usize) {
            Some(function) => Some(function.first),
            None => None,
        },
        Meaning::Place { item, .. } => Some(item),
        _ => None,
    }
}

/// The item that a symbol names, if that is one of code.
pub(crate) fn item_named(program: &Program<'_>, symbol: u32) -> Option<usize>
    ensures { result ≡ Layouts.item_named program.now symbol }
{
    item_meant(program, program.symbols.meaning(symbol))
}

/// The address of a label: that of its descriptor, or its code address where it has none.
fn label_value(item: usize, address: u32) -> Value
    ensures { result ≡ Instructions.label_value item address }
{
    if address == 0 {
        Value::Code(item)
    } else {
        Value::Number(address)
    }
}

/// The address of a symbol.
fn named_value(program: &Program<'_>, layout: &Layout, symbol: u32) -> Value
    ensures { result ≡ Instructions.symbol_value program.now layout.now (Some symbol) }
{
    match program.symbols.meaning(symbol) {
        Meaning::Place { item, .. } => label_value(item, program.address(symbol)),
        Meaning::End => Value::Number(layout.end),
        _ => Value::Number(program.address(symbol)),
    }
}

/// The address of a symbol, or 0 where there is none.
pub(crate) fn symbol_value(program: &Program<'_>, layout: &Layout, symbol: Option<u32>) -> Value
    ensures { result ≡ Instructions.symbol_value program.now layout.now symbol }
{
    match symbol {
        Some(symbol) => named_value(program, layout, symbol),
        None => Value::Number(0),
    }
}
