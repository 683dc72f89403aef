//! The memory in which a program starts.
ghost use Rattle.std.specs.Prelude.{◌≡◌, ◌<◌, ◌^◌, fold, IfOk};
ghost use Rattle.cc_meaning.specs.Start;

use crate::layout::Layout;
use crate::machine::{put_value, value_in};
use crate::parts::with_byte;
use crate::symbols::{item_named, symbol_value};
use crate::value::{UNSPECIFIED, Value, value_of};
use cc_program::{Object, Program, Reference};
use std::alloc::{AllocError, Global};

/// How many words memory has.
pub const MEMORY_WORDS: usize = 65536;

/// Puts a byte into memory.
fn put_datum(memory: &mut Vec<Value>, at: usize, byte: u8)
    ensures { memory.new.items ≡ Start.with_datum memory.old.items at byte }
{
    let word = value_in(memory, at / 4).known_bytes();
    let bytes = with_byte(word, (at % 4) as u32, Some(byte));
    put_value(memory, at / 4, value_of(bytes));
}

/// Puts bytes into memory from an address on.
fn put_bytes(memory: &mut Vec<Value>, start: usize, bytes: &[u8])
    requires { start < 2 ^ 32 }
    ensures { memory.new.items ≡ Start.with_bytes memory.old.items start bytes.now }
{
    let mut at = start;
    for byte in bytes {
        put_datum(memory, at, *byte);
        at += 1;
    }
}

/// The value of a word that is a symbol's address and a number, less the address of another symbol.
fn reference_value(program: &Program<'_>, symbol: Value, addend: u32, from: Option<u32>) -> Value
    ensures { result ≡ Start.reference_value program.now symbol addend from }
{
    match (symbol, from) {
        (Value::Number(own), None) => Value::Number(own.wrapping_add(addend)),
        (Value::Number(own), Some(from)) => {
            Value::Number(own.wrapping_add(addend).wrapping_sub(program.address(from)))
        }
        (Value::Code(_), None) if addend == 0 => symbol,
        _ => UNSPECIFIED,
    }
}

/// Puts a word that names a symbol into memory.
fn put_reference(
    memory: &mut Vec<Value>,
    program: &Program<'_>,
    layout: &Layout,
    start: usize,
    one: &Reference,
)
    requires { start < 2 ^ 32 }
    ensures { memory.new.items ≡ Start.with_reference program.now layout.now start memory.old.items one.now }
{
    let symbol = symbol_value(program, layout, Some(one.symbol));
    let value = reference_value(program, symbol, one.addend, one.from);
    put_value(memory, (start + one.at as usize) / 4, value);
}

/// Puts the words of a datum that name symbols into memory.
fn put_references(
    memory: &mut Vec<Value>,
    program: &Program<'_>,
    layout: &Layout,
    start: usize,
    references: &[Reference],
)
    requires { start < 2 ^ 32 }
    ensures { memory.new.items ≡ fold (Start.with_reference program.now layout.now start) memory.old.items references.now }
{
    for one in references {
        put_reference(memory, program, layout, start, one);
    }
}

/// Puts a datum into memory: the code address of this item, if it is a descriptor.
fn put_content(
    memory: &mut Vec<Value>,
    program: &Program<'_>,
    layout: &Layout,
    object: &Object,
    item: Option<usize>,
)
    ensures { memory.new.items ≡ Start.with_content program.now layout.now memory.old.items object.now item }
{
    let start = object.standing.address as usize;
    match item {
        Some(item) => put_value(memory, start / 4, Value::Code(item)),
        None => {
            put_bytes(memory, start, &object.content.bytes);
            put_references(memory, program, layout, start, &object.content.references);
        }
    }
}

/// Puts a datum into memory, if the program reaches it.
fn put_object(memory: &mut Vec<Value>, program: &Program<'_>, layout: &Layout, object: &Object)
    ensures { memory.new.items ≡ Start.with_object program.now layout.now memory.old.items object.now }
{
    if object.kept {
        let item = item_named(program, object.symbol);
        put_content(memory, program, layout, object, item);
    }
}

/// Puts data into memory.
fn put_objects(memory: &mut Vec<Value>, program: &Program<'_>, layout: &Layout, objects: &[Object])
    ensures { memory.new.items ≡ fold (Start.with_object program.now layout.now) memory.old.items objects.now }
{
    for object in objects {
        put_object(memory, program, layout, object);
    }
}

/// Memory of so many words of 0.
#[tactic(auto, unfolding(crate::specs::Start::empty_memory))]
fn empty_memory(alloc: Global, words: usize) -> Result<Vec<Value>, AllocError>
    ensures { IfOk result (λ m. m.items ≡ Start.empty_memory words) }
{
    let memory = vec![in alloc; Value::Number(0); words]?;
    Ok(memory)
}

/// The memory in which a program starts.
pub(crate) fn start_memory(
    alloc: Global,
    program: &Program<'_>,
    layout: &Layout,
) -> Result<Vec<Value>, AllocError>
    ensures { IfOk result (λ m. m.items ≡ Start.start_memory program.now layout.now) }
{
    let mut memory = empty_memory(alloc, MEMORY_WORDS)?;
    put_objects(&mut memory, program, layout, program.objects.as_slice());
    Ok(memory)
}
