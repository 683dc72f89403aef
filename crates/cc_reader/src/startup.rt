//! The functions that run before `main`, and after it.

use cc_program::{Meaning, Object, Program, Reference, Startup, number_behind};
use std::alloc::{AllocError, Global};

/// Adds the words of a list of functions to its datum.
fn push_calls(object: &mut Object, calls: &[Startup], after: bool) -> Result<(), AllocError> {
    for call in calls {
        if call.after == after {
            object.content.references.push(Reference {
                at: object.content.size,
                symbol: call.symbol,
                addend: 0,
                from: None,
                line: call.line,
            })?;
            object.content.size = object.content.size.saturating_add(4);
        }
    }
    Ok(())
}

/// Adds an empty datum under a name, which follows another one, if there is one. Answers its number.
fn add_datum<'a>(
    alloc: Global,
    program: &mut Program<'a>,
    name: &'a [u8],
    after: Option<u32>,
) -> Result<u32, AllocError> {
    let unit = match program.calls.get(0) {
        Some(call) => call.unit,
        None => 0,
    };
    let number = number_behind(program.objects.len())?;
    let symbol = program.symbols.number(name)?;
    let _defined = program
        .symbols
        .define(symbol, Meaning::Object(number), true);
    let mut object = Object::new(alloc, symbol, unit, 0, 4);
    object.after = after;
    program.objects.push(object)?;
    Ok(number)
}

/// Adds the list of the functions that run before `main`, or of those that run after it, under the names of its beginning and its
/// end.
fn add_list<'a>(
    alloc: Global,
    program: &mut Program<'a>,
    begin: &'a [u8],
    end: &'a [u8],
    after: bool,
) -> Result<(), AllocError> {
    let number = add_datum(alloc, program, begin, None)?;
    if let Some(list) = program.objects.as_mut_slice().get_mut(number as usize) {
        push_calls(list, program.calls.as_slice(), after)?;
    }
    let _past = add_datum(alloc, program, end, Some(number))?;
    Ok(())
}

/// Adds the lists of the functions that run before `main`, and after it, each by its order.
pub(crate) fn add_lists(alloc: Global, program: &mut Program) -> Result<(), AllocError> {
    program.calls.sort_by_key(|call| call.order)?;
    add_list(
        alloc,
        program,
        b"__init_array_start",
        b"__init_array_end",
        false,
    )?;
    add_list(
        alloc,
        program,
        b"__fini_array_start",
        b"__fini_array_end",
        true,
    )
}
