//! What `main` reaches.

use crate::startup::add_lists;
use cc_lines::{Instruction, LinkFrom, Refusal, Register};
use cc_program::{
    Fault, Function, Item, Meaning, Object, Program, ReadError, Reference, number_behind,
};
use cc_rules::is_last;
use std::alloc::{AllocError, Global};

/// How something is named.
#[derive(Clone, Copy)]
enum Use {
    /// Control goes there.
    Jump,
    /// A load or a store is there.
    Memory,
    /// Its address is taken, with so much added.
    Address(u32),
    /// A jump table has it, without an addend.
    Table,
    /// A word of data is the distance to it or from it.
    Distance,
    /// Another name is a place in it.
    Within,
}

/// Something that a statement or a word of data names.
#[derive(Clone, Copy)]
struct Named {
    symbol: u32,
    unit: u32,
    line: u32,
    how: Use,
}

impl Named {
    /// Whether control goes there.
    fn is_jump(&self) -> bool {
        matches!(self.how, Use::Jump)
    }
}

/// How an instruction names its symbol.
fn use_of(instruction: &Instruction) -> Use {
    match *instruction {
        Instruction::Load { .. } | Instruction::Store { .. } => Use::Memory,
        Instruction::Address { base, offset, .. } => {
            if base == Register::ZERO {
                Use::Address(offset)
            } else {
                Use::Memory
            }
        }
        _ => Use::Jump,
    }
}

/// What the items of a function name. Answers whether control may go on after them.
fn note_items(named: &mut Vec<Named>, unit: u32, items: &[Item]) -> Result<bool, AllocError> {
    let mut goes_on = true;
    for item in items {
        if let Item::Code {
            instruction,
            symbol,
            line,
        } = item
        {
            goes_on = !is_last(instruction);
            if let Some(symbol) = symbol {
                let how = use_of(instruction);
                named.push(Named {
                    symbol: *symbol,
                    unit,
                    line: *line,
                    how,
                })?;
            }
        }
    }
    Ok(goes_on)
}

/// How a word of data names its symbol.
fn use_in(one: &Reference, is_table: bool) -> Use {
    if one.from.is_some() {
        Use::Distance
    } else if is_table && one.addend == 0 {
        Use::Table
    } else {
        Use::Address(one.addend)
    }
}

/// What the words of a datum name.
fn note_references(
    named: &mut Vec<Named>,
    unit: u32,
    references: &[Reference],
    is_table: bool,
) -> Result<(), AllocError> {
    for one in references {
        named.push(Named {
            symbol: one.symbol,
            unit,
            line: one.line,
            how: use_in(one, is_table),
        })?;
        if let Some(from) = one.from {
            named.push(Named {
                symbol: from,
                unit,
                line: one.line,
                how: Use::Distance,
            })?;
        }
    }
    Ok(())
}

/// Whether a datum with this name is a compiler's table of places that it jumps to: `$L12`.
fn names_table(name: &[u8]) -> bool {
    match name {
        [b'$', b'L', digit, ..] => digit.is_ascii_digit(),
        _ => false,
    }
}

/// Whether a datum is a table of places that are jumped to.
fn is_table(program: &Program, number: usize) -> bool {
    let Some(object) = program.objects.get(number) else {
        return false;
    };
    match program.symbols.at(object.symbol) {
        Some(symbol) => names_table(symbol.name),
        None => false,
    }
}

/// Whether an instruction jumps by a register other than the link's.
fn jumps_by_register(instruction: &Instruction) -> bool {
    matches!(*instruction, Instruction::Jump(LinkFrom::Register(register)) if register != Register::LINK)
}

/// Whether an instruction copies the link to another register, so that a jump by that may be a return.
fn copies_link(instruction: &Instruction) -> bool {
    match *instruction {
        Instruction::Move { rs, .. } | Instruction::Compute { rs, .. } => rs == Register::LINK,
        _ => false,
    }
}

/// Whether a symbol is the name of a table of places that are jumped to.
fn means_table(program: &Program, symbol: Option<u32>) -> bool {
    let Some(symbol) = symbol else {
        return false;
    };
    match program.symbols.meaning(symbol) {
        Meaning::Object(number) => is_table(program, number as usize),
        _ => false,
    }
}

/// Whether a function jumps to addresses of labels that it gets as values: by a register, although it has no table of places. So a
/// function does that leaves for a label of another one.
fn jumps_by_values(program: &Program, function: &Function) -> bool {
    let mut jumps = false;
    for item in program.items_of(function) {
        if let Item::Code {
            instruction,
            symbol,
            ..
        } = item
        {
            if copies_link(instruction) || means_table(program, *symbol) {
                return false;
            }
            jumps = jumps || jumps_by_register(instruction);
        }
    }
    jumps
}

/// Keeps a function, and the next one where control may go on into it.
fn keep_function(
    program: &mut Program,
    named: &mut Vec<Named>,
    number: u32,
) -> Result<(), AllocError> {
    let mut at = number as usize;
    for _ in 0..program.functions.len() {
        let Some(function) = program.functions.get(at).copied() else {
            break;
        };
        if function.kept {
            break;
        }
        let goes_on = note_items(named, function.unit, program.items_of(&function))?;
        let by_values = jumps_by_values(program, &function);
        if let Some(kept) = program.functions.as_mut_slice().get_mut(at) {
            kept.kept = true;
            kept.computes = kept.computes || by_values;
        }
        if !goes_on {
            break;
        }
        at = at.saturating_add(1);
    }
    Ok(())
}

/// Keeps a datum. Answers the one that has to be kept with it: that which it follows, if it is empty.
fn keep_object(
    named: &mut Vec<Named>,
    object: &mut Object,
    is_table: bool,
) -> Result<Option<u32>, AllocError> {
    if object.kept {
        return Ok(None);
    }
    object.kept = true;
    note_references(named, object.unit, &object.content.references, is_table)?;
    if let Some(within) = object.within {
        named.push(Named {
            symbol: within.symbol,
            unit: object.unit,
            line: within.line,
            how: Use::Within,
        })?;
    }
    Ok(if object.content.size == 0 {
        object.after
    } else {
        None
    })
}

/// Keeps a datum, and those that it follows as long as they are empty.
fn keep_objects(
    program: &mut Program,
    named: &mut Vec<Named>,
    number: u32,
) -> Result<(), AllocError> {
    let mut at = number;
    for _ in 0..program.objects.len() {
        let is_table = is_table(program, at as usize);
        let Some(object) = program.objects.as_mut_slice().get_mut(at as usize) else {
            break;
        };
        match keep_object(named, object, is_table)? {
            Some(before) => at = before,
            None => break,
        }
    }
    Ok(())
}

/// Gives the symbol of a function, or of a label in one, a word of data that holds its place, if it has none.
fn describe(
    alloc: Global,
    program: &mut Program,
    symbol: u32,
    unit: u32,
) -> Result<(), AllocError> {
    match program.symbols.at(symbol) {
        Some(found) if found.descriptor.is_none() => {}
        _ => return Ok(()),
    }
    let number = number_behind(program.objects.len())?;
    let mut object = Object::new(alloc, symbol, unit, 4, 4);
    object.kept = true;
    program.objects.push(object)?;
    program.symbols.describe(symbol, number);
    Ok(())
}

/// Keeps a function that is named so.
fn keep_named_function(
    alloc: Global,
    program: &mut Program,
    named: &mut Vec<Named>,
    number: u32,
    one: Named,
) -> Result<(), AllocError> {
    if !one.is_jump() {
        if let Some(function) = program.function(number) {
            describe(alloc, program, function.symbol, function.unit)?;
        }
    }
    keep_function(program, named, number)
}

/// Keeps the function of a label that is named so.
fn keep_place(
    alloc: Global,
    program: &mut Program,
    named: &mut Vec<Named>,
    number: u32,
    one: Named,
) -> Result<(), AllocError> {
    if matches!(one.how, Use::Address(_) | Use::Distance) {
        if let Some(function) = program.functions.as_mut_slice().get_mut(number as usize) {
            function.computes = true;
        }
        let symbol = program.symbols.resolved(one.symbol);
        describe(alloc, program, symbol, one.unit)?;
    }
    keep_function(program, named, number)
}

/// The label that a word of a jump table names, if the addresses of labels of its function are values, so that a jump to it has to
/// go the same way.
fn computed_label(program: &Program, symbol: u32) -> Option<u32> {
    let Meaning::Place { function, .. } = program.symbols.meaning(symbol) else {
        return None;
    };
    let function = program.function(function)?;
    if function.computes {
        Some(program.symbols.resolved(symbol))
    } else {
        None
    }
}

/// The labels that words of jump tables name which are jumped to by their addresses.
fn computed_labels(alloc: Global, program: &Program) -> Result<Vec<(u32, u32)>, AllocError> {
    let mut labels = Vec::new(alloc);
    for object in &program.objects {
        if object.kept {
            for one in &object.content.references {
                if let Some(label) = computed_label(program, one.symbol) {
                    labels.push((label, object.unit))?;
                }
            }
        }
    }
    Ok(labels)
}

/// Gives each label that is jumped to by its address a word of data that holds its place.
fn describe_labels(alloc: Global, program: &mut Program) -> Result<(), AllocError> {
    let labels = computed_labels(alloc, program)?;
    for (label, unit) in &labels {
        describe(alloc, program, *label, *unit)?;
    }
    Ok(())
}

/// Why a function, or a label in one, may not be named so, if it may not.
fn refusal_in_code(how: Use, is_label: bool) -> Option<Refusal> {
    match how {
        Use::Jump | Use::Table | Use::Address(0) => None,
        Use::Distance if is_label => None,
        Use::Memory => Some(Refusal::CodeAsData),
        _ => Some(Refusal::LabelArithmetic),
    }
}

/// Whether a name would be a place in what is itself a place in another datum.
fn is_place_in_place(program: &Program, number: u32, how: Use) -> bool {
    match program.objects.get(number as usize) {
        Some(object) => matches!(how, Use::Within) && object.within.is_some(),
        None => false,
    }
}

/// Why a datum, or the end of the memory, may not be named so, if it may not.
fn refusal_in_data(how: Use) -> Option<Refusal> {
    match how {
        Use::Jump => Some(Refusal::NoPlace),
        Use::Distance => Some(Refusal::LabelArithmetic),
        _ => None,
    }
}

/// Why the first byte after all data may not be named so, if it may not.
fn refusal_at_end(how: Use) -> Option<Refusal> {
    match how {
        Use::Address(_) | Use::Table => None,
        _ => Some(Refusal::NoPlace),
    }
}

/// Why a symbol that no text defines may not be named, if it may not.
fn refusal_of_unknown(program: &Program, symbol: u32) -> Option<Refusal> {
    match program.symbols.at(program.symbols.resolved(symbol)) {
        Some(symbol) if symbol.weak => None,
        _ => Some(Refusal::Undefined),
    }
}

/// Why a symbol may not be named so, if it may not.
fn refusal_of(program: &Program, one: Named) -> Option<Refusal> {
    match program.symbols.meaning(one.symbol) {
        Meaning::Function(_) => refusal_in_code(one.how, false),
        Meaning::Place { .. } => refusal_in_code(one.how, true),
        Meaning::Object(number) if is_place_in_place(program, number, one.how) => Some(
            Refusal::LabelArithmetic,
        ),
        Meaning::Object(_) | Meaning::Limit => refusal_in_data(one.how),
        Meaning::End => refusal_at_end(one.how),
        _ => refusal_of_unknown(program, one.symbol),
    }
}

/// Keeps what a symbol means.
fn keep(
    alloc: Global,
    program: &mut Program,
    named: &mut Vec<Named>,
    one: Named,
) -> Result<(), AllocError> {
    match program.symbols.meaning(one.symbol) {
        Meaning::Function(number) => keep_named_function(alloc, program, named, number, one),
        Meaning::Place { function, .. } => keep_place(alloc, program, named, function, one),
        Meaning::Object(number) => keep_objects(program, named, number),
        _ => Ok(()),
    }
}

/// The fault of a symbol that is refused.
fn refused<'a>(program: &Program<'a>, one: Named, refusal: Refusal) -> Fault<'a> {
    let symbol = match program.symbols.at(one.symbol) {
        Some(symbol) => Some(symbol.name),
        None => None,
    };
    Fault {
        unit: one.unit,
        line: one.line,
        statement: 0,
        refusal,
        symbol,
    }
}

/// Of two faults, that of the line that comes first.
fn first_fault<'a>(known: Option<Fault<'a>>, other: Fault<'a>) -> Option<Fault<'a>> {
    match known {
        Some(fault) if (fault.unit, fault.line) <= (other.unit, other.line) => known,
        _ => Some(other),
    }
}

/// Keeps what is named, and what that names in turn. The fault is that of the first line that may not name what it names.
fn keep_named<'a>(
    alloc: Global,
    program: &mut Program<'a>,
    named: &mut Vec<Named>,
) -> Result<(), ReadError<'a>> {
    let mut fault = None;
    for _ in 0..u64::MAX {
        let Some(one) = named.pop() else {
            break;
        };
        program.symbols.use_it(one.symbol);
        if let Some(refusal) = refusal_of(program, one) {
            fault = first_fault(fault, refused(program, one, refusal));
        } else {
            keep(alloc, program, named, one)?;
        }
    }
    match fault {
        Some(fault) => Err(ReadError::Fault(fault)),
        None => Ok(()),
    }
}

/// Keeps a function, what it names, and what that names in turn.
fn keep_all<'a>(
    alloc: Global,
    program: &mut Program<'a>,
    named: &mut Vec<Named>,
    function: u32,
) -> Result<(), ReadError<'a>> {
    keep_function(program, named, function)?;
    if let Some(limit) = program.stack_limit {
        named.push(Named {
            symbol: limit,
            unit: 0,
            line: 0,
            how: Use::Memory,
        })?;
    }
    keep_named(alloc, program, named)
}

/// Keeps what a function reaches.
fn keep_from<'a>(
    alloc: Global,
    program: &mut Program<'a>,
    function: u32,
) -> Result<(), ReadError<'a>> {
    let mut named = Vec::new(alloc);
    keep_all(alloc, program, &mut named, function)
}

/// The name of the function that calls `main`, where a library has one.
const START: &[u8] = b"_start";

/// Where the program begins: at the library's start, or at `main`; and the number of that function.
fn entry<'a>(program: &mut Program<'a>) -> Result<(u32, u32), ReadError<'a>> {
    let main = program.symbols.number(b"main")?;
    let Meaning::Function(number) = program.symbols.meaning(main) else {
        return Err(ReadError::NoMain);
    };
    let start = program.symbols.number(START)?;
    if let Meaning::Function(number) = program.symbols.meaning(start) {
        return Ok((start, number));
    }
    match program.calls.get(0).copied() {
        Some(call) => Err(ReadError::Fault(Fault {
            unit: call.unit,
            line: call.line,
            statement: 0,
            refusal: Refusal::Constructor,
            symbol: None,
        })),
        None => Ok((main, number)),
    }
}

/// The name of the datum that holds the lowest address that the stack may take, where a library has one.
const STACK_LIMIT: &[u8] = b"_stack_limit";

/// Keeps the datum that holds the lowest address of the stack, if there is one, since each function that makes a frame reads it.
fn keep_limit(program: &mut Program) -> Result<(), AllocError> {
    let limit = program.symbols.number(STACK_LIMIT)?;
    if let Meaning::Object(_) = program.symbols.meaning(limit) {
        program.stack_limit = Some(limit);
    }
    Ok(())
}

/// Keeps what the beginning of the program reaches. Answers the symbol of that.
pub(crate) fn reach<'a>(alloc: Global, program: &mut Program<'a>) -> Result<u32, ReadError<'a>> {
    let (symbol, number) = entry(program)?;
    add_lists(alloc, program)?;
    keep_limit(program)?;
    program.symbols.use_it(symbol);
    keep_from(alloc, program, number)?;
    describe_labels(alloc, program)?;
    Ok(symbol)
}
