//! The translation of a function.

use crate::statements::translate_statement;
use cc_emit::{Line, Output, Target};
use cc_lines::{Instruction, LinkFrom, Register, Width};
use cc_operations::SECOND;
use cc_plan::{Plan, Planned, plans_of};
use cc_program::{Function, Item, Program};
use std::alloc::{AllocError, Global};

/// Adds a label that something names.
fn put_label(out: &mut Output, program: &Program, label: u32) -> Result<(), AllocError> {
    if program.symbols.is_used(label) {
        out.first = None;
        out.push(Line::Mark(Target::Symbol(label)))?;
    }
    Ok(())
}

/// Translates an item of a function by its plan. `told` is the last file and line that were written.
fn put_item(
    out: &mut Output,
    program: &Program,
    function: &Function,
    item: Item,
    plan: Plan,
    told: &mut (u32, u32),
) -> Result<(), AllocError> {
    match item {
        Item::Label(label) => put_label(out, program, label),
        Item::Location { file, line } => {
            if *told == (file, line) {
                return Ok(());
            }
            *told = (file, line);
            out.push(Line::Told {
                unit: function.unit,
                file,
                line,
            })
        }
        Item::Code {
            instruction,
            symbol,
            line,
        } => {
            out.instructions = out.instructions.saturating_add(1);
            let planned = Planned {
                instruction,
                symbol,
                line,
                plan,
            };
            translate_statement(out, program, function, &planned)
        }
    }
}

/// The register that the item with a number jumps by, and whose plan leaves the jump as it is.
fn jumped_by(items: &[Item], plans: &[Plan], number: usize) -> Option<Register> {
    match (items.get(number)?, plans.get(number)?.place) {
        (
            Item::Code {
                instruction: Instruction::Jump(LinkFrom::Register(register)),
                ..
            },
            None,
        ) => Some(*register),
        _ => None,
    }
}

/// The register that the item with a number loads, if the next item jumps by it: it holds a code address from a jump table then.
fn loaded_to_jump(items: &[Item], plans: &[Plan], number: usize) -> Option<Register> {
    let Item::Code {
        instruction: Instruction::Load {
            width: Width::Word,
            rd,
            ..
        },
        ..
    } = *items.get(number)?
    else {
        return None;
    };
    let register = jumped_by(items, plans, number.checked_add(1)?)?;
    if rd == register && rd != Register::LINK {
        Some(register)
    } else {
        None
    }
}

/// The item with a number, in which a register of the translation takes the code address that is loaded for a jump alone.
fn item_at(items: &[Item], plans: &[Plan], number: usize, item: Item) -> Item {
    let Item::Code {
        instruction,
        symbol,
        line,
    } = item
    else {
        return item;
    };
    let instruction = match instruction {
        Instruction::Load {
            width,
            base,
            offset,
            ..
        } if loaded_to_jump(items, plans, number).is_some() => Instruction::Load {
            width,
            rd: BY_JUMPS,
            base,
            offset,
        },
        Instruction::Jump(LinkFrom::Register(_))
            if number > 0 && loaded_to_jump(items, plans, number - 1).is_some() => {
            Instruction::Jump(LinkFrom::Register(BY_JUMPS))
        }
        _ => instruction,
    };
    Item::Code {
        instruction,
        symbol,
        line,
    }
}

/// The register that takes a code address for a jump.
const BY_JUMPS: Register = Register(SECOND);

/// Translates the items of a function by their plans.
fn put_items(
    out: &mut Output,
    program: &Program,
    function: &Function,
    items: &[Item],
    plans: &[Plan],
) -> Result<(), AllocError> {
    out.first = None;
    out.push(Line::Mark(Target::Symbol(function.symbol)))?;
    let mut told = (0u32, 0u32);
    for (number, (item, plan)) in items.iter().zip(plans.iter()).enumerate() {
        let item = item_at(items, plans, number, *item);
        put_item(out, program, function, item, *plan, &mut told)?;
    }
    Ok(())
}

/// Translates a function.
pub(crate) fn translate_function(
    alloc: Global,
    out: &mut Output,
    program: &Program,
    function: &Function,
) -> Result<(), AllocError> {
    let items = program.items_of(function);
    let plans = plans_of(alloc, program, function, items)?;
    put_items(out, program, function, items, &plans)
}
