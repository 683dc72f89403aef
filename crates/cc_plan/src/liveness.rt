//! Which registers are read behind each item of a function.
ghost use Rattle.std.specs.Prelude.{◌≡◌};
ghost use Rattle.cc_plan.specs.Placed.{names_place};

use crate::effects::{ALL, ARGUMENTS, RETURNED, kills, reads};
use crate::plan::Plan;
use cc_lines::{Instruction, LinkFrom, Register};
use cc_program::{Item, Meaning, Symbols};
use cc_rules::index_within;
use std::alloc::{AllocError, Global};

/// What is read from where a symbol is on, in a function whose first item has this number, where `before` has what is read
/// from each of its items on.
fn at_target(before: &[u64], symbols: &Symbols, first: usize, symbol: Option<u32>) -> u64 {
    let Some(symbol) = symbol else {
        return ALL;
    };
    match symbols.meaning(symbol) {
        Meaning::Place { item, .. } => match index_within(first, item) {
            Some(index) => before.get(index).copied().unwrap_or(ALL),
            None => ALL,
        },
        Meaning::Function(_) => ARGUMENTS | RETURNED,
        _ => ALL,
    }
}

/// What is read where a call goes that is to a label of the function.
fn at_call(symbols: &Symbols, symbol: Option<u32>) -> u64 {
    if calls_label(symbols, symbol) { ALL } else { 0 }
}

/// Whether a call to a symbol is one to a label of the function.
pub(crate) fn calls_label(symbols: &Symbols, symbol: Option<u32>) -> bool
    ensures { result ≡ names_place symbols.now.list.items symbol }
{
    match symbol {
        Some(symbol) => matches!(symbols.meaning(symbol), Meaning::Place { .. }),
        None => false,
    }
}

/// What is read behind a jump to what a register holds.
fn behind_return(register: Register) -> u64 {
    if register == Register::LINK { 0 } else { ALL }
}

/// What is read behind an instruction, where `next` is read from the next one on.
fn behind(
    before: &[u64],
    symbols: &Symbols,
    first: usize,
    instruction: &Instruction,
    symbol: Option<u32>,
    next: u64,
) -> u64 {
    match *instruction {
        Instruction::Jump(LinkFrom::Symbol) => at_target(before, symbols, first, symbol),
        Instruction::Jump(LinkFrom::Register(register)) => behind_return(register),
        Instruction::Branch { .. } => next | at_target(before, symbols, first, symbol),
        Instruction::Call(LinkFrom::Symbol) => next | at_call(symbols, symbol),
        _ => next,
    }
}

/// Goes over the items once, from the last to the first. Answers whether anything changed.
fn round(
    before: &mut [u64],
    symbols: &Symbols,
    first: usize,
    items: &[Item],
    plans: &mut [Plan],
) -> bool {
    let mut changed = false;
    let mut next = ALL;
    for i in (0..items.len()).rev() {
        let mut live = next;
        if let Some(
            Item::Code {
                instruction,
                symbol,
                ..
            },
        ) = items.get(i)
        {
            live = behind(before, symbols, first, instruction, *symbol, next);
            next = (live & !kills(instruction)) | reads(instruction);
        }
        if let Some(plan) = plans.get_mut(i) {
            plan.live = live;
        }
        changed |= note(before, i, next);
    }
    changed
}

/// Notes what is read from an item on. Answers whether that is news.
fn note(before: &mut [u64], number: usize, read: u64) -> bool {
    match before.get_mut(number) {
        Some(known) if *known != read => {
            *known = read;
            true
        }
        _ => false,
    }
}

/// How often the items are gone over at most.
const MOST_ROUNDS: u32 = 1000;

/// Lets the plan of each item of a function, whose first item has this number, say which registers are read behind it.
pub(crate) fn note_live(
    alloc: Global,
    symbols: &Symbols,
    first: usize,
    items: &[Item],
    plans: &mut [Plan],
) -> Result<(), AllocError> {
    let mut before = vec![in alloc; 0u64; items.len()]?;
    for _ in 0..MOST_ROUNDS {
        if !round(before.as_mut_slice(), symbols, first, items, plans) {
            return Ok(());
        }
    }
    for plan in plans.iter_mut() {
        plan.live = ALL;
    }
    Ok(())
}
