//! Where data are.
ghost use Rattle.std.specs.Prelude.{◌≡◌, ℕ, true, option_map, Some};
ghost use Rattle.cc_plan.specs.Places.{Words, IsDivided, divided, is_read, sum};
ghost use Rattle.cc_plan.specs.Knowing.{Holds};
ghost use Rattle.cc_plan.specs.Translated.{Goes, reads_named};
ghost use Rattle.cc_plan.specs.Placed.{ArePlaced, Either, HasPlace, Passes, Performs, PlacesDatum, PlacesItem};
ghost use Rattle.cc_plan.specs.Placed.{based, is_entry, is_translated, leaves, symbol_address};

use crate::knowledge::{Knowledge, far};
use crate::liveness::calls_label;
use crate::plan::{Plan, Step};
use cc_lines::{Instruction, LinkFrom, Register, Width};
use cc_program::{Function, Item, Meaning, Program};
use cc_rules::is_last;

/// Where the datum of an instruction is told to be: at an offset from a base.
#[derive(Clone, Copy)]
struct Datum {
    base: Register,
    offset: u32,
    /// Whether it may begin anywhere in a word and end with that.
    unaligned: bool,
}

/// The address of the symbol of a statement: 0 where it has none, and none where it is not known yet.
fn address_of(program: &Program, symbol: Option<u32>) -> Option<u32>
    ensures { result ≡ symbol_address program.now symbol }
{
    match symbol {
        None => Some(0),
        Some(symbol) => match program.symbols.meaning(symbol) {
            Meaning::End => None,
            _ => Some(program.address(symbol)),
        },
    }
}

/// Whether a load or a store is of a part of a word up to its end or from its start.
fn is_unaligned(width: Width) -> bool {
    matches!(width, Width::Left | Width::Right)
}

/// Where the datum of an instruction is told to be, if it has one.
fn datum_of(instruction: &Instruction, computes: bool) -> Option<Datum>
    ensures { option_map (λ d. (d.base.0, d.offset)) result ≡ based computes instruction.now }
{
    match *instruction {
        Instruction::Jump(LinkFrom::Register(base)) if computes && base.0 != Register::LINK.0 => {
            Some(Datum {
                base,
                offset: 0,
                unaligned: false,
            })
        }
        Instruction::Load {
            base,
            offset,
            width,
            ..
        }
        | Instruction::Store {
            base,
            offset,
            width,
            ..
        } => Some(Datum {
            base,
            offset,
            unaligned: is_unaligned(width),
        }),
        Instruction::Call(LinkFrom::Register(base)) => Some(Datum {
            base,
            offset: 0,
            unaligned: false,
        }),
        _ => None,
    }
}

/// Finds where a datum is, behind an address.
fn place_datum(knowledge: &mut Knowledge, datum: Datum, address: u32, plan: &mut Plan)
    ensures place { (words : Words) → Holds knowledge.old words → is_read datum.base.0 ≡ true
        → HasPlace (divided words plan.new.divided) plan.new (sum (words datum.base.0) (sum datum.offset address)) }
    ensures known { (words : Words) → Holds knowledge.old words → is_read datum.base.0 ≡ true
        → Holds knowledge.new (divided words plan.new.divided) }
    ensures points { knowledge.new.points ≡ knowledge.old.points }
    ensures computes { knowledge.new.computes ≡ knowledge.old.computes }
    ensures step { plan.new.step ≡ plan.old.step }
{
    let offset = datum.offset.wrapping_add(address);
    if datum.unaligned {
        plan.place = Some(far(datum.base, offset));
        plan.divided = None;
    } else {
        let (place, divided) = knowledge.place(datum.base, offset);
        plan.place = Some(place);
        plan.divided = divided;
    }
}

/// Whether control goes on elsewhere behind an instruction, or comes back with any registers, as from a label of its function.
fn leaves(program: &Program, instruction: &Instruction, symbol: Option<u32>) -> bool
    ensures { result ≡ leaves program.now instruction.now symbol }
{
    match instruction {
        Instruction::Call(_) => calls_label(&program.symbols, symbol),
        _ => is_last(instruction),
    }
}

/// Finds where the datum of an instruction is, if it has one, where this is the address of its symbol.
fn place_instruction(
    knowledge: &mut Knowledge,
    instruction: &Instruction,
    address: Option<u32>,
    plan: &mut Plan,
)
    ensures place { (words : Words) (base offset a : ℕ) → Holds knowledge.old words
        → based knowledge.old.computes instruction.now ≡ Some (base, offset) → address ≡ Some a → is_read base ≡ true
        → HasPlace (divided words plan.new.divided) plan.new (sum (words base) (sum offset a)) }
    ensures known { (words : Words) → Holds knowledge.old words → reads_named instruction.now ≡ true
        → Holds knowledge.new (divided words plan.new.divided) }
    ensures points { knowledge.new.points ≡ knowledge.old.points }
    ensures computes { knowledge.new.computes ≡ knowledge.old.computes }
    ensures step { plan.new.step ≡ plan.old.step }
{
    match datum_of(instruction, knowledge.computes) {
        Some(datum) => place_datum(knowledge, datum, address.unwrap_or(0), plan),
        None => plan.divided = None,
    }
}

/// Learns what an instruction does.
fn learn_instruction(
    program: &Program,
    knowledge: &mut Knowledge,
    instruction: &Instruction,
    symbol: Option<u32>,
    plan: &Plan,
)
    ensures known { (before after : Words) → Holds knowledge.old before → reads_named instruction.now ≡ true
        → Either (leaves program.now instruction.now symbol) (IsDivided knowledge.old.points after)
        (Goes knowledge.old.points (symbol_address program.now symbol) instruction.now plan.now before after) → Holds knowledge.new after }
    ensures points { knowledge.new.points ≡ knowledge.old.points }
    ensures computes { knowledge.new.computes ≡ knowledge.old.computes }
{
    if leaves(program, instruction, symbol) {
        knowledge.forget_all();
    } else {
        knowledge.learn(instruction, plan, address_of(program, symbol));
    }
}

/// Finds where the datum of one statement is, and learns what it does.
fn place_one(
    program: &Program,
    knowledge: &mut Knowledge,
    instruction: &Instruction,
    symbol: Option<u32>,
    plan: &mut Plan,
)
    ensures place { (words : Words) → Holds knowledge.old words
        → PlacesDatum program.now knowledge.old.computes words instruction.now symbol plan.new }
    ensures known { (before after : Words) → Holds knowledge.old before → reads_named instruction.now ≡ true
        → Either (leaves program.now instruction.now symbol) (IsDivided knowledge.old.points after)
        (Goes knowledge.old.points (symbol_address program.now symbol) instruction.now plan.new (divided before plan.new.divided) after)
        → Holds knowledge.new after }
    ensures points { knowledge.new.points ≡ knowledge.old.points }
    ensures computes { knowledge.new.computes ≡ knowledge.old.computes }
    ensures step { plan.new.step ≡ plan.old.step }
{
    place_instruction(knowledge, instruction, address_of(program, symbol), plan);
    learn_instruction(program, knowledge, instruction, symbol, plan);
}

/// Finds where the datum of an item is, if it has one.
fn place_item(program: &Program, knowledge: &mut Knowledge, item: &Item, plan: &mut Plan)
    ensures place { (words : Words) → Holds knowledge.old words → PlacesItem program.now knowledge.old.computes words item.now plan.new }
    ensures known { (before after : Words) → Holds knowledge.old before
        → Passes program.now knowledge.old.points item.now plan.new before after → Holds knowledge.new after }
    ensures entry { (after : Words) → is_entry program.now item.now ≡ true → IsDivided knowledge.old.points after → Holds knowledge.new after }
    ensures points { knowledge.new.points ≡ knowledge.old.points }
    ensures computes { knowledge.new.computes ≡ knowledge.old.computes }
{
    match item {
        Item::Label(label) => {
            if program.symbols.is_used(*label) {
                knowledge.forget_all();
            }
        }
        Item::Location { .. } => {}
        Item::Code {
            instruction,
            symbol,
            ..
        } => place_step(program, knowledge, instruction, *symbol, plan),
    }
}

/// Finds where the datum of an instruction is, unless the plan leaves it out. A branch that gives a register what it found has none.
fn place_step(
    program: &Program,
    knowledge: &mut Knowledge,
    instruction: &Instruction,
    symbol: Option<u32>,
    plan: &mut Plan,
)
    ensures place { (words : Words) → Holds knowledge.old words → is_translated plan.new.step ≡ true
        → PlacesDatum program.now knowledge.old.computes words instruction.now symbol plan.new }
    ensures known { (before after : Words) → Holds knowledge.old before → reads_named instruction.now ≡ true
        → Performs program.now knowledge.old.points instruction.now symbol plan.new plan.new.step before after → Holds knowledge.new after }
    ensures points { knowledge.new.points ≡ knowledge.old.points }
    ensures computes { knowledge.new.computes ≡ knowledge.old.computes }
{
    match plan.step {
        Step::Gone => {}
        Step::Split { into, .. } => knowledge.forget_register(into),
        _ => place_one(program, knowledge, instruction, symbol, plan),
    }
}

/// Finds where the datum of each statement of a function is.
pub(crate) fn find_places(
    program: &Program,
    function: &Function,
    items: &[Item],
    plans: &mut [Plan],
)
    ensures { ArePlaced program.now function.now items.now plans.new }
{
    let mut knowledge = Knowledge::new(function.points, function.computes);
    let count = items.len().min(plans.len());
    for number in 0..count {
        place_item(program, &mut knowledge, &items[number], &mut plans[number]);
    }
}
