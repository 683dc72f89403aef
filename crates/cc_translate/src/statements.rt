//! The translation of one statement, by itself and its plan.

use cc_accesses::{call_at, is_misaligned, is_null, jump_at, load_statement, store_statement};
use cc_emit::{
    Computed, Line, Output, Plain, Routine, Target, Transfer, Word, compute_line, shift_line,
};
use cc_lines::{
    Condition, Instruction, LinkFrom, Long, Operation, Refusal, Register, Shift, Source, Special,
    Width,
};
use cc_operations::{SECOND, add_constant, compute, constant, copy, operand, shift_by};
use cc_plan::{Comparison, FRAME_WORDS, HI, Place, Planned, STACK_WORDS, Step, bit};
use cc_program::{Function, Meaning, Program};
use cc_rules::{quarter, special_register};
use std::alloc::AllocError;

/// A branch to a place.
fn branch_to(out: &mut Output, found: Comparison, to: Target) -> Result<(), AllocError> {
    let b = operand(out, found.second)?;
    out.transfer(Transfer::Branch {
        condition: found.condition,
        a: found.rs.0,
        b,
        to,
    })
}

/// A branch to a symbol.
fn branch(out: &mut Output, found: Comparison, symbol: u32) -> Result<(), AllocError> {
    branch_to(out, found, Target::Symbol(symbol))
}

/// A branch that makes a comparison whose truth a register takes too.
fn split(
    out: &mut Output,
    found: Comparison,
    into: Register,
    taken: bool,
    symbol: u32,
) -> Result<(), AllocError> {
    constant(out, u32::from(taken), into.0)?;
    branch(out, found, symbol)?;
    constant(out, u32::from(!taken), into.0)
}

/// A branch by so many low bits of a register, which are shifted to the top.
fn branch_by_bits(
    out: &mut Output,
    rs: Register,
    count: u8,
    condition: Condition,
    symbol: u32,
) -> Result<(), AllocError> {
    out.shift(0, rs.0, count, SECOND)?;
    let found = Comparison {
        condition,
        rs: Register(SECOND),
        second: Source::Number(0),
    };
    branch(out, found, symbol)
}

/// The multiple of 4 by which an operation moves the stack pointer, if it does so.
fn moved_by(op: Operation, rs: Register, second: Source) -> Option<u32> {
    let by = match (op, second) {
        (Operation::Add, Source::Number(value)) => value,
        (Operation::Sub, Source::Number(value)) => value.wrapping_neg(),
        _ => return None,
    };
    if rs == Register::STACK && by % 4 == 0 {
        Some(by)
    } else {
        None
    }
}

/// A quarter of the stack pointer, after what gave that.
fn divide_stack(out: &mut Output) -> Result<(), AllocError> {
    out.plain(Plain::Asr {
        rs: Register::STACK.0,
        count: 2,
        rd: STACK_WORDS,
    })
}

/// How many bytes below the lowest address of the stack a function may take that calls no other.
const RED_ZONE: u32 = 256;

/// Whether a function may go beyond the stack's lowest address by moving the stack pointer by so many bytes, modulo 2^32.
fn may_overflow(function: &Function, by: u32) -> bool {
    let down = by.wrapping_neg();
    down < 0x8000_0000 && down > 0 && (function.calls || down > RED_ZONE)
}

/// Ends the program where the stack pointer is below the lowest address of the stack.
fn check_stack(out: &mut Output, program: &Program) -> Result<(), AllocError> {
    let Some(limit) = program.stack_limit else {
        return Ok(());
    };
    let words = (program.address(limit) / 4).cast_signed();
    out.need(Routine::Stack)?;
    // An order with signs: a large frame makes the stack pointer negative.
    out.push_all(&[
        Line::Plain(Plain::Load {
            words,
            base: 0,
            rd: SECOND,
        }),
        Line::Transfer(Transfer::Branch {
            condition: Condition::Less,
            a: Register::STACK.0,
            b: SECOND,
            to: Target::Routine(Routine::Stack),
        }),
    ])
}

/// The stack pointer moves by a number, and its quarter with it.
fn move_stack_by(
    out: &mut Output,
    program: &Program,
    function: &Function,
    by: u32,
) -> Result<(), AllocError> {
    add_constant(out, Register::STACK.0, by, Register::STACK.0)?;
    add_constant(out, STACK_WORDS, quarter(by), STACK_WORDS)?;
    if may_overflow(function, by) {
        return check_stack(out, program);
    }
    Ok(())
}

/// The stack pointer moves, and its quarter with it.
fn move_stack(
    out: &mut Output,
    program: &Program,
    function: &Function,
    op: Operation,
    rs: Register,
    second: Source,
) -> Result<(), AllocError> {
    if let Some(by) = moved_by(op, rs, second) {
        return move_stack_by(out, program, function, by);
    }
    compute(out, op, Register::STACK.0, rs, second)?;
    if rs == Register::FRAME && function.points && second == Source::Register(Register::ZERO) {
        return copy(out, FRAME_WORDS, STACK_WORDS);
    }
    divide_stack(out)?;
    check_stack(out, program)
}

/// A quarter of the frame pointer, after what gave that.
fn divide_frame(out: &mut Output) -> Result<(), AllocError> {
    out.plain(Plain::Asr {
        rs: Register::FRAME.0,
        count: 2,
        rd: FRAME_WORDS,
    })
}

/// A copy to the frame pointer, and of a quarter of it.
fn move_frame(out: &mut Output, rs: Register) -> Result<(), AllocError> {
    copy(out, rs.0, Register::FRAME.0)?;
    if rs == Register::STACK {
        return copy(out, STACK_WORDS, FRAME_WORDS);
    }
    divide_frame(out)
}

/// A copy.
fn move_statement(
    out: &mut Output,
    program: &Program,
    function: &Function,
    rd: Register,
    rs: Register,
) -> Result<(), AllocError> {
    if rd == Register::STACK {
        let zero = Source::Register(Register::ZERO);
        return move_stack(out, program, function, Operation::Add, rs, zero);
    }
    if rd == Register::FRAME && function.points {
        return move_frame(out, rs);
    }
    copy(out, rs.0, rd.0)
}

/// Calls a routine.
fn routine(out: &mut Output, which: Routine) -> Result<(), AllocError> {
    out.need(which)?;
    out.transfer(Transfer::Call {
        to: Target::Routine(which),
        link: LINK_OF_ROUTINES,
    })
}

/// A shift by a register: its routine begins at another place for each count.
fn shift_by_register(
    out: &mut Output,
    op: Shift,
    rd: u8,
    rs: u8,
    count: u8,
) -> Result<(), AllocError> {
    out.need(routine_of_shift(op))?;
    out.push_all(&[
        shift_line(0, count, 5, 26),
        shift_line(26, 0, 27, 26),
        Line::Take {
            word: Word::Shifts(op),
            base: 26,
            rd: 26,
        },
        compute_line(Computed::Add, rs, 0, 1),
        Line::Transfer(Transfer::CallReg {
            rs: 26,
            link: LINK_OF_ROUTINES,
        }),
        compute_line(Computed::Add, 1, 0, rd),
    ])
}

/// The routine of a shift by a register.
fn routine_of_shift(op: Shift) -> Routine {
    match op {
        Shift::Left => Routine::ShiftLeft,
        Shift::Right => Routine::ShiftRight,
        Shift::Arithmetic => Routine::ShiftArithmetic,
        Shift::Rotate => Routine::RotateLeft,
    }
}

/// The routine of a product or a quotient, behind which these registers are read.
fn routine_of(op: Long, live: u64) -> Routine {
    match op {
        Long::Product { .. } if live & bit(HI) == 0 => Routine::Low,
        Long::Product { signed: true } => Routine::SignedProduct,
        Long::Product { signed: false } => Routine::Product,
        Long::Quotient { signed: true } => Routine::SignedQuotient,
        Long::Quotient { signed: false } => Routine::Quotient,
    }
}

/// A product or a quotient.
fn long(out: &mut Output, which: Routine, rs: u8, rt: u8) -> Result<(), AllocError> {
    out.push_all(&[
        Line::Plain(Plain::Move { rs, rd: 1 }),
        Line::Plain(Plain::Move { rs: rt, rd: 26 }),
    ])?;
    routine(out, which)
}

/// An address behind all data, which is not known yet: a word of data holds it.
fn end_address(
    out: &mut Output,
    rd: Register,
    base: Register,
    offset: u32,
) -> Result<(), AllocError> {
    out.keep_end(offset)?;
    out.push(Line::Take {
        word: Word::End(offset),
        base: 0,
        rd: rd.0,
    })?;
    if base == Register::ZERO {
        return Ok(());
    }
    out.compute(Computed::Add, base.0, rd.0, rd.0)
}

/// The address of a symbol, or a sum.
fn address(
    out: &mut Output,
    program: &Program,
    rd: Register,
    base: Register,
    offset: u32,
    symbol: Option<u32>,
) -> Result<(), AllocError> {
    let Some(symbol) = symbol else {
        return add_constant(out, base.0, offset, rd.0);
    };
    match program.symbols.meaning(symbol) {
        Meaning::End => end_address(out, rd, base, offset),
        _ => {
            let bytes = program.address(symbol).wrapping_add(offset);
            add_constant(out, base.0, bytes, rd.0)
        }
    }
}

/// Whether a symbol is one that need not be defined, and is not.
fn is_nowhere(program: &Program, symbol: u32) -> bool {
    matches!(program.symbols.meaning(symbol), Meaning::Unknown)
}

/// A call to a symbol, or to what a register points to.
fn call_statement(
    out: &mut Output,
    program: &Program,
    planned: &Planned,
) -> Result<(), AllocError> {
    match (planned.symbol, planned.plan.place) {
        (Some(symbol), _) if is_nowhere(program, symbol) => routine(out, Routine::Null),
        (Some(symbol), _) => out.transfer(Transfer::Call {
            to: Target::Symbol(symbol),
            link: Register::LINK.0,
        }),
        (None, Some(place)) if is_null(place) => routine(out, Routine::Null),
        (None, Some(place)) => call_at(out, place),
        (None, None) => Ok(()),
    }
}

/// A call, behind which a quarter of the frame pointer is not known any more.
fn call(
    out: &mut Output,
    program: &Program,
    function: &Function,
    planned: &Planned,
) -> Result<(), AllocError> {
    call_statement(out, program, planned)?;
    if function.points {
        return divide_frame(out);
    }
    Ok(())
}

/// A jump by a register. One that holds the code address of a jump table's label is cleared, as only a jump may read that.
fn jump_by(out: &mut Output, register: u8) -> Result<(), AllocError> {
    if register == Register::LINK.0 || register == SECOND {
        return out.transfer(Transfer::JumpReg(register));
    }
    copy(out, register, SECOND)?;
    copy(out, Register::ZERO.0, register)?;
    out.transfer(Transfer::JumpReg(SECOND))
}

/// A jump.
fn jump(
    out: &mut Output,
    program: &Program,
    to: LinkFrom,
    symbol: Option<u32>,
    place: Option<Place>,
) -> Result<(), AllocError> {
    match (to, symbol) {
        (LinkFrom::Register(r), _) => match place {
            Some(place) => jump_at(out, place),
            None => jump_by(out, r.0),
        },
        (LinkFrom::Symbol, Some(symbol)) if is_nowhere(program, symbol) => {
            routine(out, Routine::Null)
        }
        (LinkFrom::Symbol, Some(symbol)) => { out.transfer(Transfer::Jump(Target::Symbol(symbol))) }
        (LinkFrom::Symbol, None) => Ok(()),
    }
}

/// Translates an operation on a register and a second operand.
fn operation(
    out: &mut Output,
    program: &Program,
    function: &Function,
    op: Operation,
    rd: Register,
    rs: Register,
    second: Source,
) -> Result<(), AllocError> {
    match (op, rd, second) {
        (_, Register::STACK, _) => move_stack(out, program, function, op, rs, second),
        (_, Register::ZERO, _) => Ok(()),
        (Operation::Add | Operation::Or, _, Source::Register(Register::ZERO)) => {
            move_statement(out, program, function, rd, rs)
        }
        _ => {
            compute(out, op, rd.0, rs, second)?;
            divide_written(out, function, rd)
        }
    }
}

/// A quarter of a register, after what gave it, where one is kept.
fn divide_written(out: &mut Output, function: &Function, rd: Register) -> Result<(), AllocError> {
    match rd {
        Register::STACK => divide_stack(out),
        Register::FRAME if function.points => divide_frame(out),
        _ => Ok(()),
    }
}

/// Translates a shift.
fn shift(
    out: &mut Output,
    op: Shift,
    rd: Register,
    rs: Register,
    by: Source,
) -> Result<(), AllocError> {
    match (rd, by) {
        (Register(0), _) => Ok(()),
        (_, Source::Number(count)) => shift_by(out, op, rd.0, rs.0, count),
        (_, Source::Register(by)) => shift_by_register(out, op, rd.0, rs.0, by.0),
    }
}

/// The code of the trap that ends the program as it ends by itself, with its status in r2.
const END: u32 = 1023;

/// The codes of the traps of a compiler for an overflow and for a quotient by 0.
const OVERFLOW: u32 = 6;

const ZERO: u32 = 7;

/// A trap. Where the program ends by itself, r27 is 0.
fn trap(out: &mut Output, code: u32) -> Result<(), AllocError> {
    match code {
        END => {
            copy(out, Register::ZERO.0, LINK_OF_ROUTINES)?;
            out.transfer(Transfer::Halt)
        }
        OVERFLOW | ZERO => routine(out, Routine::Zero),
        _ => routine(out, Routine::Trap),
    }
}

/// The register with the link of routines.
const LINK_OF_ROUTINES: u8 = 27;

/// Translates an instruction over registers alone.
fn registers_alone(
    out: &mut Output,
    function: &Function,
    instruction: Instruction,
    live: u64,
) -> Result<(), AllocError> {
    match instruction {
        Instruction::Shift { op, rd, rs, by } => {
            shift(out, op, rd, rs, by)?;
            divide_written(out, function, rd)
        }
        Instruction::Number { rd, value } => {
            constant(out, value, rd.0)?;
            divide_written(out, function, rd)
        }
        Instruction::Long { op, rs, rt } => long(out, routine_of(op, live), rs.0, rt.0),
        Instruction::FromSpecial { special, rd } => {
            copy(out, special_register(special), rd.0)?;
            divide_written(out, function, rd)
        }
        Instruction::ToSpecial { special, rs } => copy(out, rs.0, special_register(special)),
        Instruction::Break(code) => trap(out, code),
        _ => Ok(()),
    }
}

/// Translates a load or a store.
fn at_place(
    out: &mut Output,
    function: &Function,
    planned: &Planned,
    width: Width,
) -> Result<(), AllocError> {
    let Some(place) = planned.plan.place else {
        return Ok(());
    };
    if is_null(place) {
        return routine(out, Routine::Null);
    }
    if is_misaligned(width, place) {
        out.refuse(function.unit, planned.line, Refusal::Misaligned);
        return Ok(());
    }
    match planned.instruction {
        Instruction::Load {
            rd,
            base,
            offset,
            ..
        } => {
            load_statement(out, function, width, rd, base, offset, place)?;
            divide_loaded(out, function, width, rd)
        }
        Instruction::Store { rs, .. } => store_statement(out, width, rs, place),
        _ => Ok(()),
    }
}

/// A quarter of a register that a load gave, where one is kept: a frame pointer is loaded as a function ends, and its quarter is
/// not needed then.
fn divide_loaded(
    out: &mut Output,
    function: &Function,
    width: Width,
    rd: Register,
) -> Result<(), AllocError> {
    match (width, rd) {
        (Width::Word, Register::FRAME) => Ok(()),
        _ => divide_written(out, function, rd),
    }
}

/// Translates a branch to the label that it names.
fn branch_if_named(
    out: &mut Output,
    found: Comparison,
    symbol: Option<u32>,
) -> Result<(), AllocError> {
    match symbol {
        Some(symbol) => branch(out, found, symbol),
        None => Ok(()),
    }
}

/// Translates an instruction.
fn kept(
    out: &mut Output,
    program: &Program,
    function: &Function,
    planned: &Planned,
) -> Result<(), AllocError> {
    match planned.instruction {
        Instruction::Address { rd, base, offset } => {
            address(out, program, rd, base, offset, planned.symbol)?;
            divide_written(out, function, rd)
        }
        Instruction::Load { width, .. } | Instruction::Store { width, .. } => {
            at_place(out, function, planned, width)
        }
        Instruction::Compute { op, rd, rs, second } => {
            operation(out, program, function, op, rd, rs, second)
        }
        Instruction::Move { rd, rs } => move_statement(out, program, function, rd, rs),
        Instruction::Branch {
            condition,
            rs,
            second,
        } => {
            let found = Comparison {
                condition,
                rs,
                second,
            };
            branch_if_named(out, found, planned.symbol)
        }
        Instruction::Jump(to) => jump(out, program, to, planned.symbol, planned.plan.place),
        Instruction::Call(_) => call(out, program, function, planned),
        _ => registers_alone(out, function, planned.instruction, planned.plan.live),
    }
}

/// Whether a load from a place leaves the first register as it is.
fn load_keeps_first(width: Width, place: Option<Place>) -> bool {
    match (width, place) {
        (Width::Left | Width::Right, _) => false,
        (_, Some(Place::Byte { .. } | Place::Turned { .. })) => true,
        _ => false,
    }
}

/// Whether a store to a place leaves the first register as it is.
fn store_keeps_first(width: Width, place: Option<Place>) -> bool {
    match (width, place) {
        (Width::Left | Width::Right, _) => false,
        (_, Some(Place::Byte { .. })) => true,
        (Width::Word | Width::Half { .. }, Some(Place::Turned { .. })) => true,
        _ => false,
    }
}

/// Whether the translation of an instruction writes the first register by `constant` alone, so that a number in it is known after it.
fn keeps_first(instruction: &Instruction, place: Option<Place>) -> bool {
    match *instruction {
        Instruction::Compute { rd, .. }
        | Instruction::Move { rd, .. }
        | Instruction::Number { rd, .. }
        | Instruction::Address { rd, .. }
        | Instruction::FromSpecial { rd, .. }
        | Instruction::Shift {
            rd,
            by: Source::Number(_),
            ..
        } => rd != Register::BETWEEN,
        Instruction::Load { width, rd, .. } => {
            rd != Register::BETWEEN && load_keeps_first(width, place)
        }
        Instruction::Store { width, .. } => store_keeps_first(width, place),
        Instruction::ToSpecial { .. } | Instruction::Branch { .. } | Instruction::Nop => true,
        _ => false,
    }
}

/// Forgets what the first register holds, unless the translation of a statement keeps it.
fn forget_first(out: &mut Output, planned: &Planned) {
    if !keeps_first(&planned.instruction, planned.plan.place) {
        out.first = None;
    }
}

/// Translates what is left of a statement, after the division that it needs.
fn put_step(
    out: &mut Output,
    program: &Program,
    function: &Function,
    planned: &Planned,
) -> Result<(), AllocError> {
    match (planned.plan.step, planned.symbol) {
        (Step::Gone, _) => Ok(()),
        (Step::Fused(found), Some(symbol)) => branch(out, found, symbol),
        (Step::Split { found, into, taken }, Some(symbol)) => {
            split(out, found, into, taken, symbol)
        }
        (
            Step::Bits {
                rs,
                count,
                condition,
            },
            Some(symbol),
        ) => branch_by_bits(out, rs, count, condition, symbol),
        _ => kept(out, program, function, planned),
    }
}

/// Translates a statement.
pub(crate) fn translate_statement(
    out: &mut Output,
    program: &Program,
    function: &Function,
    planned: &Planned,
) -> Result<(), AllocError> {
    if let Some((from, into)) = planned.plan.divided {
        out.plain(Plain::Asr {
            rs: from,
            count: 2,
            rd: into,
        })?;
    }
    forget_first(out, planned);
    put_step(out, program, function, planned)?;
    forget_first(out, planned);
    Ok(())
}
