//! Statements that mean several instructions, as an assembler makes them.
//!
//! Register 1 holds what they use between them, and register 24, the place of LO, a factor or a divisor that is a number.

use crate::instruction::{
    Condition, Instruction, Long, MOST_BEHIND, Operation, Register, Shift, Source, Special, Width,
};
use crate::mnemonic::Mnemonic;
use crate::operand::Operand;
use crate::reading::{Operands, memory, three, two};
use crate::refusal::Refusal;

/// An instruction, and those that follow it.
#[derive(Clone, Copy)]
pub(crate) struct Several {
    pub first: Instruction,
    pub behind: [Instruction; MOST_BEHIND],
}

/// One instruction.
pub(crate) fn alone(first: Instruction) -> Several {
    Several {
        first,
        behind: [Instruction::Nop; MOST_BEHIND],
    }
}

/// Two instructions.
fn followed_by_one(first: Instruction, second: Instruction) -> Several {
    Several {
        first,
        behind: [second, Instruction::Nop, Instruction::Nop],
    }
}

/// Three instructions.
fn followed_by_two(first: Instruction, second: Instruction, third: Instruction) -> Several {
    Several {
        first,
        behind: [second, third, Instruction::Nop],
    }
}

/// An operation.
fn compute(op: Operation, rd: Register, rs: Register, second: Source) -> Instruction {
    Instruction::Compute { op, rd, rs, second }
}

/// A product or a quotient in a register.
fn result(op: Long, special: Special, operands: Operands) -> Result<Several, Refusal> {
    let (rd, rs, second) = three(operands)?;
    let taken = Instruction::FromSpecial { special, rd };
    Ok(match second {
        Source::Register(rt) => followed_by_one(Instruction::Long { op, rs, rt }, taken),
        Source::Number(value) => {
            let rt = Register::LOW;
            let number = Instruction::Number { rd: rt, value };
            followed_by_two(number, Instruction::Long { op, rs, rt }, taken)
        }
    })
}

/// The amount of a signed number: where its sign is set, each bit is turned, and 1 is added.
fn absolute(operands: Operands) -> Result<Several, Refusal> {
    let (rd, rs) = two(operands)?;
    let signs = Instruction::Shift {
        op: Shift::Arithmetic,
        rd: Register::BETWEEN,
        rs,
        by: Source::Number(31),
    };
    let sign = Source::Register(Register::BETWEEN);
    let turned = compute(Operation::Xor, rd, rs, sign);
    Ok(followed_by_two(signs, turned, compute(Operation::Sub, rd, rd, sign)))
}

/// 1 where two words are equal, or where they are not, by what differs in them.
fn set_equal(equal: bool, rd: Register, rs: Register, second: Source) -> Several {
    let differing = compute(Operation::Xor, rd, rs, second);
    let told = if equal {
        compute(Operation::Lower, rd, rd, Source::Number(1))
    } else {
        compute(Operation::Lower, rd, Register::ZERO, Source::Register(rd))
    };
    followed_by_one(differing, told)
}

/// 0 for 1, and 1 for 0.
fn turned(rd: Register) -> Instruction {
    compute(Operation::Xor, rd, rd, Source::Number(1))
}

/// 1 where a word is not less than another one.
fn set_not_less(op: Operation, rd: Register, rs: Register, second: Source) -> Several {
    followed_by_one(compute(op, rd, rs, second), turned(rd))
}

/// 1 where a word is greater than another one, or where it is not.
fn set_greater(op: Operation, holds: bool, rd: Register, rs: Register, second: Source) -> Several {
    let end = if holds { Instruction::Nop } else { turned(rd) };
    match second {
        Source::Register(rt) => followed_by_one(compute(op, rd, rt, Source::Register(rs)), end),
        Source::Number(value) => {
            let number = Instruction::Number {
                rd: Register::BETWEEN,
                value,
            };
            let less = compute(op, rd, Register::BETWEEN, Source::Register(rs));
            followed_by_two(number, less, end)
        }
    }
}

/// 1 where a condition holds, else 0.
fn set(condition: Condition, operands: Operands) -> Result<Several, Refusal> {
    let (rd, rs, second) = three(operands)?;
    Ok(match condition {
        Condition::Equal => set_equal(true, rd, rs, second),
        Condition::NotEqual => set_equal(false, rd, rs, second),
        Condition::Less => alone(compute(Operation::Less, rd, rs, second)),
        Condition::NotLess => set_not_less(Operation::Less, rd, rs, second),
        Condition::Greater => set_greater(Operation::Less, true, rd, rs, second),
        Condition::NotGreater => set_greater(Operation::Less, false, rd, rs, second),
        Condition::Lower => alone(compute(Operation::Lower, rd, rs, second)),
        Condition::NotLower => set_not_less(Operation::Lower, rd, rs, second),
        Condition::Higher => set_greater(Operation::Lower, true, rd, rs, second),
        Condition::NotHigher => set_greater(Operation::Lower, false, rd, rs, second),
    })
}

/// A rotation to the right, by the opposite one.
fn rotate_right(operands: Operands) -> Result<Several, Refusal> {
    let (rd, rs, by) = three(operands)?;
    let op = Shift::Rotate;
    match by {
        Source::Number(count) if count > 31 => Err(Refusal::BadNumber),
        Source::Number(count) => {
            let by = Source::Number(32u32.wrapping_sub(count) % 32);
            Ok(alone(Instruction::Shift { op, rd, rs, by }))
        }
        Source::Register(_) => {
            let opposite = compute(Operation::Sub, Register::BETWEEN, Register::ZERO, by);
            let by = Source::Register(Register::BETWEEN);
            Ok(followed_by_one(opposite, Instruction::Shift { op, rd, rs, by }))
        }
    }
}

/// A load of a word at any address, of which both parts are loaded. The register may be that of the address.
fn load_anywhere(operands: Operands) -> Result<Several, Refusal> {
    let (rd, place, offset) = memory(operands)?;
    let base = Register::BETWEEN;
    let address = Instruction::Address {
        rd: base,
        base: place,
        offset,
    };
    let left = Instruction::Load {
        width: Width::Left,
        rd,
        base,
        offset: 0,
    };
    let right = Instruction::Load {
        width: Width::Right,
        rd,
        base,
        offset: 3,
    };
    Ok(followed_by_two(address, left, right))
}

/// A store of a word at any address, of which both parts are stored.
fn store_anywhere(operands: Operands) -> Result<Several, Refusal> {
    let (rs, base, offset) = memory(operands)?;
    let left = Instruction::Store {
        width: Width::Left,
        rs,
        base,
        offset,
    };
    let right = Instruction::Store {
        width: Width::Right,
        rs,
        base,
        offset: offset.wrapping_add(3),
    };
    Ok(followed_by_one(left, right))
}

/// Whether a product or a quotient has a register that takes it: `op $d,$s,$t`, where $d is not $0, or a number last.
fn has_result(operands: Operands) -> bool {
    match operands {
        Operands::Three(Operand::Register(Register::ZERO), _, Operand::Register(_)) => false,
        Operands::Three(..) => true,
        Operands::Two(_, Operand::Number(_)) => true,
        _ => false,
    }
}

/// The instructions that a mnemonic and its operands mean, if they mean several.
pub(crate) fn several_read(
    mnemonic: Mnemonic,
    operands: Operands,
) -> Result<Option<Several>, Refusal> {
    let several = match mnemonic {
        Mnemonic::Result(op, special) => result(op, special, operands)?,
        Mnemonic::Long(Long::Quotient { signed }) if has_result(operands) => {
            result(Long::Quotient { signed }, Special::Lo, operands)?
        }
        Mnemonic::Absolute => absolute(operands)?,
        Mnemonic::Set(condition) => set(condition, operands)?,
        Mnemonic::RotateRight => rotate_right(operands)?,
        Mnemonic::LoadAnywhere => load_anywhere(operands)?,
        Mnemonic::StoreAnywhere => store_anywhere(operands)?,
        _ => return Ok(None),
    };
    Ok(Some(several))
}
