//! Instructions of their operands.

use crate::constants::Constants;
use crate::cursor::{split_name, split_value, trimmed};
use crate::instruction::{
    Condition, Instruction, LinkFrom, MOST_BEHIND, Operation, Register, Shift, Source, Statement,
    Width,
};
use crate::mnemonic::{Mnemonic, mnemonic_named};
use crate::operand::{Operand, operand_read, without_half};
use crate::refusal::Refusal;
use crate::several::{Several, alone, several_read};

/// The operands of an instruction: none to three.
#[derive(Clone, Copy)]
pub(crate) enum Operands {
    None,
    One(Operand),
    Two(Operand, Operand),
    Three(Operand, Operand, Operand),
}

/// Operands, and the text of the last one: an instruction names a symbol there alone.
#[derive(Clone, Copy)]
struct Spelled<'a> {
    operands: Operands,
    last: &'a [u8],
}

/// The operands that a text spells.
fn operands_read<'a>(text: &'a [u8], constants: &Constants<'_>) -> Result<Spelled<'a>, Refusal> {
    if text.is_empty() {
        return Ok(Spelled {
            operands: Operands::None,
            last: text,
        });
    }
    let (first, rest) = split_value(text);
    let last = trimmed(first);
    let a = operand_read(last, constants)?;
    if rest.is_empty() {
        return Ok(Spelled {
            operands: Operands::One(a),
            last,
        });
    }
    let (second, rest) = split_value(rest);
    let last = trimmed(second);
    let b = operand_read(last, constants)?;
    if rest.is_empty() {
        return Ok(Spelled {
            operands: Operands::Two(a, b),
            last,
        });
    }
    let last = trimmed(rest);
    let c = operand_read(last, constants)?;
    Ok(Spelled {
        operands: Operands::Three(a, b, c),
        last,
    })
}

/// A register, or a number.
pub(crate) fn source(operand: Operand) -> Result<Source, Refusal> {
    match operand {
        Operand::Register(r) => Ok(Source::Register(r)),
        Operand::Number(value) => Ok(Source::Number(value)),
        _ => Err(Refusal::BadOperands),
    }
}

/// The registers and the second operand of `op $d,$s,$t`, or of `op $d,$t`, where the first source is the target.
pub(crate) fn three(operands: Operands) -> Result<(Register, Register, Source), Refusal> {
    match operands {
        Operands::Three(Operand::Register(rd), Operand::Register(rs), second) => {
            Ok((rd, rs, source(second)?))
        }
        Operands::Two(Operand::Register(rd), second) => Ok((rd, rd, source(second)?)),
        _ => Err(Refusal::BadOperands),
    }
}

/// The registers of `op $d,$s`, or of `op $d`.
pub(crate) fn two(operands: Operands) -> Result<(Register, Register), Refusal> {
    match operands {
        Operands::Two(Operand::Register(rd), Operand::Register(rs)) => Ok((rd, rs)),
        Operands::One(Operand::Register(rd)) => Ok((rd, rd)),
        _ => Err(Refusal::BadOperands),
    }
}

/// The register of `op $r`.
fn one(operands: Operands) -> Result<Register, Refusal> {
    match operands {
        Operands::One(Operand::Register(r)) => Ok(r),
        _ => Err(Refusal::BadOperands),
    }
}

/// The register, the base and the offset of `op $r,place`.
pub(crate) fn memory(operands: Operands) -> Result<(Register, Register, u32), Refusal> {
    match operands {
        Operands::Two(Operand::Register(r), Operand::Memory { offset, base, .. }) => {
            Ok((r, base, offset))
        }
        Operands::Two(Operand::Register(r), Operand::Symbol(offset) | Operand::Number(offset)) => {
            Ok((r, Register::ZERO, offset))
        }
        _ => Err(Refusal::BadOperands),
    }
}

/// The registers of `op $s,$t`, or of `op $0,$s,$t`.
fn long(operands: Operands) -> Result<(Register, Register), Refusal> {
    match operands {
        Operands::Two(Operand::Register(rs), Operand::Register(rt))
        | Operands::Three(
            Operand::Register(Register(0)),
            Operand::Register(rs),
            Operand::Register(rt),
        ) => Ok((rs, rt)),
        _ => Err(Refusal::BadOperands),
    }
}

/// A branch that compares two.
fn branch(condition: Condition, operands: Operands) -> Result<Instruction, Refusal> {
    match operands {
        Operands::Three(Operand::Register(rs), second, Operand::Symbol(0)) => {
            let second = source(second)?;
            Ok(Instruction::Branch {
                condition,
                rs,
                second,
            })
        }
        _ => Err(Refusal::BadOperands),
    }
}

/// A branch that compares with 0.
fn branch_zero(condition: Condition, operands: Operands) -> Result<Instruction, Refusal> {
    match operands {
        Operands::Two(Operand::Register(rs), Operand::Symbol(0)) => {
            let second = Source::Register(Register::ZERO);
            Ok(Instruction::Branch {
                condition,
                rs,
                second,
            })
        }
        _ => Err(Refusal::BadOperands),
    }
}

/// Where a jump goes.
fn target(operands: Operands) -> Result<LinkFrom, Refusal> {
    match operands {
        Operands::One(Operand::Symbol(0)) => Ok(LinkFrom::Symbol),
        Operands::One(Operand::Register(r)) => Ok(LinkFrom::Register(r)),
        _ => Err(Refusal::BadOperands),
    }
}

/// A call, whose link is register 31.
fn call(operands: Operands) -> Result<Instruction, Refusal> {
    match operands {
        Operands::Two(Operand::Register(Register::LINK), Operand::Register(r)) => {
            Ok(Instruction::Call(LinkFrom::Register(r)))
        }
        _ => Ok(Instruction::Call(target(operands)?)),
    }
}

/// Whether the number of an instruction with 16 bits for it is one: for operations on bits from 0 to 65,535, for others from -32,768 to
/// 32,767.
fn fits_in_half(op: Operation, value: u32) -> bool {
    match op {
        Operation::And | Operation::Or | Operation::Xor | Operation::Nor => value <= 65535,
        _ => value <= 32767 || value >= 0xffff_8000,
    }
}

/// An operation on a register and a number with 16 bits, or the sum of a register and a symbol, of which that is the lower half.
fn immediate(op: Operation, operands: Operands) -> Result<Instruction, Refusal> {
    if let (
        Operation::Add,
        Operands::Three(Operand::Register(rd), Operand::Register(base), Operand::Symbol(offset)),
    ) = (op, operands)
    {
        return Ok(Instruction::Address { rd, base, offset });
    }
    let (rd, rs, second) = three(operands)?;
    match second {
        Source::Number(value) if !fits_in_half(op, value) => Err(Refusal::BadNumber),
        _ => Ok(Instruction::Compute { op, rd, rs, second }),
    }
}

/// A shift, by 0 to 31 where that is a number.
fn shift(op: Shift, operands: Operands) -> Result<Instruction, Refusal> {
    let (rd, rs, by) = three(operands)?;
    match by {
        Source::Number(count) if count > 31 => Err(Refusal::BadNumber),
        _ => Ok(Instruction::Shift { op, rd, rs, by }),
    }
}

/// A trap with its code.
fn trap(operands: Operands) -> Result<Instruction, Refusal> {
    match operands {
        Operands::None => Ok(Instruction::Break(0)),
        Operands::One(Operand::Number(code))
        | Operands::Two(Operand::Number(code), Operand::Number(_)) => {
            Ok(Instruction::Break(code))
        }
        _ => Err(Refusal::BadOperands),
    }
}

/// The upper half of a register's word.
fn upper(operands: Operands) -> Result<Instruction, Refusal> {
    match operands {
        Operands::Two(Operand::Register(_), Operand::Number(number)) if number > 65535 => Err(
            Refusal::BadNumber,
        ),
        _ => number(operands, 65536),
    }
}

/// A number into a register.
fn number(operands: Operands, factor: u32) -> Result<Instruction, Refusal> {
    match operands {
        Operands::Two(Operand::Register(rd), Operand::Number(number)) => {
            let value = number.wrapping_mul(factor);
            Ok(Instruction::Number { rd, value })
        }
        _ => Err(Refusal::BadOperands),
    }
}

/// A load, a store, or the address of a place.
fn at_place(mnemonic: Mnemonic, operands: Operands) -> Result<Instruction, Refusal> {
    let (register, base, offset) = memory(operands)?;
    Ok(match mnemonic {
        Mnemonic::Load(width) => Instruction::Load {
            width,
            rd: register,
            base,
            offset,
        },
        Mnemonic::Store(width) => Instruction::Store {
            width,
            rs: register,
            base,
            offset,
        },
        _ => Instruction::Address {
            rd: register,
            base,
            offset,
        },
    })
}

/// A copy, or what is computed of one register.
fn of_one(mnemonic: Mnemonic, operands: Operands) -> Result<Instruction, Refusal> {
    let (rd, rs) = two(operands)?;
    Ok(match mnemonic {
        Mnemonic::Negate => Instruction::Compute {
            op: Operation::Sub,
            rd,
            rs: Register::ZERO,
            second: Source::Register(rs),
        },
        Mnemonic::Not => Instruction::Compute {
            op: Operation::Nor,
            rd,
            rs,
            second: Source::Register(Register::ZERO),
        },
        _ => Instruction::Move { rd, rs },
    })
}

/// An instruction over registers alone.
fn registers_alone(mnemonic: Mnemonic, operands: Operands) -> Result<Instruction, Refusal> {
    Ok(match mnemonic {
        Mnemonic::Compute(op) => {
            let (rd, rs, second) = three(operands)?;
            Instruction::Compute { op, rd, rs, second }
        }
        Mnemonic::Immediate(op) => immediate(op, operands)?,
        Mnemonic::Shift(op) => shift(op, operands)?,
        Mnemonic::Long(op) => {
            let (rs, rt) = long(operands)?;
            Instruction::Long { op, rs, rt }
        }
        Mnemonic::FromSpecial(special) => Instruction::FromSpecial {
            special,
            rd: one(operands)?,
        },
        Mnemonic::ToSpecial(special) => Instruction::ToSpecial {
            special,
            rs: one(operands)?,
        },
        Mnemonic::Break => trap(operands)?,
        _ => Instruction::Nop,
    })
}

/// The instruction of a mnemonic and its operands.
fn instruction_of(mnemonic: Mnemonic, operands: Operands) -> Result<Instruction, Refusal> {
    match mnemonic {
        Mnemonic::Number => number(operands, 1),
        Mnemonic::Upper => upper(operands),
        Mnemonic::Address | Mnemonic::Load(_) | Mnemonic::Store(_) => at_place(mnemonic, operands),
        Mnemonic::Branch(condition) => branch(condition, operands),
        Mnemonic::BranchZero(condition) => branch_zero(condition, operands),
        Mnemonic::Goto | Mnemonic::Jump => Ok(Instruction::Jump(target(operands)?)),
        Mnemonic::Call => call(operands),
        Mnemonic::Move | Mnemonic::Negate | Mnemonic::Not => of_one(mnemonic, operands),
        _ => registers_alone(mnemonic, operands),
    }
}

/// Whether an instruction names the symbol of its last operand. `nop` may have any operands.
fn names_symbol(instruction: Instruction, operands: Operands) -> bool {
    let last = match operands {
        Operands::None => return false,
        Operands::One(last) | Operands::Two(_, last) | Operands::Three(_, _, last) => last,
    };
    match instruction {
        Instruction::Break(_) | Instruction::Nop => false,
        _ => matches!(
            last,
            Operand::Symbol(_) | Operand::Memory { named: true, .. }
        ),
    }
}

/// Whether a statement saves register 22 or 23 in the frame, or restores it. A function that a non-local goto comes to saves each
/// register; as a program names these two nowhere else, it is left out.
fn saves_kept(mnemonic: Mnemonic, text: &[u8]) -> bool {
    matches!(
        mnemonic,
        Mnemonic::Store(Width::Word) | Mnemonic::Load(Width::Word)
    ) && (text.starts_with(b"$22,") || text.starts_with(b"$23,"))
        && text.ends_with(b"($sp)")
}

/// The statement that a mnemonic and the text after it spell.
pub(crate) fn statement_read<'a>(
    name: &[u8],
    text: &'a [u8],
    constants: &Constants<'_>,
) -> Result<Statement<'a>, Refusal> {
    let mnemonic = mnemonic_named(name)?;
    if saves_kept(mnemonic, text) {
        return Ok(Statement {
            instruction: Instruction::Nop,
            symbol: None,
            behind: [Instruction::Nop; MOST_BEHIND],
        });
    }
    let Spelled { operands, last } = operands_read(text, constants)?;
    let Several { first, behind } = match several_read(mnemonic, operands)? {
        Some(several) => several,
        None => alone(instruction_of(mnemonic, operands)?),
    };
    let symbol = if names_symbol(first, operands) {
        Some(split_name(without_half(last)).0)
    } else {
        None
    };
    Ok(Statement {
        instruction: first,
        symbol,
        behind,
    })
}
