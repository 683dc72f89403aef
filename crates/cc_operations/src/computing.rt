//! Operations on a register and a second operand, which is a register or a number.
ghost use Rattle.std.specs.Prelude.{◌≡◌, ◌++◌, OnOk, IfOk};
ghost use Rattle.cc_operations.specs.Computing;
ghost use Rattle.cc_operations.specs.Counts.{statements_after, numbers_after, places_after, next_place};

use crate::between::{FIRST, SECOND};
use crate::comparisons::{set_if_below, set_if_negative, set_if_not_zero, set_if_zero, signs_of};
use crate::numbers::{add_constant, constant};
use crate::registers::{compute_registers, copy};
use cc_emit::{Line, Output, Plain, Target, Transfer};
use cc_lines::{Condition, Operation, Register, Source};
use cc_plan::{Comparison, tested_by};
use std::alloc::AllocError;

/// The register of a second operand; a number is put into the first register for the time being.
pub fn operand(out: &mut Output, second: Source) -> Result<u8, AllocError>
    ensures register { IfOk result (λ register. register ≡ Computing.operand_register second) }
    ensures lines { OnOk result (out.new.lines.items ≡ out.old.lines.items ++ (Computing.operand out.old.first second).lines) }
    ensures first { OnOk result (out.new.first ≡ (Computing.operand out.old.first second).first) }
    ensures numbers { OnOk result (out.new.numbers.keys ≡ numbers_after out.old.numbers.keys (Computing.operand out.old.first second).lines) }
    ensures statements { OnOk result (out.new.statements ≡ statements_after out.old.statements (Computing.operand out.old.first second).lines) }
    ensures kept { (out.new.skips ≡ out.old.skips) × (out.new.routines ≡ out.old.routines) }
{
    match second {
        Source::Register(r) => Ok(r.0),
        Source::Number(0) => Ok(0),
        Source::Number(value) => {
            constant(out, value, FIRST)?;
            Ok(FIRST)
        }
    }
}

/// 1 where a condition holds of two registers, else 0, by a branch.
fn set_over(out: &mut Output, condition: Condition, a: u8, b: u8, rd: u8) -> Result<(), AllocError>
    ensures lines { OnOk result (out.new.lines.items ≡ out.old.lines.items ++ (Computing.set_over (next_place out.old.skips) condition a b rd)) }
    ensures first { out.new.first ≡ out.old.first }
    ensures numbers { OnOk result (out.new.numbers.keys ≡ numbers_after out.old.numbers.keys (Computing.set_over (next_place out.old.skips) condition a b rd)) }
    ensures statements { OnOk result (out.new.statements
        ≡ statements_after out.old.statements (Computing.set_over (next_place out.old.skips) condition a b rd)) }
    ensures places { OnOk result (out.new.skips ≡ places_after out.old.skips (Computing.set_over (next_place out.old.skips) condition a b rd)) }
    ensures routines { out.new.routines ≡ out.old.routines }
{
    let to = Target::Skip(out.skip());
    out.push_all(&[
        Line::Constant { value: 1, rd },
        Line::Transfer(Transfer::Branch {
            condition,
            a,
            b,
            to,
        }),
        Line::Plain(Plain::Move { rs: 0, rd }),
        Line::Mark(to),
    ])
}

/// Which register takes the answer, as a branch reads the operands after it.
fn answer(rd: u8, a: u8, b: u8) -> u8
    ensures { result ≡ Computing.answer rd a b }
{
    if rd == a || rd == b { SECOND } else { rd }
}

/// 1 where a condition holds of two registers, else 0, which a register takes that may be one of them.
fn set_registers(
    out: &mut Output,
    condition: Condition,
    a: u8,
    b: u8,
    rd: u8,
) -> Result<(), AllocError>
    ensures lines { OnOk result (out.new.lines.items ≡ out.old.lines.items ++ (Computing.branched (next_place out.old.skips) condition a b rd)) }
    ensures first { out.new.first ≡ out.old.first }
    ensures numbers { OnOk result (out.new.numbers.keys ≡ numbers_after out.old.numbers.keys (Computing.branched (next_place out.old.skips) condition a b rd)) }
    ensures statements { OnOk result (out.new.statements
        ≡ statements_after out.old.statements (Computing.branched (next_place out.old.skips) condition a b rd)) }
    ensures places { OnOk result (out.new.skips ≡ places_after out.old.skips (Computing.branched (next_place out.old.skips) condition a b rd)) }
    ensures routines { out.new.routines ≡ out.old.routines }
{
    let into = answer(rd, a, b);
    set_over(out, condition, a, b, into)?;
    copy(out, into, rd)
}

/// 1 where a condition holds, else 0, by a branch.
fn set_by_branch(out: &mut Output, rd: u8, found: Comparison) -> Result<(), AllocError>
    ensures lines { OnOk result (out.new.lines.items ≡ out.old.lines.items ++ (Computing.by_branch (next_place out.old.skips) out.old.first rd found).lines) }
    ensures first { OnOk result (out.new.first ≡ (Computing.by_branch (next_place out.old.skips) out.old.first rd found).first) }
    ensures numbers { OnOk result (out.new.numbers.keys
        ≡ numbers_after out.old.numbers.keys (Computing.by_branch (next_place out.old.skips) out.old.first rd found).lines) }
    ensures statements { OnOk result (out.new.statements
        ≡ statements_after out.old.statements (Computing.by_branch (next_place out.old.skips) out.old.first rd found).lines) }
    ensures places { OnOk result (out.new.skips ≡ places_after out.old.skips (Computing.by_branch (next_place out.old.skips) out.old.first rd found).lines) }
    ensures routines { out.new.routines ≡ out.old.routines }
{
    let b = operand(out, found.second)?;
    set_registers(out, found.condition, found.rs.0, b, rd)
}

/// 1 where a condition holds, else 0: without a branch where a number decides it.
fn set_against(out: &mut Output, rd: u8, found: Comparison) -> Result<(), AllocError>
    ensures lines { OnOk result (out.new.lines.items ≡ out.old.lines.items ++ (Computing.against (next_place out.old.skips) out.old.first rd found).lines) }
    ensures first { OnOk result (out.new.first ≡ (Computing.against (next_place out.old.skips) out.old.first rd found).first) }
    ensures numbers { OnOk result (out.new.numbers.keys
        ≡ numbers_after out.old.numbers.keys (Computing.against (next_place out.old.skips) out.old.first rd found).lines) }
    ensures statements { OnOk result (out.new.statements
        ≡ statements_after out.old.statements (Computing.against (next_place out.old.skips) out.old.first rd found).lines) }
    ensures places { OnOk result (out.new.skips ≡ places_after out.old.skips (Computing.against (next_place out.old.skips) out.old.first rd found).lines) }
    ensures routines { out.new.routines ≡ out.old.routines }
{
    if let Source::Number(value) = found.second {
        if let Some(signs) = signs_of(found.condition, value) {
            return set_if_below(out, signs, found.rs.0, value, rd);
        }
    }
    set_by_branch(out, rd, found)
}

/// Whether a second operand is 0.
fn is_zero(second: Source) -> bool
    ensures { result ≡ Computing.is_zero second }
{
    matches!(second, Source::Register(Register(0)) | Source::Number(0))
}

/// 1 where a condition holds, else 0. Some comparisons with 0 need no branch.
fn set(out: &mut Output, rd: u8, found: Comparison) -> Result<(), AllocError>
    ensures lines { OnOk result (out.new.lines.items ≡ out.old.lines.items ++ (Computing.set (next_place out.old.skips) out.old.first rd found).lines) }
    ensures first { OnOk result (out.new.first ≡ (Computing.set (next_place out.old.skips) out.old.first rd found).first) }
    ensures numbers { OnOk result (out.new.numbers.keys
        ≡ numbers_after out.old.numbers.keys (Computing.set (next_place out.old.skips) out.old.first rd found).lines) }
    ensures statements { OnOk result (out.new.statements
        ≡ statements_after out.old.statements (Computing.set (next_place out.old.skips) out.old.first rd found).lines) }
    ensures places { OnOk result (out.new.skips ≡ places_after out.old.skips (Computing.set (next_place out.old.skips) out.old.first rd found).lines) }
    ensures routines { out.new.routines ≡ out.old.routines }
{
    let a = found.rs.0;
    match found.condition {
        Condition::Less if is_zero(found.second) => set_if_negative(out, a, rd),
        Condition::Equal if is_zero(found.second) => set_if_zero(out, a, rd),
        Condition::NotEqual if is_zero(found.second) => set_if_not_zero(out, a, rd),
        _ => set_against(out, rd, found),
    }
}

/// What is computed of a register and a second operand.
fn compute_operands(
    out: &mut Output,
    op: Operation,
    rd: u8,
    rs: u8,
    second: Source,
) -> Result<(), AllocError>
    ensures lines { OnOk result (out.new.lines.items ≡ out.old.lines.items ++ (Computing.operands out.old.first op rd rs second).lines) }
    ensures first { OnOk result (out.new.first ≡ (Computing.operands out.old.first op rd rs second).first) }
    ensures numbers { OnOk result (out.new.numbers.keys ≡ numbers_after out.old.numbers.keys (Computing.operands out.old.first op rd rs second).lines) }
    ensures statements { OnOk result (out.new.statements ≡ statements_after out.old.statements (Computing.operands out.old.first op rd rs second).lines) }
    ensures kept { (out.new.skips ≡ out.old.skips) × (out.new.routines ≡ out.old.routines) }
{
    let rt = operand(out, second)?;
    compute_registers(out, op, rd, rs, rt)
}

/// What is computed of two words.
pub fn compute(
    out: &mut Output,
    op: Operation,
    rd: u8,
    rs: Register,
    second: Source,
) -> Result<(), AllocError>
    ensures lines { OnOk result (out.new.lines.items
        ≡ out.old.lines.items ++ (Computing.computed (next_place out.old.skips) out.old.first op rd rs second).lines) }
    ensures first { OnOk result (out.new.first ≡ (Computing.computed (next_place out.old.skips) out.old.first op rd rs second).first) }
    ensures numbers { OnOk result (out.new.numbers.keys
        ≡ numbers_after out.old.numbers.keys (Computing.computed (next_place out.old.skips) out.old.first op rd rs second).lines) }
    ensures statements { OnOk result (out.new.statements
        ≡ statements_after out.old.statements (Computing.computed (next_place out.old.skips) out.old.first op rd rs second).lines) }
    ensures places { OnOk result (out.new.skips
        ≡ places_after out.old.skips (Computing.computed (next_place out.old.skips) out.old.first op rd rs second).lines) }
    ensures routines { out.new.routines ≡ out.old.routines }
{
    match (op, second) {
        (Operation::Less | Operation::Lower, _) => set(out, rd, tested_by(op, rs, second)),
        (Operation::Add, Source::Number(value)) => add_constant(out, rs.0, value, rd),
        (Operation::Sub, Source::Number(value)) => {
            add_constant(out, rs.0, value.wrapping_neg(), rd)
        }
        (Operation::Or | Operation::Xor, Source::Number(value)) if rs == Register::ZERO => {
            constant(out, value, rd)
        }
        _ => compute_operands(out, op, rd, rs.0, second),
    }
}
