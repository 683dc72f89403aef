//! Copies, operations on two registers, and shifts by a number.
ghost use Rattle.std.specs.Prelude.{◌≡◌, ◌++◌, ◌+◌, ◌-◌, ◌^◌, min, OnOk};
ghost use Rattle.cc_emit.specs.Needs.{Keeps};
ghost use Rattle.cc_operations.specs.Operations;

use cc_emit::{Computed, Output, Plain};
use cc_lines::{Operation, Shift};
use std::alloc::AllocError;

/// Copies a register.
pub fn copy(out: &mut Output, rs: u8, rd: u8) -> Result<(), AllocError>
    ensures lines { OnOk result (out.new.lines.items ≡ out.old.lines.items ++ Operations.lines (Operations.copied rs rd)) }
    ensures statements { OnOk result (out.new.statements ≡ Operations.counted out.old.statements (Operations.copied rs rd)) }
    ensures routines { out.new.routines ≡ out.old.routines }
    ensures kept { Keeps out.old out.new }
{
    if rs == rd || rd == 0 {
        return Ok(());
    }
    out.plain(Plain::Move { rs, rd })
}

/// Turns each bit of a word.
fn complement(out: &mut Output, rs: u8, rd: u8) -> Result<(), AllocError>
    ensures lines { OnOk result (out.new.lines.items ≡ out.old.lines.items ++ Operations.lines (Operations.complemented rs rd)) }
    ensures statements { OnOk result (out.new.statements ≡ min (out.old.statements + 1) (2 ^ 32 - 1)) }
    ensures routines { out.new.routines ≡ out.old.routines }
    ensures kept { Keeps out.old out.new }
{
    out.plain(Plain::Not { rs, rd })
}

/// What is computed of two registers, but for `nor` and comparisons.
fn computed(op: Operation) -> Computed
    ensures { result ≡ Operations.computed op }
{
    match op {
        Operation::Sub => Computed::Sub,
        Operation::And => Computed::And,
        Operation::Or => Computed::Or,
        Operation::Xor => Computed::Xor,
        _ => Computed::Add,
    }
}

/// Whether an operation with register 0 is a copy.
fn is_copy(op: Operation, b: u8) -> bool
    ensures { result ≡ Operations.is_copy op b }
{
    b == 0
        && matches!(
            op,
            Operation::Add | Operation::Sub | Operation::Or | Operation::Xor
        )
}

/// `nor`.
fn nor(out: &mut Output, rd: u8, rs: u8, rt: u8) -> Result<(), AllocError>
    ensures lines { OnOk result (out.new.lines.items ≡ out.old.lines.items ++ Operations.lines (Operations.nor rd rs rt)) }
    ensures statements { OnOk result (out.new.statements ≡ Operations.counted out.old.statements (Operations.nor rd rs rt)) }
    ensures routines { out.new.routines ≡ out.old.routines }
    ensures kept { Keeps out.old out.new }
{
    if rt == 0 {
        return complement(out, rs, rd);
    }
    if rs == 0 {
        return complement(out, rt, rd);
    }
    out.compute(Computed::Or, rs, rt, rd)?;
    complement(out, rd, rd)
}

/// What is computed of two registers, for operations that do not compare.
pub fn compute_registers(
    out: &mut Output,
    op: Operation,
    rd: u8,
    rs: u8,
    rt: u8,
) -> Result<(), AllocError>
    ensures lines { OnOk result (out.new.lines.items ≡ out.old.lines.items ++ Operations.lines (Operations.operated op rd rs rt)) }
    ensures statements { OnOk result (out.new.statements ≡ Operations.counted out.old.statements (Operations.operated op rd rs rt)) }
    ensures routines { out.new.routines ≡ out.old.routines }
    ensures kept { Keeps out.old out.new }
{
    if is_copy(op, rt) {
        return copy(out, rs, rd);
    }
    if op == Operation::Nor {
        return nor(out, rd, rs, rt);
    }
    out.compute(computed(op), rs, rt, rd)
}

/// A shift by a number.
pub fn shift_by(out: &mut Output, op: Shift, rd: u8, rs: u8, count: u32) -> Result<(), AllocError>
    ensures lines { OnOk result (out.new.lines.items ≡ out.old.lines.items ++ Operations.lines (Operations.shifted op rd rs count)) }
    ensures statements { OnOk result (out.new.statements ≡ Operations.counted out.old.statements (Operations.shifted op rd rs count)) }
    ensures routines { out.new.routines ≡ out.old.routines }
    ensures kept { Keeps out.old out.new }
{
    let count = (count % 32) as u8;
    if count == 0 {
        return copy(out, rs, rd);
    }
    match op {
        Shift::Left => out.shift(0, rs, 32 - count, rd),
        Shift::Right => out.shift(rs, 0, count, rd),
        Shift::Arithmetic => out.plain(Plain::Asr { rs, count, rd }),
        Shift::Rotate => out.shift(rs, rs, 32 - count, rd),
    }
}
