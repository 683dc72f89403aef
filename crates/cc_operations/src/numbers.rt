//! Numbers that are put into registers, and sums with numbers.
ghost use Rattle.std.specs.Prelude.{◌≡◌, ◌++◌, ◌∷◌, ◌+◌, ◌-◌, ◌^◌, [], min, OnOk};
ghost use Rattle.cc_operations.specs.Counts.{statements_after, numbers_after};
ghost use Rattle.cc_operations.specs.Numbers;

use crate::between::FIRST;
use cc_emit::{Computed, Line, Output, Plain, is_short};
use std::alloc::AllocError;

/// Puts a number into a register. The first one may hold it already, from an earlier statement.
pub fn constant(out: &mut Output, value: u32, rd: u8) -> Result<(), AllocError>
    ensures lines { OnOk result (out.new.lines.items ≡ out.old.lines.items ++ (Numbers.constant out.old.first value rd).lines) }
    ensures first { OnOk result (out.new.first ≡ (Numbers.constant out.old.first value rd).first) }
    ensures numbers { OnOk result (out.new.numbers.keys ≡ numbers_after out.old.numbers.keys (Numbers.constant out.old.first value rd).lines) }
    ensures statements { OnOk result (out.new.statements ≡ statements_after out.old.statements (Numbers.constant out.old.first value rd).lines) }
    ensures kept { (out.new.skips ≡ out.old.skips) × (out.new.routines ≡ out.old.routines) }
{
    if rd == FIRST {
        if out.first == Some(value) {
            return Ok(());
        }
        out.first = Some(value);
    }
    load_constant(out, value, rd)
}

/// Loads a number into a register.
fn load_constant(out: &mut Output, value: u32, rd: u8) -> Result<(), AllocError>
    ensures lines { OnOk result (out.new.lines.items ≡ out.old.lines.items ++ Line.Constant value rd ∷ []) }
    ensures numbers { OnOk result (out.new.numbers.keys ≡ numbers_after out.old.numbers.keys (Line.Constant value rd ∷ [])) }
    ensures statements { OnOk result (out.new.statements ≡ min (out.old.statements + 1) (2 ^ 32 - 1)) }
    ensures kept { (out.new.first ≡ out.old.first) × (out.new.skips ≡ out.old.skips) × (out.new.routines ≡ out.old.routines) }
{
    if !is_short(value.cast_signed()) {
        out.keep_number(value)?;
    }
    out.push(Line::Constant { value, rd })
}

/// Adds a number to a register, which is not register 0 where the number is long.
fn add_number(out: &mut Output, rs: u8, value: u32, rd: u8) -> Result<(), AllocError>
    ensures lines { OnOk result (out.new.lines.items ≡ out.old.lines.items ++ (Numbers.sum out.old.first rs value rd).lines) }
    ensures first { OnOk result (out.new.first ≡ (Numbers.sum out.old.first rs value rd).first) }
    ensures numbers { OnOk result (out.new.numbers.keys ≡ numbers_after out.old.numbers.keys (Numbers.sum out.old.first rs value rd).lines) }
    ensures statements { OnOk result (out.new.statements ≡ statements_after out.old.statements (Numbers.sum out.old.first rs value rd).lines) }
    ensures kept { (out.new.skips ≡ out.old.skips) × (out.new.routines ≡ out.old.routines) }
{
    let number = value.cast_signed();
    if is_short(number) {
        return out.plain(Plain::Addi { rs, number, rd });
    }
    add_long(out, rs, value, rd)
}

/// Which register takes a long number to be added.
fn addend(rs: u8, rd: u8) -> u8
    ensures { result ≡ Numbers.addend rs rd }
{
    if rd == rs || rd == 0 { FIRST } else { rd }
}

/// Adds a long number to a register, which is not register 0.
fn add_long(out: &mut Output, rs: u8, value: u32, rd: u8) -> Result<(), AllocError>
    ensures lines { OnOk result (out.new.lines.items ≡ out.old.lines.items ++ (Numbers.long_sum out.old.first rs value rd).lines) }
    ensures first { OnOk result (out.new.first ≡ (Numbers.long_sum out.old.first rs value rd).first) }
    ensures numbers { OnOk result (out.new.numbers.keys ≡ numbers_after out.old.numbers.keys (Numbers.long_sum out.old.first rs value rd).lines) }
    ensures statements { OnOk result (out.new.statements ≡ statements_after out.old.statements (Numbers.long_sum out.old.first rs value rd).lines) }
    ensures kept { (out.new.skips ≡ out.old.skips) × (out.new.routines ≡ out.old.routines) }
{
    let with = addend(rs, rd);
    constant(out, value, with)?;
    out.compute(Computed::Add, rs, with, rd)
}

/// Adds a number to a register.
pub fn add_constant(out: &mut Output, rs: u8, value: u32, rd: u8) -> Result<(), AllocError>
    ensures lines { OnOk result (out.new.lines.items ≡ out.old.lines.items ++ (Numbers.added out.old.first rs value rd).lines) }
    ensures first { OnOk result (out.new.first ≡ (Numbers.added out.old.first rs value rd).first) }
    ensures numbers { OnOk result (out.new.numbers.keys ≡ numbers_after out.old.numbers.keys (Numbers.added out.old.first rs value rd).lines) }
    ensures statements { OnOk result (out.new.statements ≡ statements_after out.old.statements (Numbers.added out.old.first rs value rd).lines) }
    ensures kept { (out.new.skips ≡ out.old.skips) × (out.new.routines ≡ out.old.routines) }
{
    if rs == 0 {
        return constant(out, value, rd);
    }
    add_number(out, rs, value, rd)?;
    if rd == FIRST {
        out.first = None;
    }
    Ok(())
}
