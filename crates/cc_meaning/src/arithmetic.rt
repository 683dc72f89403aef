//! What instructions compute of words.
ghost use Rattle.std.specs.Prelude.{◌≡◌, ◌≤◌, ◌≢◌, true};
ghost use Rattle.std.specs.Int.{w32, w64, cast_signed, cast_unsigned};
ghost use Rattle.cc_lines.specs.Conditions;
ghost use Rattle.cc_meaning.specs.Arithmetic;

use crate::value::{Value, Why};
use cc_lines::{Condition, Long, Operation, Shift};

/// Whether word a is less than word b, as signed numbers.
fn is_less(a: u32, b: u32) -> bool
    ensures { result ≡ Conditions.is_less a b }
{
    a.cast_signed() < b.cast_signed()
}

/// Whether a condition holds of two words.
fn holds(condition: Condition, a: u32, b: u32) -> bool
    ensures { result ≡ Conditions.holds condition a b }
{
    match condition {
        Condition::Equal => a == b,
        Condition::NotEqual => a != b,
        Condition::Less => is_less(a, b),
        Condition::NotLess => !is_less(a, b),
        Condition::Greater => is_less(b, a),
        Condition::NotGreater => !is_less(b, a),
        Condition::Lower => a < b,
        Condition::NotLower => !(a < b),
        Condition::Higher => b < a,
        Condition::NotHigher => !(b < a),
    }
}

/// Whether a condition holds of two values.
pub(crate) fn compared(condition: Condition, a: Value, b: Value) -> Result<bool, Why>
    ensures { result ≡ Arithmetic.compared condition a b }
{
    Ok(holds(condition, a.number()?, b.number()?))
}

/// What an operation on two words gives.
pub(crate) fn operated(op: Operation, a: u32, b: u32) -> u32
    ensures { result ≡ Arithmetic.operated op a b }
{
    match op {
        Operation::Add => a.wrapping_add(b),
        Operation::Sub => a.wrapping_sub(b),
        Operation::And => a & b,
        Operation::Or => a | b,
        Operation::Xor => a ^ b,
        Operation::Nor => !(a | b),
        Operation::Less => u32::from(is_less(a, b)),
        Operation::Lower => u32::from(a < b),
    }
}

/// What an operation gives.
pub(crate) fn computed(op: Operation, a: Value, b: Value) -> Result<Value, Why>
    ensures { result ≡ Arithmetic.computed op a b }
{
    Ok(Value::Number(operated(op, a.number()?, b.number()?)))
}

/// Shifted right, and filled with bit 31.
fn arithmetic(a: u32, count: u32) -> u32
    requires { count ≤ 31 }
    ensures { result ≡ Arithmetic.arithmetic a count }
{
    if a < 0x8000_0000 {
        a >> count
    } else {
        (a >> count) + (u32::MAX - (u32::MAX >> count))
    }
}

/// A word shifted by a number of bits.
fn shifted_by(op: Shift, a: u32, count: u32) -> u32
    requires { count ≤ 31 }
    ensures { result ≡ Arithmetic.shifted_by op a count }
{
    match op {
        Shift::Left => a << count,
        Shift::Right => a >> count,
        Shift::Arithmetic => arithmetic(a, count),
        Shift::Rotate => a.rotate_left(count),
    }
}

/// What a shift gives.
pub(crate) fn shifted(op: Shift, a: Value, by: Value) -> Result<Value, Why>
    ensures { result ≡ Arithmetic.shifted op a by }
{
    Ok(Value::Number(shifted_by(op, a.number()?, by.number()? % 32)))
}

/// A word with its sign, or without, in 64 bits.
fn widened(signed: bool, a: u32) -> u64
    ensures { result ≡ Arithmetic.widened signed a }
{
    if signed {
        i64::from(a.cast_signed()).cast_unsigned()
    } else {
        u64::from(a)
    }
}

/// A product in 64 bits.
fn product(signed: bool, a: u32, b: u32) -> u64
    ensures { result ≡ Arithmetic.product signed a b }
{
    widened(signed, a).wrapping_mul(widened(signed, b))
}

/// A quotient.
fn quotient(signed: bool, a: u32, b: u32) -> u32
    requires { b ≢ 0 }
    ensures { result ≡ Arithmetic.quotient signed a b }
{
    if signed {
        a.cast_signed()
            .wrapping_div(b.cast_signed())
            .cast_unsigned()
    } else {
        a / b
    }
}

/// A remainder.
fn remainder(signed: bool, a: u32, b: u32) -> u32
    requires { b ≢ 0 }
    ensures { result ≡ Arithmetic.remainder signed a b }
{
    if signed {
        a.cast_signed()
            .wrapping_rem(b.cast_signed())
            .cast_unsigned()
    } else {
        a % b
    }
}

/// LO and HI after a product.
fn halves(product: u64) -> (u32, u32)
    ensures { result ≡ Arithmetic.halves product }
{
    (
        (product % 4_294_967_296) as u32,
        (product / 4_294_967_296) as u32,
    )
}

/// LO and HI after a product or a quotient.
pub(crate) fn multiplied(op: Long, a: u32, b: u32) -> Result<(u32, u32), Why>
    ensures { result ≡ Arithmetic.multiplied op a b }
{
    match op {
        Long::Product { signed } => Ok(halves(product(signed, a, b))),
        Long::Quotient { .. } if b == 0 => Err(Why::ZeroDivision),
        Long::Quotient { signed } => Ok((quotient(signed, a, b), remainder(signed, a, b))),
    }
}
