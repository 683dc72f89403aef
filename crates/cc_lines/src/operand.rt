//! Operands of instructions, and the values of data directives.
ghost use Rattle.std.specs.Prelude.{◌≡◌, ◌<◌, ◌==◌, [], length, IfSome, IfNone, IfOk};
ghost use Rattle.cc_lines.specs.Bytes.{after_value};
ghost use Rattle.cc_lines.specs.Registers.{IsTaken};

use crate::constants::Constants;
use crate::cursor::{
    begins_number, is_named, names_numbered, number, split_at_byte, split_name, split_value,
    trimmed, trimmed_front, wide_number,
};
use crate::instruction::Register;
use crate::refusal::Refusal;
use std::num::{f32_to_bits_with_nan, f64_to_bits_with_nan};

/// What is between the commas of an instruction. The name of its symbol, if it has one, is at the front of its text.
#[derive(Clone, Copy)]
pub(crate) enum Operand {
    Register(Register),
    Number(u32),
    /// A symbol with an addend.
    Symbol(u32),
    /// An offset from what a register holds, and perhaps from a symbol.
    Memory {
        named: bool,
        offset: u32,
        base: Register,
    },
}

/// A number, or the addend of the symbol whose name is at the front of the text.
#[derive(Clone, Copy)]
pub(crate) enum Value {
    Number(u32),
    Symbol(u32),
}

/// What a data directive may hold: a number, a symbol with an addend, or the distance from one symbol to another.
#[derive(Clone, Copy)]
pub enum Word<'a> {
    /// Modulo 2^64.
    Number(u64),
    Symbol(&'a [u8], u32),
    Distance { from: &'a [u8], to: &'a [u8] },
}

/// The values of a data directive, one after the other.
#[derive(Clone, Copy)]
pub struct Values<'a> {
    /// What is left of their text.
    pub rest: &'a [u8],
}

/// The names of registers that have one besides their number.
const NAMED: [(&str, u8); 5] = [("zero", 0), ("sp", 29), ("fp", 30), ("s8", 30), ("ra", 31)];

/// The letters of registers that are named by a letter and a digit: the letter, the first digit and the last, and the number of the
/// first register.
const LETTERED: [(u8, u8, u8, u8); 5] = [
    (b'v', b'0', b'1', 2),
    (b'a', b'0', b'3', 4),
    (b't', b'0', b'7', 8),
    (b's', b'0', b'7', 16),
    (b't', b'8', b'9', 24),
];

/// The number of the register that a letter and a digit name.
fn lettered(letter: u8, digit: u8) -> Option<u8>
    ensures register { IfSome result (λ n. n < 32) }
{
    for (own, first, last, number) in &LETTERED {
        if letter == *own && *first <= digit && digit <= *last {
            let value = number.wrapping_add(digit.wrapping_sub(*first));
            return if value < 32 { Some(value) } else { None };
        }
    }
    None
}

/// The number of a register's name, in which the `$` is left out.
fn register_number(name: &[u8]) -> Option<u8>
    ensures register { IfSome result (λ n. n < 32) }
{
    for (spelling, value) in &NAMED {
        if name == spelling.as_bytes() {
            return Some(*value);
        }
    }
    match name {
        [units @ b'0'..=b'9'] => Some(*units - b'0'),
        [tens @ b'1'..=b'3', units @ b'0'..=b'9'] => {
            let value = (*tens - b'0') * 10 + (*units - b'0');
            if value < 32 { Some(value) } else { None }
        }
        [letter, digit] => lettered(*letter, *digit),
        _ => None,
    }
}

/// Whether a name without its `$` is one of a register that programs may not name.
fn is_kept_name(name: &[u8]) -> bool {
    name == b"at".as_slice()
        || name == b"gp".as_slice()
        || name == b"k0".as_slice()
        || name == b"k1".as_slice()
}

/// Whether a name without its `$` is one of a floating-point register.
fn is_floating(name: &[u8]) -> bool {
    match name {
        [b'f', rest @ ..] => !rest.is_empty() && rest.iter().all(|b| b.is_ascii_digit()),
        _ => false,
    }
}

/// The register that a text spells, if it is none the reason, or nothing where it is no register's name.
fn register_named(text: &[u8]) -> Option<Result<Register, Refusal>>
    ensures taken { IfSome result (λ r. IfOk r (λ register. IsTaken register.0)) }
{
    let [b'$', name @ ..] = text else {
        return None;
    };
    if is_floating(name) {
        return Some(Err(Refusal::FloatingPoint));
    }
    if is_kept_name(name) {
        return Some(Err(Refusal::KeptRegister));
    }
    match register_number(name) {
        Some(1) | Some(22..=28) => Some(Err(Refusal::KeptRegister)),
        Some(value) => Some(Ok(Register(value))),
        None => None,
    }
}

/// The register that a text spells.
pub(crate) fn register_read(text: &[u8]) -> Result<Register, Refusal>
    ensures taken { IfOk result (λ register. IsTaken register.0) }
{
    register_named(text).unwrap_or(Err(Refusal::BadOperands))
}

/// The addend after a symbol.
fn addend_read(text: &[u8]) -> Result<u32, Refusal> {
    let text = trimmed(text);
    match text {
        [] => Ok(0),
        [b'+' | b'-', rest @ ..] => match trimmed_front(rest) {
            [first, ..] if is_named(*first) && !first.is_ascii_digit() => Err(
                Refusal::LabelArithmetic,
            ),
            _ => number(text).ok_or(Refusal::BadOperands),
        },
        _ => Err(Refusal::BadOperands),
    }
}

/// The value of a name and its addend: of a number's name their sum, else the symbol.
fn named_value(text: &[u8], constants: &Constants<'_>) -> Result<Value, Refusal> {
    let (name, behind) = split_name(text);
    let addend = addend_read(behind)?;
    Ok(match constants.value(name) {
        Some(value) => Value::Number(value.wrapping_add(addend)),
        None => Value::Symbol(addend),
    })
}

/// The number that a text spells, or the addend of its symbol.
pub(crate) fn value_read(text: &[u8], constants: &Constants<'_>) -> Result<Value, Refusal> {
    if names_numbered(text) {
        return Ok(Value::Symbol(0));
    }
    if begins_number(text) {
        return match number(text) {
            Some(value) => Ok(Value::Number(value)),
            None => Err(Refusal::BadNumber),
        };
    }
    match text {
        [first, ..] if is_named(*first) => named_value(text, constants),
        _ => Err(Refusal::BadOperands),
    }
}

/// The text between parentheses that enclose all of a text, or the text itself.
fn unparenthesized(text: &[u8]) -> &[u8] {
    match text {
        [b'(', inner @ .., b')'] => trimmed(inner),
        _ => text,
    }
}

/// The name of the symbol that a text subtracts from the one at its front, if it does so.
fn subtracted(text: &[u8]) -> Option<&[u8]> {
    let [b'-', rest @ ..] = trimmed(split_name(text).1) else {
        return None;
    };
    let inner = unparenthesized(trimmed(rest));
    let (name, behind) = split_name(inner);
    match name {
        [first, ..] if !first.is_ascii_digit() && trimmed(behind).is_empty() => Some(name),
        _ => None,
    }
}

/// What a data directive holds.
fn word_read<'a>(text: &'a [u8], constants: &Constants<'_>) -> Result<Word<'a>, Refusal> {
    if begins_number(text) && !names_numbered(text) {
        return match wide_number(text) {
            Some(value) => Ok(Word::Number(value)),
            None => Err(Refusal::BadNumber),
        };
    }
    if let Some(from) = subtracted(text) {
        return Ok(Word::Distance {
            from,
            to: split_name(text).0,
        });
    }
    Ok(match value_read(text, constants)? {
        Value::Number(value) => Word::Number(u64::from(value)),
        Value::Symbol(addend) => Word::Symbol(split_name(text).0, addend),
    })
}

/// The operand in memory with this base, which follows the text.
fn memory_read(
    before: &[u8],
    base: Register,
    constants: &Constants<'_>,
) -> Result<Operand, Refusal> {
    if before.is_empty() {
        return Ok(Operand::Memory {
            named: false,
            offset: 0,
            base,
        });
    }
    let (named, offset) = match value_read(before, constants)? {
        Value::Number(offset) => (false, offset),
        Value::Symbol(offset) => (true, offset),
    };
    Ok(Operand::Memory {
        named,
        offset,
        base,
    })
}

/// The halves of an address.
#[derive(Clone, Copy)]
enum Half {
    /// `%hi`: the upper half of a number, and one more where the lower one is negative. Of a symbol it is 0.
    High,
    /// `%lo`: the lower half of a number, with its sign. Of a symbol it is the address, so that both halves together are that.
    Low,
}

/// The half that a text asks for, if it asks for one, and the text after the parenthesis.
fn half_before(text: &[u8]) -> Option<(Half, &[u8])> {
    let [b'%', b'h' | b'l', b'i' | b'o', rest @ ..] = text else {
        return None;
    };
    let [b'(', inner @ ..] = trimmed_front(rest) else {
        return None;
    };
    match text {
        [_, b'h', b'i', ..] => Some((Half::High, inner)),
        [_, b'l', b'o', ..] => Some((Half::Low, inner)),
        _ => None,
    }
}

/// The text of a symbol or a number without the half that is asked for.
pub(crate) fn without_half(text: &[u8]) -> &[u8] {
    match half_before(text) {
        Some((_, inner)) => trimmed_front(inner),
        None => text,
    }
}

/// A half of a value.
fn half_of(half: Half, value: Value) -> Value {
    match (half, value) {
        (Half::High, Value::Number(number)) => Value::Number(number.wrapping_add(0x8000) >> 16),
        (Half::High, Value::Symbol(_)) => Value::Number(0),
        (Half::Low, Value::Number(number)) => {
            Value::Number((number & 0xffff ^ 0x8000).wrapping_sub(0x8000))
        }
        (Half::Low, Value::Symbol(_)) => value,
    }
}

/// The operand that a half spells, of which the text after the parenthesis is given: alone, or with a base after it.
fn half_read(half: Half, text: &[u8], constants: &Constants<'_>) -> Result<Operand, Refusal> {
    let (inner, behind) = split_at_byte(text, b')');
    let value = half_of(half, value_read(trimmed(inner), constants)?);
    let behind = trimmed(behind);
    if behind.is_empty() {
        return Ok(operand_of(value));
    }
    let [b'(', base @ .., b')'] = behind else {
        return Err(Refusal::BadOperands);
    };
    let base = register_read(trimmed(base))?;
    let (named, offset) = match value {
        Value::Number(offset) => (false, offset),
        Value::Symbol(offset) => (true, offset),
    };
    Ok(Operand::Memory {
        named,
        offset,
        base,
    })
}

/// The operand that is a value alone.
fn operand_of(value: Value) -> Operand {
    match value {
        Value::Number(value) => Operand::Number(value),
        Value::Symbol(addend) => Operand::Symbol(addend),
    }
}

/// The operand that a text spells.
pub(crate) fn operand_read(text: &[u8], constants: &Constants<'_>) -> Result<Operand, Refusal> {
    if let Some((half, inner)) = half_before(text) {
        return half_read(half, inner, constants);
    }
    if let Some(register) = register_named(text) {
        return Ok(Operand::Register(register?));
    }
    if let [front @ .., b')'] = text {
        let (before, inner) = split_at_byte(front, b'(');
        let base = register_read(trimmed(inner))?;
        return memory_read(trimmed(before), base, constants);
    }
    Ok(operand_of(value_read(text, constants)?))
}

/// The bits of the floating-point number nearest to the number that a text spells.
fn float_bits(text: &[u8], double: bool) -> Option<u64> {
    let text = str::from_utf8(text).ok()?;
    if double {
        Some(f64_to_bits_with_nan(text.parse::<f64>().ok()?))
    } else {
        Some(u64::from(f32_to_bits_with_nan(text.parse::<f32>().ok()?)))
    }
}

impl<'a> Values<'a> {
    /// The values that a text holds.
    pub fn new(text: &'a [u8]) -> Values<'a>
        ensures { result.rest.now ≡ text.now }
    {
        Values { rest: text }
    }

    /// How many values there are at most.
    pub fn most(&self) -> usize
        ensures { result ≡ length self.now.rest.now }
    {
        self.rest.len()
    }

    /// The next value, if there is one.
    pub fn next_value(&mut self, constants: &Constants<'_>) -> Result<Option<Word<'a>>, Refusal>
        ensures ended { IfOk result (λ value. IfNone value (self.old.rest.now ≡ [])) }
        ensures rest { self.new.rest.now ≡ after_value self.old.rest.now }
    {
        if self.rest.is_empty() {
            return Ok(None);
        }
        let (first, rest) = split_value(self.rest);
        self.rest = rest;
        Ok(Some(word_read(trimmed(first), constants)?))
    }

    /// The bits of the next number, which may have a point: of 8 bytes or of 4. Nothing where there is none left.
    pub fn next_float(&mut self, double: bool) -> Result<Option<u64>, Refusal>
        ensures ended { IfOk result (λ value. IfNone value (self.old.rest.now ≡ [])) }
        ensures rest { self.new.rest.now ≡ after_value self.old.rest.now }
    {
        if self.rest.is_empty() {
            return Ok(None);
        }
        let (first, rest) = split_value(self.rest);
        self.rest = rest;
        match float_bits(trimmed(first), double) {
            Some(bits) => Ok(Some(bits)),
            None => Err(Refusal::BadNumber),
        }
    }
}
