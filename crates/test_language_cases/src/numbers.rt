//! Cases of numbers.
ghost use Rattle.std.specs.Prelude.{◌≤◌, IfOk};
ghost use Rattle.mx_isa.specs.Arithmetic.{CountFits};

use crate::spelling;
use anyhow::{Context, Result, bail, ensure};
use mx_code::decode;
use mx_isa::{Cond, Op, compute, holds};
use std::alloc::{AllocError, Global};
use std::fmt::Debug;

static CONDITIONS: [Cond; 6] = [Cond::Eq, Cond::Ne, Cond::Lt, Cond::Ge, Cond::Lo, Cond::Hs];

/// The operations that have no count.
static OPERATIONS: [Op; 12] = [
    Op::Add,
    Op::Sub,
    Op::Subnc,
    Op::And,
    Op::Or,
    Op::Xor,
    Op::Bic,
    Op::Not,
    Op::Rotlb,
    Op::Mstart,
    Op::Mstep,
    Op::Dstep,
];

/// The one of these that has a name, which is as `Debug` prints it.
fn named<T: Copy + Debug>(
    alloc: Global,
    values: &[T],
    name: &str,
) -> Result<Option<T>, AllocError> {
    for value in values {
        let text = format!(in alloc; "{value:?}")?;
        if text.as_str() == name {
            return Ok(Some(*value));
        }
    }
    Ok(None)
}

/// A number in hexadecimal.
fn number(text: Option<&str>) -> Result<u32> {
    let digits = text.context("a number is missing")?;
    Ok(u32::from_str_radix(digits, 16)?)
}

/// The count of a shift, as in `Asr(7)`.
fn count(text: &str) -> Result<u8>
    ensures { IfOk result (λ n. n ≤ 31) }
{
    let digits = text.strip_suffix(")").context("the count has no end")?;
    let n = digits.parse::<u8>()?;
    ensure!(n <= 31, "the count is above 31");
    Ok(n)
}

/// An operation.
fn operation(alloc: Global, text: &str) -> Result<Op>
    ensures { IfOk result CountFits }
{
    if let Some(rest) = text.strip_prefix("Asr(") {
        return Ok(Op::Asr(count(rest)?));
    }
    if let Some(rest) = text.strip_prefix("Sh(") {
        return Ok(Op::Sh(count(rest)?));
    }
    match named(alloc, OPERATIONS.as_slice(), text)? {
        Some(op) => counted(op),
        None => bail!("no operation"),
    }
}

/// An operation whose count, if it has one, is no more than 31.
fn counted(op: Op) -> Result<Op>
    ensures { IfOk result CountFits }
{
    if let Op::Asr(n) | Op::Sh(n) = op {
        ensure!(n <= 31, "the count is above 31");
    }
    Ok(op)
}

/// A text and numbers behind it, in hexadecimal.
fn line_of(alloc: Global, name: &str, numbers: &[u32]) -> Result<String, AllocError> {
    let mut line = String::from_str(alloc, name)?;
    for number in numbers {
        write!(line, " {number:08x}")?;
    }
    Ok(line)
}

/// The instruction of a word.
pub fn word(alloc: Global, line: &str) -> Result<String> {
    let word = number(line.split(" ").next())?;
    let spelled = spelling::spelled(alloc, decode(word))?;
    Ok(format!(in alloc; "{word:08x} {spelled}")?)
}

/// The result and the new MD of an operation.
pub fn computed(alloc: Global, line: &str) -> Result<String> {
    let mut words = line.split(" ");
    let name = words.next().context("an operation is missing")?;
    let op = operation(alloc, name)?;
    let a = number(words.next())?;
    let b = number(words.next())?;
    let md = number(words.next())?;
    let (result, new_md) = compute(op, a, b, md);
    Ok(line_of(alloc, name, &[a, b, md, result, new_md])?)
}

/// A condition holds of two operands.
pub fn held(alloc: Global, line: &str) -> Result<String> {
    let mut words = line.split(" ");
    let name = words.next().context("a condition is missing")?;
    let cond = named(alloc, CONDITIONS.as_slice(), name)?.context("no condition")?;
    let a = number(words.next())?;
    let b = number(words.next())?;
    let held = u8::from(holds(cond, a, b));
    Ok(format!(in alloc; "{name} {a:08x} {b:08x} {held}")?)
}
