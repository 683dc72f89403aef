//! The line of a plan that is rejected, or of its copies.
ghost use Rattle.std.specs.Prelude.{◌≡◌, ◌++◌, OnOk, slice_index};
ghost use Rattle.lab_plans.specs.Rejections.{rejected_line};

use mx_text::{push_decimal, push_line};
use std::alloc::{AllocError, Global};

/// Appends the line of a plan that is rejected.
pub(crate) fn push_rejected(
    alloc: Global,
    text: &mut Vec<u8>,
    number: usize,
    line: u32,
    rule: &str,
) -> Result<(), AllocError>
    ensures { OnOk result (text.new.items ≡ text.old.items ++ rejected_line number line rule.now) }
{
    text.extend_from_slice(b"plan ")?;
    push_decimal(alloc, text, number as u64)?;
    text.extend_from_slice(b" (line ")?;
    push_decimal(alloc, text, u64::from(line))?;
    text.extend_from_slice(b") rejected by ")?;
    push_line(text, rule)
}

/// A number of a list, 0 past its end.
pub(crate) fn number_at(numbers: &[u32], index: u32) -> u32
    ensures { result ≡ slice_index numbers.now index }
{
    match numbers.get(index as usize) {
        Some(number) => *number,
        None => 0,
    }
}
