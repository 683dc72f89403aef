//! Comparisons of a register with a number, which need no branch.
ghost use Rattle.std.specs.Prelude.{◌≡◌, ◌++◌, ◌+◌, ◌-◌, ◌^◌, min, OnOk};
ghost use Rattle.cc_emit.specs.Needs.{Keeps};
ghost use Rattle.cc_operations.specs.Comparisons;
ghost use Rattle.cc_operations.specs.Operations.{lines};

use crate::between::SECOND;
use cc_emit::{Computed, Line, Output, Plain, compute_line, is_short, shift_line};
use cc_lines::Condition;
use std::alloc::AllocError;

/// 1 where a register is negative, else 0.
pub fn set_if_negative(out: &mut Output, a: u8, rd: u8) -> Result<(), AllocError>
    ensures lines { OnOk result (out.new.lines.items ≡ out.old.lines.items ++ lines (Comparisons.negative a rd)) }
    ensures statements { OnOk result (out.new.statements ≡ min (out.old.statements + 1) (2 ^ 32 - 1)) }
    ensures routines { out.new.routines ≡ out.old.routines }
    ensures kept { Keeps out.old out.new }
{
    out.shift(a, 0, 31, rd)
}

/// 1 where a register is 0, else 0.
pub fn set_if_zero(out: &mut Output, a: u8, rd: u8) -> Result<(), AllocError>
    ensures lines { OnOk result (out.new.lines.items ≡ out.old.lines.items ++ lines (Comparisons.zero a rd)) }
    ensures statements { OnOk result (out.new.statements ≡ min (out.old.statements + 3) (2 ^ 32 - 1)) }
    ensures routines { out.new.routines ≡ out.old.routines }
    ensures kept { Keeps out.old out.new }
{
    out.push_all(&[
        Line::Plain(Plain::Addi {
            rs: a,
            number: -1,
            rd: SECOND,
        }),
        compute_line(Computed::Bic, SECOND, a, SECOND),
        shift_line(SECOND, 0, 31, rd),
    ])
}

/// 1 where a register is not 0, else 0.
pub fn set_if_not_zero(out: &mut Output, a: u8, rd: u8) -> Result<(), AllocError>
    ensures lines { OnOk result (out.new.lines.items ≡ out.old.lines.items ++ lines (Comparisons.not_zero a rd)) }
    ensures statements { OnOk result (out.new.statements ≡ min (out.old.statements + 3) (2 ^ 32 - 1)) }
    ensures routines { out.new.routines ≡ out.old.routines }
    ensures kept { Keeps out.old out.new }
{
    out.push_all(&[
        compute_line(Computed::Sub, 0, a, SECOND),
        compute_line(Computed::Or, SECOND, a, SECOND),
        shift_line(SECOND, 0, 31, rd),
    ])
}

/// 1 where a register is less than a number, else 0. That is bit 31 of their difference, which `signs` corrects where it wraps.
pub fn set_if_below(
    out: &mut Output,
    signs: Computed,
    a: u8,
    value: u32,
    rd: u8,
) -> Result<(), AllocError>
    ensures lines { OnOk result (out.new.lines.items ≡ out.old.lines.items ++ lines (Comparisons.below signs a value rd)) }
    ensures statements { OnOk result (out.new.statements ≡ min (out.old.statements + 3) (2 ^ 32 - 1)) }
    ensures routines { out.new.routines ≡ out.old.routines }
    ensures kept { Keeps out.old out.new }
{
    out.push_all(&[
        Line::Plain(Plain::Addi {
            rs: a,
            number: value.wrapping_neg().cast_signed(),
            rd: SECOND,
        }),
        compute_line(signs, SECOND, a, SECOND),
        shift_line(SECOND, 0, 31, rd),
    ])
}

/// What corrects bit 31 of the difference of a register and a number by the register: `or` for a number that is not negative, as a
/// negative register is less than that; `and` for a negative one, as only a negative register is less; `bic` without signs, as a
/// register of 2^31 or more is not less. `None` where no statement holds the negated number.
pub fn signs_of(condition: Condition, value: u32) -> Option<Computed>
    ensures { result ≡ Comparisons.signs_of condition value }
{
    if !is_short(value.wrapping_neg().cast_signed()) {
        return None;
    }
    match condition {
        Condition::Less if value < 0x8000_0000 => Some(Computed::Or),
        Condition::Less => Some(Computed::And),
        Condition::Lower if value < 0x8000_0000 => Some(Computed::Bic),
        _ => None,
    }
}
