//! What an operand stands for.
ghost use Rattle.std.specs.Prelude.{◌≡◌};
ghost use Rattle.mx_isa.specs.Fields.{IsSignedField};
ghost use Rattle.std.specs.Prelude.{IfOk, ◌≤◌};
ghost use Rattle.mx_lines.specs.Operands;

use crate::fault::Fault;
use crate::mnemonic::spells;
use mx_isa::{Reg, Special};

/// The register of a name.
#[tactic(auto, unfolding(crate::specs::Operands::register))]
pub fn register(name: &[u8]) -> Result<Reg, Fault>
    ensures { result ≡ Operands.register name.now }
{
    register_named(name).ok_or(Fault::BadRegister)
}

/// `r0` to `r31` without leading zeros.
pub fn register_named(name: &[u8]) -> Option<Reg>
    ensures { result ≡ Operands.register_named name.now }
{
    match name {
        [b'r' | b'R', ones @ b'0'..=b'9'] => Reg::new(*ones - b'0'),
        [b'r' | b'R', tens @ b'1'..=b'3', ones @ b'0'..=b'9'] => {
            Reg::new(10 * (*tens - b'0') + (*ones - b'0'))
        }
        _ => None,
    }
}

/// The special word of a name.
#[tactic(auto, unfolding(crate::specs::Operands::special))]
pub fn special(name: &[u8]) -> Result<Special, Fault>
    ensures { result ≡ Operands.special name.now }
{
    special_named(name).ok_or(Fault::BadRegister)
}

/// `md`, `pc1`, `pc2` or `pc3`, in either case.
pub fn special_named(name: &[u8]) -> Option<Special>
    ensures { result ≡ Operands.special_named name.now }
{
    if spells(name, "md") {
        Some(Special::Md)
    } else if spells(name, "pc1") {
        Some(Special::Pc1)
    } else if spells(name, "pc2") {
        Some(Special::Pc2)
    } else if spells(name, "pc3") {
        Some(Special::Pc3)
    } else {
        None
    }
}

/// How far below 0 an immediate reaches: it has 17 bits.
const LAST_BELOW: u64 = 65_536;

/// How far above 0 it reaches.
const LAST_ABOVE: u64 = 65_535;

/// An immediate or an offset.
#[tactic(auto, unfolding(crate::specs::Operands::immediate))]
pub fn immediate(negative: bool, value: u64) -> Result<i32, Fault>
    ensures value { result ≡ Operands.immediate negative value }
    ensures within { IfOk result (IsSignedField 16) }
{
    if negative {
        if value > LAST_BELOW {
            return Err(Fault::NumberOutOfRange);
        }
        Ok(-(value as i32))
    } else {
        if value > LAST_ABOVE {
            return Err(Fault::NumberOutOfRange);
        }
        Ok(value as i32)
    }
}

/// The count of a shift.
#[tactic(auto, unfolding(crate::specs::Operands::count))]
pub fn count(negative: bool, value: u64) -> Result<u8, Fault>
    ensures value { result ≡ Operands.count negative value }
    ensures within { IfOk result (λ n. n ≤ 31) }
{
    let most = if negative { 0 } else { 31 };
    if value > most {
        return Err(Fault::NumberOutOfRange);
    }
    Ok(value as u8)
}

/// A data word.
#[tactic(auto, unfolding(crate::specs::Operands::data_word))]
pub fn data_word(negative: bool, value: u64) -> Result<u32, Fault>
    ensures { result ≡ Operands.data_word negative value }
{
    if negative {
        if value > 0x8000_0000 {
            return Err(Fault::NumberOutOfRange);
        }
        Ok((value as u32).wrapping_neg())
    } else {
        if value > 0xffff_ffff {
            return Err(Fault::NumberOutOfRange);
        }
        Ok(value as u32)
    }
}
