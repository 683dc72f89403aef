//! Which registers instructions read and write, as sets: a bit each, with LO as 32 and HI as 33.
ghost use Rattle.std.specs.Prelude.{◌≡◌, ◌^◌, ◌<◌, ℕ, true};
ghost use Rattle.cc_plan.specs.Knowing.{has};
ghost use Rattle.cc_plan.specs.Translated.{is_written};

use cc_lines::{Instruction, LinkFrom, Operation, Register, Source, Special, Width};

/// The bit of LO.
pub(crate) const LO: u8 = 32;

/// The bit of HI.
pub const HI: u8 = 33;

/// What a call may read: the arguments, and register 15, by which nested functions get theirs.
pub(crate) const ARGUMENTS: u64 = 0x2000_80f0;

/// What a call may change.
pub(crate) const CLOBBERED: u64 = 0x3_8300_fffe;

/// What a caller may read behind a return.
pub(crate) const RETURNED: u64 = 0xf0ff_000c;

/// Each register.
pub(crate) const ALL: u64 = 0x3_ffff_ffff;

/// The set of one register.
pub fn bit(number: u8) -> u64
    ensures { number < 64 → result ≡ 2 ^ number }
{
    1u64.wrapping_shl(u32::from(number))
}

/// The set of a register.
pub(crate) fn of(register: Register) -> u64
    ensures { register.0 < 64 → result ≡ 2 ^ register.0 }
{
    bit(register.0)
}

/// The set of a second operand.
fn source(second: Source) -> u64 {
    match second {
        Source::Register(r) => of(r),
        Source::Number(_) => 0,
    }
}

fn special(special: Special) -> u64 {
    match special {
        Special::Lo => bit(LO),
        Special::Hi => bit(HI),
    }
}

/// What a jump to what a register holds reads: where it returns, also what the caller may read behind it.
fn read_by_jump(register: Register) -> u64 {
    if register == Register::LINK {
        of(register) | RETURNED
    } else {
        of(register)
    }
}

/// What an instruction reads.
pub(crate) fn reads(instruction: &Instruction) -> u64 {
    match *instruction {
        Instruction::Compute { rs, second, .. }
        | Instruction::Shift { rs, by: second, .. }
        | Instruction::Branch { rs, second, .. } => of(rs) | source(second),
        Instruction::Load {
            width: Width::Left | Width::Right,
            rd: one,
            base: other,
            ..
        }
        | Instruction::Store {
            rs: one,
            base: other,
            ..
        }
        | Instruction::Long {
            rs: one,
            rt: other,
            ..
        } => of(one) | of(other),
        Instruction::Move { rs: one, .. }
        | Instruction::Address { base: one, .. }
        | Instruction::Load { base: one, .. }
        | Instruction::ToSpecial { rs: one, .. } => of(one),
        Instruction::FromSpecial { special: from, .. } => special(from),
        Instruction::Jump(LinkFrom::Register(r)) => read_by_jump(r),
        Instruction::Call(LinkFrom::Register(r)) => ARGUMENTS | of(r),
        Instruction::Call(LinkFrom::Symbol) => ARGUMENTS,
        Instruction::Number { .. }
        | Instruction::Jump(LinkFrom::Symbol)
        | Instruction::Break(_)
        | Instruction::Nop => 0,
    }
}

/// What an instruction writes.
#[tactic(auto, using(crate::proofs::Sets::has_itself, crate::proofs::Sets::has_changed))]
pub(crate) fn writes(instruction: &Instruction) -> u64
    ensures { (n : ℕ) → n < 32 → is_written instruction.now n ≡ true → has result n ≡ true }
{
    match *instruction {
        Instruction::Compute { rd, .. }
        | Instruction::Shift { rd, .. }
        | Instruction::Move { rd, .. }
        | Instruction::Number { rd, .. }
        | Instruction::Address { rd, .. }
        | Instruction::Load { rd, .. }
        | Instruction::FromSpecial { rd, .. } => of(rd),
        Instruction::Long { .. } => bit(LO) | bit(HI),
        Instruction::ToSpecial { special: to, .. } => special(to),
        Instruction::Call(_) => CLOBBERED,
        Instruction::Store { .. }
        | Instruction::Branch { .. }
        | Instruction::Jump(_)
        | Instruction::Break(_)
        | Instruction::Nop => 0,
    }
}

/// What an instruction is sure to write over. A call may leave any register as it was: compilers know it of some functions.
pub(crate) fn kills(instruction: &Instruction) -> u64 {
    match instruction {
        Instruction::Call(_) => of(Register::LINK),
        _ => writes(instruction),
    }
}
