//! What a trace shows of the word in ALU.
ghost use Rattle.std.specs.Prelude.{◌≡◌, ◌<◌, ◌^◌, ℕ, if◌then◌else◌};
ghost use Rattle.mx_isa.specs.Arithmetic.{condition_holds};
ghost use Rattle.mx_pcchain.specs.Chain.{special};
ghost use Rattle.mx_turn.specs.Decoded.{ShiftFits};
ghost use Rattle.mx_turn.specs.System.{number_of};

use mx_isa::{Inst, Special, compute, holds};
use mx_pcchain::Chain;

/// The number that an instruction at an address makes of its operands: an address, a sum, a result, 1 for a branch that
/// holds, a link, or the word that it moves.
#[inline(always)]
pub fn number_of(inst: &Inst, at: u32, a: u32, b: u32, md: u32, user: bool, chain: &Chain) -> u32
    requires fits { ShiftFits inst.now }
    requires code_address { at < 2 ^ 31 }
    ensures { result ≡ number_of user chain.now inst.now at a b md }
{
    match inst {
        Inst::Load { offset, .. } => a.wrapping_add(offset.cast_unsigned()),
        Inst::Store { offset, .. } => a.wrapping_add(offset.cast_unsigned()),
        Inst::Branch { cond, .. } => one_if(holds(*cond, a, b)),
        Inst::Compute { op, .. } => compute(*op, a, b, md).0,
        Inst::Addi { imm, .. } => a.wrapping_add(imm.cast_unsigned()),
        Inst::MoveFrom { special, .. } => moved(*special, md, user, chain),
        Inst::MoveTo { .. } => a,
        Inst::Jspci { .. } => at + 3,
        Inst::Jpc => 0,
        Inst::Jpcrs => 0,
        Inst::Halt => 0,
    }
}

fn one_if(condition: bool) -> u32
    ensures { result ≡ (if condition then 1 else 0) }
{
    if condition { 1 } else { 0 }
}

// The special word, 0 for a saved fetch in user mode.
fn moved(name: Special, md: u32, user: bool, chain: &Chain) -> u32
    ensures { (d : ℕ) (at : ℕ) (a : ℕ) (b : ℕ) → result ≡ number_of user chain.now (Inst.MoveFrom d name) at a b md }
{
    match name {
        Special::Md => md,
        Special::Pc1 => unless(user, chain.pc1),
        Special::Pc2 => unless(user, chain.pc2),
        Special::Pc3 => unless(user, chain.pc3),
    }
}

fn unless(user: bool, word: u32) -> u32
    ensures { result ≡ (if user then 0 else word) }
{
    if user { 0 } else { word }
}
