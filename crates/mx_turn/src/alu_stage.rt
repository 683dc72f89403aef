//! What the word in ALU decides.
ghost use Rattle.std.specs.Prelude.{◌≡◌, ◌<◌, ◌+◌, ◌%◌, ◌^◌, slice_index, IfSome, true, false, if◌then◌else◌, Some, None, not, ◌&&◌};
ghost use Rattle.std.specs.Int.{w32, cast_unsigned};
ghost use Rattle.mx_isa.specs.Effect.{decides, offset_by};
ghost use Rattle.mx_turn.specs.System.{pops, restores, seen};

use crate::registers::Registers;
use mx_isa::{Inst, Reg, holds};

/// Where a word leads, if not to the next one; whether it cancels the two words behind it; whether it pops the chain in
/// system mode, and brings back the other mode too.
#[derive(Clone, Copy)]
pub struct Decided {
    pub target: Option<u32>,
    pub cancels: bool,
    pub pops: bool,
    pub restores: bool,
}

/// It leads to the next word, and cancels the two words behind it or not.
pub fn goes_on(cancels: bool) -> Decided
    ensures { result ≡ record { target = None; cancels = cancels; pops = false; restores = false } }
{
    Decided {
        target: None,
        cancels,
        pops: false,
        restores: false,
    }
}

/// It leads to the next word.
pub fn falls_through() -> Decided
    ensures { result ≡ record { target = None; cancels = false; pops = false; restores = false } }
{
    goes_on(false)
}

/// It leads to an address.
pub fn goes_to(target: u32) -> Decided
    ensures { result ≡ record { target = Some target; cancels = false; pops = false; restores = false } }
{
    Decided {
        target: Some(target),
        ..falls_through()
    }
}

/// It pops the chain in system mode, and brings back the other mode or not.
pub fn goes_back(restores: bool) -> Decided
    ensures { result ≡ record { target = None; cancels = false; pops = true; restores = restores } }
{
    Decided {
        pops: true,
        restores,
        ..falls_through()
    }
}

// A code address and a displacement.
fn displaced(at: u32, by: i32) -> u32
    ensures { result ≡ (at + cast_unsigned w32 by) % 2 ^ 31 }
{
    at.wrapping_add(by.cast_unsigned()) % (1 << 31)
}

/// A branch at an address, by whether it holds.
pub fn branches(holds: bool, at: u32, squash: bool, by: i32) -> Decided
    ensures target { result.target ≡ (if holds then Some ((at + cast_unsigned w32 by) % 2 ^ 31) else None) }
    ensures cancels { result.cancels ≡ (if holds then false else squash) }
    ensures pops { result.pops ≡ false }
    ensures restores { result.restores ≡ false }
{
    if holds {
        goes_to(displaced(at, by))
    } else {
        goes_on(squash)
    }
}

/// What the word in ALU, at an address, decides by the registers that it sees.
#[inline(always)]
pub fn decide(inst: &Inst, at: u32, registers: &Registers) -> Decided
    ensures target { result.target ≡ (decides inst.now at (seen registers.now.slot (slice_index registers.now.file))).target }
    ensures cancels { result.cancels ≡ (decides inst.now at (seen registers.now.slot (slice_index registers.now.file))).cancels }
    ensures code_address { IfSome result.target (λ a. a < 2 ^ 31) }
    ensures pops { result.pops ≡ pops inst.now }
    ensures restores { result.restores ≡ restores inst.now }
{
    match inst {
        Inst::Branch {
            a,
            b,
            cond,
            squash,
            by,
        } => {
            let goes = holds(*cond, registers.sees(*a), registers.sees(*b));
            branches(goes, at, *squash, *by)
        }
        Inst::Jspci { a, dest: _, imm } => {
            goes_to(registers.sees(*a).wrapping_add(imm.cast_unsigned()) % (1 << 31))
        }
        Inst::Jpc => goes_back(false),
        Inst::Jpcrs => goes_back(true),
        _ => falls_through(),
    }
}
