//! What a word reads and writes, and the paths on which it finds its operands.
ghost use Rattle.std.specs.Prelude.{◌≡◌, ◌≤◌, IfSome, slice_index, unwrap_or};
ghost use Rattle.mx_isa.specs.Words.{reg, write};
ghost use Rattle.mx_isa.specs.Views.{sources, dest};
ghost use Rattle.mx_delay.specs.Delay.{idle};
ghost use Rattle.mx_turn.specs.Decoded.{ShiftFits};
ghost use Rattle.mx_pipe.specs.Latched.{does};

use crate::Latch;
use mx_isa::{Inst, Reg};
use mx_turn::{read, set};

// The register that the word of a latch writes, or r0.
pub(crate) fn dest_of(latch: &Latch) -> Reg
    ensures { result ≡ dest (does latch.now) }
{
    match &latch.inst {
        Some(inst) => inst.dest(),
        None => Reg::ZERO,
    }
}

// A register in RF: what the word in MEM writes to it, else what stands in the file.
fn reads(file: &[u32; 32], to: Reg, word: u32, r: Reg) -> u32
    ensures { result ≡ reg (write (slice_index file.now) to word) r }
{
    let n = r.number();
    if n != 0 && n == to.number() {
        word
    } else {
        read(file, r)
    }
}

/// The number of the word in WB is written to the register that MEM named for it.
pub fn write_back(file: &mut [u32; 32], latch: &Latch)
    ensures { latch.now.b ≤ 31 → slice_index file.new ≡ write (slice_index file.old) latch.now.b latch.now.result }
{
    if let Some(to) = Reg::new((latch.b % 32) as u8) {
        set(file, to, latch.result);
    }
}

/// A register as the next word sees it, which is not yet in the file where the word in MEM writes it.
pub fn register_of(file: &[u32; 32], mem: &Latch, r: Reg) -> u32
    ensures { result ≡ reg (write (slice_index file.now) (dest (does mem.now)) mem.now.result) r }
{
    reads(file, dest_of(mem), mem.result, r)
}

// What a word in RF reads; 0 for an operand that it has not.
#[inline(always)]
fn operands(inst: &Inst, to: Reg, word: u32, file: &[u32; 32]) -> (u32, u32)
    ensures { let regs = write (slice_index file.now) to word in result ≡ (reg regs (sources inst.now).0, reg regs (sources inst.now).1) }
{
    match *inst {
        Inst::Load { base, .. } => (reads(file, to, word, base), 0),
        Inst::Store { base, value, .. } => (
            reads(file, to, word, base),
            reads(file, to, word, value),
        ),
        Inst::Branch { a, b, .. } => (reads(file, to, word, a), reads(file, to, word, b)),
        Inst::Compute { a, b, .. } => (reads(file, to, word, a), reads(file, to, word, b)),
        Inst::Addi { a, .. } => (reads(file, to, word, a), 0),
        Inst::MoveTo { a, .. } => (reads(file, to, word, a), 0),
        Inst::Jspci { a, .. } => (reads(file, to, word, a), 0),
        _ => (0, 0),
    }
}

/// The word that comes into RF, with what it does, reads its operands.
// One match, since each costs a jump in every cycle.
#[inline(always)]
pub fn read_operands(rf: &mut Latch, inst: Option<Inst>, to: Reg, word: u32, file: &[u32; 32])
    requires fits { IfSome inst ShiftFits }
    ensures { let regs = write (slice_index file.now) to word in let does = unwrap_or inst idle in
        rf.new ≡ record rf.old { inst = inst; a = reg regs (sources does).0; b = reg regs (sources does).1 } }
{
    match inst {
        Some(inst) => {
            rf.inst = Some(inst);
            (rf.a, rf.b) = operands(&inst, to, word, file);
        }
        None => {
            rf.inst = None;
            rf.a = 0;
            rf.b = 0;
        }
    }
}
