//! The no-op, as an instruction and as a word.
ghost use Rattle.std.specs.Prelude.{◌≡◌, ◌≤◌, length};
ghost use Rattle.mx_code.specs.NoOps.{noops_in};

use mx_isa::{Inst, Op, Reg};

/// The instruction that does nothing: `add r0,r0,r0`.
pub const IDLE: Inst = Inst::Compute {
    a: Reg::ZERO,
    dest: Reg::ZERO,
    b: Reg::ZERO,
    op: Op::Add,
};

/// Its word.
pub const NO_OP: u32 = 0x4000_0000;

/// How many code words are the no-op.
pub fn noops_in(code: &[u32]) -> usize
    ensures count { result ≡ noops_in code.now }
    ensures within { result ≤ length code.now }
{
    code.iter().filter(|word| **word == NO_OP).count()
}
