//! Instructions.
ghost use Rattle.std.specs.Prelude.{◌≡◌, ◌↔◌, ◌≤◌, IsTrue, ℕ, ℤ};
ghost use Rattle.mx_isa.specs.Fields.{IsSignedField, OpFits, InstFits};
ghost use Rattle.mx_isa.specs.Views.{is_load, is_store, is_transfer};

use crate::Reg;

/// When a branch is taken, comparing two registers. Each pair is a condition and its opposite.
#[derive(Clone, Copy, Debug, PartialEq, Eq)]
pub enum Cond {
    /// The two are equal.
    Eq,
    /// The two differ.
    Ne,
    /// The first is less, as signed numbers.
    Lt,
    /// The first is not less, as signed numbers.
    Ge,
    /// The first is less, as unsigned numbers.
    Lo,
    /// The first is not less, as unsigned numbers.
    Hs,
}

/// What a compute instruction does with its operands `a` and `b`, modulo 2^32.
///
/// The steps of multiplication and division follow Chow's manual; the operand order of `Bic` and the
/// 33-bit comparison of `Dstep` are this project's profile.
#[derive(Clone, Copy, Debug, PartialEq, Eq)]
pub enum Op {
    /// `a` + `b`.
    Add,
    /// `a` - `b`.
    Sub,
    /// `a` - `b` - 1.
    Subnc,
    /// Bit by bit.
    And,
    /// Bit by bit.
    Or,
    /// Bit by bit.
    Xor,
    /// `a` and not `b`.
    Bic,
    /// Not `a`; `b` is r0.
    Not,
    /// `a` rotated left by 8 times the low two bits of `b`.
    Rotlb,
    /// The first step of a multiplication; `a` is r0.
    Mstart,
    /// A step of a multiplication.
    Mstep,
    /// A step of a division.
    Dstep,
    /// `a` shifted right by 0 to 31 and filled with its bit 31; `b` is r0.
    Asr(u8),
    /// The low n bits of `b` above the high 32 - n bits of `a`, n from 0 to 31.
    Sh(u8),
}

/// A special word: MD of multiplication and division, or a saved program counter of the system.
#[derive(Clone, Copy, Debug, PartialEq, Eq)]
pub enum Special {
    Md,
    Pc1,
    Pc2,
    Pc3,
}

// The fields stand in one order in every variant: first source, destination or second source, numbers.
// So the registers that every stage of the machine reads are at one place.
/// An instruction.
#[derive(Clone, Copy, Debug, PartialEq, Eq)]
pub enum Inst {
    /// `dest` becomes the data word at `base` + `offset`.
    Load {
        base: Reg,
        dest: Reg,
        offset: i32,
    },
    /// The data word at `base` + `offset` becomes `value`.
    Store {
        base: Reg,
        value: Reg,
        offset: i32,
    },
    /// Goes to the own address + `by` where the condition holds. Where it does not and `squash` is set,
    /// the two words after it are cancelled.
    Branch {
        a: Reg,
        b: Reg,
        cond: Cond,
        squash: bool,
        by: i32,
    },
    /// `dest` becomes what `op` gives of `a` and `b`.
    Compute {
        a: Reg,
        dest: Reg,
        b: Reg,
        op: Op,
    },
    /// `dest` becomes `a` + `imm`.
    Addi {
        a: Reg,
        dest: Reg,
        imm: i32,
    },
    /// `dest` becomes the special word.
    MoveFrom {
        dest: Reg,
        special: Special,
    },
    /// The special word becomes `a`.
    MoveTo {
        a: Reg,
        special: Special,
    },
    /// Goes to `a` + `imm`; `dest` becomes the own address + 3.
    Jspci {
        a: Reg,
        dest: Reg,
        imm: i32,
    },
    /// Goes to the first of the saved program counters, which moves the others up.
    Jpc,
    /// The same, and restores the mode.
    Jpcrs,
    /// Ends the run (trap 0).
    Halt,
}

/// Whether the number has a place in 17 signed bits.
fn fits_17(z: i32) -> bool
    ensures { IsTrue result ↔ IsSignedField 16 z }
{
    (-0x1_0000..0x1_0000).contains(&z)
}

/// Whether the number has a place in 16 signed bits.
fn fits_16(z: i32) -> bool
    ensures { IsTrue result ↔ IsSignedField 15 z }
{
    (-0x8000..0x8000).contains(&z)
}

/// The no-op, `add r0,r0,r0`, which stands in the unused places of a fixed vector.
impl Default for Inst {
    fn default() -> Inst
        ensures { result ≡ Inst.Compute 0 0 0 Op.Add }
    {
        Inst::Compute {
            a: Reg::ZERO,
            dest: Reg::ZERO,
            b: Reg::ZERO,
            op: Op::Add,
        }
    }
}

impl Op {
    /// Whether a count is at most 31, and a register that the operation does not read is r0.
    fn fits(self, a: Reg, b: Reg) -> bool
        ensures { IsTrue result ↔ OpFits self a b }
    {
        match self {
            Op::Not => b == Reg::ZERO,
            Op::Mstart => a == Reg::ZERO,
            Op::Asr(n) => n <= 31 && b == Reg::ZERO,
            Op::Sh(n) => n <= 31,
            _ => true,
        }
    }
}

impl Inst {
    /// Whether it has a word: offsets and immediates are from -65536 to 65535, a branch's `by` is from
    /// -32768 to 32767, a shift's count is at most 31, and a register that an operation does not read is r0.
    pub fn fits(&self) -> bool
        ensures { IsTrue result ↔ InstFits self.now }
    {
        match *self {
            Inst::Load { offset, .. } => fits_17(offset),
            Inst::Store { offset, .. } => fits_17(offset),
            Inst::Branch { by, .. } => fits_16(by),
            Inst::Compute { a, b, op, .. } => op.fits(a, b),
            Inst::Addi { imm, .. } => fits_17(imm),
            Inst::Jspci { imm, .. } => fits_17(imm),
            _ => true,
        }
    }

    /// Whether it is a load.
    pub fn is_load(&self) -> bool
        ensures { result ≡ is_load self.now }
    {
        matches!(self, Inst::Load { .. })
    }

    /// Whether it is a store.
    pub fn is_store(&self) -> bool
        ensures { result ≡ is_store self.now }
    {
        matches!(self, Inst::Store { .. })
    }

    /// Whether it is a branch, a jump, or a return from the handler.
    pub fn is_transfer(&self) -> bool
        ensures { result ≡ is_transfer self.now }
    {
        matches!(
            self,
            Inst::Branch { .. } | Inst::Jspci { .. } | Inst::Jpc | Inst::Jpcrs
        )
    }
}
