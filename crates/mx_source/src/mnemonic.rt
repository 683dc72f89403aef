//! The mnemonics of operations and branches, as they are printed.
ghost use Rattle.std.specs.Prelude.{◌≡◌};
ghost use Rattle.mx_source.specs.Printed.{operation_text, condition_text};

use mx_isa::{Cond, Op};

/// The mnemonic of an operation.
pub fn operation_name(op: Op) -> &'static str
    ensures { result.now ≡ operation_text op }
{
    match op {
        Op::Add => "add",
        Op::Sub => "sub",
        Op::Subnc => "subnc",
        Op::And => "and",
        Op::Or => "or",
        Op::Xor => "xor",
        Op::Bic => "bic",
        Op::Not => "not",
        Op::Rotlb => "rotlb",
        Op::Mstart => "mstart",
        Op::Mstep => "mstep",
        Op::Dstep => "dstep",
        Op::Asr(_) => "asr",
        Op::Sh(_) => "sh",
    }
}

/// The mnemonic of a branch.
pub fn branch_name(cond: Cond) -> &'static str
    ensures { result.now ≡ condition_text cond }
{
    match cond {
        Cond::Eq => "beq",
        Cond::Ne => "bne",
        Cond::Lt => "blt",
        Cond::Ge => "bge",
        Cond::Lo => "blo",
        Cond::Hs => "bhs",
    }
}
