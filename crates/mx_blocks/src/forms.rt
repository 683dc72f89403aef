//! The instructions of statements.
ghost use Rattle.std.specs.Prelude.{◌≡◌, ◌≤◌, length, map};
ghost use Rattle.mx_blocks.specs.Leaders.{ends_block, inst_of, end_of};

use crate::End;
use arrayvec::ArrayVec;
use mx_isa::{Inst, Reg};
use mx_source::Statement;

/// Whether the statement is a transfer or a halt.
pub(crate) fn ends_block(statement: &Statement) -> bool
    ensures { result ≡ ends_block statement.now }
{
    !matches!(statement, Statement::Plain(_) | Statement::LaCode { .. })
}

/// The instruction of a statement, with 0 for what is not known yet.
pub(crate) fn inst_of(statement: &Statement) -> Inst
    ensures { result ≡ inst_of statement.now }
{
    match *statement {
        Statement::Plain(inst) => inst,
        Statement::LaCode { dest, .. } => Inst::Addi {
            a: Reg::ZERO,
            dest,
            imm: 0,
        },
        Statement::Branch { a, b, cond, .. } => Inst::Branch {
            a,
            b,
            cond,
            squash: false,
            by: 0,
        },
        Statement::Call { dest, .. } => Inst::Jspci {
            a: Reg::ZERO,
            dest,
            imm: 0,
        },
        Statement::CallReg { a, dest } => Inst::Jspci { a, dest, imm: 0 },
        Statement::JumpReg { a } => Inst::Jspci {
            a,
            dest: Reg::ZERO,
            imm: 0,
        },
        Statement::Halt => Inst::Halt,
    }
}

/// How a block ends whose last statement this is.
pub(crate) fn end_of(statement: &Statement) -> End
    ensures { result ≡ end_of statement.now }
{
    match *statement {
        Statement::Plain(_) | Statement::LaCode { .. } => End::Falls,
        Statement::Branch { target, .. } => End::Branches { target },
        Statement::Call { target, .. } => End::Calls { target },
        Statement::CallReg { .. } | Statement::JumpReg { .. } => End::Jumps,
        Statement::Halt => End::Halts,
    }
}

/// The instructions of the statements.
pub(crate) fn insts_of(statements: &[Statement]) -> ArrayVec<Inst, 64>
    requires { length statements.now ≤ 64 }
    ensures { result.items ≡ map inst_of statements.now }
{
    let mut insts = ArrayVec::new();
    for statement in statements {
        insts.push(inst_of(statement));
    }
    insts
}
