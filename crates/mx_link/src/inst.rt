//! Linked instructions.
ghost use Rattle.std.specs.Prelude.{◌≡◌, ◌≤◌, ◌<◌, ◌^◌, length, All, slice_get, slice_index};
ghost use Rattle.mx_isa.specs.declared.board.TheConstants.{LAST_ADDRESS};
ghost use Rattle.mx_source.specs.Statements.{StatementFits};
ghost use Rattle.mx_squash.specs.Copies.{no_copies};
ghost use Rattle.mx_link.specs.Words.{displacement, linked_inst, linked_statement, inst_at};

use crate::Origin;
use mx_blocks::Item;
use mx_code::IDLE;
use mx_isa::{Inst, Reg};
use mx_source::Statement;
use mx_squash::Copied;

/// One address minus another.
fn displacement(from: u32, to: u32) -> i32
    requires from { from < 2 ^ 31 }
    requires to { to < 2 ^ 31 }
    ensures { result ≡ displacement from to }
{
    to as i32 - from as i32
}

/// No word is copied.
pub(crate) fn no_copies() -> Copied
    ensures { result ≡ no_copies }
{
    Copied {
        from: [Item::Nop, Item::Nop],
        count: 0,
        squash: false,
    }
}

/// The instruction of a statement that stands at an address.
fn linked_inst(statement: &Statement, links: &[u32], copied: &Copied, at: u32) -> Inst
    requires fits { StatementFits (λ i. i < length links.now) statement.now }
    requires short { All (λ link. link ≤ LAST_ADDRESS) links.now }
    requires at { at ≤ LAST_ADDRESS }
    ensures { result ≡ linked_inst (slice_index links.now) copied.now at statement.now }
{
    match *statement {
        Statement::Plain(inst) => inst,
        Statement::LaCode { dest, target } => Inst::Addi {
            a: Reg::ZERO,
            dest,
            imm: links[target as usize] as i32,
        },
        Statement::Branch { a, b, cond, target } => Inst::Branch {
            a,
            b,
            cond,
            squash: copied.squash,
            by: displacement(at, links[target as usize] + u32::from(copied.count)),
        },
        Statement::Call { dest, target } => Inst::Jspci {
            a: Reg::ZERO,
            dest,
            imm: (links[target as usize] + u32::from(copied.count)) as i32,
        },
        Statement::CallReg { a, dest } => Inst::Jspci { a, dest, imm: 0 },
        Statement::JumpReg { a } => Inst::Jspci {
            a,
            dest: Reg::ZERO,
            imm: 0,
        },
        Statement::Halt => Inst::Halt,
    }
}

/// The instruction of statement `i` that stands at an address.
fn linked_at(statements: &[Statement], i: u32, links: &[u32], copied: &Copied, at: u32) -> Inst
    requires fit { All (StatementFits (λ i. i < length links.now)) statements.now }
    requires short { All (λ link. link ≤ LAST_ADDRESS) links.now }
    requires at { at ≤ LAST_ADDRESS }
    ensures { result ≡ linked_statement (slice_index links.now) copied.now at (slice_get statements.now i) }
{
    match statements.get(i as usize) {
        Some(statement) => linked_inst(statement, links, copied, at),
        None => IDLE,
    }
}

/// The instruction at an address, by its origin.
pub(crate) fn inst_at(
    statements: &[Statement],
    links: &[u32],
    copied: &Copied,
    at: u32,
    origin: Origin,
) -> Inst
    requires fit { All (StatementFits (λ i. i < length links.now)) statements.now }
    requires short { All (λ link. link ≤ LAST_ADDRESS) links.now }
    requires at { at ≤ LAST_ADDRESS }
    ensures { result ≡ inst_at (slice_index links.now) statements.now copied.now at origin }
{
    match origin {
        Origin::Own(i) => linked_at(statements, i, links, copied, at),
        Origin::Copy(i) => linked_at(statements, i, links, &no_copies(), at),
        Origin::Pad => IDLE,
    }
}
