//! Loads and stores of each width, and calls and jumps by a word of memory.
ghost use Rattle.std.specs.Prelude.{◌≡◌, ◌++◌, OnOk};
ghost use Rattle.cc_accesses.specs.Accesses;

use crate::loads::{load_part, load_word};
use crate::places::{load, spot_of};
use crate::stores::{store_part, store_word};
use crate::unaligned::{load_unaligned, store_unaligned};
use cc_emit::{Mask, Output, Transfer};
use cc_lines::{Register, Width};
use cc_operations::SECOND;
use cc_plan::Place;
use cc_program::Function;
use std::alloc::AllocError;

/// Whether this is the load of the link that a function saved: the word is cleared behind it, as later code may use it byte
/// by byte, which a place is not for.
fn restores_link(function: &Function, rd: Register, base: Register, offset: u32) -> bool
    ensures { result ≡ Accesses.restores_link function.now rd base offset }
{
    rd == Register::LINK && base == Register::STACK && function.saved_link == Some(offset)
}

/// A load from a place. Its base and its offset, without the symbol's address, say whether it is the link that the function saved.
pub fn load_statement(
    out: &mut Output,
    function: &Function,
    width: Width,
    rd: Register,
    base: Register,
    offset: u32,
    place: Place,
) -> Result<(), AllocError>
    ensures lines { OnOk result (out.new.lines.items ≡ out.old.lines.items
        ++ Accesses.loaded out.old.first width rd.0 place (Accesses.restores_link function.now rd base offset)) }
{
    match width {
        Width::Byte { signed } => load_part(out, rd.0, place, signed, 24),
        Width::Half { signed } => load_part(out, rd.0, place, signed, 16),
        Width::Word => load_word(out, place, rd.0, restores_link(function, rd, base, offset)),
        Width::Left => load_unaligned(out, rd.0, place, Mask::LoadLeft),
        Width::Right => load_unaligned(out, rd.0, place, Mask::LoadRight),
    }
}

/// A store to a place.
pub fn store_statement(
    out: &mut Output,
    width: Width,
    rs: Register,
    place: Place,
) -> Result<(), AllocError>
    ensures lines { OnOk result (out.new.lines.items ≡ out.old.lines.items ++ Accesses.stored out.old.first width rs.0 place) }
{
    match width {
        Width::Byte { .. } => store_part(out, rs.0, place, 8),
        Width::Half { .. } => store_part(out, rs.0, place, 16),
        Width::Word => store_word(out, rs.0, place),
        Width::Left => store_unaligned(out, rs.0, place, Mask::StoreLeft),
        Width::Right => store_unaligned(out, rs.0, place, Mask::StoreRight),
    }
}

/// Calls the function whose place the word at a place holds; register 31 takes the link.
pub fn call_at(out: &mut Output, place: Place) -> Result<(), AllocError>
    ensures lines { OnOk result (out.new.lines.items ≡ out.old.lines.items ++ (Accesses.called_at out.old.first place).lines) }
    ensures first { OnOk result (out.new.first ≡ (Accesses.called_at out.old.first place).first) }
    ensures kept { (out.new.skips ≡ out.old.skips) × (out.new.routines ≡ out.old.routines) }
{
    let spot = spot_of(out, place)?;
    load(out, spot, SECOND)?;
    out.transfer(Transfer::CallReg {
        rs: SECOND,
        link: Register::LINK.0,
    })
}

/// Goes to the label whose place the word at a place holds.
pub fn jump_at(out: &mut Output, place: Place) -> Result<(), AllocError>
    ensures lines { OnOk result (out.new.lines.items ≡ out.old.lines.items ++ (Accesses.jumped_at out.old.first place).lines) }
    ensures first { OnOk result (out.new.first ≡ (Accesses.jumped_at out.old.first place).first) }
    ensures kept { (out.new.skips ≡ out.old.skips) × (out.new.routines ≡ out.old.routines) }
{
    let spot = spot_of(out, place)?;
    load(out, spot, SECOND)?;
    out.transfer(Transfer::JumpReg(SECOND))
}
