//! Stores of words, and of their parts.
ghost use Rattle.std.specs.Prelude.{◌≡◌, ◌++◌, OnOk};
ghost use Rattle.cc_operations.specs.Operations.{lines};
ghost use Rattle.cc_accesses.specs.Stores;

use crate::places::{Part, load, spot_of, store};
use cc_emit::{Computed, Output, compute_line, shift_line};
use cc_lines::Shift;
use cc_operations::{FIRST, SECOND, THIRD, shift_by};
use cc_plan::Place;
use std::alloc::AllocError;

/// Stores a word.
pub(crate) fn store_word(out: &mut Output, rs: u8, place: Place) -> Result<(), AllocError>
    ensures lines { OnOk result (out.new.lines.items ≡ out.old.lines.items ++ (Stores.word_stored out.old.first place rs).lines) }
    ensures first { OnOk result (out.new.first ≡ (Stores.word_stored out.old.first place rs).first) }
    ensures kept { (out.new.skips ≡ out.old.skips) × (out.new.routines ≡ out.old.routines) }
{
    let spot = spot_of(out, place)?;
    store(out, spot, rs)
}

/// How many bits of a word are before a byte.
fn bits_before(byte: u8) -> u32
    ensures { result ≡ Stores.bits_before byte }
{
    u32::from(byte % 4) * 8
}

/// Puts so many low bits of a register, 8 or 16, into a word, from the byte with this number on.
fn insert_at(out: &mut Output, word: u8, rs: u8, byte: u8, bits: u8) -> Result<(), AllocError>
    ensures lines { OnOk result (out.new.lines.items ≡ out.old.lines.items ++ Stores.inserted_at word rs byte bits) }
    ensures kept { (out.new.first ≡ out.old.first) × (out.new.skips ≡ out.old.skips) × (out.new.routines ≡ out.old.routines) }
{
    let before = bits_before(byte);
    shift_by(out, Shift::Rotate, word, word, u32::from(bits) + before)?;
    out.shift(word, rs, bits, word)?;
    shift_by(out, Shift::Rotate, word, word, 32 - before)
}

/// Puts the low byte of a register into a word, at the byte that the low bits of another register tell.
fn insert_byte_by(out: &mut Output, word: u8, rs: u8, by: u8) -> Result<(), AllocError>
    ensures lines { OnOk result (out.new.lines.items ≡ out.old.lines.items ++ lines (Stores.byte_inserted word rs by)) }
    ensures kept { (out.new.first ≡ out.old.first) × (out.new.skips ≡ out.old.skips) × (out.new.routines ≡ out.old.routines) }
{
    out.push_all(&[
        compute_line(Computed::Rotlb, word, by, word),
        shift_line(0, word, 24, word),
        shift_line(word, rs, 8, word),
        compute_line(Computed::Sub, 0, by, FIRST),
        compute_line(Computed::Rotlb, word, FIRST, word),
    ])
}

/// Puts the low half of a register into a word, from the byte on that the low bits of another register tell.
fn insert_half_by(out: &mut Output, word: u8, rs: u8, by: u8) -> Result<(), AllocError>
    ensures lines { OnOk result (out.new.lines.items ≡ out.old.lines.items ++ lines (Stores.half_inserted word rs by)) }
    ensures kept { (out.new.first ≡ out.old.first) × (out.new.skips ≡ out.old.skips) × (out.new.routines ≡ out.old.routines) }
{
    out.push_all(&[
        compute_line(Computed::Rotlb, word, by, word),
        shift_line(0, word, 16, word),
        shift_line(word, rs, 16, word),
        compute_line(Computed::Rotlb, word, by, word),
    ])
}

/// Puts so many low bits of a register, 8 or 16, into a word.
fn insert(out: &mut Output, part: Part, word: u8, rs: u8, bits: u8) -> Result<(), AllocError>
    ensures lines { OnOk result (out.new.lines.items ≡ out.old.lines.items ++ Stores.inserted part word rs bits) }
    ensures kept { (out.new.first ≡ out.old.first) × (out.new.skips ≡ out.old.skips) × (out.new.routines ≡ out.old.routines) }
{
    match part {
        Part::Byte(byte) => insert_at(out, word, rs, byte, bits),
        Part::By(by) if bits == 8 => insert_byte_by(out, word, rs, by),
        Part::By(by) => insert_half_by(out, word, rs, by),
    }
}

/// The register that takes a word of which a part is stored: not the one that the store needs.
fn word_register(base: u8) -> u8
    ensures { result ≡ Stores.word_register base }
{
    if base == SECOND { THIRD } else { SECOND }
}

/// Stores so many low bits of a register.
pub(crate) fn store_part(out: &mut Output, rs: u8, place: Place, bits: u8) -> Result<(), AllocError>
    ensures lines { OnOk result (out.new.lines.items ≡ out.old.lines.items ++ (Stores.part_stored out.old.first place rs bits).lines) }
    ensures first { OnOk result (out.new.first ≡ (Stores.part_stored out.old.first place rs bits).first) }
    ensures kept { (out.new.skips ≡ out.old.skips) × (out.new.routines ≡ out.old.routines) }
{
    let spot = spot_of(out, place)?;
    let word = word_register(spot.base);
    load(out, spot, word)?;
    insert(out, spot.part, word, rs, bits)?;
    store(out, spot, word)
}
