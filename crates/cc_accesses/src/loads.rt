//! Loads of words, and of their parts.
ghost use Rattle.std.specs.Prelude.{◌≡◌, ◌++◌, OnOk};
ghost use Rattle.cc_operations.specs.Operations.{lines};
ghost use Rattle.cc_accesses.specs.Loads;

use crate::places::{Part, load, spot_of, store};
use cc_emit::{Computed, Output};
use cc_lines::Shift;
use cc_operations::{SECOND, shift_by};
use cc_plan::Place;
use std::alloc::AllocError;

/// Loads a word, which may be the link that the function saved.
pub(crate) fn load_word(
    out: &mut Output,
    place: Place,
    rd: u8,
    is_link: bool,
) -> Result<(), AllocError>
    ensures lines { OnOk result (out.new.lines.items ≡ out.old.lines.items ++ (Loads.word_loaded out.old.first place rd is_link).lines) }
    ensures first { OnOk result (out.new.first ≡ (Loads.word_loaded out.old.first place rd is_link).first) }
    ensures kept { (out.new.skips ≡ out.old.skips) × (out.new.routines ≡ out.old.routines) }
{
    let spot = spot_of(out, place)?;
    load(out, spot, rd)?;
    if is_link {
        return store(out, spot, 0);
    }
    Ok(())
}

/// The register that takes a word of which a part is loaded: the part's own, if that is free.
fn part_register(part: Part, rd: u8) -> u8
    ensures { result ≡ Loads.part_register part rd }
{
    match part {
        Part::By(by) if rd == by || rd == 0 => SECOND,
        _ => rd,
    }
}

/// Turns a word so that a part of it is at its top.
fn turn_to_top(out: &mut Output, part: Part, word: u8) -> Result<(), AllocError>
    ensures lines { OnOk result (out.new.lines.items ≡ out.old.lines.items ++ lines (Loads.at_top part word)) }
    ensures kept { (out.new.first ≡ out.old.first) × (out.new.skips ≡ out.old.skips) × (out.new.routines ≡ out.old.routines) }
{
    match part {
        Part::Byte(byte) => shift_by(out, Shift::Left, word, word, u32::from(byte) * 8),
        Part::By(by) => out.compute(Computed::Rotlb, word, by, word),
    }
}

/// How a number goes down from the top of a word.
fn down(signed: bool) -> Shift
    ensures { result ≡ Loads.down signed }
{
    if signed {
        Shift::Arithmetic
    } else {
        Shift::Right
    }
}

/// Loads a part of a word, so many bits less than the word, which a statement takes from the top of the turned word.
pub(crate) fn load_part(
    out: &mut Output,
    rd: u8,
    place: Place,
    signed: bool,
    count: u32,
) -> Result<(), AllocError>
    ensures lines { OnOk result (out.new.lines.items ≡ out.old.lines.items ++ (Loads.part_loaded out.old.first place rd signed count).lines) }
    ensures first { OnOk result (out.new.first ≡ (Loads.part_loaded out.old.first place rd signed count).first) }
    ensures kept { (out.new.skips ≡ out.old.skips) × (out.new.routines ≡ out.old.routines) }
{
    let spot = spot_of(out, place)?;
    let word = part_register(spot.part, rd);
    load(out, spot, word)?;
    turn_to_top(out, spot.part, word)?;
    shift_by(out, down(signed), rd, word, count)
}
