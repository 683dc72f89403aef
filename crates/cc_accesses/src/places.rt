//! The word that a datum is in.
ghost use Rattle.std.specs.Prelude.{◌≡◌, ◌++◌, ◌∷◌, [], OnOk, IfOk};
ghost use Rattle.std.specs.Int.{w32, cast_signed};
ghost use Rattle.cc_accesses.specs.Places;

use cc_emit::{Line, Output, Plain};
use cc_lines::Width;
use cc_operations::{FIRST, SECOND, add_constant};
use cc_plan::Place;
use std::alloc::AllocError;

/// The word of the input.
const INPUT_WORD: u32 = 254;

/// The word that a datum is in, and where in it.
#[derive(Clone, Copy)]
pub(crate) struct Spot {
    pub(crate) base: u8,
    pub(crate) words: u32,
    pub(crate) part: Part,
}

/// Where in its word a datum begins.
#[derive(Clone, Copy)]
pub(crate) enum Part {
    Byte(u8),
    /// The low bits of a register tell it.
    By(u8),
}

/// Computes the address of a far datum, and a quarter of it.
fn far_spot(out: &mut Output, base: u8, bytes: u32) -> Result<Spot, AllocError>
    ensures spot { IfOk result (λ spot. spot ≡ record { base = SECOND; words = 0; part = Part.By FIRST }) }
    ensures lines { OnOk result (out.new.lines.items ≡ out.old.lines.items ++ (Places.reached out.old.first (Place.Far base bytes)).lines) }
    ensures first { OnOk result (out.new.first ≡ (Places.reached out.old.first (Place.Far base bytes)).first) }
    ensures kept { (out.new.skips ≡ out.old.skips) × (out.new.routines ≡ out.old.routines) }
{
    add_constant(out, base, bytes, FIRST)?;
    out.plain(Plain::Asr {
        rs: FIRST,
        count: 2,
        rd: SECOND,
    })?;
    Ok(Spot {
        base: SECOND,
        words: 0,
        part: Part::By(FIRST),
    })
}

/// The word of a place, whose address is computed where the datum is far.
pub(crate) fn spot_of(out: &mut Output, place: Place) -> Result<Spot, AllocError>
    ensures spot { IfOk result (λ spot.
        spot ≡ record { base = Places.word_base place; words = Places.word_offset place; part = Places.part_of place }) }
    ensures lines { OnOk result (out.new.lines.items ≡ out.old.lines.items ++ (Places.reached out.old.first place).lines) }
    ensures first { OnOk result (out.new.first ≡ (Places.reached out.old.first place).first) }
    ensures kept { (out.new.skips ≡ out.old.skips) × (out.new.routines ≡ out.old.routines) }
{
    match place {
        Place::Byte { base, words, byte } => Ok(Spot {
            base,
            words,
            part: Part::Byte(byte),
        }),
        Place::Turned { base, words, by } => Ok(Spot {
            base,
            words,
            part: Part::By(by),
        }),
        Place::Far { base, bytes } => far_spot(out, base, bytes),
    }
}

/// Loads the word of a spot.
pub(crate) fn load(out: &mut Output, spot: Spot, rd: u8) -> Result<(), AllocError>
    ensures lines { OnOk result (out.new.lines.items
        ≡ out.old.lines.items ++ Line.Plain (Plain.Load (cast_signed w32 spot.words) spot.base rd) ∷ []) }
    ensures kept { (out.new.first ≡ out.old.first) × (out.new.skips ≡ out.old.skips) × (out.new.routines ≡ out.old.routines) }
{
    if spot.base == 0 && spot.words == INPUT_WORD {
        out.input = true;
    }
    out.plain(Plain::Load {
        words: spot.words.cast_signed(),
        base: spot.base,
        rd,
    })
}

/// Stores the word of a spot.
pub(crate) fn store(out: &mut Output, spot: Spot, rs: u8) -> Result<(), AllocError>
    ensures lines { OnOk result (out.new.lines.items
        ≡ out.old.lines.items ++ Line.Plain (Plain.Store (cast_signed w32 spot.words) spot.base rs) ∷ []) }
    ensures kept { (out.new.first ≡ out.old.first) × (out.new.skips ≡ out.old.skips) × (out.new.routines ≡ out.old.routines) }
{
    out.plain(Plain::Store {
        words: spot.words.cast_signed(),
        base: spot.base,
        rs,
    })
}

/// The first word that a program may load and store, but for those of input and console.
const FIRST_WORD: u32 = 254;

/// Whether a place is one that no datum has, as that of a null pointer.
pub fn is_null(place: Place) -> bool
    ensures { result ≡ Places.is_null place }
{
    match place {
        Place::Byte { base: 0, words, .. } => words < FIRST_WORD,
        _ => false,
    }
}

/// Whether a datum of this width at a place is not at a multiple of its size.
pub fn is_misaligned(width: Width, place: Place) -> bool
    ensures { result ≡ Places.is_misaligned width place }
{
    match (width, place) {
        (Width::Half { .. }, Place::Byte { byte, .. }) => byte % 2 != 0,
        (Width::Word, Place::Byte { byte, .. }) => byte != 0,
        _ => false,
    }
}
