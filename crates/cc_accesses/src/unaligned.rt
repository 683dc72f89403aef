//! `lwl`, `lwr`, `swl` and `swr`, which move a part of a word up to its end or from its start.
ghost use Rattle.std.specs.Prelude.{◌≡◌, ◌++◌, OnOk};
ghost use Rattle.cc_operations.specs.Operations.{lines};
ghost use Rattle.cc_accesses.specs.Places;
ghost use Rattle.cc_accesses.specs.Unaligned;

use cc_emit::{Computed, Line, Mask, Output, Plain, Word, compute_line, shift_line};
use cc_operations::{FIRST, add_constant};
use cc_plan::Place;
use std::alloc::AllocError;

/// What takes the word of a table for the address in r1 to r27: it says which bits stay.
fn mask_lines(mask: Mask) -> [Line; 3]
    ensures { result ≡ Unaligned.mask_taken mask }
{
    [
        shift_line(0, 1, 2, 27),
        shift_line(27, 0, 30, 27),
        Line::Take {
            word: Word::Mask(mask),
            base: 27,
            rd: 27,
        },
    ]
}

/// What `lwl` and `lwr` begin with: they load the word at the address in r1.
fn load_unturned() -> [Line; 2]
    ensures { result ≡ lines Unaligned.word_fetched }
{
    [
        Line::Plain(Plain::Asr {
            rs: 1,
            count: 2,
            rd: 26,
        }),
        Line::Plain(Plain::Load {
            words: 0,
            base: 26,
            rd: 26,
        }),
    ]
}

/// `lwl` and `lwr` turn the word at the address in r1.
fn load_turned(out: &mut Output, mask: Mask) -> Result<(), AllocError>
    ensures lines { OnOk result (out.new.lines.items ≡ out.old.lines.items ++ lines (Unaligned.word_turned mask)) }
{
    out.push_all(&load_unturned())?;
    if mask == Mask::LoadLeft {
        return out.compute(Computed::Rotlb, 26, 1, 26);
    }
    out.plain(Plain::Addi {
        rs: 1,
        number: 1,
        rd: 27,
    })?;
    out.compute(Computed::Rotlb, 26, 27, 26)
}

/// `swl` and `swr` turn the register for the address in r1.
fn store_turned(out: &mut Output, rs: u8, mask: Mask) -> Result<(), AllocError>
    ensures lines { OnOk result (out.new.lines.items ≡ out.old.lines.items ++ lines (Unaligned.register_turned rs mask)) }
{
    if mask == Mask::StoreLeft {
        out.compute(Computed::Sub, 0, 1, 26)?;
    } else {
        out.plain(Plain::Not { rs: 1, rd: 26 })?;
    }
    out.compute(Computed::Rotlb, rs, 26, 26)
}

/// What `lwl` and `lwr` end with: the register keeps the bits of r27, and has the others of the turned word.
fn load_masked(out: &mut Output, rd: u8) -> Result<(), AllocError>
    ensures lines { OnOk result (out.new.lines.items ≡ out.old.lines.items ++ lines (Unaligned.merged rd)) }
{
    out.push_all(&[
        compute_line(Computed::And, rd, 27, rd),
        compute_line(Computed::Bic, 26, 27, 26),
        compute_line(Computed::Or, rd, 26, rd),
    ])
}

/// What `swl` and `swr` end with: they store the bits of r27 of the turned register, and the others of the word that is there.
fn store_masked(out: &mut Output) -> Result<(), AllocError>
    ensures lines { OnOk result (out.new.lines.items ≡ out.old.lines.items ++ lines Unaligned.merged_in_memory) }
{
    out.push_all(&[
        Line::Plain(Plain::Asr {
            rs: 1,
            count: 2,
            rd: 1,
        }),
        Line::Plain(Plain::Load {
            words: 0,
            base: 1,
            rd: 22,
        }),
        compute_line(Computed::And, 26, 27, 26),
        compute_line(Computed::Bic, 22, 27, 22),
        compute_line(Computed::Or, 26, 22, 26),
        Line::Plain(Plain::Store {
            words: 0,
            base: 1,
            rs: 26,
        }),
    ])
}

/// The address of `lwl`, `lwr`, `swl` or `swr` in r1.
fn unaligned_address(out: &mut Output, place: Place) -> Result<(), AllocError>
    ensures lines { OnOk result (out.new.lines.items ≡ out.old.lines.items ++ (Places.addressed out.old.first place).lines) }
{
    match place {
        Place::Far { base, bytes } => add_constant(out, base, bytes, FIRST),
        _ => Ok(()),
    }
}

/// `lwl` and `lwr`.
pub(crate) fn load_unaligned(
    out: &mut Output,
    rd: u8,
    place: Place,
    mask: Mask,
) -> Result<(), AllocError>
    ensures lines { OnOk result (out.new.lines.items ≡ out.old.lines.items ++ Unaligned.loaded out.old.first place rd mask) }
{
    unaligned_address(out, place)?;
    out.need_mask(mask)?;
    load_turned(out, mask)?;
    out.push_all(&mask_lines(mask))?;
    load_masked(out, rd)
}

/// `swl` and `swr`.
pub(crate) fn store_unaligned(
    out: &mut Output,
    rs: u8,
    place: Place,
    mask: Mask,
) -> Result<(), AllocError>
    ensures lines { OnOk result (out.new.lines.items ≡ out.old.lines.items ++ Unaligned.stored out.old.first place rs mask) }
{
    unaligned_address(out, place)?;
    out.need_mask(mask)?;
    store_turned(out, rs, mask)?;
    out.push_all(&mask_lines(mask))?;
    store_masked(out)
}
