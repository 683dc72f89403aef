//! Words of instructions, and images.
use crate::same::same;
use mx_code::{Image, decode, encode};
use mx_isa::{Cond, Inst, Op, Reg};
use mx_turn::SHIPPED;
use std::alloc::Global;
use std::process::Abort;
use std::test::Fail;

/// The word of the instruction that a word spells, where it fits.
fn respelled(word: u32) -> Option<u32> {
    let inst = decode(word)?;
    if inst.fits() {
        Some(encode(&inst))
    } else {
        None
    }
}

/// Each of the words spells an instruction, whose word it is.
fn spell_both_ways(rt: &impl Abort, words: &[u32]) {
    for word in words {
        same(rt, &respelled(*word), &Some(*word));
    }
}

#[test]
fn spells_both_ways(rt: HostRuntime) {
    spell_both_ways(&rt, &EXAMPLES);
    spell_both_ways(&rt, &SHIPPED);
}

#[test]
fn other_words_spell_nothing(rt: HostRuntime) {
    for word in [0x4000_0800, 0xe000_0001] {
        same(&rt, &decode(word), &None);
    }
}

// The examples of the table. The words of the shipped handler are compared with those of its listing, in `listing`.
static EXAMPLES: [u32; 12] = [
    0xc002_0048,
    0x8802_00ff,
    0xe000_0000,
    0xc043_ffff,
    0x0845_0000,
    0x0080_0006,
    0x0000_fffc,
    0x8044_0000,
    0x8002_0100,
    0x4040_2000,
    0xc83e_1006,
    0xc880_0000,
];

/// The words of `bne r1,r2` with a squash, and of `add r1,r0,r2`.
fn table_words(r1: Reg, r2: Reg) -> [u32; 2] {
    let branch = Inst::Branch {
        a: r1,
        b: r2,
        cond: Cond::Ne,
        squash: true,
        by: 0,
    };
    let add = Inst::Compute {
        a: r1,
        dest: r2,
        b: Reg::ZERO,
        op: Op::Add,
    };
    [encode(&branch), encode(&add)]
}

#[test]
fn knows_the_table(rt: HostRuntime) -> Result<(), Fail> {
    let (Some(r1), Some(r2)) = (Reg::new(1), Reg::new(2)) else {
        return Err("r1 and r2".into());
    };
    same(&rt, &table_words(r1, r2), &[0x0845_0000, 0x4040_2000]);
    Ok(())
}

/// How many code words an image has that gets this many, and whether its one data word is 7, as it was given.
fn image_of(alloc: Global, count: usize) -> Result<(usize, bool), Fail> {
    let code = vec![in alloc; 0; count]?;
    let user_data = vec![in alloc; 7]?;
    let image = Image::new(code, user_data).ok_or("an image")?;
    Ok((
        image.code.len(),
        image.user_data.as_slice() == [7].as_slice(),
    ))
}

#[test]
fn bounds_an_image(rt: HostRuntime) -> Result<(), Fail> {
    same(&rt, &image_of(rt.alloc(), 60_000)?, &(60_000, true));
    Ok(())
}
