//! Decodes a number of words, which its first argument gives, and prints how many spell an instruction.
//! What is drawn and what is printed depend on the number alone.
#![tactic(auto)]

ghost use Rattle.std.specs.Prelude.{◌≤◌};

use anyhow::{Context, Result};
use mx_code::decode;
use mx_isa::Inst;
use std::env;
use std::rt::Env;

// Words of sixteen forms, whose register fields are drawn. The last, `not`, mostly spells nothing then.
const FORMS: [u32; 16] = [
    0x4000_1000,
    0x4000_2001,
    0x4000_3003,
    0x4000_4008,
    0x4800_5104,
    0x4000_600a,
    0x8000_0100,
    0x8001_fffc,
    0x8800_0100,
    0x8800_00ff,
    0xc000_0001,
    0xc001_ffff,
    0x0001_0008,
    0x0800_fff0,
    0xc800_1006,
    0x4000_0007,
];

/// What a run counts: words that spell an instruction, and a sum over their fields.
#[derive(Clone, Copy, Debug, PartialEq, Eq)]
struct Counted {
    spelled: u64,
    sum: u32,
}

/// A sum over the fields of an instruction, so that each is used.
fn sum_of(inst: &Inst) -> u32 {
    let (a, b, n) = match inst {
        Inst::Load { base, dest, offset } => (base.number(), dest.number(), offset.cast_unsigned()),
        Inst::Store {
            base,
            value,
            offset,
        } => (base.number(), value.number(), offset.cast_unsigned()),
        Inst::Branch { a, b, by, .. } => (a.number(), b.number(), by.cast_unsigned()),
        Inst::Compute { a, dest, b, .. } => (a.number(), b.number(), u32::from(dest.number())),
        Inst::Addi { a, dest, imm } => (a.number(), dest.number(), imm.cast_unsigned()),
        Inst::Jspci { a, dest, imm } => (a.number(), dest.number(), imm.cast_unsigned()),
        Inst::MoveFrom { dest, .. } => (dest.number(), 0, 1),
        Inst::MoveTo { a, .. } => (a.number(), 0, 2),
        Inst::Jpc => (0, 0, 3),
        Inst::Jpcrs => (0, 0, 4),
        Inst::Halt => (0, 0, 5),
    };
    n.wrapping_add(u32::from(a)).wrapping_add(u32::from(b) << 8)
}

/// Decodes this many drawn words.
fn measured(size: u64) -> Counted
    ensures { result.spelled ≤ size }
{
    let mut drawn = 1u64;
    let mut spelled = 0u64;
    let mut sum = 0u32;
    for _i in 0..size {
        drawn = drawn
            .wrapping_mul(6_364_136_223_846_793_005)
            .wrapping_add(1_442_695_040_888_963_407);
        let form = FORMS[(drawn >> 60) as usize];
        let registers = ((drawn >> 20) & 0x07fe_0000) as u32;
        let inst = decode(form ^ registers);
        if let Some(inst) = &inst {
            spelled += 1;
            sum = sum.wrapping_add(sum_of(inst));
        }
    }
    Counted { spelled, sum }
}

/// The first argument.
fn size<R: Env + Alloc>(rt: &R) -> Result<u64> {
    let size = env::args(rt)?.nth(1).context("no size is given")?;
    Ok(size.parse::<u64>()?)
}

fn main(rt: HostRuntime) -> Result<()> {
    let size = size(&rt)?;
    let Counted { spelled, sum } = measured(size);
    println!(rt; "{spelled} of {size} words spell an instruction, sum {sum:08x}")?;
    Ok(())
}
