//! The sequential meaning, step by step and as it is told.
use crate::same::{same, same_for};
use cmd_answer::{Reply, Status};
use cmd_meaning::meaning_reply;
use mx_asm::assemble;
use mx_isa::{Place, Reg};
use mx_seq::{Seq, Stepped};
use mx_source::Value;
use std::alloc::Global;
use std::test::Fail;

/// Sends the first byte of its input.
const SENDS_ONE: &[u8] = b".input\nld 254[r0],r1\nst 255[r0],r1\nhalt\n.data\n.word 7\n";

/// Sends the first byte of its input, and then jumps by a word.
const SENDS_AND_JUMPS: &[u8] = b".input\nld 254[r0],r1\nst 255[r0],r1\njr r1\n";

/// What each step does, behind which one byte is taken.
static STEPS: [(Stepped, u32); 4] = [
    (Stepped::Went(None), 1),
    (Stepped::Went(Some(72)), 1),
    (Stepped::Halted, 1),
    (Stepped::Halted, 1),
];

/// What four steps do, and how many bytes are taken behind each.
fn four_steps(seq: &mut Seq) -> [(Stepped, u32); 4] {
    let mut steps = [(Stepped::Halted, 0); 4];
    for step in steps.iter_mut() {
        let stepped = seq.step();
        *step = (stepped, seq.taken());
    }
    steps
}

/// Whether four steps do what they should, and the index, MD and a register behind them.
fn behind_four_steps(alloc: Global, r: Reg) -> Result<(bool, u32, u32, Value), Fail> {
    let source = assemble(alloc, SENDS_ONE)?;
    let mut seq = Seq::new(alloc, &source, Place::board(), b"H")?;
    let right = four_steps(&mut seq) == STEPS;
    Ok((right, seq.index(), seq.md(), seq.register(r)))
}

#[test]
fn a_byte_goes_through(rt: HostRuntime) -> Result<(), Fail> {
    let one = Reg::new(1).ok_or("r1")?;
    let told = behind_four_steps(rt.alloc(), one)?;
    same(&rt, &told, &(true, 2, 0, Value::Int(72)));
    Ok(())
}

/// How the meaning of the second text in so many steps ends, and whether this is told.
fn told(alloc: Global, steps: u32, text: &[u8]) -> Result<(Status, bool), Fail> {
    let source = assemble(alloc, SENDS_AND_JUMPS)?;
    match meaning_reply(alloc, &source, b"Hi", steps)? {
        Reply::Prints { status, output } => Ok((status, output.as_slice() == text)),
        Reply::Writes { .. } => Err("a meaning is printed".into()),
    }
}

static TOLD: [(u32, Status, &[u8]); 3] = [
    (0, Status::OutOfBudget, b"running\nsteps 0\nconsole 0\n\n"),
    (2, Status::OutOfBudget, b"running\nsteps 2\nconsole 1\nH\n"),
    (
        9,
        Status::Stuck,
        b"stuck line 4 JumpNotCode\nsteps 2\nconsole 1\nH\n",
    ),
];

#[test]
fn tells_how_a_run_stands(rt: HostRuntime) -> Result<(), Fail> {
    for (steps, status, text) in TOLD.iter() {
        let told = told(rt.alloc(), *steps, text)?;
        same_for(&rt, steps, &told, &(*status, true));
    }
    Ok(())
}
