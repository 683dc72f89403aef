//! The lines of a trace, by the worked run of `docs/MACHINE.md`.
use crate::same::same_for;
use crate::turns::SEVENTH;
use mx_report::trace_line;
use mx_turn::{Cycled, Latches, Stage};
use std::alloc::Global;
use std::test::Fail;

/// The line of a cycle that sends nothing and takes no interrupt, before the halt.
fn line(alloc: Global, cycle: u32, stalled: bool, rf: Stage) -> Result<Vec<u8>, Fail> {
    let cycled = Cycled {
        byte: None,
        taken: false,
        halted: false,
        stalled,
    };
    let latches = Latches { rf, ..SEVENTH };
    Ok(trace_line(alloc, cycle, &cycled, &latches)?)
}

static LINES: [(u32, bool, Stage, &[u8]); 3] = [
    (
        7,
        false,
        Stage::Live(0x1002),
        b"7 00001003 00001002 00001001 00001000 -------- 00000000 00000048 000000ff\n",
    ),
    (8, true, Stage::Live(0x1002), b"8 stall\n"),
    (
        9,
        false,
        Stage::Squashed(0x1002),
        b"9 00001003 00001002* 00001001 00001000 -------- 00000000 00000048 000000ff\n",
    ),
];

#[test]
fn a_line_tells_the_stages_and_the_numbers_in_alu(rt: HostRuntime) -> Result<(), Fail> {
    for (cycle, stalled, rf, wanted) in LINES.iter() {
        let told = line(rt.alloc(), *cycle, *stalled, *rf)?;
        same_for(&rt, cycle, &told.as_slice(), wanted);
    }
    Ok(())
}
