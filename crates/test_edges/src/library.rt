//! What the library for C is given and gives back: the fields in the order of `include/zanderanvil.h`, which their `Debug` texts
//! follow, and the texts of its faults.
use crate::faults::says;
use embed_call::{Call, CallFault, Outcome};
use std::test::Fail;

/// A call with a byte of its own in each of its files.
static NUMBERED: Call = Call {
    words: &[1],
    source: &[2],
    second: &[3],
    input: &[4],
    interrupts: &[5],
    image: &[6],
};

/// An outcome with a number of its own in each of its fields.
static COUNTED: Outcome = Outcome {
    status: 1,
    output: 2,
    output_needed: 3,
    file: 4,
    file_needed: 5,
};

#[test]
fn a_call_has_its_fields_in_order(rt: HostRuntime) -> Result<(), Fail> {
    let wanted =
        "Call { words: [1], source: [2], second: [3], input: [4], interrupts: [5], image: [6] }";
    let text = format!(in rt.alloc(); "{:?}", NUMBERED)?;
    says(&rt, rt.alloc(), &text, wanted)
}

#[test]
fn an_outcome_has_its_fields_in_order(rt: HostRuntime) -> Result<(), Fail> {
    let wanted = "Outcome { status: 1, output: 2, output_needed: 3, file: 4, file_needed: 5 }";
    let text = format!(in rt.alloc(); "{:?}", COUNTED)?;
    says(&rt, rt.alloc(), &text, wanted)
}

#[test]
fn a_call_without_an_answer_says_why(rt: HostRuntime) -> Result<(), Fail> {
    says(&rt, rt.alloc(), &CallFault::NotText, "not text")?;
    says(&rt, rt.alloc(), &CallFault::Memory, "out of memory")
}
