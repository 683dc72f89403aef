//! Compares the instruction table, the arithmetic, the coder, the assembler, the meaning, the generator, the handler and
//! all faulty lines of texts with cases from files, whose answers come from outside. Prints a line for each kind of case,
//! and one for each case that differs.
#![tactic(auto)]

mod encoded;
mod faulty_lines;
mod kind;
mod numbers;
mod spelling;
mod texts;

use anyhow::Result;
use kind::Kind;
use test_case_files::compare_all;

fn main(rt: HostRuntime) -> Result<()> {
    compare_all(&rt, Kind::ALL.as_slice())
}
