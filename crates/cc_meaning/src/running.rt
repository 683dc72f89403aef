//! Runs of a program.
ghost use Rattle.std.specs.Prelude.{◌≡◌, ◌++◌, IfOk, OnOk, option_to_list};
ghost use Rattle.cc_meaning.specs.Machines.{state_of};
ghost use Rattle.cc_meaning.specs.Runs;

use crate::layout::Layout;
use crate::machine::{Machine, Stepped};
use crate::value::Why;
use cc_program::Program;
use std::alloc::AllocError;

/// How a run stands.
#[derive(Clone, Copy, Debug, PartialEq, Eq)]
pub enum Ending {
    Running,
    /// The program has ended with this status.
    Halted(u8),
    /// The program cannot go on.
    Stuck(Why),
}

/// Adds the byte that a step sent.
fn push_sent(console: &mut Vec<u8>, sent: Option<u8>) -> Result<(), AllocError>
    ensures { OnOk result (console.new.items ≡ console.old.items ++ option_to_list sent) }
{
    if let Some(byte) = sent {
        console.push(byte)?;
    }
    Ok(())
}

/// Executes at most so many items, and adds to the console what they send. With this input.
///
/// # Errors
///
/// Where there is no memory for the console.
pub fn run(
    machine: &mut Machine,
    program: &Program<'_>,
    layout: &Layout,
    input: &[u8],
    steps: u64,
    console: &mut Vec<u8>,
) -> Result<Ending, AllocError>
    ensures { IfOk result (λ ending. record { state = state_of machine.new; console = console.new.items; ending = ending }
        ≡ Runs.run_for program.now layout.now input.now steps (state_of machine.old) console.old.items) }
{
    for _done in 0..steps {
        match machine.step(program, layout, input) {
            Stepped::Went(sent) => push_sent(console, sent)?,
            Stepped::Halted(status) => return Ok(Ending::Halted(status)),
            Stepped::Stuck(why) => return Ok(Ending::Stuck(why)),
        }
    }
    Ok(Ending::Running)
}
