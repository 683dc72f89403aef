//! Execution of a program.
ghost use Rattle.std.specs.Prelude.{◌≡◌, ◌++◌, OnOk, IfOk};
ghost use Rattle.cc_meaning.specs.Layouts.{layout_of};
ghost use Rattle.cc_meaning.specs.Runs.{meaning};

use cc_meaning::{Ending, Layout, Machine, run};
use cc_program::Program;
use mx_io::{Sink, SinkFault, put_all};
use std::alloc::{AllocError, Global};

/// Why a program's console is not put out.
#[derive(Clone, Copy, Debug, PartialEq, Eq, Drop)]
pub enum Fault {
    Memory,
    /// A part of the console may have been put out.
    Write,
}

/// How a run ended, and the item that it came to.
#[derive(Clone, Copy)]
pub struct Executed {
    pub ending: Ending,
    pub item: usize,
}

/// A run of a program, and its console.
#[derive(Drop)]
struct Ran {
    executed: Executed,
    console: Vec<u8>,
}

/// Runs a program from its start.
fn run_from_start(
    alloc: Global,
    program: &Program<'_>,
    end: u32,
    symbol: u32,
    input: &[u8],
    steps: u64,
) -> Result<Ran, AllocError>
    ensures console { IfOk result (λ r. r.console.items ≡ (meaning program.now (layout_of program.now end end) symbol input.now steps).console) }
    ensures ending { IfOk result (λ r. r.executed.ending ≡ (meaning program.now (layout_of program.now end end) symbol input.now steps).ending) }
{
    let layout = Layout::of(program, end, end);
    let mut machine = Machine::new(alloc, program, &layout, symbol)?;
    let mut console = Vec::new(alloc);
    let ending = run(&mut machine, program, &layout, input, steps, &mut console)?;
    let item = machine.next();
    Ok(Ran {
        executed: Executed { ending, item },
        console,
    })
}

/// Executes a program from its start, and puts out its console: at most so many items, with this input, where `end` is the first
/// byte after all data and `symbol` the program's first function.
pub fn execute<W: Sink>(
    alloc: Global,
    program: &Program<'_>,
    end: u32,
    symbol: u32,
    input: &[u8],
    steps: u64,
    out: &mut W,
) -> Result<Executed, Fault>
    ensures printed { OnOk result (W.written out.new
        ≡ W.written out.old ++ (meaning program.now (layout_of program.now end end) symbol input.now steps).console) }
    ensures ending { IfOk result (λ r. r.ending ≡ (meaning program.now (layout_of program.now end end) symbol input.now steps).ending) }
{
    let Ok(ran) = run_from_start(alloc, program, end, symbol, input, steps) else {
        return Err(Fault::Memory);
    };
    match put_all(out, ran.console.as_slice()) {
        Ok(()) => Ok(ran.executed),
        Err(SinkFault::Failed) => Err(Fault::Write),
    }
}
