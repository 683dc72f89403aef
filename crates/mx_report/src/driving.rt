//! Running a machine.
ghost use Rattle.std.specs.Prelude.{◌≡◌, ◌≤◌, ◌<◌, ◌+◌, ◌++◌, ◌^◌, [], List, ℕ, Bool, OnOk, IfOk, cond, false, suc, min};
ghost use Rattle.mx_turn.specs.Program.{Program, state_after};
ghost use Rattle.mx_turn.specs.Run.{bits, console_after, run_of};
ghost use Rattle.mx_report.specs.Driving.{trace_text, trace_line};

use crate::observing::{Observer, observe};
use crate::traces::push_trace_line;
use mx_board::Requests;
use mx_io::Memory;
use mx_text::push_byte;
use mx_turn::{Counts, Cycled, Latches, Machine};
use std::alloc::{AllocError, Global};

/// What a run gave: whether it halted, its counts, its console, and the lines of its trace.
#[derive(Drop)]
pub struct Driven {
    pub halted: bool,
    pub counts: Counts,
    pub console: Vec<u8>,
    pub trace: Vec<u8>,
}

// Appends the line of a cycle, where it is one of those asked for. The machine is as the cycle left it. The latches are asked
// for only then, since they cost as much as the cycle.
fn push_line_if<M: Machine>(
    alloc: Global,
    text: &mut Vec<u8>,
    asked: bool,
    cycle: u32,
    cycled: &Cycled,
    machine: &M,
) -> Result<(), AllocError>
    ensures { OnOk result ((p : Program) (h : List Bool) → M.stands machine.now p h
        → text.new.items ≡ text.old.items ++ cond asked (trace_line cycle cycled.now (state_after p h).shown) []) }
{
    if asked {
        push_trace_line(alloc, text, cycle, cycled.stalled, &machine.latches())
    } else {
        Ok(())
    }
}

// What `drive` looks at: the lines of the first cycles.
#[derive(Drop)]
struct Tracer {
    alloc: Global,
    lines: u32,
}

// What it notes: the console, and the lines.
#[derive(Drop)]
struct Traced {
    console: Vec<u8>,
    text: Vec<u8>,
}

// Nothing yet.
fn nothing_traced(alloc: Global) -> Traced
    ensures console { result.console.items ≡ [] }
    ensures text { result.text.items ≡ [] }
{
    Traced {
        console: Vec::new(alloc),
        text: Vec::new(alloc),
    }
}

impl<M: Machine> Observer<M> for Tracer {
    type Notes = Traced;

    ghost saw = { λ tracer traced p requests n.
        (traced.console.items ≡ console_after p (bits requests n)) × (traced.text.items ≡ trace_text p requests (min tracer.lines n)) };

    ghost fits = { λ tracer traced n. Unit {0} };

    ghost enough = { λ tracer traced. false };

    fn has_enough(&self, _notes: &Traced) -> bool {
        false
    }

    fn cycle(
        &self,
        notes: &mut Traced,
        machine: &mut M,
        cycle: u32,
        request: bool,
    ) -> Result<Cycled, AllocError> {
        let cycled = machine.cycle(request);
        push_byte(&mut notes.console, cycled.byte)?;
        let asked = cycle < self.lines;
        push_line_if(self.alloc, &mut notes.text, asked, cycle, &cycled, machine)?;
        Ok(cycled)
    }

    fn advance(
        &self,
        notes: &mut Traced,
        machine: &mut M,
        cycle: u32,
        most: u32,
    ) -> Result<u32, AllocError> {
        if cycle < self.lines {
            return Ok(0);
        }
        let done = machine.advance(u64::from(most), &mut notes.console)?;
        Ok(done as u32)
    }
}

/// Runs a machine from its start: the cycles 0, 1 and so on, each with its request, until the machine halts or `budget`
/// cycles are done. The trace has the lines of the first `trace` cycles.
pub fn drive<M: Machine>(
    alloc: Global,
    machine: &mut M,
    requests: &Requests,
    budget: u32,
    trace: u32,
) -> Result<Driven, Memory>
    requires start { M.cycles machine.old ≡ 0 }
    ensures halted { IfOk result (λ d. (p : Program) → M.stands machine.old p [] → d.halted ≡ (run_of p requests.now budget).halted) }
    ensures counts { IfOk result (λ d. (p : Program) → M.stands machine.old p [] → d.counts ≡ (run_of p requests.now budget).counts) }
    ensures console { IfOk result (λ d. (p : Program) → M.stands machine.old p [] → d.console.items ≡ (run_of p requests.now budget).console) }
    ensures trace { IfOk result (λ d. (p : Program) → M.stands machine.old p [] → d.trace.items ≡ trace_text p requests.now (min trace budget)) }
    ensures stands { OnOk result
        ((p : Program) → M.stands machine.old p [] → (h : List Bool) × M.stands machine.new p h × (state_after p h ≡ (run_of p requests.now budget).last)) }
{
    let tracer = Tracer {
        alloc,
        lines: trace,
    };
    let mut traced = nothing_traced(alloc);
    let reached = match observe(machine, requests, 0, budget, &tracer, &mut traced) {
        Ok(reached) => reached,
        Err(_) => return Err(Memory),
    };
    Ok(Driven {
        halted: reached.halted,
        counts: machine.counts(),
        console: traced.console,
        trace: traced.text,
    })
}
