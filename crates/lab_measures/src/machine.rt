//! How the run of a machine stands.
ghost use Rattle.std.specs.Prelude.{◌≡◌, [], IfOk};
ghost use Rattle.mx_turn.specs.Program.{Program};
ghost use Rattle.mx_turn.specs.Run.{run_of};

use mx_board::Requests;
use mx_io::Memory;
use mx_report::{Driven, drive};
use mx_turn::Machine;
use std::alloc::Global;

/// The cycles of a run.
pub(crate) fn cycles_in(driven: &Driven) -> u64
    ensures { result ≡ driven.now.counts.cycles }
{
    driven.counts.cycles
}

/// The fetches of a run.
pub(crate) fn fetches_in(driven: &Driven) -> u64
    ensures { result ≡ driven.now.counts.fetches }
{
    driven.counts.fetches
}

/// The fetches of a run that missed.
pub(crate) fn misses_in(driven: &Driven) -> u64
    ensures { result ≡ driven.now.counts.misses }
{
    driven.counts.misses
}

/// The branches of a run that squashed their slots.
pub(crate) fn squashes_in(driven: &Driven) -> u64
    ensures { result ≡ driven.now.counts.squashes }
{
    driven.counts.squashes
}

/// Whether a run halted.
pub(crate) fn has_halted(driven: &Driven) -> bool
    ensures { result ≡ driven.now.halted }
{
    driven.halted
}

/// Whether a run halted, and its cycles.
#[derive(Clone, Copy)]
pub struct Ran {
    pub halted: bool,
    pub cycles: u64,
}

/// How the run of a machine stands after at most `budget` cycles, under these requests.
pub fn run_machine<M: Machine>(
    alloc: Global,
    machine: &mut M,
    requests: &Requests,
    budget: u32,
) -> Result<Ran, Memory>
    requires start { M.cycles machine.old ≡ 0 }
    ensures halted { IfOk result (λ r. (p : Program) → M.stands machine.old p [] → r.halted ≡ (run_of p requests.now budget).halted) }
    ensures cycles { IfOk result (λ r. (p : Program) → M.stands machine.old p [] → r.cycles ≡ (run_of p requests.now budget).counts.cycles) }
{
    let driven = drive(alloc, machine, requests, budget, 0)?;
    Ok(Ran {
        halted: has_halted(&driven),
        cycles: cycles_in(&driven),
    })
}
