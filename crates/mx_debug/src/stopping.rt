//! Running a machine from stop to stop.
ghost use Rattle.std.specs.Prelude.{◌≡◌, ◌≤◌, ◌<◌, ◌+◌, ◌++◌, ◌∷◌, ◌^◌, ◌&&◌, ◌==◌, [], List, ℕ, Bool, OnOk, IfOk, cond, suc, length, map};
ghost use Rattle.std.specs.Int.{IsInRange};
ghost use Rattle.mx_isa.specs.declared.board.TheConstants.{DATA_BASE, DATA_END, LAST_ADDRESS};
ghost use Rattle.mx_turn.specs.Program.{Program, state_after, answer_after};
ghost use Rattle.mx_turn.specs.Run.{is_requested, bits, console_after};
ghost use Rattle.mx_debug.specs.Stops.{shows_live, goes_on, is_stop, stop_cycles, stop_with, stop_at};
ghost use Rattle.mx_debug.specs.declared.stop.Ending.TheVariants.{Stopped as WithLastStop, Halted, OutOfBudget};
ghost use Rattle.mx_debug.specs.Sessions.{session, stops_of, ending_of, console_of, last_of};

use crate::{Ending, Stop, Stopped};
use mx_board::Requests;
use mx_io::Memory;
use mx_report::{Observer, observe, registers_of};
use mx_text::push_byte;
use mx_turn::{Cycled, Machine, Stage};
use std::alloc::{AllocError, Global};

/// What is asked of a session: where to stop and how often, and which data word is watched.
#[derive(Clone, Copy)]
struct Asked {
    address: u32,
    limit: u32,
    watch: u32,
}

/// What a session has found so far.
#[derive(Drop)]
struct Found {
    stops: Vec<Stop>,
    console: Vec<u8>,
}

/// Whether a stage holds the fetch of this address, not squashed.
fn shows_live(address: u32, stage: Stage) -> bool
    ensures { result ≡ shows_live address stage }
{
    match stage {
        Stage::Live(at) => at == address,
        Stage::Empty | Stage::Squashed(_) => false,
    }
}

/// Whether the word in ALU takes effect in the next turn.
fn goes_on(cycled: &Cycled) -> bool
    ensures { result ≡ goes_on cycled.now }
{
    !cycled.stalled && !cycled.taken && !cycled.halted
}

/// Whether the word at the address is about to take effect, after a cycle with this answer. The latches are asked for only
/// where they can tell.
fn is_at<M: Machine>(machine: &M, cycled: &Cycled, address: u32) -> bool
    ensures { (p : Program) (h : List Bool) → M.stands machine.now p h
        → result ≡ (goes_on cycled.now && shows_live address (state_after p h).shown.alu) }
{
    goes_on(cycled) && shows_live(address, machine.latches().alu)
}

/// What is told of a stop.
fn stop_of<M: Machine>(machine: &M, cycle: u32, bytes: u32, watch: u32) -> Stop
    requires { watch < DATA_END }
    ensures { (p : Program) (h : List Bool) → M.stands machine.now p h
        → result ≡ stop_with cycle bytes watch (state_after p h).core }
{
    Stop {
        cycle,
        bytes,
        registers: registers_of(machine),
        md: machine.md(),
        word: machine.user_data(watch),
    }
}

/// Adds the stop of a cycle, where it is one. The machine is as the cycle left it.
fn push_if_stop<M: Machine>(
    machine: &M,
    cycled: &Cycled,
    cycle: u32,
    asked: &Asked,
    found: &mut Found,
) -> Result<(), AllocError>
    requires watch { asked.now.watch < DATA_END }
    requires short { length found.old.console.items < 2 ^ 32 }
    ensures console { OnOk result (found.new.console.items ≡ found.old.console.items) }
    ensures few { OnOk result (length found.new.stops.items ≤ length found.old.stops.items + 1) }
    ensures stops { OnOk result ((p : Program) (h : List Bool) → M.stands machine.now p h
        → found.new.stops.items ≡ found.old.stops.items ++ cond (goes_on cycled.now && shows_live asked.now.address (state_after p h).shown.alu)
        (stop_with cycle (length found.old.console.items) asked.now.watch (state_after p h).core ∷ []) []) }
{
    if is_at(machine, cycled, asked.address) {
        let bytes = found.console.len() as u32;
        found
            .stops
            .push(stop_of(machine, cycle, bytes, asked.watch))?;
    }
    Ok(())
}

/// One cycle, the first being 0: its byte, and a stop where it is one.
fn find_stop<M: Machine>(
    machine: &mut M,
    cycle: u32,
    request: bool,
    asked: &Asked,
    found: &mut Found,
) -> Result<Cycled, AllocError>
    requires counted { M.cycles machine.old < 2 ^ 63 }
    requires watch { asked.now.watch < DATA_END }
    requires last { cycle + 1 < 2 ^ 32 }
    requires short { length found.old.console.items ≤ cycle }
    ensures answer { IfOk result (λ cycled. (p : Program) (h : List Bool) → M.stands machine.old p h → cycled ≡ answer_after p h request) }
    ensures next { OnOk result ((p : Program) (h : List Bool) → M.stands machine.old p h → M.stands machine.new p (h ++ request ∷ [])) }
    ensures console { OnOk result ((p : Program) (requests : List ℕ) → request ≡ is_requested requests cycle → M.stands machine.old p (bits requests cycle)
        → found.old.console.items ≡ console_after p (bits requests cycle) → found.new.console.items ≡ console_after p (bits requests (suc cycle))) }
    ensures stops { OnOk result ((p : Program) (requests : List ℕ) → request ≡ is_requested requests cycle → M.stands machine.old p (bits requests cycle)
        → found.old.console.items ≡ console_after p (bits requests cycle)
        → found.old.stops.items ≡ map (stop_at p requests asked.now.watch) (stop_cycles p requests asked.now.address cycle)
        → found.new.stops.items ≡ map (stop_at p requests asked.now.watch) (stop_cycles p requests asked.now.address (suc cycle))) }
    ensures short { OnOk result (length found.new.console.items ≤ suc cycle) }
    ensures few { OnOk result (length found.new.stops.items ≤ length found.old.stops.items + 1) }
    ensures cycles { OnOk result (M.cycles machine.new ≤ M.cycles machine.old + 1) }
{
    let cycled = machine.cycle(request);
    push_byte(&mut found.console, cycled.byte)?;
    push_if_stop(machine, &cycled, cycle, asked, found)?;
    Ok(cycled)
}

/// Whether there are as many stops as asked for.
fn is_enough(asked: &Asked, found: &Found) -> bool
    ensures { result ≡ (length found.now.stops.items == asked.now.limit) }
{
    found.stops.len() == asked.limit as usize
}

impl<M: Machine> Observer<M> for Asked {
    type Notes = Found;

    ghost saw = { λ asked found p requests n.
        (found.console.items ≡ console_after p (bits requests n))
        × (found.stops.items ≡ map (stop_at p requests asked.watch) (stop_cycles p requests asked.address n))
        × ((k : ℕ) → k < n → length (stop_cycles p requests asked.address k) < asked.limit) };

    ghost fits = { λ asked found n.
        (asked.watch < DATA_END) × (length found.console.items ≤ n) × (length found.stops.items ≤ asked.limit) };

    ghost enough = { λ asked found. length found.stops.items == asked.limit };

    fn has_enough(&self, notes: &Found) -> bool {
        is_enough(self, notes)
    }

    fn cycle(
        &self,
        notes: &mut Found,
        machine: &mut M,
        cycle: u32,
        request: bool,
    ) -> Result<Cycled, AllocError> {
        let cycled = find_stop(machine, cycle, request, self, notes)?;
        Ok(cycled)
    }
}

/// How a session ends.
fn ending_at(halted: bool, stopped: bool) -> Ending
    ensures { result ≡ cond halted Halted (cond stopped WithLastStop OutOfBudget) }
{
    if halted {
        Ending::Halted
    } else if stopped {
        Ending::Stopped
    } else {
        Ending::OutOfBudget
    }
}

/// Before the first cycle.
fn nothing_found(alloc: Global) -> Found
    ensures stops { result.stops.items ≡ [] }
    ensures console { result.console.items ≡ [] }
{
    Found {
        stops: Vec::new(alloc),
        console: Vec::new(alloc),
    }
}

/// Runs a machine from its start, with its requests, and tells each of its stops: the cycles after which the word at
/// `address` is about to take effect, as the sequential meaning is about to begin the block that it belongs to. A word that
/// an interrupt kills or a branch squashes is none, and a stalled cycle tells nothing again. The session ends at the
/// `limit`-th stop, at a halt, or when `budget` cycles are done. `word` of a stop is the data word `watch`.
pub fn stops<M: Machine>(
    alloc: Global,
    machine: &mut M,
    address: u32,
    limit: u32,
    watch: u32,
    requests: &Requests,
    budget: u32,
) -> Result<Stopped, Memory>
    requires start { M.cycles machine.old ≡ 0 }
    requires address { address < 2 ^ 31 }
    requires limit { IsInRange 1 1000 limit }
    requires watch { IsInRange DATA_BASE LAST_ADDRESS watch }
    requires budget { budget ≤ 100000000 }
    ensures stops { IfOk result
        (λ s. (p : Program) → M.stands machine.old p [] → s.stops.items ≡ stops_of (session p requests.now address limit watch budget)) }
    ensures console { IfOk result
        (λ s. (p : Program) → M.stands machine.old p [] → s.console.items ≡ console_of (session p requests.now address limit watch budget)) }
    ensures ending { IfOk result (λ s. (p : Program) → M.stands machine.old p [] → s.ending ≡ ending_of (session p requests.now address limit watch budget)) }
    ensures stands { OnOk result ((p : Program) → M.stands machine.old p [] → (h : List Bool) × M.stands machine.new p h
        × (state_after p h ≡ last_of (session p requests.now address limit watch budget))) }
{
    let asked = Asked {
        address,
        limit,
        watch,
    };
    let mut found = nothing_found(alloc);
    let reached = match observe(machine, requests, 0, budget, &asked, &mut found) {
        Ok(reached) => reached,
        Err(_) => return Err(Memory),
    };
    let stopped = is_enough(&asked, &found);
    Ok(Stopped {
        stops: found.stops,
        console: found.console,
        ending: ending_at(reached.halted, stopped),
    })
}
