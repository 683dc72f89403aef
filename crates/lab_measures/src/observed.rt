//! A run, and how its last request became an interrupt.
ghost use Rattle.std.specs.Prelude.{◌≡◌, ◌≤◌, ◌++◌, IfSome, IfNone, IfOk, ℕ, List, Bool, [], true, false, suc};
ghost use Rattle.mx_turn.specs.Program.{Program, state_after, answer_after};
ghost use Rattle.mx_turn.specs.Run.{is_requested, bits, console_after};
ghost use Rattle.lab_measures.specs.declared.observed.Progress.TheVariants.{Idle};
ghost use Rattle.lab_measures.specs.Entries.{Signals, IsEntry, signals_of};
ghost use Rattle.lab_measures.specs.Going.{ComesTo, IsTold};
ghost use Rattle.lab_measures.specs.Progress.{Reached, is_open, after_request, after_turn};

use mx_board::Requests;
use mx_io::Memory;
use mx_report::{Observer, observe};
use mx_text::push_byte;
use mx_turn::{Counts, Cycled, Machine, Stage};
use std::alloc::{AllocError, Global};

/// How a request became an interrupt.
#[derive(Clone, Copy)]
pub struct Entry {
    /// The cycle in which the interrupt is taken, the first being 0.
    pub taken: u64,
    /// The cycle in which the turn acts that fetches the first word of the handler.
    pub fetched: u64,
    /// What ALU held in the cycle in which it was taken, which is the first fetch that the handler brings back.
    pub killed: Stage,
}

/// What a run gave.
#[derive(Drop)]
pub struct Run {
    pub halted: bool,
    pub counts: Counts,
    pub console: Vec<u8>,
    /// How its last request became an interrupt, if it did.
    pub entry: Option<Entry>,
}

/// How far the last request has come.
#[derive(Clone, Copy)]
pub(crate) enum Progress {
    /// There was none.
    Idle,
    /// It is not taken yet.
    Waiting,
    /// It is taken, and the handler's first word is not fetched yet.
    Taken { cycle: u64, killed: Stage },
    /// The handler is entered.
    Entered(Entry),
}

impl Progress {
    // Where a request comes in the coming cycle, or not.
    fn asked(self, request: bool) -> Progress
        ensures { result ≡ after_request request self }
    {
        if request { Progress::Waiting } else { self }
    }

    // After a cycle, in which an interrupt was taken or not, and which was stalled or not; ALU then shows this stage.
    fn turned(self, cycle: u64, taken: bool, stalled: bool, alu: Stage) -> Progress
        ensures { result ≡ after_turn cycle taken stalled alu self }
    {
        match self {
            Progress::Waiting if taken => Progress::Taken { cycle, killed: alu },
            Progress::Taken {
                cycle: taken,
                killed,
            } if !stalled => Progress::Entered(Entry {
                taken,
                fetched: cycle,
                killed,
            }),
            other => other,
        }
    }

    // Whether the last request waits for its interrupt, or that for the handler.
    fn is_open(self) -> bool
        ensures { result ≡ is_open self }
    {
        matches!(self, Progress::Waiting | Progress::Taken { .. })
    }

    // How the last request became an interrupt, if it did and the handler was entered.
    fn entry(self) -> Option<Entry>
        ensures entry { (s : Signals) (n : ℕ) → Reached s n n self → IfSome result (IsEntry s n) }
        ensures none { (s : Signals) (n : ℕ) → Reached s n n self → IfNone result ((e : Entry) → IsEntry s n e → ⊥) }
    {
        match self {
            Progress::Entered(entry) => Some(entry),
            _ => None,
        }
    }
}

// What ALU shows after a cycle in which an interrupt was taken. Elsewhere it is not asked for, since it costs as much as the cycle.
fn killed_in<M: Machine>(machine: &M, taken: bool) -> Stage
    ensures { taken ≡ true → (p : Program) (h : List Bool) → M.stands machine.now p h → result ≡ (state_after p h).shown.alu }
{
    if taken {
        machine.latches().alu
    } else {
        Stage::Empty
    }
}

// How far the last request has come after one more cycle, which the machine has done.
fn progress_after<M: Machine>(
    before: Progress,
    machine: &M,
    cycle: u32,
    request: bool,
    cycled: &Cycled,
) -> Progress
    ensures { (p : Program) (requests : List ℕ) → request ≡ is_requested requests cycle
        → cycled.now ≡ answer_after p (bits requests cycle) (is_requested requests cycle) → M.stands machine.now p (bits requests (suc cycle))
        → Reached (signals_of p requests) cycle cycle before → Reached (signals_of p requests) (suc cycle) (suc cycle) result }
{
    let alu = killed_in(machine, cycled.taken);
    let asked = before.asked(request);
    asked.turned(u64::from(cycle), cycled.taken, cycled.stalled, alu)
}

// Who notes what a run sends behind the console that it had before, and how far its last request has come.
#[derive(Drop)]
pub(crate) struct Noter<'a> {
    pub before: &'a [u8],
}

// What it notes.
#[derive(Drop)]
pub(crate) struct Notes {
    pub console: Vec<u8>,
    pub progress: Progress,
}

impl<'a, M: Machine> Observer<M> for Noter<'a> {
    type Notes = Notes;

    ghost saw = { λ noter notes p requests n.
        (noter.before.now ++ notes.console.items ≡ console_after p (bits requests n)) × Reached (signals_of p requests) n n notes.progress };

    ghost fits = { λ noter notes n. Unit {0} };

    ghost enough = { λ noter notes. false };

    fn has_enough(&self, _notes: &Notes) -> bool {
        false
    }

    fn cycle(
        &self,
        notes: &mut Notes,
        machine: &mut M,
        cycle: u32,
        request: bool,
    ) -> Result<Cycled, AllocError> {
        let cycled = machine.cycle(request);
        push_byte(&mut notes.console, cycled.byte)?;
        notes.progress = progress_after(notes.progress, machine, cycle, request, &cycled);
        Ok(cycled)
    }

    fn advance(
        &self,
        notes: &mut Notes,
        machine: &mut M,
        _cycle: u32,
        most: u32,
    ) -> Result<u32, AllocError> {
        if notes.progress.is_open() {
            return Ok(0);
        }
        let done = machine.advance(u64::from(most), &mut notes.console)?;
        Ok(done as u32)
    }
}

/// Nothing yet.
pub(crate) fn no_notes(alloc: Global) -> Notes
    ensures console { result.console.items ≡ [] }
    ensures progress { result.progress ≡ Idle }
{
    Notes {
        console: Vec::new(alloc),
        progress: Progress::Idle,
    }
}

/// The run of a machine from a cycle on, before which no request came and this went to the console, under these requests, for at most
/// `budget` cycles in all. The console of the run that it answers begins behind that.
pub(crate) fn run_on<M: Machine>(
    alloc: Global,
    machine: &mut M,
    from: u32,
    before: &[u8],
    requests: &Requests,
    budget: u32,
) -> Result<Run, Memory>
    requires order { from ≤ budget }
    requires counted { M.cycles machine.old ≤ from }
    ensures { IfOk result (λ r. (p : Program) → M.stands machine.old p (bits requests.now from) → ComesTo p requests.now from before.now
        → IsTold p requests.now budget before.now r) }
{
    let noter = Noter { before };
    let mut notes = no_notes(alloc);
    let reached = match observe(machine, requests, from, budget, &noter, &mut notes) {
        Ok(reached) => reached,
        Err(_) => return Err(Memory),
    };
    let Notes { console, progress } = notes;
    Ok(Run {
        halted: reached.halted,
        counts: machine.counts(),
        console,
        entry: progress.entry(),
    })
}
