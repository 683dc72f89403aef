//! Runs under an observer.
ghost use Rattle.std.specs.Prelude.{◌≡◌, ◌≤◌, ◌<◌, ◌+◌, ◌-◌, ◌^◌, List, ℕ, Bool, true, false, OnOk, IfOk, suc, min};
ghost use Rattle.std.specs.List.Sorted.{IsStrictlyIncreasing};
ghost use Rattle.mx_turn.specs.Program.{Program, state_after};
ghost use Rattle.mx_turn.specs.Run.{bits};
ghost use Rattle.mx_report.specs.Cursor.{IsAt};

use crate::cursor::Cursor;
use mx_board::Requests;
use mx_turn::{Cycled, Machine};
use std::alloc::AllocError;

/// Who looks at the cycles of a run: it has each of them done, and notes what it wants to know of it.
pub trait Observer<M: Machine> {
    ghost use Rattle.std.specs.Prelude.{◌≡◌, ◌≤◌, ◌<◌, ◌+◌, ◌^◌, ℕ, suc, Bool, false, List, [], ◌∷◌, ◌++◌, OnOk, IfOk};
    ghost use Rattle.mx_turn.specs.Program.{Program, state_after, answer_after, quiet};
    ghost use Rattle.mx_turn.specs.Run.{is_requested, bits};

    /// What it notes.
    type Notes;

    /// The notes are those of the first so many cycles of a program's run with these requests.
    ghost saw: { Self → Self.Notes → Program → List ℕ → ℕ → Type 0 };

    /// The notes take no more room than so many cycles bring.
    ghost fits: { Self → Self.Notes → ℕ → Type 0 };

    /// It has seen what it looks for.
    ghost enough: { Self → Self.Notes → Bool };

    /// Whether it has seen what it looks for, so that the run ends.
    fn has_enough(&self, notes: &Self::Notes) -> bool
        ensures { result ≡ enough self.now notes.now };

    /// One cycle of the machine, the first of a run being 0, in which a request arrives or not: it is done and noted.
    fn cycle(
        &self,
        notes: &mut Self::Notes,
        machine: &mut M,
        cycle: u32,
        request: bool,
    ) -> Result<Cycled, AllocError>
        requires counted { M.cycles machine.old ≤ cycle }
        requires last { cycle + 1 < 2 ^ 32 }
        requires fits { fits self.now notes.old cycle }
        requires more { enough self.now notes.old ≡ false }
        ensures answer { IfOk result (λ cycled. (p : Program) (h : List Bool) → M.stands machine.old p h → cycled ≡ answer_after p h request) }
        ensures next { OnOk result ((p : Program) (h : List Bool) → M.stands machine.old p h → M.stands machine.new p (h ++ request ∷ [])) }
        ensures cycles { OnOk result (M.cycles machine.new ≤ M.cycles machine.old + 1) }
        ensures fits { OnOk result (fits self.now notes.new (suc cycle)) }
        ensures saw { OnOk result ((p : Program) (requests : List ℕ) → request ≡ is_requested requests cycle
            → M.stands machine.old p (bits requests cycle) → (state_after p (bits requests cycle)).halted ≡ false
            → saw self.now notes.old p requests cycle → saw self.now notes.new p requests (suc cycle)) };

    /// As many cycles without a request as the machine does at once, at most `most`, where it wants to see none of them. It
    /// answers how many they are: 0 is always right.
    fn advance(
        &self,
        notes: &mut Self::Notes,
        machine: &mut M,
        cycle: u32,
        most: u32,
    ) -> Result<u32, AllocError>
        requires counted { M.cycles machine.old ≤ cycle }
        requires last { cycle + most < 2 ^ 32 }
        requires fits { fits self.now notes.old cycle }
        requires more { enough self.now notes.old ≡ false }
        ensures most { IfOk result (λ n. n ≤ most) }
        ensures next { IfOk result (λ n. (p : Program) (h : List Bool) → M.stands machine.old p h → M.stands machine.new p (quiet h n)) }
        ensures going { IfOk result (λ n. (p : Program) (h : List Bool) → M.stands machine.old p h
            → (state_after p h).halted ≡ false → (state_after p (quiet h n)).halted ≡ false) }
        ensures cycles { IfOk result (λ n. M.cycles machine.new ≤ M.cycles machine.old + n) }
        ensures more { OnOk result (enough self.now notes.new ≡ false) }
        ensures fits { IfOk result (λ n. fits self.now notes.new (n + cycle)) }
        ensures saw { IfOk result (λ n. (p : Program) (requests : List ℕ) → bits requests (n + cycle) ≡ quiet (bits requests cycle) n
            → M.stands machine.old p (bits requests cycle) → (state_after p (bits requests cycle)).halted ≡ false
            → saw self.now notes.old p requests cycle → saw self.now notes.new p requests (n + cycle)) }
    {
        Ok(0)
    }
}

/// Where a run ended: after how many cycles, and whether the machine has halted.
#[derive(Clone, Copy, Debug, PartialEq, Eq)]
pub struct Reached {
    pub cycles: u32,
    pub halted: bool,
}

// How many cycles come before the next request, where one more is left of the run.
fn cycles_until(cursor: &Cursor, cycle: u32, to: u32) -> u32
    requires { cycle < to }
    ensures { result ≡ min cursor.now.next (to - 1) - cycle }
{
    let until = cursor.next.min(u64::from(to - 1));
    until.saturating_sub(u64::from(cycle)) as u32
}

// Goes on at once as far as no request comes, with one cycle of the run left. Answers the cycle that comes next.
fn run_ahead<M: Machine, O: Observer<M>>(
    machine: &mut M,
    cursor: &Cursor,
    list: &[u32],
    cycle: u32,
    to: u32,
    observer: &O,
    notes: &mut O::Notes,
) -> Result<u32, AllocError>
    requires budget { cycle < to }
    requires cycles { M.cycles machine.old ≤ cycle }
    requires ascending { IsStrictlyIncreasing list.now }
    requires before { IsAt list.now cursor.now cycle }
    requires fits { O.fits observer.now notes.old cycle }
    requires more { O.enough observer.now notes.old ≡ false }
    ensures onward { IfOk result (λ next. cycle ≤ next) }
    ensures budget { IfOk result (λ next. next < to) }
    ensures cycles { IfOk result (λ next. M.cycles machine.new ≤ next) }
    ensures after { IfOk result (λ next. IsAt list.now cursor.now next) }
    ensures stands { IfOk result (λ next. (p : Program) → M.stands machine.old p (bits list.now cycle) → M.stands machine.new p (bits list.now next)) }
    ensures going { IfOk result (λ next. (p : Program) → M.stands machine.old p (bits list.now cycle)
        → (state_after p (bits list.now cycle)).halted ≡ false → (state_after p (bits list.now next)).halted ≡ false) }
    ensures fits { IfOk result (λ next. O.fits observer.now notes.new next) }
    ensures more { OnOk result (O.enough observer.now notes.new ≡ false) }
    ensures saw { IfOk result (λ next. (p : Program) → M.stands machine.old p (bits list.now cycle)
        → (state_after p (bits list.now cycle)).halted ≡ false
        → O.saw observer.now notes.old p list.now cycle → O.saw observer.now notes.new p list.now next) }
{
    let quiet = cycles_until(cursor, cycle, to);
    let done = observer.advance(notes, machine, cycle, quiet)?;
    Ok(done + cycle)
}

// One cycle with its request. Answers whether the machine has halted.
fn run_cycle<M: Machine, O: Observer<M>>(
    machine: &mut M,
    cursor: &mut Cursor,
    list: &[u32],
    cycle: u32,
    observer: &O,
    notes: &mut O::Notes,
) -> Result<bool, AllocError>
    requires cycles { M.cycles machine.old ≤ cycle }
    requires last { cycle + 1 < 2 ^ 32 }
    requires ascending { IsStrictlyIncreasing list.now }
    requires before { IsAt list.now cursor.old cycle }
    requires fits { O.fits observer.now notes.old cycle }
    requires more { O.enough observer.now notes.old ≡ false }
    ensures after { OnOk result (IsAt list.now cursor.new (suc cycle)) }
    ensures halted { IfOk result
        (λ halted. (p : Program) → M.stands machine.old p (bits list.now cycle) → halted ≡ (state_after p (bits list.now (suc cycle))).halted) }
    ensures stands { OnOk result ((p : Program) → M.stands machine.old p (bits list.now cycle) → M.stands machine.new p (bits list.now (suc cycle))) }
    ensures cycles { OnOk result (M.cycles machine.new ≤ M.cycles machine.old + 1) }
    ensures fits { OnOk result (O.fits observer.now notes.new (suc cycle)) }
    ensures saw { OnOk result ((p : Program) → M.stands machine.old p (bits list.now cycle) → (state_after p (bits list.now cycle)).halted ≡ false
        → O.saw observer.now notes.old p list.now cycle → O.saw observer.now notes.new p list.now (suc cycle)) }
{
    let request = cursor.comes(list, cycle);
    let cycled = observer.cycle(notes, machine, cycle, request)?;
    Ok(cycled.halted)
}

/// Runs the cycles of a machine from one on, each with its request, until the machine halts, the observer has seen enough,
/// or so many cycles of all are done. The observer has not seen enough before.
pub fn observe<M: Machine, O: Observer<M>>(
    machine: &mut M,
    requests: &Requests,
    from: u32,
    to: u32,
    observer: &O,
    notes: &mut O::Notes,
) -> Result<Reached, AllocError>
    requires order { from ≤ to }
    requires cycles { M.cycles machine.old ≤ from }
    requires fits { O.fits observer.now notes.old from }
    requires more { O.enough observer.now notes.old ≡ false }
    ensures onward { IfOk result (λ r. from ≤ r.cycles) }
    ensures within { IfOk result (λ r. r.cycles ≤ to) }
    ensures cycles { IfOk result (λ r. M.cycles machine.new ≤ r.cycles) }
    ensures fits { IfOk result (λ r. O.fits observer.now notes.new r.cycles) }
    ensures whole { IfOk result (λ r. r.halted ≡ false → O.enough observer.now notes.new ≡ false → r.cycles ≡ to) }
    ensures halted { IfOk result (λ r. (p : Program) → M.stands machine.old p (bits requests.now from)
        → (state_after p (bits requests.now from)).halted ≡ false → r.halted ≡ (state_after p (bits requests.now r.cycles)).halted) }
    ensures going { IfOk result (λ r. (p : Program) → M.stands machine.old p (bits requests.now from)
        → (state_after p (bits requests.now from)).halted ≡ false
        → (n : ℕ) → n < r.cycles → (state_after p (bits requests.now n)).halted ≡ false) }
    ensures last { IfOk result (λ r. O.enough observer.now notes.new ≡ false → (p : Program) → M.stands machine.old p (bits requests.now from)
        → (state_after p (bits requests.now from)).halted ≡ false
        → state_after p (bits requests.now r.cycles) ≡ state_after p (bits requests.now to)) }
    ensures stands { IfOk result (λ r. (p : Program) → M.stands machine.old p (bits requests.now from)
        → (state_after p (bits requests.now from)).halted ≡ false → M.stands machine.new p (bits requests.now r.cycles)) }
    ensures saw { IfOk result (λ r. (p : Program) → M.stands machine.old p (bits requests.now from)
        → (state_after p (bits requests.now from)).halted ≡ false
        → O.saw observer.now notes.old p requests.now from → O.saw observer.now notes.new p requests.now r.cycles) }
{
    let list = requests.list();
    let mut cursor = Cursor::at(list, from);
    let mut cycle = from;
    while cycle < to {
        cycle = run_ahead(machine, &cursor, list, cycle, to, observer, notes)?;
        let halted = run_cycle(machine, &mut cursor, list, cycle, observer, notes)?;
        cycle += 1;
        if halted {
            return Ok(Reached {
                cycles: cycle,
                halted: true,
            });
        }
        if observer.has_enough(notes) {
            return Ok(Reached {
                cycles: cycle,
                halted: false,
            });
        }
    }
    Ok(Reached {
        cycles: to,
        halted: false,
    })
}
