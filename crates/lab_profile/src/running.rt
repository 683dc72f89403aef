//! A run with its tally.
ghost use Rattle.std.specs.Prelude.{◌≡◌, ◌≤◌, ◌<◌, ◌+◌, ◌*◌, ◌^◌, ◌++◌, ◌∷◌, [], suc, List, ℕ, Bool, false, OnOk, IfOk};
ghost use Rattle.mx_turn.specs.Program.{Program, state_after, answer_after};
ghost use Rattle.mx_turn.specs.Run.{is_requested, bits};
ghost use Rattle.lab_profile.specs.Charges.{waiting, squasher};
ghost use Rattle.lab_profile.specs.Tallies.{HasPlaces, IsBelow, IsTally, IsProfile};

use crate::tally::{Profile, Tally, squashed_between, squasher_after};
use mx_board::Requests;
use mx_io::Memory;
use mx_report::{Observer, observe};
use mx_turn::{Cycled, Machine};
use std::alloc::{AllocError, Global};

/// Who charges each cycle to a place of a code of so many words.
#[derive(Drop)]
struct Charger {
    words: usize,
}

/// How a run stands after some cycles.
#[derive(Drop)]
struct Progress {
    tally: Tally,
    /// The cycles since the last fetch.
    waiting: u64,
    /// The place of the branch that squashed last.
    squasher: usize,
}

/// One cycle, the first being 0, with what is charged for it.
fn charge_cycle<M: Machine>(
    machine: &mut M,
    words: usize,
    cycle: u32,
    request: bool,
    progress: &mut Progress,
) -> Cycled
    requires cycles { M.cycles machine.old < 2 ^ 62 }
    requires words { words < 2 ^ 32 }
    requires sizes { HasPlaces words progress.old.tally }
    requires small { IsBelow (cycle * 2 ^ 32) progress.old.tally }
    requires waiting { progress.old.waiting ≤ cycle }
    requires squasher { progress.old.squasher < words + 2 }
    requires last { cycle + 1 < 2 ^ 32 }
    ensures sizes { HasPlaces words progress.new.tally }
    ensures small { IsBelow (suc cycle * 2 ^ 32) progress.new.tally }
    ensures waiting { progress.new.waiting ≤ suc cycle }
    ensures squasher { progress.new.squasher < words + 2 }
    ensures answer { (p : Program) (h : List Bool) → M.stands machine.old p h → result ≡ answer_after p h request }
    ensures next { (p : Program) (h : List Bool) → M.stands machine.old p h → M.stands machine.new p (h ++ request ∷ []) }
    ensures cycles { M.cycles machine.new ≤ M.cycles machine.old + 1 }
    ensures tally { (p : Program) (requests : List ℕ) → request ≡ is_requested requests cycle → M.stands machine.old p (bits requests cycle)
        → (state_after p (bits requests cycle)).halted ≡ false
        → IsTally p requests words cycle progress.old.tally → progress.old.waiting ≡ waiting p requests words cycle
        → progress.old.squasher ≡ squasher p requests words cycle
        → IsTally p requests words (suc cycle) progress.new.tally }
    ensures still_waiting { (p : Program) (requests : List ℕ) → request ≡ is_requested requests cycle → M.stands machine.old p (bits requests cycle)
        → (state_after p (bits requests cycle)).halted ≡ false
        → progress.old.waiting ≡ waiting p requests words cycle → progress.new.waiting ≡ waiting p requests words (suc cycle) }
    ensures last_squasher { (p : Program) (requests : List ℕ) → request ≡ is_requested requests cycle → M.stands machine.old p (bits requests cycle)
        → (state_after p (bits requests cycle)).halted ≡ false
        → progress.old.squasher ≡ squasher p requests words cycle → progress.new.squasher ≡ squasher p requests words (suc cycle) }
{
    let before = machine.counts();
    let cycled = machine.cycle(request);
    if cycled.stalled {
        progress.waiting += 1;
        return cycled;
    }
    let squashed = squashed_between(&before, &machine.counts());
    let took = progress.waiting + 1;
    let shown = machine.latches();
    let branch = progress.squasher;
    progress.tally.charge(words, took, squashed, branch, &shown);
    progress.squasher = squasher_after(words, squashed, shown.alu, branch);
    progress.waiting = 0;
    cycled
}

impl<M: Machine> Observer<M> for Charger {
    type Notes = Progress;

    ghost saw = { λ charger progress p requests n.
        IsTally p requests charger.words n progress.tally × (progress.waiting ≡ waiting p requests charger.words n)
        × (progress.squasher ≡ squasher p requests charger.words n) };

    ghost fits = { λ charger progress n.
        (charger.words < 2 ^ 32) × HasPlaces charger.words progress.tally × IsBelow (n * 2 ^ 32) progress.tally × (progress.waiting ≤ n)
        × (progress.squasher < charger.words + 2) };

    ghost enough = { λ charger progress. false };

    fn has_enough(&self, _notes: &Progress) -> bool {
        false
    }

    fn cycle(
        &self,
        notes: &mut Progress,
        machine: &mut M,
        cycle: u32,
        request: bool,
    ) -> Result<Cycled, AllocError> {
        let cycled = charge_cycle(machine, self.words, cycle, request, notes);
        Ok(cycled)
    }
}

/// Runs a machine from its start, as `drive` does, until it halts or `budget` cycles are done, and tells what each place of
/// a code of so many words cost.
pub fn profile<M: Machine>(
    alloc: Global,
    machine: &mut M,
    words: usize,
    requests: &Requests,
    budget: u32,
) -> Result<Profile, Memory>
    requires start { M.cycles machine.old ≡ 0 }
    requires words { words < 2 ^ 32 }
    ensures sizes { IfOk result (λ r. HasPlaces words r.tally) }
    ensures profile { IfOk result (λ r. (p : Program) → M.stands machine.old p [] → IsProfile p requests.now words budget r) }
{
    let Ok(tally) = Tally::new(alloc, words) else {
        return Err(Memory);
    };
    let charger = Charger { words };
    let mut progress = Progress {
        tally,
        waiting: 0,
        squasher: words + 1,
    };
    let reached = match observe(machine, requests, 0, budget, &charger, &mut progress) {
        Ok(reached) => reached,
        Err(_) => return Err(Memory),
    };
    let Progress { tally, waiting, .. } = progress;
    Ok(Profile {
        tally,
        waiting,
        counts: machine.counts(),
        halted: reached.halted,
    })
}
