//! A run with many caches.
ghost use Rattle.std.specs.Prelude.{◌≡◌, ◌≤◌, ◌<◌, ◌+◌, ◌^◌, ◌∷◌, ◌++◌, [], ℕ, List, Bool, Some, IfOk, OnOk, length, map, slice_get, false};
ghost use Rattle.mx_turn.specs.Program.{Program, state_after, answer_after};
ghost use Rattle.mx_turn.specs.Run.{run_of};
ghost use Rattle.lab_terms.specs.declared.geometry.Geometry.{Geometry};
ghost use Rattle.lab_cache.specs.declared.all.Counted.{Counted};
ghost use Rattle.lab_cache.specs.All.{AreCaches, AllHold};
ghost use Rattle.lab_caches.specs.Fetched.{fetches_of, address_in};
ghost use Rattle.lab_caches.specs.Rows.{row_over, row_for, IsStudy};

use lab_cache::{AllCaches, Counted};
use lab_terms::Geometry;
use mx_board::Requests;
use mx_io::Memory;
use mx_turn::{Counts, Cycled, Machine, Stage};
use std::alloc::{AllocError, Global};

/// What a cache makes of a run.
#[derive(Clone, Copy)]
pub struct CacheRow {
    pub geometry: Geometry,
    pub misses: u64,
    pub cycles: u64,
}

/// A run, and what each cache makes of it.
#[derive(Drop)]
pub struct Study {
    /// What the machine counted with its own cache.
    pub counts: Counts,
    pub halted: bool,
    pub rows: Vec<CacheRow>,
}

// Has each cache fetch the address in a stage, if it holds a fetch.
fn fetch_in(all: &mut AllCaches, stage: Stage)
    ensures { (gs : List Geometry) (past : List ℕ) → AllHold all.old.groups.items gs past
        → AllHold all.new.groups.items gs (address_in stage ++ past) }
{
    if let Stage::Live(address) | Stage::Squashed(address) = stage {
        all.fetch(address);
    }
}

// One cycle of a machine. Each cache fetches what a turn fetches that ends with it.
fn cycle_with<M: Machine>(machine: &mut M, request: bool, all: &mut AllCaches) -> Cycled
    requires { M.cycles machine.old < 2 ^ 63 }
    ensures answer { (p : Program) (h : List Bool) → M.stands machine.old p h → result ≡ answer_after p h request }
    ensures next { (p : Program) (h : List Bool) → M.stands machine.old p h → M.stands machine.new p (h ++ request ∷ []) }
    ensures cycles { M.cycles machine.new ≤ M.cycles machine.old + 1 }
    ensures fetched { (p : Program) (h : List Bool) (gs : List Geometry) → M.stands machine.old p h → (state_after p h).halted ≡ false
        → AllHold all.old.groups.items gs (state_after p h).past
        → AllHold all.new.groups.items gs (state_after p (h ++ request ∷ [])).past }
{
    let cycled = machine.cycle(request);
    if !cycled.stalled {
        fetch_in(all, machine.latches().fetch);
    }
    cycled
}

// Runs a machine until it halts or the budget is spent, and has each cache fetch what it fetches; answers whether it halted.
fn run<M: Machine>(machine: &mut M, requests: &Requests, budget: u32, all: &mut AllCaches) -> bool
    requires { M.cycles machine.old ≡ 0 }
    ensures halted { (p : Program) → M.stands machine.old p [] → result ≡ (run_of p requests.now budget).halted }
    ensures stands { (p : Program) → M.stands machine.old p []
        → (h : List Bool) × M.stands machine.new p h × (state_after p h ≡ (run_of p requests.now budget).last) }
    ensures fetched { (p : Program) (gs : List Geometry) → M.stands machine.old p [] → AllHold all.old.groups.items gs []
        → AllHold all.new.groups.items gs (fetches_of p requests.now budget) }
{
    for cycle in 0..budget {
        if cycle_with(machine, requests.wants(cycle), all).halted {
            return true;
        }
    }
    false
}

// What a cache makes of a run with so many fetches.
fn row_of(counted: Counted, fetches: u64) -> CacheRow
    ensures row { result ≡ row_for fetches counted }
    ensures small { counted.geometry.penalty < 2 ^ 32 }
{
    CacheRow {
        geometry: counted.geometry,
        misses: counted.misses,
        cycles: counted.geometry.cycles(fetches, counted.misses),
    }
}

// What each cache makes of a run with so many fetches.
fn rows_of(alloc: Global, all: &[Counted], fetches: u64) -> Result<Vec<CacheRow>, AllocError>
    ensures rows { IfOk result (λ rows. rows.items ≡ map (row_for fetches) all.now) }
    ensures small { OnOk result ((k : ℕ) (c : Counted) → slice_get all.now k ≡ Some c → c.geometry.penalty < 2 ^ 32) }
{
    let mut rows = Vec::new(alloc);
    for counted in all {
        rows.push(row_of(*counted, fetches))?;
    }
    Ok(rows)
}

// What caches that have fetched what a run did make of it.
fn ended_rows(alloc: Global, all: &mut AllCaches, fetches: u64) -> Result<Vec<CacheRow>, AllocError>
    ensures { IfOk result (λ rows. (gs : List Geometry) (past : List ℕ) → length past ≡ fetches → fetches < 2 ^ 32
        → AllHold all.old.groups.items gs past → rows.items ≡ map (row_over past) gs) }
{
    let counted = all.counted(alloc)?;
    let rows = rows_of(alloc, counted.as_slice(), fetches)?;
    Ok(rows)
}

// Runs a machine from its start, and has these caches fetch what it fetches.
fn study_with<M: Machine>(
    alloc: Global,
    machine: &mut M,
    budget: u32,
    all: &mut AllCaches,
) -> Result<Study, Memory>
    requires { M.cycles machine.old ≡ 0 }
    ensures { IfOk result (λ study. (p : Program) (gs : List Geometry) → M.stands machine.old p []
        → (AreCaches gs → AllHold all.old.groups.items gs []) → IsStudy p budget gs study) }
{
    let halted = run(machine, &Requests::none(alloc), budget, all);
    let counts = machine.counts();
    match ended_rows(alloc, all, counts.fetches) {
        Ok(rows) => Ok(Study {
            counts,
            halted,
            rows,
        }),
        Err(_) => Err(Memory),
    }
}

/// Runs a machine from its start without requests, until it halts or the budget is spent, and has each of these caches fetch
/// what it fetches: that is the same whatever its cache answers, since a stall only delays.
pub fn study_of<M: Machine>(
    alloc: Global,
    machine: &mut M,
    budget: u32,
    geometries: &[Geometry],
) -> Result<Study, Memory>
    requires { M.cycles machine.old ≡ 0 }
    ensures { IfOk result (λ study. (p : Program) → M.stands machine.old p [] → IsStudy p budget geometries.now study) }
{
    match AllCaches::new(alloc, geometries) {
        Ok(mut all) => study_with(alloc, machine, budget, &mut all),
        Err(_) => Err(Memory),
    }
}
