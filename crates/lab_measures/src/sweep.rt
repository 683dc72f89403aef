//! Runs with a request in each of some cycles in turn.
ghost use Rattle.std.specs.Prelude.{◌≡◌, ◌<◌, ◌≤◌, true, ◌∷◌, ◌++◌, [], All, OnOk, IfOk, IfSome, None, if◌then◌else◌, cond, ltb, map};
ghost use Rattle.std.specs.Option.{option_to_list};
ghost use Rattle.mx_board.specs.Contents.{IsInput};
ghost use Rattle.lab_measures.specs.Rows.{cost_over};
ghost use Rattle.lab_measures.specs.Spans.{pairs_with, rising_pairs};
ghost use Rattle.lab_measures.specs.Forward.{ComesFor};
ghost use Rattle.lab_measures.specs.Sweeps.{IsRowOf, requests_of, firsts};

use crate::cycles::Span;
use crate::forward::Forward;
use crate::row::Row;
use lab_watch::Watcher;
use mx_board::Requests;
use mx_code::Image;
use mx_io::Memory;
use std::alloc::Global;

/// The cycles between two tellings.
const TOLD_EACH: u64 = 5_000_000;

/// Runs of a source, each with a request in one cycle of a span, or in two.
#[derive(Drop)]
pub struct Sweep {
    /// The cycles of the undisturbed run, and whether it halted within its budget.
    pub cycles: u64,
    pub halted: bool,
    pub span: Span,
    /// Whether each run has two requests.
    pub is_pairs: bool,
    pub rows: Vec<Row>,
}

impl Sweep {
    /// How many cycles more than the undisturbed run a run takes, where both halt.
    pub fn cost(&self, row: &Row) -> Option<i64>
        ensures { result ≡ if self.now.halted then cost_over row.now self.now.cycles else None }
    {
        if self.halted {
            row.cost(self.cycles)
        } else {
            None
        }
    }
}

/// What a sweep runs again and again: an image with its input, if it has one, for a budget of cycles, with requests in some
/// cycles, beside the console of the undisturbed run.
#[derive(Clone, Copy)]
pub struct Swept<'a> {
    pub image: &'a Image,
    pub input: Option<&'a [u8]>,
    pub budget: u32,
    pub undisturbed: &'a [u8],
    pub cycles: &'a [u32],
}

// Who is told how many cycles all runs together have come.
#[derive(Drop)]
struct Progress<W> {
    watcher: W,
    done: u64,
    told: u64,
}

impl<W: Watcher> Progress<W> {
    // Before the first run.
    fn new(watcher: W) -> Progress<W> {
        Progress {
            watcher,
            done: 0,
            told: 0,
        }
    }

    // A run has ended after so many cycles.
    fn add(&mut self, cycles: u64) {
        self.done = self.done.saturating_add(cycles);
        if self.done.saturating_sub(self.told) >= TOLD_EACH {
            self.watcher.tell(self.done);
            self.told = self.done;
        }
    }
}

// The requests of a run.
fn requests_for(alloc: Global, first: u32, second: Option<u32>) -> Result<Requests, Memory>
    requires { IfSome second (λ s. first < s) }
    ensures { IfOk result (λ requests. requests ≡ first ∷ option_to_list second) }
{
    match second {
        Some(second) => Requests::of(alloc, [first, second].as_slice()),
        None => Requests::of(alloc, [first].as_slice()),
    }
}

// Whether bytes are some bytes and then some others.
fn are_joined(bytes: &[u8], first: &[u8], second: &[u8]) -> bool
    ensures yes { result ≡ true → first.now ++ second.now ≡ bytes.now }
    ensures no { first.now ++ second.now ≡ bytes.now → result ≡ true }
{
    if bytes.len() < first.len() {
        return false;
    }
    let (front, rest) = bytes.split_at(first.len());
    front == first && rest == second
}

// Brings the undisturbed run to a cycle: it goes on, or begins anew where it has come further.
fn come_to(alloc: Global, forward: Forward, swept: &Swept, cycle: u32) -> Result<Forward, Memory>
    requires bytes { IsInput swept.now.input }
    ensures within { IfOk result (λ f. f.cycle ≤ cycle) }
    ensures come { IfOk result (λ f. ComesFor swept.now forward → ComesFor swept.now f) }
{
    let begun = if cycle < forward.cycle() {
        Forward::new(alloc, swept.image, swept.input)?
    } else {
        forward
    };
    let gone = begun.go_on(alloc, cycle)?;
    Ok(gone)
}

// The run with a request in one cycle, or in two, beside the console of the undisturbed run, which has not come further than the first.
fn row_of(
    alloc: Global,
    forward: &Forward,
    swept: &Swept,
    first: u32,
    second: Option<u32>,
) -> Result<Row, Memory>
    requires rising { IfSome second (λ s. first < s) }
    requires order { forward.now.cycle ≤ first }
    requires within { forward.now.cycle ≤ swept.now.budget }
    ensures row { IfOk result (λ row. ComesFor swept.now forward.now → IsRowOf swept.now row) }
    ensures first { IfOk result (λ row. row.first ≡ first) }
    ensures second { IfOk result (λ row. row.second ≡ second) }
{
    let requests = requests_for(alloc, first, second)?;
    let run = forward.run_with(alloc, &requests, swept.budget)?;
    Ok(Row {
        first,
        second,
        cycles: run.counts.cycles,
        halted: run.halted,
        same_console: are_joined(swept.undisturbed, forward.console(), &run.console),
        entry: run.entry,
    })
}

// Adds a row.
fn push_row(rows: &mut Vec<Row>, row: Row) -> Result<(), Memory>
    ensures { OnOk result (rows.new.items ≡ rows.old.items ++ row ∷ []) }
{
    rows.push(row).map_err(|_| Memory)
}

/// The runs with a request in each of some cycles in turn, under the shipped handler. A watcher is told how many cycles they have come together.
pub fn singles<W: Watcher>(alloc: Global, swept: &Swept, watcher: W) -> Result<Vec<Row>, Memory>
    requires bytes { IsInput swept.now.input }
    ensures rows { IfOk result (λ rows. All (IsRowOf swept.now) rows.items) }
    ensures firsts { IfOk result (λ rows. firsts rows.items ≡ swept.now.cycles.now) }
    ensures alone { IfOk result (λ rows. All (λ row. row.second ≡ None) rows.items) }
{
    let mut progress = Progress::new(watcher);
    let mut forward = Forward::new(alloc, swept.image, swept.input)?;
    let mut rows = Vec::new(alloc);
    for first in swept.cycles {
        forward = come_to(alloc, forward, swept, (*first).min(swept.budget))?;
        let row = row_of(alloc, &forward, swept, *first, None)?;
        progress.add(row.cycles);
        push_row(&mut rows, row)?;
    }
    Ok(rows)
}

// Adds the run with requests in two cycles, if the second is later.
fn add_pair<W: Watcher>(
    alloc: Global,
    forward: &Forward,
    swept: &Swept,
    first: u32,
    second: u32,
    progress: &mut Progress<W>,
    rows: &mut Vec<Row>,
) -> Result<(), Memory>
    requires order { forward.now.cycle ≤ first }
    requires within { forward.now.cycle ≤ swept.now.budget }
    ensures rows { OnOk result
        (ComesFor swept.now forward.now → All (IsRowOf swept.now) rows.old.items → All (IsRowOf swept.now) rows.new.items) }
    ensures pair { OnOk result
        (map requests_of rows.new.items ≡ map requests_of rows.old.items ++ cond (ltb first second) ((first ∷ second ∷ []) ∷ []) []) }
{
    if first >= second {
        return Ok(());
    }
    let row = row_of(alloc, forward, swept, first, Some(second))?;
    progress.add(row.cycles);
    push_row(rows, row)?;
    Ok(())
}

// Adds the runs with requests in one cycle and in each of these that is later.
#[tactic(auto, using(crate::proofs::Paired::pair_step, crate::proofs::Paired::pair_start, crate::proofs::Paired::pair_end))]
fn add_pairs<W: Watcher>(
    alloc: Global,
    forward: &Forward,
    swept: &Swept,
    first: u32,
    others: &[u32],
    progress: &mut Progress<W>,
    rows: &mut Vec<Row>,
) -> Result<(), Memory>
    requires order { forward.now.cycle ≤ first }
    requires within { forward.now.cycle ≤ swept.now.budget }
    ensures rows { OnOk result
        (ComesFor swept.now forward.now → All (IsRowOf swept.now) rows.old.items → All (IsRowOf swept.now) rows.new.items) }
    ensures pairs { OnOk result (map requests_of rows.new.items ≡ map requests_of rows.old.items ++ pairs_with first others.now) }
{
    for second in others {
        add_pair(alloc, forward, swept, first, *second, progress, rows)?;
    }
    Ok(())
}

/// The runs of an image with requests in each two of some cycles of which the one behind is the greater; the rest as for
/// `singles`.
#[tactic(auto, using(crate::proofs::Paired::first_step, crate::proofs::Paired::first_end))]
pub fn pairs<W: Watcher>(alloc: Global, swept: &Swept, watcher: W) -> Result<Vec<Row>, Memory>
    requires bytes { IsInput swept.now.input }
    ensures rows { IfOk result (λ rows. All (IsRowOf swept.now) rows.items) }
    ensures pairs { IfOk result (λ rows. map requests_of rows.items ≡ rising_pairs swept.now.cycles.now) }
{
    let mut progress = Progress::new(watcher);
    let mut forward = Forward::new(alloc, swept.image, swept.input)?;
    let mut rows = Vec::new(alloc);
    let cycles = swept.cycles;
    for at in 0..cycles.len() {
        let others = &cycles[at + 1..];
        forward = come_to(alloc, forward, swept, cycles[at].min(swept.budget))?;
        add_pairs(
            alloc,
            &forward,
            swept,
            cycles[at],
            others,
            &mut progress,
            &mut rows,
        )?;
    }
    Ok(rows)
}
