//! What is charged to the places of a code.
ghost use Rattle.std.specs.Prelude.{◌≡◌, ◌<◌, ◌≤◌, ◌+◌, ◌*◌, ◌^◌, ◌-◌, ◌&&◌, ℕ, Bool, cond, eqb, ltb, leb, length, replicate, slice_index, IfOk};
ghost use Rattle.mx_turn.specs.Counted.{one};
ghost use Rattle.lab_profile.specs.Tallies.{HasPlaces, IsBelow};
ghost use Rattle.lab_profile.specs.Charges.{place_of, place_in, is_live, is_squashed};

use mx_turn::{Counts, Latches, Stage};
use std::alloc::{AllocError, Global};

/// What was charged to each place of a code: its words in order, then the handler, then what lies behind the code.
#[derive(Drop)]
pub struct Tally {
    /// Fetches of the place.
    pub fetches: Vec<u64>,
    /// Cycles of these fetches, with the stalled ones before them.
    pub cycles: Vec<u64>,
    /// How often its word was in MEM, not squashed.
    pub executed: Vec<u64>,
    /// How often it was there squashed.
    pub cancelled: Vec<u64>,
    /// How often its branch squashed.
    pub squashes: Vec<u64>,
    /// The penalty of its branch: how many words that it had squashed were in MEM.
    pub penalty: Vec<u64>,
}

/// What a run cost.
#[derive(Drop)]
pub struct Profile {
    pub tally: Tally,
    /// Cycles that were stalled before a fetch that the budget cut off.
    pub waiting: u64,
    pub counts: Counts,
    pub halted: bool,
}

/// Whether a squash was counted between two counts.
pub(crate) fn squashed_between(before: &Counts, after: &Counts) -> bool
    ensures { result ≡ ltb before.now.squashes after.now.squashes }
{
    before.squashes < after.squashes
}

/// The place of an address that is that of no word. Few are: a call of its own keeps the way of the others short.
#[inline(never)]
fn place_beside(words: usize, address: u32) -> usize
    requires { words < 2 ^ 32 }
    ensures { result ≡ cond (leb 4096 address) (words + 1) words }
{
    if address < 4096 { words } else { words + 1 }
}

/// The place of an address in a code of so many words. What wraps round is greater than any of their numbers.
fn place_of(words: usize, address: u32) -> usize
    requires { words < 2 ^ 32 }
    ensures place { result ≡ place_of words address }
    ensures within { result < words + 2 }
{
    let number = (address as usize).wrapping_sub(4096);
    if number < words {
        number
    } else {
        place_beside(words, address)
    }
}

/// The place of a stage's address.
fn place_in(words: usize, stage: Stage) -> usize
    requires { words < 2 ^ 32 }
    ensures place { result ≡ place_in words stage }
    ensures within { result < words + 2 }
{
    match stage {
        Stage::Empty => words + 1,
        Stage::Live(address) | Stage::Squashed(address) => place_of(words, address),
    }
}

/// Adds to one entry.
fn add(table: &mut Vec<u64>, at: usize, n: u64)
    requires within { at < length table.old.items }
    requires room { slice_index table.old.items at + n < 2 ^ 64 }
    ensures size { length table.new.items ≡ length table.old.items }
    ensures added { (k : ℕ) → slice_index table.new.items k ≡ slice_index table.old.items k + cond (eqb at k) n 0 }
{
    table[at] += n;
}

/// Adds one to the entry of a stage's place, where something is so. Elsewhere the place is not asked for.
fn add_if(table: &mut Vec<u64>, when: bool, words: usize, stage: Stage)
    requires words { words < 2 ^ 32 }
    requires size { length table.old.items ≡ words + 2 }
    requires room { slice_index table.old.items (place_in words stage) + 1 < 2 ^ 64 }
    ensures size { length table.new.items ≡ length table.old.items }
    ensures added { (k : ℕ) → slice_index table.new.items k ≡ slice_index table.old.items k + one (when && eqb (place_in words stage) k) }
{
    if when {
        add(table, place_in(words, stage), 1);
    }
}

/// The same, where few turns have it: a call of its own keeps the way of the others short.
#[inline(never)]
fn add_rarely(table: &mut Vec<u64>, words: usize, stage: Stage)
    requires words { words < 2 ^ 32 }
    requires size { length table.old.items ≡ words + 2 }
    requires room { slice_index table.old.items (place_in words stage) + 1 < 2 ^ 64 }
    ensures size { length table.new.items ≡ length table.old.items }
    ensures added { (k : ℕ) → slice_index table.new.items k ≡ slice_index table.old.items k + one (eqb (place_in words stage) k) }
{
    add(table, place_in(words, stage), 1);
}

/// As `add_if`, for what few turns have.
fn add_rarely_if(table: &mut Vec<u64>, when: bool, words: usize, stage: Stage)
    requires words { words < 2 ^ 32 }
    requires size { length table.old.items ≡ words + 2 }
    requires room { slice_index table.old.items (place_in words stage) + 1 < 2 ^ 64 }
    ensures size { length table.new.items ≡ length table.old.items }
    ensures added { (k : ℕ) → slice_index table.new.items k ≡ slice_index table.old.items k + one (when && eqb (place_in words stage) k) }
{
    if when {
        add_rarely(table, words, stage);
    }
}

/// Adds one to the entry of a place, where something is so.
fn add_at_if(table: &mut Vec<u64>, when: bool, at: usize)
    requires within { at < length table.old.items }
    requires room { slice_index table.old.items at + 1 < 2 ^ 64 }
    ensures size { length table.new.items ≡ length table.old.items }
    ensures added { (k : ℕ) → slice_index table.new.items k ≡ slice_index table.old.items k + one (when && eqb at k) }
{
    if when {
        add(table, at, 1);
    }
}

/// The place of the branch that squashed last, after a turn that shows this stage in ALU and squashed or not.
pub(crate) fn squasher_after(words: usize, squashed: bool, alu: Stage, before: usize) -> usize
    requires words { words < 2 ^ 32 }
    requires before { before < words + 2 }
    ensures place { result ≡ cond squashed (place_in words alu) before }
    ensures within { result < words + 2 }
{
    if squashed {
        place_in(words, alu)
    } else {
        before
    }
}

fn is_live(stage: Stage) -> bool
    ensures { result ≡ is_live stage }
{
    matches!(stage, Stage::Live(_))
}

fn is_squashed(stage: Stage) -> bool
    ensures { result ≡ is_squashed stage }
{
    matches!(stage, Stage::Squashed(_))
}

fn no_charges(alloc: Global, places: usize) -> Result<Vec<u64>, AllocError>
    ensures size { IfOk result (λ table. length table.items ≡ places) }
    ensures none { IfOk result (λ table. (k : ℕ) → slice_index table.items k ≡ 0) }
{
    vec![in alloc; 0; places]
}

impl Tally {
    /// No charges to the places of a code of so many words.
    pub(crate) fn new(alloc: Global, words: usize) -> Result<Tally, AllocError>
        requires { words < 2 ^ 32 }
        ensures sizes { IfOk result (HasPlaces words) }
        ensures none { IfOk result (IsBelow 0) }
    {
        let places = words + 2;
        Ok(Tally {
            fetches: no_charges(alloc, places)?,
            cycles: no_charges(alloc, places)?,
            executed: no_charges(alloc, places)?,
            cancelled: no_charges(alloc, places)?,
            squashes: no_charges(alloc, places)?,
            penalty: no_charges(alloc, places)?,
        })
    }

    /// Charges a turn that shows these stages. It took so many cycles, with the stalled ones before it, and squashed or not. The
    /// branch at `squasher` squashed last before it.
    pub(crate) fn charge(
        &mut self,
        words: usize,
        took: u64,
        squashed: bool,
        squasher: usize,
        shown: &Latches,
    )
        requires words { words < 2 ^ 32 }
        requires sizes { HasPlaces words self.old }
        requires small { IsBelow (2 ^ 64 - 2 ^ 33) self.old }
        requires took { took < 2 ^ 32 }
        requires squasher { squasher < words + 2 }
        ensures sizes { HasPlaces words self.new }
        ensures fetches { (k : ℕ) → slice_index self.new.fetches.items k ≡ slice_index self.old.fetches.items k
            + one (eqb (place_in words shown.now.fetch) k) }
        ensures cycles { (k : ℕ) → slice_index self.new.cycles.items k ≡ slice_index self.old.cycles.items k
            + cond (eqb (place_in words shown.now.fetch) k) took 0 }
        ensures executed { (k : ℕ) → slice_index self.new.executed.items k ≡ slice_index self.old.executed.items k
            + one (is_live shown.now.mem && eqb (place_in words shown.now.mem) k) }
        ensures cancelled { (k : ℕ) → slice_index self.new.cancelled.items k ≡ slice_index self.old.cancelled.items k
            + one (is_squashed shown.now.mem && eqb (place_in words shown.now.mem) k) }
        ensures squashes { (k : ℕ) → slice_index self.new.squashes.items k ≡ slice_index self.old.squashes.items k
            + one (squashed && eqb (place_in words shown.now.alu) k) }
        ensures penalty { (k : ℕ) → slice_index self.new.penalty.items k ≡ slice_index self.old.penalty.items k
            + one (is_squashed shown.now.mem && eqb squasher k) }
    {
        add_rarely_if(&mut self.squashes, squashed, words, shown.alu);
        let fetched = place_in(words, shown.fetch);
        add(&mut self.fetches, fetched, 1);
        add(&mut self.cycles, fetched, took);
        add_if(&mut self.executed, is_live(shown.mem), words, shown.mem);
        add_rarely_if(
            &mut self.cancelled,
            is_squashed(shown.mem),
            words,
            shown.mem,
        );
        add_at_if(&mut self.penalty, is_squashed(shown.mem), squasher);
    }
}
