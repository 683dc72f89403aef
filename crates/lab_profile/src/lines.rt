//! The costs of the words of a code, gathered by the statements that they come from.
ghost use Rattle.std.specs.Prelude.{◌≡◌, ◌<◌, ◌+◌, ℕ, cond, eqb, IfOk, length, slice_index};
ghost use Rattle.mx_link.specs.Gathered.{is_of};
ghost use Rattle.lab_profile.specs.Lines.{saturated, caused_in, executed_of, executed_together, penalty_of, penalty_together, CountsStatements, ChargesStatements};
ghost use Rattle.lab_profile.specs.Lines.{plus, cost_of, place_cost, word_cost, payer, owner_at, AreStatementCosts, IsTotal};

use crate::tally::Tally;
use mx_link::Origin;
use std::alloc::{AllocError, Global};

/// What a statement cost: its words, which are its own word, the copies of it, and the no-ops behind it. Each fetch of them,
/// and each stalled cycle before one, is a cycle of one of the columns behind `cycles`, or is that in which it was executed.
#[derive(Clone, Copy)]
pub struct LineCost {
    /// How often it was executed, at its own word or at a copy.
    pub executed: u64,
    /// The cycles of the fetches of its words, with the stalled ones before them.
    pub cycles: u64,
    /// Those of them that were stalled before a fetch.
    pub stalls: u64,
    /// How often a no-op behind it was executed.
    pub noops: u64,
    /// How often a word of it was squashed.
    pub cancelled: u64,
    /// How many fetches of its words came to no end: an interrupt killed them, or they were under way as the run ended.
    pub killed: u64,
    /// How often its branch squashed the words in its slots.
    pub squashes: u64,
    /// How many words that its branch had squashed were in MEM, each a cycle that it causes.
    pub penalty: u64,
}

/// No cost.
pub(crate) const NO_COST: LineCost = LineCost {
    executed: 0,
    cycles: 0,
    stalls: 0,
    noops: 0,
    cancelled: 0,
    killed: 0,
    squashes: 0,
    penalty: 0,
};

impl LineCost {
    /// Both costs.
    pub fn plus(self, other: LineCost) -> LineCost
        ensures { result ≡ plus self other }
    {
        LineCost {
            executed: self.executed.saturating_add(other.executed),
            cycles: self.cycles.saturating_add(other.cycles),
            stalls: self.stalls.saturating_add(other.stalls),
            noops: self.noops.saturating_add(other.noops),
            cancelled: self.cancelled.saturating_add(other.cancelled),
            killed: self.killed.saturating_add(other.killed),
            squashes: self.squashes.saturating_add(other.squashes),
            penalty: self.penalty.saturating_add(other.penalty),
        }
    }

    /// The cycles that it causes: those of its words but the squashed ones, which are the penalty of the branch that squashed them.
    pub fn caused(&self) -> u64
        ensures { result ≡ caused_in self.now }
    {
        self.cycles
            .saturating_sub(self.cancelled)
            .saturating_add(self.penalty)
    }
}

/// An entry of a list, 0 past its end.
fn entry(list: &[u64], at: usize) -> u64
    ensures { result ≡ slice_index list.now at }
{
    match list.get(at) {
        Some(n) => *n,
        None => 0,
    }
}

/// What a place cost as that of no word of a statement: the handler, or what lies behind the code. A word of a statement costs the same.
pub fn cost_at(tally: &Tally, place: usize) -> LineCost
    ensures { result ≡ place_cost tally.now place }
{
    let cycles = entry(tally.cycles.as_slice(), place);
    let fetches = entry(tally.fetches.as_slice(), place);
    let executed = entry(tally.executed.as_slice(), place);
    let cancelled = entry(tally.cancelled.as_slice(), place);
    LineCost {
        executed,
        cycles,
        stalls: cycles.saturating_sub(fetches),
        noops: 0,
        cancelled,
        killed: fetches.saturating_sub(executed).saturating_sub(cancelled),
        squashes: entry(tally.squashes.as_slice(), place),
        penalty: entry(tally.penalty.as_slice(), place),
    }
}

/// Adds to the cost of a statement, or of a line.
pub(crate) fn add(costs: &mut Vec<LineCost>, statement: u32, cost: LineCost)
    ensures size { length costs.new.items ≡ length costs.old.items }
    ensures each { (i : ℕ) → i < length costs.old.items
        → cost_of costs.new.items i ≡ cond (eqb statement i) (plus (cost_of costs.old.items i) cost) (cost_of costs.old.items i) }
    ensures executed { (i n : ℕ) → i < length costs.old.items → executed_of costs.old.items i ≡ saturated n
        → executed_of costs.new.items i ≡ saturated (n + cond (eqb statement i) cost.executed 0) }
    ensures penalty { (i n : ℕ) → i < length costs.old.items → penalty_of costs.old.items i ≡ saturated n
        → penalty_of costs.new.items i ≡ saturated (n + cond (eqb statement i) cost.penalty 0) }
{
    let at = statement as usize;
    if at < costs.len() {
        costs[at] = costs[at].plus(cost);
    }
}

/// The statement that a word of the code comes from, or for a no-op its owner, and what the word cost it.
fn word_cost(tally: &Tally, place: usize, from: Origin, owner: u32) -> (u32, LineCost)
    ensures payer { result.0 ≡ payer owner from }
    ensures cost { result.1 ≡ word_cost tally.now place from }
    ensures executed { (i : ℕ) → cond (eqb result.0 i) result.1.executed 0 ≡ cond (is_of i from) (slice_index tally.now.executed.items place) 0 }
    ensures penalty { (i : ℕ) → cond (eqb result.0 i) result.1.penalty 0 ≡ cond (is_of i from) (slice_index tally.now.penalty.items place) 0 }
{
    match from {
        Origin::Own(i) | Origin::Copy(i) => (i, cost_at(tally, place)),
        Origin::Pad => {
            let word = cost_at(tally, place);
            let cost = LineCost {
                executed: 0,
                noops: word.executed,
                penalty: 0,
                ..word
            };
            (owner, cost)
        }
    }
}

/// Adds what a word of the code cost. `owner` is the last statement whose own word stands before it.
fn add_word(costs: &mut Vec<LineCost>, tally: &Tally, place: usize, from: Origin, owner: u32)
    ensures size { length costs.new.items ≡ length costs.old.items }
    ensures each { (i : ℕ) → i < length costs.old.items → cost_of costs.new.items i
        ≡ cond (eqb (payer owner from) i) (plus (cost_of costs.old.items i) (word_cost tally.now place from)) (cost_of costs.old.items i) }
    ensures executed { (i n : ℕ) → i < length costs.old.items → executed_of costs.old.items i ≡ saturated n
        → executed_of costs.new.items i ≡ saturated (n + cond (is_of i from) (slice_index tally.now.executed.items place) 0) }
    ensures penalty { (i n : ℕ) → i < length costs.old.items → penalty_of costs.old.items i ≡ saturated n
        → penalty_of costs.new.items i ≡ saturated (n + cond (is_of i from) (slice_index tally.now.penalty.items place) 0) }
{
    let (statement, cost) = word_cost(tally, place, from, owner);
    add(costs, statement, cost);
}

/// The last statement whose own word stands up to a word from there, where `owner` is the one before it.
fn owner_at(owner: u32, from: Origin) -> u32
    ensures { result ≡ owner_at owner from }
{
    match from {
        Origin::Own(i) => i,
        Origin::Copy(_) | Origin::Pad => owner,
    }
}

/// The cost of each of so many statements, by where the words of the code come from. A no-op that was put in is that of the
/// last statement whose own word stands before it; a copy, also where it is squashed, is that of the statement copied.
pub fn line_costs(
    alloc: Global,
    statements: usize,
    origin: &[Origin],
    tally: &Tally,
) -> Result<Vec<LineCost>, AllocError>
    ensures size { IfOk result (λ costs. length costs.items ≡ statements) }
    ensures columns { IfOk result (λ costs. AreStatementCosts statements origin.now tally.now costs.items) }
    ensures executed { IfOk result (λ costs. CountsStatements statements origin.now tally.now costs.items) }
    ensures penalty { IfOk result (λ costs. ChargesStatements statements origin.now tally.now costs.items) }
{
    let mut costs = vec![in alloc; NO_COST; statements]?;
    let mut owner = 0;
    for place in 0..origin.len() {
        let from = origin[place];
        owner = owner_at(owner, from);
        add_word(&mut costs, tally, place, from, owner);
    }
    Ok(costs)
}

/// All costs together.
pub fn total(costs: &[LineCost]) -> LineCost
    ensures columns { IsTotal costs.now result }
    ensures executed { result.executed ≡ saturated (executed_together costs.now) }
    ensures penalty { result.penalty ≡ saturated (penalty_together costs.now) }
{
    let mut sum = NO_COST;
    for cost in costs {
        sum = sum.plus(*cost);
    }
    sum
}
