//! Which statements a run may come to.
ghost use Rattle.std.specs.Prelude.{◌≡◌, ◌<◌, ◌≤◌, ◌+◌, ℕ, true, false, Some, [], OnOk, IfOk, IfSome, length, slice_get, slice_set, slice_index_or};
ghost use Rattle.mx_source.specs.declared.statement.Value.TheVariants.{Code};
ghost use Rattle.lab_terms.specs.Flow;
ghost use Rattle.lab_terms.specs.Flow.{IsSeen, StaySeen, IsFollowed, IsOrder, HasCome, MayCome, IsAmongWords, IsWalk, AreReached};

use mx_isa::{Cond, Reg};
use mx_source::{Source, Statement, Value};
use std::alloc::{AllocError, Global};

/// Where a statement may go on: to the statement behind it, or to a target.
#[derive(Clone, Copy)]
pub struct Ways {
    pub on: bool,
    pub target: Option<u32>,
}

// A branch holds of a register and itself.
fn holds_of_same(cond: Cond) -> bool
    ensures { result ≡ Flow.holds_of_same cond }
{
    matches!(cond, Cond::Eq | Cond::Ge | Cond::Hs)
}

// A branch may go on behind it.
fn may_go_on(a: Reg, b: Reg, cond: Cond) -> bool
    ensures { result ≡ Flow.may_go_on a b cond }
{
    a != b || !holds_of_same(cond)
}

// A branch may go to its target.
fn may_be_taken(a: Reg, b: Reg, cond: Cond) -> bool
    ensures { result ≡ Flow.may_be_taken a b cond }
{
    a != b || holds_of_same(cond)
}

/// Where a statement may go on. A call comes back. What a jump by a register may come to is told by the statements and the
/// data that make places.
pub fn ways_of(statement: &Statement) -> Ways
    ensures { result ≡ Flow.ways statement.now }
{
    match *statement {
        Statement::Plain(_) | Statement::LaCode { .. } | Statement::CallReg { .. } => Ways {
            on: true,
            target: None,
        },
        Statement::Call { target, .. } => Ways {
            on: true,
            target: Some(target),
        },
        Statement::Branch { a, b, cond, target } => Ways {
            on: may_go_on(a, b, cond),
            target: may_be_taken(a, b, cond).then_some(target),
        },
        Statement::JumpReg { .. } | Statement::Halt => Ways {
            on: false,
            target: None,
        },
    }
}

// The statements that were come to, and the order in which this happened.
#[derive(Drop)]
struct Walk {
    seen: Vec<bool>,
    order: Vec<u32>,
}

impl Walk {
    // Has come to no statement of so many.
    fn new(alloc: Global, statements: usize) -> Result<Walk, AllocError>
        ensures size { IfOk result (λ w. length w.seen.items ≡ statements) }
        ensures none { IfOk result (λ w. (i : ℕ) → slice_index_or w.seen.items i false ≡ false) }
        ensures order { IfOk result (λ w. IsOrder w.seen.items w.order.items) }
        ensures empty { IfOk result (λ w. w.order.items ≡ []) }
    {
        Ok(Walk {
            seen: vec![in alloc; false; statements]?,
            order: Vec::new(alloc),
        })
    }

    // Whether there is a statement of this index that it has not come to.
    fn is_new(&self, index: u32) -> bool
        ensures within { result ≡ true → index < length self.now.seen.items }
        ensures fresh { result ≡ true → slice_index_or self.now.seen.items index false ≡ false }
        ensures seen { result ≡ false → IsSeen self.now.seen.items index }
    {
        match self.seen.get(index as usize) {
            Some(seen) => !*seen,
            None => false,
        }
    }

    // Comes to a statement for the first time.
    fn add(&mut self, index: u32) -> Result<(), AllocError>
        requires within { index < length self.old.seen.items }
        requires fresh { slice_index_or self.old.seen.items index false ≡ false }
        ensures seen { self.new.seen.items ≡ slice_set self.old.seen.items index true }
        ensures come { OnOk result
            (HasCome (λ i. i ≡ index) self.old.seen.items self.old.order.items self.new.seen.items self.new.order.items) }
    {
        self.seen[index as usize] = true;
        self.order.push(index)?;
        Ok(())
    }

    // Comes to a statement, if there is one of this index.
    fn visit(&mut self, index: u32) -> Result<(), AllocError>
        ensures size { length self.new.seen.items ≡ length self.old.seen.items }
        ensures stays { StaySeen self.old.seen.items self.new.seen.items }
        ensures seen { OnOk result (IsSeen self.new.seen.items index) }
        ensures come { OnOk result
            (HasCome (λ i. i ≡ index) self.old.seen.items self.old.order.items self.new.seen.items self.new.order.items) }
    {
        if self.is_new(index) {
            self.add(index)?;
        }
        Ok(())
    }

    // Comes to a statement, if there is one.
    fn visit_some(&mut self, index: Option<u32>) -> Result<(), AllocError>
        ensures size { length self.new.seen.items ≡ length self.old.seen.items }
        ensures stays { StaySeen self.old.seen.items self.new.seen.items }
        ensures seen { OnOk result (IfSome index (IsSeen self.new.seen.items)) }
        ensures come { OnOk result
            (HasCome (λ i. index ≡ Some i) self.old.seen.items self.old.order.items self.new.seen.items self.new.order.items) }
    {
        match index {
            Some(index) => self.visit(index),
            None => Ok(()),
        }
    }

    // Comes to what a statement may go on to, and to the one whose code address it makes.
    fn follow(&mut self, index: u32, statement: &Statement) -> Result<(), AllocError>
        ensures size { length self.new.seen.items ≡ length self.old.seen.items }
        ensures stays { StaySeen self.old.seen.items self.new.seen.items }
        ensures followed { OnOk result (IsFollowed self.new.seen.items index statement.now) }
        ensures come { OnOk result
            (HasCome (MayCome index statement.now) self.old.seen.items self.old.order.items self.new.seen.items self.new.order.items) }
    {
        let ways = ways_of(statement);
        let next = ways.on.then_some(index.saturating_add(1));
        self.visit_some(next)?;
        self.visit_some(ways.target)?;
        self.visit_some(made_by(statement))
    }

    // Comes to the statements at code addresses among data words.
    fn visit_data(&mut self, words: &[Value]) -> Result<(), AllocError>
        ensures come { OnOk result
            (HasCome (IsAmongWords words.now) self.old.seen.items self.old.order.items self.new.seen.items self.new.order.items) }
        ensures seen { OnOk result ((k index : ℕ) → slice_get words.now k ≡ Some (Code index) → IsSeen self.new.seen.items index) }
    {
        for word in words {
            self.visit_some(code_of(*word))?;
        }
        Ok(())
    }

    // How many statements it has come to.
    fn count(&self) -> usize
        ensures { result ≡ length self.now.order.items }
    {
        self.order.len()
    }

    // The statement that it came to after so many others.
    fn nth(&self, at: usize) -> u32
        requires { at < length self.now.order.items }
        ensures { result ≡ slice_index_or self.now.order.items at 0 }
    {
        self.order[at]
    }

    // Follows the statement that it came to after so many others.
    fn follow_nth(&mut self, source: &Source, at: usize) -> Result<(), AllocError>
        requires walk { IsWalk source.now self.old.seen.items self.old.order.items at }
        requires more { at < length self.old.order.items }
        ensures { OnOk result (IsWalk source.now self.new.seen.items self.new.order.items (at + 1)) }
    {
        let index = self.nth(at);
        let statement = statement_at(source, index);
        self.follow(index, &statement)?;
        Ok(())
    }
}

// The statement of an index.
fn statement_at(source: &Source, index: u32) -> Statement
    requires { index < length source.now.statements }
    ensures statement { result ≡ slice_index_or source.now.statements index result }
    ensures few { length source.now.statements ≤ 20000 }
{
    source.statements()[index as usize]
}

// The statement whose code address a statement makes.
fn made_by(statement: &Statement) -> Option<u32>
    ensures { result ≡ Flow.made_by statement.now }
{
    match *statement {
        Statement::LaCode { target, .. } => Some(target),
        _ => None,
    }
}

// The statement at the code address that a data word is.
fn code_of(word: Value) -> Option<u32>
    ensures { result ≡ Flow.code_of word }
{
    match word {
        Value::Code(index) => Some(index),
        Value::Int(_) => None,
    }
}

// A walk that has come to the first statement, and to those at code addresses among the data.
fn begun(alloc: Global, source: &Source) -> Result<Walk, AllocError>
    ensures { IfOk result (λ w. IsWalk source.now w.seen.items w.order.items 0) }
{
    let mut walk = Walk::new(alloc, source.statements().len())?;
    walk.visit(0)?;
    walk.visit_data(source.user_data())?;
    Ok(walk)
}

/// For each statement whether a run may come to it: the first one, those at code addresses among the data, and those that these
/// may go on to. A code address that `la` makes counts as one where the run may go on.
///
/// # Errors
///
/// `AllocError` where there is no room for the answer.
pub fn reached(alloc: Global, source: &Source) -> Result<Vec<bool>, AllocError>
    ensures { IfOk result (λ seen. AreReached source.now seen.items) }
{
    let mut walk = begun(alloc, source)?;
    for at in 0..source.statements().len() {
        if walk.count() <= at {
            return Ok(walk.seen);
        }
        walk.follow_nth(source, at)?;
    }
    Ok(walk.seen)
}
