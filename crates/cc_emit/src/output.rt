//! What functions become: their lines, and what these need besides.
ghost use Rattle.std.specs.Prelude.{◌≡◌, ◌++◌, ◌∷◌, ◌+◌, ◌-◌, ◌^◌, [], min, nat_eq, Some, OnOk};
ghost use Rattle.std.specs.Option.{option_or};
ghost use Rattle.indexmap.specs.IndexSet.{insert_key};
ghost use Rattle.cc_emit.specs.Needs;

use crate::line::{Computed, Line, Mask, Plain, Routine, Transfer, compute_line, shift_line};
use cc_lines::Refusal;
use indexmap::IndexSet;
use std::alloc::{AllocError, Global};

/// The lines of the code, how many statements they are, and what else they need. A source has at most 20,000 statements: labels and
/// comments are none.
#[derive(Drop)]
pub struct Output {
    pub lines: Vec<Line>,
    pub statements: u32,
    /// How many instructions of the assembly they come from.
    pub instructions: u32,
    /// The symbol of the function with which there were too many statements.
    pub crossing: Option<u32>,
    /// The numbers that statements load from data, in order.
    pub numbers: IndexSet<u32>,
    /// The addends to the first byte after all data that statements load from data.
    pub ends: IndexSet<u32>,
    pub routines: Vec<Routine>,
    pub masks: Vec<Mask>,
    /// How many places branches over statements go to.
    pub skips: u32,
    /// Whether it reads input.
    pub input: bool,
    /// The number that register 1 holds, where that is known.
    pub first: Option<u32>,
    /// The text and the line of the first statement that is not translated, and why.
    pub fault: Option<(u32, u32, Refusal)>,
}

/// How many of these lines are statements.
fn statements_in(lines: &[Line]) -> u32
    ensures { result ≡ Needs.statements_in lines.now }
{
    let count = lines.iter().filter(|line| line.is_statement()).count();
    count.min(0xffff_ffff) as u32
}

impl Output {
    /// No lines.
    pub fn new(alloc: Global) -> Output
        ensures { Needs.IsNew result }
    {
        Output {
            lines: Vec::new(alloc),
            statements: 0,
            instructions: 0,
            crossing: None,
            numbers: IndexSet::new(alloc),
            ends: IndexSet::new(alloc),
            routines: Vec::new(alloc),
            masks: Vec::new(alloc),
            skips: 0,
            input: false,
            first: None,
            fault: None,
        }
    }

    /// Notes why the statement of a line is not translated, if it is the first one.
    pub fn refuse(&mut self, unit: u32, line: u32, refusal: Refusal)
        ensures fault { self.new.fault ≡ option_or self.old.fault (Some (unit, line, refusal)) }
        ensures lines { self.new.lines ≡ self.old.lines }
    {
        if self.fault.is_none() {
            self.fault = Some((unit, line, refusal));
        }
    }

    /// Keeps a number for a word of data, which a statement loads.
    pub fn keep_number(&mut self, number: u32) -> Result<(), AllocError>
        ensures kept { OnOk result (self.new.numbers.keys ≡ insert_key nat_eq self.old.numbers.keys number) }
        ensures lines { self.new.lines ≡ self.old.lines }
        ensures rest { (self.new.statements ≡ self.old.statements) × (self.new.routines ≡ self.old.routines) }
        ensures places { (self.new.skips ≡ self.old.skips) × (self.new.first ≡ self.old.first) }
    {
        self.numbers.insert(number)?;
        Ok(())
    }

    /// Keeps an address after all data for a word of data.
    pub fn keep_end(&mut self, addend: u32) -> Result<(), AllocError>
        ensures kept { OnOk result (self.new.ends.keys ≡ insert_key nat_eq self.old.ends.keys addend) }
        ensures lines { self.new.lines ≡ self.old.lines }
    {
        self.ends.insert(addend)?;
        Ok(())
    }

    /// Adds lines.
    pub fn push_all(&mut self, lines: &[Line]) -> Result<(), AllocError>
        ensures lines { OnOk result (self.new.lines.items ≡ self.old.lines.items ++ lines.now) }
        ensures statements { self.new.statements ≡ min (self.old.statements + Needs.statements_in lines.now) (2 ^ 32 - 1) }
        ensures routines { self.new.routines ≡ self.old.routines }
        ensures kept { Needs.Keeps self.old self.new }
    {
        self.statements = self.statements.saturating_add(statements_in(lines));
        self.lines.extend_from_slice(lines)
    }

    /// Adds a line.
    pub fn push(&mut self, line: Line) -> Result<(), AllocError>
        ensures lines { OnOk result (self.new.lines.items ≡ self.old.lines.items ++ line ∷ []) }
        ensures statements { self.new.statements ≡ min (self.old.statements + Needs.statements_in (line ∷ [])) (2 ^ 32 - 1) }
        ensures routines { self.new.routines ≡ self.old.routines }
        ensures kept { Needs.Keeps self.old self.new }
    {
        self.push_all(&[line])
    }

    /// Adds an instruction.
    pub fn plain(&mut self, plain: Plain) -> Result<(), AllocError>
        ensures lines { OnOk result (self.new.lines.items ≡ self.old.lines.items ++ Line.Plain plain ∷ []) }
        ensures statements { self.new.statements ≡ min (self.old.statements + 1) (2 ^ 32 - 1) }
        ensures routines { self.new.routines ≡ self.old.routines }
        ensures kept { Needs.Keeps self.old self.new }
    {
        self.push(Line::Plain(plain))
    }

    /// Adds what computes of two registers.
    pub fn compute(&mut self, op: Computed, a: u8, b: u8, rd: u8) -> Result<(), AllocError>
        ensures lines { OnOk result (self.new.lines.items ≡ self.old.lines.items ++ Line.Plain (Plain.Compute op a b rd) ∷ []) }
        ensures statements { self.new.statements ≡ min (self.old.statements + 1) (2 ^ 32 - 1) }
        ensures routines { self.new.routines ≡ self.old.routines }
        ensures kept { Needs.Keeps self.old self.new }
    {
        self.push(compute_line(op, a, b, rd))
    }

    /// Adds what takes a register's value from two others in a row.
    pub fn shift(&mut self, a: u8, b: u8, count: u8, rd: u8) -> Result<(), AllocError>
        ensures lines { OnOk result (self.new.lines.items ≡ self.old.lines.items ++ Line.Plain (Plain.Sh a b count rd) ∷ []) }
        ensures statements { self.new.statements ≡ min (self.old.statements + 1) (2 ^ 32 - 1) }
        ensures routines { self.new.routines ≡ self.old.routines }
        ensures kept { Needs.Keeps self.old self.new }
    {
        self.push(shift_line(a, b, count, rd))
    }

    /// Adds a branch, a jump, a call or the end.
    pub fn transfer(&mut self, transfer: Transfer) -> Result<(), AllocError>
        ensures lines { OnOk result (self.new.lines.items ≡ self.old.lines.items ++ Line.Transfer transfer ∷ []) }
        ensures statements { self.new.statements ≡ min (self.old.statements + 1) (2 ^ 32 - 1) }
        ensures routines { self.new.routines ≡ self.old.routines }
        ensures kept { Needs.Keeps self.old self.new }
    {
        self.push(Line::Transfer(transfer))
    }

    /// The number of a new place that a branch over statements goes to.
    pub fn skip(&mut self) -> u32
        ensures number { result ≡ min (self.old.skips + 1) (2 ^ 32 - 1) }
        ensures kept { self.new.skips ≡ result }
        ensures lines { (self.new.lines ≡ self.old.lines) × (self.new.statements ≡ self.old.statements) }
        ensures rest { (self.new.routines ≡ self.old.routines) × (self.new.numbers ≡ self.old.numbers) × (self.new.first ≡ self.old.first) }
    {
        self.skips = self.skips.saturating_add(1);
        self.skips
    }

    /// Whether a routine is called.
    pub(crate) fn needs(&self, routine: Routine) -> bool
        ensures { result ≡ Needs.has_routine routine self.now.routines.items }
    {
        self.routines.iter().any(|one| one.name() == routine.name())
    }

    /// Whether a table is read.
    pub(crate) fn needs_mask(&self, mask: Mask) -> bool
        ensures { result ≡ Needs.has_mask mask self.now.masks.items }
    {
        self.masks.iter().any(|one| one.name() == mask.name())
    }

    /// Notes that a routine is called.
    pub fn need(&mut self, routine: Routine) -> Result<(), AllocError>
        ensures noted { OnOk result (self.new.routines.items ≡ Needs.with_routine routine self.old.routines.items) }
        ensures lines { self.new.lines ≡ self.old.lines }
    {
        if !self.needs(routine) {
            self.routines.push(routine)?;
        }
        Ok(())
    }

    /// Notes that a table is read.
    pub fn need_mask(&mut self, mask: Mask) -> Result<(), AllocError>
        ensures noted { OnOk result (self.new.masks.items ≡ Needs.with_mask mask self.old.masks.items) }
        ensures lines { self.new.lines ≡ self.old.lines }
    {
        if !self.needs_mask(mask) {
            self.masks.push(mask)?;
        }
        Ok(())
    }
}
