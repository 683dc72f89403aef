//! Which calls a run makes, and what each costs until it returns.
ghost use Rattle.std.specs.Prelude.{◌≡◌, ◌+◌, ◌<◌, ◌≤◌, ◌^◌, ◌==◌, [], OnOk, length, take};
ghost use Rattle.lab_profile.specs.Calls.{returns_there, IsInnermostOf, open_in};

use indexmap::IndexMap;
use mx_board::Requests;
use mx_io::Memory;
use mx_isa::CODE_BASE;
use mx_link::{Linked, Origin};
use mx_source::{Source, Statement};
use mx_turn::{Machine, Stage};
use std::alloc::{AllocError, Global};

/// How many words stand in the slots of a transfer.
const SLOTS: u32 = 2;

/// What the calls from one word to another cost together, from the first word of each until the one that it returns to.
#[derive(Clone, Copy)]
pub struct Called {
    pub count: u64,
    pub cycles: u64,
    pub executed: u64,
}

/// The calls of a run, by the address of the word that calls and of the word that is called.
#[derive(Drop)]
pub struct Calls {
    pub costs: IndexMap<(u32, u32), Called>,
}

/// What a word is for the calls of a run.
#[derive(Clone, Copy, PartialEq, Eq)]
enum Kind {
    /// It leaves the place behind its slots in a register, and goes somewhere.
    Call,
    /// It goes to the place in a register.
    Jump,
    Other,
    /// It was put in, and is no statement.
    NoOp,
}

/// A transfer whose target comes when so many words more are executed.
#[derive(Clone, Copy)]
struct Pending {
    kind: Kind,
    site: u32,
    left: u32,
}

/// A call that has not returned.
#[derive(Clone, Copy)]
struct Frame {
    site: u32,
    callee: u32,
    cycles: u64,
    executed: u64,
}

/// How a run stands after some cycles.
#[derive(Drop)]
struct Progress {
    calls: Calls,
    frames: Vec<Frame>,
    pending: Option<Pending>,
    /// The executed statements, and the cycles.
    executed: u64,
    cycles: u64,
}

// What a statement is for the calls of a run.
fn kind_of(statement: Option<&Statement>) -> Kind {
    match statement {
        Some(Statement::Call { .. } | Statement::CallReg { .. }) => Kind::Call,
        Some(Statement::JumpReg { .. }) => Kind::Jump,
        _ => Kind::Other,
    }
}

// What each word of the code is.
fn kinds_of(alloc: Global, source: &Source, linked: &Linked) -> Result<Vec<Kind>, AllocError> {
    let mut kinds = Vec::new(alloc);
    for from in linked.origin.iter() {
        kinds.push(match from {
            Origin::Own(statement) => kind_of(source.statements().get(*statement as usize)),
            Origin::Copy(_) => Kind::Other,
            Origin::Pad => Kind::NoOp,
        })?;
    }
    Ok(kinds)
}

// Whether a call returns to an address: that behind its two slots.
fn returns_to(frame: &Frame, address: u32) -> bool
    ensures behind { frame.now.site + 3 < 2 ^ 32 → result ≡ (frame.now.site + 3 == address) }
    ensures there { result ≡ returns_there address frame.now }
{
    frame.site.saturating_add(SLOTS).saturating_add(1) == address
}

// The innermost of some calls that returns to an address, by its index.
fn innermost(frames: &[Frame], address: u32) -> Option<usize>
    ensures { IsInnermostOf address frames.now result }
{
    let mut end = frames.len();
    while end > 0 {
        end -= 1;
        if returns_to(&frames[end], address) {
            return Some(end);
        }
    }
    None
}

impl Progress {
    // Before the first cycle.
    fn new(alloc: Global) -> Progress {
        Progress {
            calls: Calls {
                costs: IndexMap::new(alloc),
            },
            frames: Vec::new(alloc),
            pending: None,
            executed: 0,
            cycles: 0,
        }
    }

    // Adds a call that has returned.
    fn add(&mut self, frame: &Frame) -> Result<(), AllocError>
        ensures { open_in self.new ≡ open_in self.old }
    {
        let key = (frame.site, frame.callee);
        let before = self.calls.costs.get(&key).copied().unwrap_or(Called {
            count: 0,
            cycles: 0,
            executed: 0,
        });
        let cycles = self.cycles.saturating_sub(frame.cycles);
        let executed = self.executed.saturating_sub(frame.executed);
        let after = Called {
            count: before.count.saturating_add(1),
            cycles: before.cycles.saturating_add(cycles),
            executed: before.executed.saturating_add(executed),
        };
        self.calls.costs.insert(key, after)?;
        Ok(())
    }

    // Ends all calls from the one at an index on, the innermost first.
    fn end_from(&mut self, first: usize) -> Result<(), AllocError>
        requires { first ≤ length (open_in self.old) }
        ensures { OnOk result (open_in self.new ≡ take first (open_in self.old)) }
    {
        while self.frames.len() > first {
            if let Some(frame) = self.frames.pop() {
                self.add(&frame)?;
            }
        }
        Ok(())
    }

    // Ends the calls that have not returned when the run ends.
    fn end_all(&mut self) -> Result<(), AllocError>
        ensures { OnOk result (open_in self.new ≡ []) }
    {
        self.end_from(0)
    }

    // The calls of a run of which none is left open.
    fn into_calls(self) -> Calls
        requires { open_in self ≡ [] }
    {
        self.calls
    }

    // A transfer has come to its target.
    fn arrive(&mut self, transfer: Pending, address: u32) -> Result<(), AllocError> {
        if transfer.kind == Kind::Call {
            self.frames.push(Frame {
                site: transfer.site,
                callee: address,
                cycles: self.cycles,
                executed: self.executed,
            })?;
            return Ok(());
        }
        match innermost(self.frames.as_slice(), address) {
            Some(first) => self.end_from(first),
            None => Ok(()),
        }
    }

    // A word of the code was executed.
    fn execute(&mut self, address: u32, kind: Kind) -> Result<(), AllocError> {
        if let Some(transfer) = self.pending {
            if transfer.left == 0 {
                self.pending = None;
                self.arrive(transfer, address)?;
            } else {
                self.pending = Some(Pending {
                    left: transfer.left - 1,
                    ..transfer
                });
            }
        }
        if matches!(kind, Kind::Call | Kind::Jump) {
            self.pending = Some(Pending {
                kind,
                site: address,
                left: SLOTS,
            });
        }
        let counted = u64::from(kind != Kind::NoOp);
        self.executed = self.executed.saturating_add(counted);
        Ok(())
    }

    // A turn has ended with this stage in MEM.
    fn turn(&mut self, kinds: &[Kind], mem: Stage) -> Result<(), AllocError> {
        let Stage::Live(address) = mem else {
            return Ok(());
        };
        let number = address.wrapping_sub(CODE_BASE) as usize;
        match kinds.get(number) {
            Some(kind) => self.execute(address, *kind),
            None => Ok(()),
        }
    }
}

// Runs the machine until it halts or the budget is spent.
fn run_cycles<M: Machine>(
    machine: &mut M,
    kinds: &[Kind],
    requests: &Requests,
    budget: u32,
    progress: &mut Progress,
) -> Result<(), AllocError>
    requires { M.cycles machine.old ≡ 0 }
{
    for cycle in 0..budget {
        let cycled = machine.cycle(requests.wants(cycle));
        if !cycled.stalled {
            progress.turn(kinds, machine.latches().mem)?;
        }
        progress.cycles = progress.cycles.saturating_add(1);
        if cycled.halted {
            return Ok(());
        }
    }
    Ok(())
}

/// The calls that a machine makes from its start on, until it halts or so many cycles are done. It runs the code of a linked
/// source. A call that has not returned by then is ended there, and so is one that a jump passes by.
pub fn calls_of<M: Machine>(
    alloc: Global,
    machine: &mut M,
    source: &Source,
    linked: &Linked,
    requests: &Requests,
    budget: u32,
) -> Result<Calls, Memory>
    requires { M.cycles machine.old ≡ 0 }
{
    let Ok(kinds) = kinds_of(alloc, source, linked) else {
        return Err(Memory);
    };
    let mut progress = Progress::new(alloc);
    if run_cycles(machine, kinds.as_slice(), requests, budget, &mut progress).is_err()
        || progress.end_all().is_err()
    {
        return Err(Memory);
    }
    Ok(progress.into_calls())
}
