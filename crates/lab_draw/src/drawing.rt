//! Recording a run.
ghost use Rattle.std.specs.Prelude.{◌≡◌, ◌≤◌, ◌<◌, ◌+◌, ◌-◌, ◌++◌, ◌∷◌, ◌^◌, [], List, ℕ, Bool, false, Some, None, IfOk, cond, leb, length, min, slice_index};
ghost use Rattle.mx_isa.specs.declared.board.TheConstants.{DATA_END};
ghost use Rattle.mx_turn.specs.Program.{Program, state_after};
ghost use Rattle.mx_turn.specs.Run.{bits, console_after};
ghost use Rattle.lab_draw.specs.Frames.{data_word, IsFrameOf, AreFrames, IsDrawing};

use crate::Frame;
use mx_board::Requests;
use mx_io::Memory;
use mx_isa::DATA_END;
use mx_report::{Observer, Reached, observe, registers_of};
use mx_text::push_byte;
use mx_turn::{Cycled, Machine};
use std::alloc::{AllocError, Global};

/// Cycles of a run, one after the other.
#[derive(Drop)]
pub struct Drawing {
    /// What the console got before them.
    pub console: Vec<u8>,
    /// The data words before them.
    pub words: Vec<u32>,
    pub frames: Vec<Frame>,
    /// How many cycles the run has, where it halts within its budget.
    pub end: Option<u32>,
}

// One cycle, with a request or not.
fn next_frame<M: Machine>(machine: &mut M, requested: bool) -> Frame
    requires { M.cycles machine.old < 2 ^ 63 }
    ensures frame { (p : Program) (h : List Bool) → M.stands machine.old p h → IsFrameOf p h requested result }
    ensures stands { (p : Program) (h : List Bool) → M.stands machine.old p h → M.stands machine.new p (h ++ requested ∷ []) }
    ensures cycles { M.cycles machine.new ≤ M.cycles machine.old + 1 }
{
    let turn = machine.counts().fetches;
    let address = machine.latches().result;
    let cycled = machine.cycle(requested);
    Frame {
        requested,
        cycled,
        turn,
        shown: machine.latches(),
        counts: machine.counts(),
        registers: registers_of(machine),
        md: machine.md(),
        inputs: machine.inputs(),
        address,
        word: word_at(machine, address),
    }
}

// The data word at an address; 0 where it is none of data.
fn word_at<M: Machine>(machine: &M, address: u32) -> u32
    ensures { (p : Program) (h : List Bool) → M.stands machine.now p h → result ≡ data_word (state_after p h).core.mem address }
{
    if address < DATA_END {
        machine.user_data(address)
    } else {
        0
    }
}

// The data words of a machine.
fn words_of<M: Machine>(alloc: Global, machine: &M) -> Result<Vec<u32>, AllocError>
    ensures { IfOk result (λ words. (p : Program) (h : List Bool) → M.stands machine.now p h
        → (k : ℕ) → k < DATA_END → slice_index words.items k ≡ (state_after p h).core.mem k) }
{
    let mut words = Vec::new(alloc);
    for address in 0..DATA_END {
        words.push(machine.user_data(address))?;
    }
    Ok(words)
}

// Keeps the bytes that a run sends.
#[derive(Drop)]
struct Listener;

impl<M: Machine> Observer<M> for Listener {
    type Notes = Vec<u8>;

    ghost saw = { λ listener console p requests n. console.items ≡ console_after p (bits requests n) };

    ghost fits = { λ listener console n. Unit {0} };

    ghost enough = { λ listener console. false };

    fn has_enough(&self, _notes: &Vec<u8>) -> bool {
        false
    }

    fn cycle(
        &self,
        notes: &mut Vec<u8>,
        machine: &mut M,
        cycle: u32,
        request: bool,
    ) -> Result<Cycled, AllocError> {
        let cycled = machine.cycle(request);
        push_byte(notes, cycled.byte)?;
        Ok(cycled)
    }

    fn advance(
        &self,
        notes: &mut Vec<u8>,
        machine: &mut M,
        _cycle: u32,
        most: u32,
    ) -> Result<u32, AllocError> {
        let done = machine.advance(u64::from(most), notes)?;
        Ok(done as u32)
    }
}

// Records the cycles from one up to another, and lets those after them pass.
#[derive(Drop)]
struct Recorder {
    alloc: Global,
    from: u32,
    to: u32,
}

impl Recorder {
    // Whether all were recorded before a cycle.
    fn is_past(&self, cycle: u32) -> bool
        ensures { result ≡ leb self.now.to cycle }
    {
        self.to <= cycle
    }
}

impl<M: Machine> Observer<M> for Recorder {
    type Notes = Vec<Frame>;

    ghost saw = { λ recorder frames p requests n. AreFrames p requests recorder.from frames.items };

    ghost fits = { λ recorder frames n.
        (recorder.from ≤ recorder.to) × (recorder.from ≤ n) × (length frames.items ≡ min n recorder.to - recorder.from) };

    ghost enough = { λ recorder frames. false };

    fn has_enough(&self, _notes: &Vec<Frame>) -> bool {
        false
    }

    fn cycle(
        &self,
        notes: &mut Vec<Frame>,
        machine: &mut M,
        cycle: u32,
        request: bool,
    ) -> Result<Cycled, AllocError> {
        if self.is_past(cycle) {
            let passed = machine.cycle(request);
            return Ok(passed);
        }
        let frame = next_frame(machine, request);
        let cycled = frame.cycled;
        notes.push(frame)?;
        Ok(cycled)
    }

    // After the last frame only the end of the run is looked for: what it sends by then is not kept.
    fn advance(
        &self,
        _notes: &mut Vec<Frame>,
        machine: &mut M,
        cycle: u32,
        most: u32,
    ) -> Result<u32, AllocError> {
        if !self.is_past(cycle) {
            return Ok(0);
        }
        let mut sent = no_bytes(self.alloc);
        let done = machine.advance(u64::from(most), &mut sent)?;
        Ok(done as u32)
    }
}

// No bytes.
fn no_bytes(alloc: Global) -> Vec<u8>
    ensures { result.items ≡ [] }
{
    Vec::new(alloc)
}

// No frames.
fn no_frames(alloc: Global) -> Vec<Frame>
    ensures { result.items ≡ [] }
{
    Vec::new(alloc)
}

// After how many cycles a run has halted, if it has.
fn end_of(reached: &Reached) -> Option<u32>
    ensures { result ≡ cond reached.now.halted (Some reached.now.cycles) None }
{
    if reached.halted {
        Some(reached.cycles)
    } else {
        None
    }
}

/// Runs a machine from its start for a budget of cycles, or up to the end of the run, and records `count` cycles from `from` on,
/// or those up to that end.
///
/// # Errors
///
/// `Memory` where there is no room for them.
pub fn draw<M: Machine>(
    alloc: Global,
    machine: &mut M,
    requests: &Requests,
    from: u32,
    count: u32,
    budget: u32,
) -> Result<Drawing, Memory>
    requires start { M.cycles machine.old ≡ 0 }
    requires cycles { from + count ≤ budget }
    ensures { IfOk result (λ d. (p : Program) → M.stands machine.old p [] → IsDrawing p requests.now from count budget d) }
{
    match drawing_of(alloc, machine, requests, from, count, budget) {
        Ok(drawing) => Ok(drawing),
        Err(_) => Err(Memory),
    }
}

// The same, with the allocator's own error.
fn drawing_of<M: Machine>(
    alloc: Global,
    machine: &mut M,
    requests: &Requests,
    from: u32,
    count: u32,
    budget: u32,
) -> Result<Drawing, AllocError>
    requires start { M.cycles machine.old ≡ 0 }
    requires cycles { from + count ≤ budget }
    ensures { IfOk result (λ d. (p : Program) → M.stands machine.old p [] → IsDrawing p requests.now from count budget d) }
{
    let mut console = no_bytes(alloc);
    let mut frames = no_frames(alloc);
    let passed = observe(machine, requests, 0, from, &Listener, &mut console)?;
    let words = words_of(alloc, machine)?;
    if passed.halted {
        return Ok(Drawing {
            console,
            words,
            frames,
            end: Some(passed.cycles),
        });
    }
    let to = from + count;
    let recorder = Recorder { alloc, from, to };
    let drawn = observe(machine, requests, from, budget, &recorder, &mut frames)?;
    Ok(Drawing {
        console,
        words,
        frames,
        end: end_of(&drawn),
    })
}
