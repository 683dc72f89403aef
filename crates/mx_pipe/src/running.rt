//! From the latches into a lane, and back.
ghost use Rattle.std.specs.Prelude.{◌≡◌, ◌<◌, ◌≤◌, ◌+◌, ◌^◌, ◌∷◌, ◌++◌, ℕ, Bool, List, IfOk, true, false, length, slice_index, if◌then◌else◌};
ghost use Rattle.mx_isa.specs.declared.board.TheConstants.{MAX_CODE_WORDS};
ghost use Rattle.mx_turn.specs.Program.{Program, state_after, quiet, quiet_bytes};
ghost use Rattle.mx_turn.specs.Cycle.{MachineState as State, showing, ended, squashes, takes};
ghost use Rattle.mx_lane.specs.Lanes.{lane_of, IsLeft};
ghost use Rattle.mx_pipe.specs.Terms.{Words, reg, dest, is_load, is_halt, Code, resident, Counted, after_turn, code_in, live, slot_of};
ghost use Rattle.mx_pipe.specs.declared.pipe.Wait.{Wait};
ghost use Rattle.mx_pipe.specs.Latched.{does};
ghost use Rattle.mx_pipe.specs.Kept.{code_of_pipe, IsRead, Holds, Commits, Tells, has_missed, KeepsProgram, StandsFor};

use crate::fetching::address;
use crate::memory::{Reached, Signal};
use crate::operands::{dest_of, read_operands, write_back};
use crate::{Latch, Pipe, Wait};
use mx_icache::FetchCache;
use mx_isa::{Inst, Reg};
use mx_lane::Lane;
use mx_text::push_byte;
use mx_turn::{Coming, Held, LoadSlot, Registers, no_slot, read, set};
use std::alloc::AllocError;

/// With fewer cycles a lane is not worth its way in and out.
const SHORTEST_RUN: u64 = 4;

// Whether the word of a latch is a halt.
fn is_halt_in(latch: &Latch) -> bool
    ensures { result ≡ is_halt (does latch.now) }
{
    matches!(latch.inst, Some(Inst::Halt))
}

// Whether the word of a latch is a load.
fn is_load_in(latch: &Latch) -> bool
    ensures { result ≡ is_load (does latch.now) }
{
    matches!(latch.inst, Some(Inst::Load { .. }))
}

// The register of a load in MEM, with what stood in it.
fn slot_in(mem: &Latch, file: &[u32; 32]) -> LoadSlot
    ensures { result ≡ slot_of (does mem.now) (slice_index file.now) }
{
    match &mem.inst {
        Some(Inst::Load { dest, .. }) => LoadSlot {
            register: *dest,
            value: read(file, *dest),
        },
        _ => no_slot(),
    }
}

// The register of which the word in MEM passes its number on, r0 for none.
fn passes_of(mem: &Latch, to: Reg) -> Reg
    requires { to ≡ dest (does mem.now) }
    ensures { result ≡ (if is_load (does mem.now) then 0 else to) }
{
    if is_load_in(mem) { Reg::ZERO } else { to }
}

// What the machine learns of a word in MEM that sends nothing and is no halt.
fn passed_on(mem: &Latch) -> Reached
    ensures { Tells result mem.now }
{
    let to = dest_of(mem);
    let passes = passes_of(mem, to);
    Reached {
        signal: Signal::Nothing,
        to,
        passes,
        word: mem.result,
        passed: if passes.number() == 0 { 0 } else { mem.result },
    }
}

impl<C: FetchCache> Pipe<C> {
    // Whether the next turn may go in a lane: there is room, no halt in MEM, no request, and its fetch is resident.
    pub(crate) fn may_run(&self, most: u64) -> bool
        ensures room { result ≡ true → 1 ≤ most }
        ensures running { result ≡ true → self.now.halted ≡ false }
        ensures asked { result ≡ true → self.now.asked ≡ false }
        ensures wait { result ≡ true → self.now.wait ≡ Wait.NotAsked }
        ensures halt { result ≡ true → is_halt (does self.now.alu) ≡ false }
        ensures resident { result ≡ true → (past : List ℕ) → C.holds self.now.cache past → resident past self.now.next.address ≡ true }
        ensures cache { result ≡ true → (past : List ℕ) → C.holds self.now.cache past → C.holds self.now.cache (self.now.next.address ∷ past) }
    {
        if self.halted || self.asked || most < SHORTEST_RUN || is_halt_in(&self.alu) {
            return false;
        }
        match self.wait {
            Wait::NotAsked => self.cache.reach(address(self.next)) > 0,
            Wait::Missed(_) => false,
        }
    }

    // The lane that goes on from here, once the word in MEM has committed.
    pub(crate) fn lane(&self) -> Lane
        ensures state { (code : Code) (m : State) → Commits code self.now m → m.halted ≡ false → m.latch ≡ false → m.stall ≡ 0
            → lane_of result self.now.board m.past m.before m.shown m.counts ≡ m }
        ensures replaced { (code : Code) (m : State) → Commits code self.now m
            → result.replaced ≡ reg m.before (dest (live (code_in self.now.decoded) m.mem)) }
        ensures counts { result.counts ≡ self.now.counts }
        ensures missed { result.missed ≡ false }
    {
        let mem = Held::of(self.mem.word);
        let mut file = self.file;
        write_back(&mut file, &self.mem);
        Lane {
            next: Coming::of(self.next),
            rf: Held::of(self.fetch.word),
            alu: Held::of(self.rf.word),
            mem,
            wb: Held::of(self.wb.word),
            registers: Registers {
                file,
                slot: slot_in(&self.mem, &self.file),
                md: self.md,
                chain: self.chain,
            },
            psw: self.psw,
            replaced: read(&self.file, self.decoded.of(mem).dest()),
            counts: self.counts,
            missed: false,
        }
    }

    // MEM takes back its word, with the file as it was before that one committed.
    fn take_mem(&mut self, lane: &Lane)
        ensures file { (before : Words) → IsLeft (code_in self.old.decoded) lane.now before → slice_index self.new.file ≡ before }
        ensures word { self.new.mem.word ≡ lane.now.mem }
        ensures inst { does self.new.mem ≡ live (code_in self.old.decoded) lane.now.mem }
        ensures to { self.new.mem.b ≡ dest (does self.new.mem) }
        ensures within { self.new.mem.b ≤ 31 }
        ensures result { self.new.mem.result ≡ reg (slice_index lane.now.registers.file) (dest (does self.new.mem)) }
        ensures rest { self.new ≡ record self.old { mem = self.new.mem; file = self.new.file } }
    {
        let inst = self.decoded.of(lane.mem);
        let to = inst.dest();
        self.mem = Latch {
            word: lane.mem.stage(),
            inst: Some(inst),
            a: 0,
            b: u32::from(to.number()),
            result: read(&lane.registers.file, to),
            md: 0,
        };
        self.file = lane.registers.file;
        set(&mut self.file, to, lane.replaced);
    }

    // RF takes back its word, with operands from the file.
    fn take_rf(&mut self, lane: &Lane)
        ensures read { IsRead (code_in self.old.decoded) self.new.rf lane.now.alu (slice_index self.old.file) }
        ensures rest { self.new ≡ record self.old { rf = self.new.rf } }
    {
        self.rf.hold(lane.alu.stage());
        let inst = self.decoded.of(lane.alu);
        read_operands(&mut self.rf, Some(inst), Reg::ZERO, 0, &self.file);
    }

    // What passes through no latch is taken back.
    fn take_rest(&mut self, lane: &Lane)
        ensures wait { has_missed self.new.wait ≡ lane.now.missed }
        ensures rest { self.new ≡ record self.old {
          fetch = record self.old.fetch { word = lane.now.rf };
          wb = record self.old.wb { word = lane.now.wb };
          md = lane.now.registers.md;
          next = lane.now.next;
          wait = self.new.wait;
          psw = lane.now.psw;
          chain = lane.now.registers.chain;
          counts = lane.now.counts;
        } }
    {
        self.fetch.hold(lane.rf.stage());
        self.wb.hold(lane.wb.stage());
        self.md = lane.registers.md;
        self.next = lane.next.fetched();
        self.psw = lane.psw;
        self.chain = lane.registers.chain;
        self.counts = lane.counts;
        self.wait = if lane.missed {
            Wait::Missed(0)
        } else {
            Wait::NotAsked
        };
    }

    // The latches take back what a lane left, once the word in MEM has committed. Answers what the machine learns of that word.
    pub(crate) fn take_back(&mut self, lane: &Lane) -> Reached
        requires running { self.old.halted ≡ false }
        requires asked { self.old.asked ≡ false }
        ensures state { (past : List ℕ) (before : Words) (counts : Counted) → length self.old.code.items ≤ MAX_CODE_WORDS
            → IsLeft (code_in self.old.decoded) lane.now before
            → Commits (code_in self.old.decoded) self.new (lane_of lane.now self.old.board past before self.old.shown counts) }
        ensures write { Tells result self.new.mem }
        ensures missed { has_missed self.new.wait ≡ lane.now.missed }
        ensures counts { self.new.counts ≡ lane.now.counts }
        ensures program { KeepsProgram self.old self.new }
        ensures cache { self.new.cache ≡ self.old.cache }
        ensures shown { self.new.shown ≡ self.old.shown }
    {
        self.take_mem(lane);
        self.take_rf(lane);
        self.take_rest(lane);
        passed_on(&self.mem)
    }

    // The turn ends, once its word in MEM has committed and is no halt: the others move on, what it shows is told by the latches
    // alone, and the one in ALU decides.
    pub(crate) fn finish(&mut self, reached: &Reached)
        requires cycles { self.old.counts.cycles < 2 ^ 63 }
        requires write { Tells reached.now self.old.mem }
        ensures state { (m : State) → Commits (code_of_pipe self.old) self.old m → m.halted ≡ false
            → Holds (code_of_pipe self.old) self.new (ended (code_of_pipe self.old) (showing (code_of_pipe self.old) m)) }
        ensures counts { (m : State) → Commits (code_of_pipe self.old) self.old m → m.halted ≡ false
            → self.new.counts ≡ after_turn (has_missed self.old.wait) (squashes (code_of_pipe self.old) (showing (code_of_pipe self.old) m))
            (takes (showing (code_of_pipe self.old) m)) self.old.counts }
        ensures cycles { self.new.counts.cycles ≡ self.old.counts.cycles + 1 }
        ensures wait { self.new.wait ≡ Wait.NotAsked }
        ensures program { KeepsProgram self.old self.new }
        ensures cache { self.new.cache ≡ self.old.cache }
    {
        let target = self.move_on(reached);
        self.show_anew();
        self.end_apart(Signal::Nothing, target);
    }

    // Turns without a request go in a lane, from the commit of the first to that of the last; the last one then ends as any other.
    // Answers how many cycles they take.
    #[inline(never)]
    pub(crate) fn run_lane(&mut self, most: u64, console: &mut Vec<u8>) -> Result<u64, AllocError>
        requires cycles { self.old.counts.cycles + most ≤ 2 ^ 63 }
        requires room { 1 ≤ most }
        requires running { self.old.halted ≡ false }
        requires asked { self.old.asked ≡ false }
        requires wait { self.old.wait ≡ Wait.NotAsked }
        requires halt { is_halt (does self.old.alu) ≡ false }
        requires resident { (past : List ℕ) → C.holds self.old.cache past → resident past self.old.next.address ≡ true }
        requires cache { (past : List ℕ) → C.holds self.old.cache past → C.holds self.old.cache (self.old.next.address ∷ past) }
        ensures most { IfOk result (λ n. n ≤ most) }
        ensures next { IfOk result (λ n. (p : Program) (h : List Bool) → StandsFor C.holds self.old p h → StandsFor C.holds self.new p (quiet h n)) }
        ensures console { IfOk result (λ n. (p : Program) (h : List Bool) → StandsFor C.holds self.old p h
            → console.new.items ≡ console.old.items ++ quiet_bytes p h n) }
        ensures going { IfOk result (λ n. (p : Program) (h : List Bool) → StandsFor C.holds self.old p h
            → (state_after p (quiet h n)).halted ≡ false) }
        ensures cycles { IfOk result (λ n. self.new.counts.cycles ≤ self.old.counts.cycles + n) }
    {
        let reached = self.commit();
        push_byte(console, reached.signal.byte())?;
        let mut lane = self.lane();
        let turns = lane.run(
            most - 1,
            &self.decoded,
            &mut self.board,
            &mut self.cache,
            console,
        )?;
        let left = self.take_back(&lane);
        self.finish(&left);
        Ok(turns + 1)
    }
}
