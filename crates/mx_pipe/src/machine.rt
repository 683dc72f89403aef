//! The pipeline, cycle by cycle.
ghost use Rattle.std.specs.Prelude.{◌≡◌, ◌<◌, ◌+◌, ◌^◌, ℕ, Bool, true, false, not, ◌&&◌, List, [], ◌∷◌, None, is_some, slice_index, if◌then◌else◌};
ghost use Rattle.mx_pcchain.specs.Chain.{fetch_from, pop};
ghost use Rattle.mx_pcchain.specs.Modes.{psw_restored};
ghost use Rattle.mx_turn.specs.Cycle.{MachineState as State, shifted, committed, commit_byte, showing, entered, decided};
ghost use Rattle.mx_turn.specs.Cycle.{decision, turned, latched, is_taken, reached, ended, counts_after, acted_answer};
ghost use Rattle.mx_pipe.specs.Terms.{Words, Code, next_of, resident, after_turn, after_stall, fetch_of, stage_of, is_halt};
ghost use Rattle.mx_pipe.specs.declared.pipe.Wait.{Wait};
ghost use Rattle.mx_pipe.specs.Latched.{does, squashed_if};
ghost use Rattle.mx_pipe.specs.Made.{byte_of, halts};
ghost use Rattle.mx_pipe.specs.Courses.{told};
ghost use Rattle.mx_pipe.specs.Kept.{code_of_pipe, is_live, IsRead, IsMade, Holds, Commits, Tells};
ghost use Rattle.mx_pipe.specs.Kept.{Leads, LeadsTo, StillShown, Shows, Waits, has_missed, KeepsProgram, StandsFor};

use crate::alu::{Course, NOWHERE, course_at, make};
use crate::fetching::{address, address_of, inst_in};
use crate::memory::{Reached, Signal, reach};
use crate::operands::{read_operands, register_of, write_back};
use crate::{Latch, Pipe, Wait};
use mx_icache::FetchCache;
use mx_isa::Reg;
use mx_pcchain::Fetched;
use mx_turn::{
    Counts, Cycled, Latches, Machine, Stage, fetch_of, led, popped, restored, saved, stage_of,
};
use std::alloc::AllocError;

impl<C: FetchCache> Pipe<C> {
    // WB writes the file, and the word in ALU comes into MEM.
    pub(crate) fn commit(&mut self) -> Reached
        requires { self.old.halted ≡ false }
        ensures state { (code : Code) (m : State) → Holds code self.old m → Commits code self.new (committed code self.old.board.input (shifted m)) }
        ensures byte { (code : Code) (m : State) → Holds code self.old m → byte_of result.signal ≡ commit_byte code self.old.board.input (shifted m) }
        ensures halt { halts result.signal ≡ self.new.halted }
        ensures halted { self.new.halted ≡ is_halt (does self.old.alu) }
        ensures asked { self.new.asked ≡ self.old.asked }
        ensures write { Tells result self.new.mem }
        ensures wait { self.new.wait ≡ self.old.wait }
        ensures program { KeepsProgram self.old self.new }
        ensures counts { self.new.counts ≡ self.old.counts }
        ensures cache { self.new.cache ≡ self.old.cache }
    {
        write_back(&mut self.file, &self.mem);
        self.wb.follow(&self.mem);
        reach(
            &mut self.mem,
            &self.alu,
            &self.psw,
            &mut self.md,
            &mut self.chain,
            &mut self.halted,
            &mut self.board,
        )
    }

    // The word in RF comes into ALU, with operands from the bypass. Answers where it leads at once.
    fn compute(&mut self, mem: &Reached) -> u32
        requires { Tells mem.now self.old.mem }
        ensures made { (code : Code) (m : State) → Commits code self.old m → IsMade code self.new.alu m }
        ensures target { (code : Code) (m : State) → Commits code self.old m → LeadsTo code m result }
        ensures rest { self.new ≡ record self.old { alu = self.new.alu } }
    {
        make(
            &mut self.alu,
            &self.rf,
            mem,
            &self.md,
            &self.psw,
            &self.chain,
            &self.next,
        )
    }

    // The word in IF comes into RF, and reads its operands.
    fn read(&mut self, mem: &Reached)
        requires { Tells mem.now self.old.mem }
        ensures read { (m : State) → Commits (code_of_pipe self.old) self.old m
            → IsRead (code_of_pipe self.old) (record self.new.rf { word = self.old.fetch.word }) m.rf m.core.regs }
        ensures live { is_some self.new.rf.inst ≡ true → is_live self.old.fetch.word ≡ true }
        ensures rest { self.new ≡ record self.old { rf = self.new.rf } }
    {
        let inst = inst_in(&self.code, &self.handler, &self.fetch);
        read_operands(&mut self.rf, inst, mem.to, mem.word, &self.file);
    }

    // The words in IF, RF and ALU move on. Answers where the one in ALU leads at once.
    pub(crate) fn move_on(&mut self, mem: &Reached) -> u32
        requires { Tells mem.now self.old.mem }
        ensures state { (m : State) → Commits (code_of_pipe self.old) self.old m → Holds (code_of_pipe self.old) self.new m }
        ensures live { (code : Code) (m : State) → Commits code self.old m → is_some self.new.rf.inst ≡ true → is_live m.rf ≡ true }
        ensures target { (code : Code) (m : State) → Commits code self.old m → LeadsTo code m result }
        ensures wait { self.new.wait ≡ self.old.wait }
        ensures running { self.new.halted ≡ self.old.halted }
        ensures program { KeepsProgram self.old self.new }
        ensures counts { self.new.counts ≡ self.old.counts }
        ensures cache { self.new.cache ≡ self.old.cache }
    {
        let target = self.compute(mem);
        self.read(mem);
        self.rf.follow(&self.fetch);
        self.fetch.hold(Some(self.next));
        target
    }

    // What the turn shows is kept. Where the word in RF does something, it is live and the turn before marked no word, so what
    // that one showed moves on by one stage.
    fn show(&mut self)
        ensures state { (code : Code) (m : State) → Holds code self.old m → (is_some self.old.rf.inst ≡ true → is_live m.rf ≡ true)
            → StillShown m.shown m.rf m.alu m.mem m.wb → Holds code self.new (showing code m) }
        ensures wait { self.new.wait ≡ self.old.wait }
        ensures running { self.new.halted ≡ self.old.halted }
        ensures program { KeepsProgram self.old self.new }
        ensures counts { self.new.counts ≡ self.old.counts }
        ensures cache { self.new.cache ≡ self.old.cache }
    {
        if self.rf.inst.is_some() {
            self.shown.wb = self.shown.mem;
            self.shown.mem = self.shown.alu;
            self.shown.alu = self.shown.rf;
            self.shown.rf = Stage::Live(address_of(self.rf.word));
            self.shown.fetch = stage_of(self.fetch.word);
            self.shown.a = self.alu.a;
            self.shown.b = self.alu.b;
            self.shown.result = self.alu.result;
        } else {
            self.show_anew();
        }
    }

    // What the turn shows is told by the latches alone.
    #[inline(never)]
    pub(crate) fn show_anew(&mut self)
        ensures { self.new ≡ record self.old {
          shown = record {
            fetch = stage_of self.old.fetch.word;
            rf = stage_of self.old.rf.word;
            alu = stage_of self.old.alu.word;
            mem = stage_of self.old.mem.word;
            wb = stage_of self.old.wb.word;
            a = self.old.alu.a;
            b = self.old.alu.b;
            result = self.old.alu.result;
          };
        } }
    {
        self.shown = Latches {
            fetch: stage_of(self.fetch.word),
            rf: stage_of(self.rf.word),
            alu: stage_of(self.alu.word),
            mem: stage_of(self.mem.word),
            wb: stage_of(self.wb.word),
            a: self.alu.a,
            b: self.alu.b,
            result: self.alu.result,
        };
    }

    // The turn is counted, and the cache is not yet asked for the next one's fetch.
    #[inline(never)]
    fn count(&mut self, squashed: bool, taken: bool)
        requires { self.old.counts.cycles < 2 ^ 63 }
        ensures { self.new ≡ record self.old {
          wait = Wait.NotAsked;
          counts = after_turn (has_missed self.old.wait) squashed taken self.old.counts;
        } }
    {
        let missed = matches!(self.wait, Wait::Missed(_));
        self.wait = Wait::NotAsked;
        self.counts.turned(missed, squashed, taken);
    }

    // A turn that squashed nothing and took no interrupt is counted. Few fetches miss, and those alone pay for it.
    #[inline(always)]
    fn count_plain(&mut self)
        requires { self.old.counts.cycles < 2 ^ 63 }
        ensures { self.new ≡ record self.old {
          wait = Wait.NotAsked;
          counts = after_turn (has_missed self.old.wait) false false self.old.counts;
        } }
    {
        match self.wait {
            Wait::NotAsked => self.counts.turned(false, false, false),
            Wait::Missed(_) => self.count(false, false),
        }
    }

    // The interrupt is taken.
    #[inline(never)]
    fn enter(&mut self)
        requires { self.old.counts.cycles < 2 ^ 63 }
        ensures state { (code : Code) (m : State) → Holds code self.old m → Holds code self.new (entered m) }
        ensures wait { self.new.wait ≡ Wait.NotAsked }
        ensures program { KeepsProgram self.old self.new }
        ensures counts { self.new.counts ≡ after_turn (has_missed self.old.wait) false true self.old.counts }
        ensures cache { self.new.cache ≡ self.old.cache }
    {
        self.asked = false;
        self.chain.enter(
            saved(self.alu.word),
            saved(self.rf.word),
            saved(self.fetch.word),
        );
        self.psw.enter();
        self.alu = Latch::cleared(None);
        self.rf = Latch::cleared(None);
        self.fetch = Latch::cleared(None);
        self.next = fetch_of(0);
        self.count(false, true);
    }

    // Whether an interrupt that is asked for is taken in this turn.
    #[inline(never)]
    fn may_enter(&self) -> bool
        ensures { (code : Code) (m : State) → Holds code self.now m → self.now.asked ≡ true → result ≡ is_taken m }
    {
        self.psw.current.interrupts && self.alu.word.is_some()
    }

    // The word in ALU leads to a fetch.
    #[inline(always)]
    fn go(&mut self, next: Fetched)
        requires { self.old.counts.cycles < 2 ^ 63 }
        ensures { self.new ≡ record self.old {
          next = next;
          wait = Wait.NotAsked;
          counts = after_turn (has_missed self.old.wait) false false self.old.counts;
        } }
    {
        self.next = next;
        self.count_plain();
    }

    // The word in ALU leads where its course says. Those that cancel the words behind them, or go back from the system, are
    // few: a call of its own keeps the way of the others short.
    #[inline(never)]
    fn turn_aside(&mut self, course: Course)
        requires cycles { self.old.counts.cycles < 2 ^ 63 }
        requires code_address { (a : ℕ) → course ≡ Course.To a → a < 2 ^ 31 }
        ensures { let d = told course in let back = d.pops && not self.old.psw.current.user in self.new ≡ record self.old {
          next = (if back then fetch_from self.old.chain.pc1 else fetch_of (next_of d.target self.old.next.address));
          fetch = squashed_if d.cancels self.old.fetch;
          rf = squashed_if d.cancels self.old.rf;
          chain = (if back then pop self.old.chain else self.old.chain);
          psw = (if d.restores && back then psw_restored self.old.psw else self.old.psw);
          wait = Wait.NotAsked;
          counts = after_turn (has_missed self.old.wait) d.cancels false self.old.counts;
        } }
    {
        let decided = course.decided();
        let back = goes_back(decided.pops, self.psw.current.user);
        self.next = led(back, &self.chain, decided.target, self.next);
        self.fetch.squash(decided.cancels);
        self.rf.squash(decided.cancels);
        self.chain = popped(back, self.chain);
        self.psw = restored(both(decided.restores, back), self.psw);
        self.count(decided.cancels, false);
    }

    // The word in ALU decides.
    #[inline(always)]
    fn decide(&mut self, course: Course)
        requires cycles { self.old.counts.cycles < 2 ^ 63 }
        requires code_address { (a : ℕ) → course ≡ Course.To a → a < 2 ^ 31 }
        ensures state { (code : Code) (m : State) → Holds code self.old m → Leads code m course → Holds code self.new (decided code m) }
        ensures counts { (code : Code) (m : State) → Leads code m course
            → self.new.counts ≡ after_turn (has_missed self.old.wait) (decision code m).cancels false self.old.counts }
        ensures wait { self.new.wait ≡ Wait.NotAsked }
        ensures cycles { self.new.counts.cycles ≡ self.old.counts.cycles + 1 }
        ensures program { KeepsProgram self.old self.new }
        ensures cache { self.new.cache ≡ self.old.cache }
    {
        match course {
            Course::To(target) => self.go(fetch_of(target)),
            _ => self.turn_aside(course),
        }
    }

    // The turn ends, where MEM holds no halt: the interrupt is taken, or the word in ALU decides. Answers whether it is taken.
    // Each way counts for itself, so that the usual one has nothing to tell; so has a turn without a request.
    #[inline(always)]
    fn end(&mut self, course: Course) -> bool
        requires cycles { self.old.counts.cycles < 2 ^ 63 }
        requires code_address { (a : ℕ) → course ≡ Course.To a → a < 2 ^ 31 }
        ensures taken { (code : Code) (m : State) → Holds code self.old m → result ≡ is_taken m }
        ensures state { (code : Code) (m : State) → Holds code self.old m → Leads code m course → Holds code self.new (turned code m) }
        ensures counts { (code : Code) (m : State) → Holds code self.old m → Leads code m course
            → self.new.counts ≡ after_turn (has_missed self.old.wait) (not (is_taken m) && (decision code m).cancels) (is_taken m) self.old.counts }
        ensures cycles { self.new.counts.cycles ≡ self.old.counts.cycles + 1 }
        ensures wait { self.new.wait ≡ Wait.NotAsked }
        ensures program { KeepsProgram self.old self.new }
        ensures cache { self.new.cache ≡ self.old.cache }
    {
        if self.asked {
            if self.may_enter() {
                self.enter();
                return true;
            }
        }
        self.decide(course);
        false
    }

    // The turn ends, whatever the word in MEM signals, and wherever the one in ALU leads. Few turns end so: a call of its own
    // keeps the way of the others short.
    #[inline(never)]
    pub(crate) fn end_apart(&mut self, signal: Signal, target: u32) -> bool
        requires { self.old.counts.cycles < 2 ^ 63 }
        ensures taken { (code : Code) (m : State) → Holds code self.old m → halts signal ≡ m.halted → result ≡ (not m.halted && is_taken m) }
        ensures state { (code : Code) (m : State) → Holds code self.old m → halts signal ≡ m.halted → LeadsTo code m target
            → Holds code self.new (ended code m) }
        ensures counts { (code : Code) (m : State) → Holds code self.old m → halts signal ≡ m.halted → LeadsTo code m target
            → self.new.counts ≡ after_turn (has_missed self.old.wait) (not m.halted && (not (is_taken m) && (decision code m).cancels))
            (not m.halted && is_taken m) self.old.counts }
        ensures cycles { self.new.counts.cycles ≡ self.old.counts.cycles + 1 }
        ensures wait { self.new.wait ≡ Wait.NotAsked }
        ensures program { KeepsProgram self.old self.new }
        ensures cache { self.new.cache ≡ self.old.cache }
    {
        match signal {
            Signal::Halt => {
                self.count(false, false);
                false
            }
            _ => {
                let course = course_at(&self.alu, target);
                self.end(course)
            }
        }
    }

    // The words of a turn move on, and what it shows is kept. Answers the signal of the word in MEM, and where the one in ALU
    // leads at once.
    fn step(&mut self) -> (Signal, u32)
        requires { self.old.halted ≡ false }
        ensures state { (m : State) → Holds (code_of_pipe self.old) self.old m → Shows m
            → Holds (code_of_pipe self.old) self.new (reached (code_of_pipe self.old) self.old.board.input m) }
        ensures byte { (m : State) → Holds (code_of_pipe self.old) self.old m
            → byte_of result.0 ≡ commit_byte (code_of_pipe self.old) self.old.board.input (shifted m) }
        ensures halt { halts result.0 ≡ self.new.halted }
        ensures target { (m : State) → Holds (code_of_pipe self.old) self.old m
            → LeadsTo (code_of_pipe self.old) (reached (code_of_pipe self.old) self.old.board.input m) result.1 }
        ensures wait { self.new.wait ≡ self.old.wait }
        ensures program { KeepsProgram self.old self.new }
        ensures counts { self.new.counts ≡ self.old.counts }
        ensures cache { self.new.cache ≡ self.old.cache }
    {
        let reached = self.commit();
        let target = self.move_on(&reached);
        self.show();
        (reached.signal, target)
    }

    // Whether the turn ends as most do: the word in MEM signals nothing, the one in ALU leads to an address, and no interrupt
    // is asked for.
    #[inline(always)]
    fn ends_plainly(&self, signal: Signal, target: u32) -> bool
        ensures target { result ≡ true → target < 2 ^ 31 }
        ensures signal { result ≡ true → signal ≡ Signal.Nothing }
    {
        if self.asked || target >= NOWHERE {
            return false;
        }
        match signal {
            Signal::Nothing => true,
            _ => false,
        }
    }

    // A turn acts. Where MEM holds a halt, nothing behind it takes effect.
    // The usual way is short, and answers for itself, so that whoever drives it finds nothing to ask.
    fn act(&mut self) -> Cycled
        requires cycles { self.old.counts.cycles < 2 ^ 63 }
        requires running { self.old.halted ≡ false }
        ensures state { (m : State) → Holds (code_of_pipe self.old) self.old m → Shows m
            → Holds (code_of_pipe self.old) self.new (ended (code_of_pipe self.old) (reached (code_of_pipe self.old) self.old.board.input m)) }
        ensures answer { (m : State) → Holds (code_of_pipe self.old) self.old m → Shows m
            → result ≡ acted_answer (code_of_pipe self.old) self.old.board.input m }
        ensures counts { (m : State) → Holds (code_of_pipe self.old) self.old m → Shows m → self.old.counts ≡ m.counts
            → self.new.counts ≡ counts_after (code_of_pipe self.old) self.old.board.input (has_missed self.old.wait) m }
        ensures cycles { self.new.counts.cycles ≡ self.old.counts.cycles + 1 }
        ensures wait { self.new.wait ≡ Wait.NotAsked }
        ensures program { KeepsProgram self.old self.new }
        ensures cache { self.new.cache ≡ self.old.cache }
    {
        let (signal, target) = self.step();
        if self.ends_plainly(signal, target) {
            let taken = self.end(Course::To(target));
            return Cycled {
                byte: None,
                taken,
                halted: false,
                stalled: false,
            };
        }
        let taken = self.end_apart(signal, target);
        Cycled {
            byte: signal.byte(),
            taken,
            halted: signal.halts(),
            stalled: false,
        }
    }

    // A request is latched, if there is one.
    fn latch_request(&mut self, request: bool)
        ensures state { (code : Code) (m : State) → Holds code self.old m → Holds code self.new (latched request m) }
        ensures running { self.new.halted ≡ self.old.halted }
        ensures wait { self.new.wait ≡ self.old.wait }
        ensures program { KeepsProgram self.old self.new }
        ensures counts { self.new.counts ≡ self.old.counts }
        ensures cache { self.new.cache ≡ self.old.cache }
    {
        if request {
            self.asked = true;
        }
    }

    // A cycle is stalled, with so many behind it.
    #[inline(never)]
    fn stall(&mut self, left: u8)
        requires { self.old.counts.cycles < 2 ^ 63 }
        ensures { self.new ≡ record self.old { wait = Wait.Missed left; counts = after_stall self.old.counts } }
    {
        self.counts.stalled();
        self.wait = Wait::Missed(left);
    }

    // The stalled cycles that are left of the coming turn; the cache is asked once.
    fn left(&mut self) -> u8
        ensures left { (m : State) → self.old.next ≡ m.next → Waits C.holds self.old.cache m self.old.wait → result ≡ m.stall }
        ensures missed { (m : State) → self.old.next ≡ m.next → Waits C.holds self.old.cache m self.old.wait → 0 < result
            → resident m.past m.next.address ≡ false }
        ensures cache { (m : State) → self.old.next ≡ m.next → Waits C.holds self.old.cache m self.old.wait → C.holds self.new.cache (m.next.address ∷ m.past) }
        ensures state { (code : Code) (m : State) → Holds code self.old m → Holds code self.new m }
        ensures running { self.new.halted ≡ self.old.halted }
        ensures wait { self.new.wait ≡ self.old.wait }
        ensures program { KeepsProgram self.old self.new }
        ensures counts { self.new.counts ≡ self.old.counts }
    {
        match self.wait {
            Wait::NotAsked => stall_of(self.cache.fetch(address(self.next))),
            Wait::Missed(left) => left,
        }
    }
}

impl<C: FetchCache> Machine for Pipe<C> {
    ghost stands = { λ t p h. StandsFor C.holds t p h };

    ghost cycles = { λ t. t.counts.cycles };

    fn cycle(&mut self, request: bool) -> Cycled {
        if self.halted {
            return Cycled::after_halt();
        }
        self.latch_request(request);
        let left = self.left();
        if left > 0 {
            self.stall(left - 1);
            return Cycled::in_stall();
        }
        self.act()
    }

    fn advance(&mut self, most: u64, console: &mut Vec<u8>) -> Result<u64, AllocError> {
        if self.may_run(most) {
            return self.run_lane(most, console);
        }
        Ok(0)
    }

    fn counts(&self) -> Counts {
        self.counts
    }

    fn register(&self, r: Reg) -> u32 {
        register_of(&self.file, &self.mem, r)
    }

    fn md(&self) -> u32 {
        self.md
    }

    fn user_data(&self, address: u32) -> u32 {
        self.board.word(address)
    }

    fn inputs(&self) -> u32 {
        self.board.inputs()
    }

    fn latches(&self) -> Latches {
        self.shown
    }
}

// Whether a word goes back from the system.
fn goes_back(pops: bool, user: bool) -> bool
    ensures { result ≡ (pops && not user) }
{
    pops && !user
}

// Both of two.
fn both(a: bool, b: bool) -> bool
    ensures { result ≡ (a && b) }
{
    a && b
}

// The stalled cycles before a fetch acts.
fn stall_of(resident: bool) -> u8
    ensures { result ≡ (if resident then 0 else 2) }
{
    if resident { 0 } else { 2 }
}
