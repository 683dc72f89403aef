//! The machine that commits each word as a whole.
ghost use Rattle.std.specs.Prelude.{◌≡◌, ◌<◌, IfSome, ◌≤◌, ◌+◌, ◌^◌, ℕ, Bool, not, ◌&&◌, ◌||◌, length, slice_index, IfOk, Some, None, List, if◌then◌else◌, [], ◌∷◌};
ghost use Rattle.mx_isa.specs.declared.board.TheConstants.{CODE_BASE};
ghost use Rattle.mx_isa.specs.Words.{Words};
ghost use Rattle.mx_board.specs.Contents.{IsInput};
ghost use Rattle.mx_icache.specs.Residency.{resident};
ghost use Rattle.mx_turn.specs.declared.latches.Latches.{Latches};
ghost use Rattle.mx_turn.specs.Decoded.{ShiftFits};
ghost use Rattle.mx_delay.specs.Delay.{next_of};
ghost use Rattle.mx_turn.specs.Stages.{fetch_of, live};
ghost use Rattle.mx_turn.specs.Cycle.{shifted, committed, commit_byte, showing, is_taken, entered, decision, decided, ended, takes, squashes, waited, acted, acted_answer};
ghost use Rattle.mx_turn.specs.Program.{Program, image_program, image_under};
ghost use Rattle.mx_turn.specs.Kept.{code_of_turns, machine_of, shown_of, looked_of, shown_by, aside, KeepsProgram, StandsFor, Does, Tells, Commits, Shows, Waits, FetchesNext, KnowsMiss, Acts};

use crate::alu_stage::{Decided, decide};
use crate::decoded::Decoded;
use crate::handler::SHIPPED;
use crate::held::{Coming, Held};
use crate::registers::{Registers, no_slot, read};
use crate::shown::number_of;
use crate::stages::{led, popped, restored, saved, squash, stage_of};
use crate::{Counts, Cycled, Latches, Machine};
use mx_board::Board;
use mx_code::Image;
use mx_icache::FetchCache;
use mx_io::Memory;
use mx_isa::{CODE_BASE, Inst, Reg};
use mx_pcchain::{Chain, Psw};
use std::alloc::Global;

/// What a turn showed before anything was squashed or killed in it: its stages, the mode and the chain.
#[derive(Clone, Copy)]
pub struct Looked {
    fetch: Held,
    rf: Held,
    alu: Held,
    user: bool,
    chain: Chain,
}

/// What the word in ALU brought about.
#[derive(Clone, Copy)]
struct Ended {
    taken: bool,
    squashed: bool,
}

/// The machine that commits one word as a whole, with any cache.
#[derive(Drop)]
pub struct Turns<C> {
    code: Decoded,
    registers: Registers,
    board: Board,
    next: Coming,
    fetch: Held,
    rf: Held,
    alu: Held,
    mem: Held,
    wb: Held,
    missed: bool,
    stall: u8,
    latch: bool,
    psw: Psw,
    halted: bool,
    // What the last completed turn showed, if that is no longer what the stages, the mode and the chain are.
    looked: Option<Looked>,
    counts: Counts,
    cache: C,
}

impl<C: FetchCache> Turns<C> {
    // What a stage does; an empty one does nothing.
    fn live(&self, stage: Held) -> Inst
        ensures what { result ≡ live (code_of_turns self.now) stage }
        ensures fits { ShiftFits result }
    {
        self.code.of(stage)
    }

    // The stages move on, and the word that comes into MEM commits.
    fn commit(&mut self) -> Option<u8>
        ensures state { Commits self.old self.new }
        ensures byte { Tells (λ m. commit_byte (code_of_turns self.old) self.old.board.input (shifted m)) self.old result }
        ensures program { KeepsProgram self.old self.new }
        ensures cache { self.new.cache ≡ self.old.cache }
        ensures missed { self.new.missed ≡ self.old.missed }
        ensures counts { self.new.counts ≡ self.old.counts }
    {
        let inst = self.live(self.alu);
        let at = self.alu.address();
        let user = self.psw.current.user;
        self.wb = self.mem;
        self.mem = self.alu;
        self.alu = self.rf;
        self.rf = self.fetch;
        self.fetch = self.next.held();
        let committed = self.registers.commit(&inst, at, user, &mut self.board);
        self.halted = committed.halted;
        committed.byte
    }

    // The turn shows the stages, the mode and the chain as they are.
    fn show(&mut self)
        ensures state { Shows self.old self.new }
        ensures program { KeepsProgram self.old self.new }
        ensures cache { self.new.cache ≡ self.old.cache }
        ensures missed { self.new.missed ≡ self.old.missed }
        ensures counts { self.new.counts ≡ self.old.counts }
    {
        // Seldom is there anything to forget, and a test costs less than the write.
        if self.looked.is_some() {
            self.looked = None;
        }
    }

    // What the last completed turn showed of the stages, the mode and the chain.
    fn look(&self) -> Looked
        ensures { result ≡ looked_of self.now }
    {
        match self.looked {
            Some(looked) => looked,
            None => Looked {
                fetch: self.fetch,
                rf: self.rf,
                alu: self.alu,
                user: self.psw.current.user,
                chain: self.registers.chain,
            },
        }
    }

    // All that a turn shows, by what it showed of the stages, the mode and the chain.
    fn latches_by(&self, looked: &Looked) -> Latches
        ensures { result ≡ shown_by self.now looked.now }
    {
        let inst = self.live(looked.alu);
        let operands = inst.sources();
        let a = self.registers.sees(operands.0);
        let b = self.registers.sees(operands.1);
        let at = looked.alu.address();
        Latches {
            fetch: stage_of(looked.fetch.stage()),
            rf: stage_of(looked.rf.stage()),
            alu: stage_of(looked.alu.stage()),
            mem: stage_of(self.mem.stage()),
            wb: stage_of(self.wb.stage()),
            a,
            b,
            result: number_of(
                &inst,
                at,
                a,
                b,
                self.registers.md,
                looked.user,
                &looked.chain,
            ),
        }
    }

    // The next fetch is that of the address behind the last one.
    fn go_on(&mut self)
        ensures state { Does (λ m. record m { next = fetch_of (next_of None m.next.address) }) self.old self.new }
        ensures shown { shown_of self.new ≡ shown_of self.old }
        ensures program { KeepsProgram self.old self.new }
        ensures cache { self.new.cache ≡ self.old.cache }
        ensures missed { self.new.missed ≡ self.old.missed }
        ensures counts { self.new.counts ≡ self.old.counts }
    {
        self.next = self.next.following();
    }

    // Whether a transfer leads back to a saved fetch.
    fn goes_back(&self, decided: &Decided) -> bool
        ensures { result ≡ (decided.now.pops && not self.now.psw.current.user) }
    {
        decided.pops && !self.psw.current.user
    }

    // A transfer cancels the two words behind it, or pops the chain.
    // Few do: a call of its own keeps the way of the others short.
    #[inline(never)]
    fn turn_aside(&mut self, decided: &Decided, back: bool)
        requires { IfSome decided.now.target (λ a. a < 2 ^ 31) }
        ensures state { Does (aside decided.now back) self.old self.new }
        ensures shown { shown_of self.new ≡ shown_of self.old }
        ensures program { KeepsProgram self.old self.new }
        ensures cache { self.new.cache ≡ self.old.cache }
        ensures missed { self.new.missed ≡ self.old.missed }
        ensures counts { self.new.counts ≡ self.old.counts }
    {
        self.looked = Some(self.look());
        self.next = Coming::of(led(
            back,
            &self.registers.chain,
            decided.target,
            self.next.fetched(),
        ));
        self.fetch = Held::of(squash(decided.cancels, self.fetch.stage()));
        self.rf = Held::of(squash(decided.cancels, self.rf.stage()));
        self.registers.chain = popped(back, self.registers.chain);
        self.psw = restored(decided.restores && back, self.psw);
    }

    // A transfer decides. Answers whether it cancels the two words behind it.
    fn transfer(&mut self, inst: &Inst) -> bool
        requires { inst.now ≡ live (code_of_turns self.old) self.old.alu }
        ensures state { Does (decided (code_of_turns self.old)) self.old self.new }
        ensures cancels { Tells (λ m. (decision (code_of_turns self.old) m).cancels) self.old result }
        ensures shown { shown_of self.new ≡ shown_of self.old }
        ensures program { KeepsProgram self.old self.new }
        ensures cache { self.new.cache ≡ self.old.cache }
        ensures missed { self.new.missed ≡ self.old.missed }
        ensures counts { self.new.counts ≡ self.old.counts }
    {
        let decided = decide(inst, self.alu.address(), &self.registers);
        let back = self.goes_back(&decided);
        // Most transfers cancel and pop nothing: for them, too, nothing but the next fetch is written.
        if !either(back, decided.cancels) {
            self.next = Coming::of(led(
                false,
                &self.registers.chain,
                decided.target,
                self.next.fetched(),
            ));
            return false;
        }
        self.turn_aside(&decided, back);
        decided.cancels
    }

    // The word in ALU decides. Answers whether it cancels the two words behind it.
    fn decide(&mut self) -> bool
        ensures state { Does (decided (code_of_turns self.old)) self.old self.new }
        ensures cancels { Tells (λ m. (decision (code_of_turns self.old) m).cancels) self.old result }
        ensures shown { shown_of self.new ≡ shown_of self.old }
        ensures program { KeepsProgram self.old self.new }
        ensures cache { self.new.cache ≡ self.old.cache }
        ensures missed { self.new.missed ≡ self.old.missed }
        ensures counts { self.new.counts ≡ self.old.counts }
    {
        let inst = self.live(self.alu);
        // Most words are no transfers: for them nothing but the next fetch is written.
        if !inst.is_transfer() {
            self.go_on();
            return false;
        }
        self.transfer(&inst)
    }

    // The interrupt is taken.
    #[inline(never)]
    fn enter(&mut self)
        ensures state { Does entered self.old self.new }
        ensures shown { shown_of self.new ≡ shown_of self.old }
        ensures program { KeepsProgram self.old self.new }
        ensures cache { self.new.cache ≡ self.old.cache }
        ensures missed { self.new.missed ≡ self.old.missed }
        ensures counts { self.new.counts ≡ self.old.counts }
    {
        self.looked = Some(self.look());
        self.registers.chain.enter(
            saved(self.alu.stage()),
            saved(self.rf.stage()),
            saved(self.fetch.stage()),
        );
        self.psw.enter();
        self.latch = false;
        self.next = Coming::at(0);
        self.fetch = Held::empty();
        self.rf = Held::empty();
        self.alu = Held::empty();
    }

    // Whether an interrupt is taken in this turn.
    fn is_taken(&self) -> bool
        ensures { Tells is_taken self.now result }
    {
        let held = self.alu.is_some();
        self.psw.current.interrupts && self.latch && held
    }

    // The turn ends: where MEM holds a halt, nothing more happens.
    fn end(&mut self) -> Ended
        ensures state { Does (ended (code_of_turns self.old)) self.old self.new }
        ensures taken { Tells takes self.old result.taken }
        ensures squashed { Tells (squashes (code_of_turns self.old)) self.old result.squashed }
        ensures shown { shown_of self.new ≡ shown_of self.old }
        ensures program { KeepsProgram self.old self.new }
        ensures cache { self.new.cache ≡ self.old.cache }
        ensures missed { self.new.missed ≡ self.old.missed }
        ensures counts { self.new.counts ≡ self.old.counts }
    {
        let over = self.halted;
        if over {
            return Ended {
                taken: false,
                squashed: false,
            };
        }
        if self.is_taken() {
            self.enter();
            return Ended {
                taken: true,
                squashed: false,
            };
        }
        let squashed = self.decide();
        Ended {
            taken: false,
            squashed,
        }
    }

    // The next fetch is looked up in the cache.
    fn wait(&mut self)
        ensures state { Waits C.holds self.old self.new }
        ensures cache { FetchesNext C.holds self.old self.new }
        ensures missed { KnowsMiss C.holds self.old self.new }
        ensures shown { shown_of self.new ≡ shown_of self.old }
        ensures program { KeepsProgram self.old self.new }
        ensures counts { self.new.counts ≡ self.old.counts }
    {
        let hit = self.cache.fetch(self.next.address());
        self.missed = !hit;
        self.stall = stall_of(hit);
    }

    // A turn acts.
    fn act(&mut self) -> Cycled
        requires { self.old.counts.cycles < 2 ^ 63 }
        ensures state { Acts C.holds self.old self.new }
        ensures answer { Tells (acted_answer (code_of_turns self.old) self.old.board.input) self.old result }
        ensures cache { FetchesNext C.holds self.old self.new }
        ensures missed { KnowsMiss C.holds self.old self.new }
        ensures program { KeepsProgram self.old self.new }
        ensures cycles { self.new.counts.cycles ≡ self.old.counts.cycles + 1 }
    {
        let byte = self.commit();
        let halted = self.halted;
        self.show();
        let ended = self.end();
        self.counts.turned(self.missed, ended.squashed, ended.taken);
        self.wait();
        Cycled {
            byte,
            taken: ended.taken,
            halted,
            stalled: false,
        }
    }

    /// The machine before its first cycle, with the shipped handler, an empty cache, and an input or none. At most
    /// 1,048,576 bytes of input.
    pub fn new(
        alloc: Global,
        image: &Image,
        input: Option<&[u8]>,
        cache: C,
    ) -> Result<Turns<C>, Memory>
        requires bytes { IsInput input }
        requires empty { C.holds cache [] }
        ensures { IfOk result (λ t. StandsFor C.holds t (image_program image.now input.entry) []) }
    {
        Turns::with(alloc, image, &SHIPPED, input, cache)
    }

    /// The machine before its first cycle, with another handler of at most 4,096 words, which stand from code address 0
    /// on; the rest as for `new`.
    pub fn with(
        alloc: Global,
        image: &Image,
        handler: &[u32],
        input: Option<&[u8]>,
        cache: C,
    ) -> Result<Turns<C>, Memory>
        requires words { length handler.now ≤ CODE_BASE }
        requires bytes { IsInput input }
        requires empty { C.holds cache [] }
        ensures { IfOk result (λ t. StandsFor C.holds t (image_under handler.now image.now input.entry) []) }
    {
        let code = Decoded::new(alloc, handler, &image.code)?;
        let board = Board::new(alloc, &image.user_data, input)?;
        let next = Coming::at(CODE_BASE);
        let mut cache = cache;
        let hit = cache.fetch(CODE_BASE);
        Ok(Turns {
            code,
            registers: Registers {
                file: [0; 32],
                slot: no_slot(),
                md: 0,
                chain: Chain::new(),
            },
            board,
            next,
            fetch: Held::empty(),
            rf: Held::empty(),
            alu: Held::empty(),
            mem: Held::empty(),
            wb: Held::empty(),
            missed: !hit,
            stall: stall_of(hit),
            latch: false,
            psw: Psw::start(),
            halted: false,
            looked: None,
            counts: Counts::none(),
            cache,
        })
    }
}

impl<C: FetchCache> Machine for Turns<C> {
    ghost stands = { λ t p h. StandsFor C.holds t p h };

    ghost cycles = { λ t. t.counts.cycles };

    fn cycle(&mut self, request: bool) -> Cycled {
        if self.halted {
            return Cycled::after_halt();
        }
        self.latch = either(self.latch, request);
        if self.stall > 0 {
            self.stall -= 1;
            self.counts.stalled();
            return Cycled::in_stall();
        }
        self.act()
    }

    fn counts(&self) -> Counts {
        self.counts
    }

    fn register(&self, r: Reg) -> u32 {
        read(&self.registers.file, r)
    }

    fn md(&self) -> u32 {
        self.registers.md
    }

    fn user_data(&self, address: u32) -> u32 {
        self.board.word(address)
    }

    fn inputs(&self) -> u32 {
        self.board.inputs()
    }

    fn latches(&self) -> Latches {
        self.latches_by(&self.look())
    }
}

// Either of two.
fn either(a: bool, b: bool) -> bool
    ensures { result ≡ (a || b) }
{
    a || b
}

// The stalled cycles before a fetch acts.
fn stall_of(resident: bool) -> u8
    ensures { result ≡ (if resident then 0 else 2) }
{
    if resident { 0 } else { 2 }
}
