//! Turns without a request, with what changes in each of them apart from the registers.
ghost use Rattle.std.specs.Prelude.{◌≡◌, ◌<◌, ◌≤◌, ◌+◌, ◌-◌, ◌^◌, ◌∷◌, ◌&&◌, not, false, true, ℕ, List, IfSome, IfNone, slice_index};
ghost use Rattle.mx_isa.specs.Words.{Words, reg};
ghost use Rattle.mx_isa.specs.Views.{dest, is_halt};
ghost use Rattle.mx_delay.specs.Delay.{Code, next_of};
ghost use Rattle.mx_icache.specs.Residency.{resident};
ghost use Rattle.mx_board.specs.Contents.{Contents};
ghost use Rattle.mx_turn.specs.declared.latches.Latches.{Latches as Shown};
ghost use Rattle.mx_turn.specs.Counted.{Counted, after_turn};
ghost use Rattle.mx_turn.specs.Decoded.{ShiftFits};
ghost use Rattle.mx_turn.specs.Stages.{fetch_of, live, squash};
ghost use Rattle.mx_turn.specs.System.{pops};
ghost use Rattle.mx_turn.specs.Cycle.{shifted, committed, commit_byte};
ghost use Rattle.mx_lane.specs.Lanes.{lane_of, joined, lead_of, back, MovesBy, DecidesBy, turn_cycles, turn_counts, AreKnown, IsCounting, after_turns, caught_up};

use crate::Lane;
use crate::window::{Window, window_of};
use mx_board::Board;
use mx_icache::FetchCache;
use mx_isa::Inst;
use mx_turn::{Coming, Counts, Decided, Held, decide, led, popped, read, restored, squash};

/// The cycles of the longest turn, with the stalled ones of its fetch.
pub(crate) const LONGEST_TURN: u64 = 3;

// Apart from the registers, of which any may be written, the compiler keeps these where the processor reads them at once.
/// What of a lane changes in each turn: the fetches in the stages, the counts, and whether the fetch of the turn missed; and which
/// words need not be looked up in the cache.
#[derive(Drop)]
pub struct Queue {
    pub next: Coming,
    pub rf: Held,
    pub alu: Held,
    pub mem: Held,
    pub wb: Held,
    pub counts: Counts,
    pub missed: bool,
    pub window: Window,
    /// The words that were known before those of the window.
    pub other: Window,
    /// How many cycles were left when the turns were last counted. Since then each turn took one cycle.
    pub mark: u64,
}

/// Where a word leads that goes back to no saved fetch: to an address, if not to the next word, and whether it cancels the two
/// words behind it.
#[derive(Clone, Copy)]
struct Lead {
    target: Option<u32>,
    cancels: bool,
}

impl Queue {
    // Where a transfer in ALU leads; none where it goes back to a saved fetch.
    #[inline(always)]
    fn transfer(&self, inst: &Inst, lane: &Lane) -> Option<Lead>
        ensures target { IfSome result (λ l. l.target ≡ (lead_of inst.now self.now lane.now).target) }
        ensures cancels { IfSome result (λ l. l.cancels ≡ (lead_of inst.now self.now lane.now).cancels) }
        ensures code_address { IfSome result (λ l. IfSome l.target (λ a. a < 2 ^ 31)) }
        ensures stays { IfSome result (λ l. (pops inst.now && not lane.now.psw.current.user) ≡ false) }
    {
        let decided = decide(inst, self.alu.address(), &lane.registers);
        if goes_back(decided.pops, lane.psw.current.user) {
            return None;
        }
        Some(Lead {
            target: decided.target,
            cancels: decided.cancels,
        })
    }

    // The word in ALU leads to the next one, where it is no transfer and no halt.
    #[inline(always)]
    fn plain_lead(&self, inst: &Inst, lane: &Lane) -> Option<Lead>
        ensures target { IfSome result (λ l. l.target ≡ (lead_of inst.now self.now lane.now).target) }
        ensures cancels { IfSome result (λ l. l.cancels ≡ (lead_of inst.now self.now lane.now).cancels) }
        ensures code_address { IfSome result (λ l. IfSome l.target (λ a. a < 2 ^ 31)) }
        ensures stays { IfSome result (λ l. (pops inst.now && not lane.now.psw.current.user) ≡ false) }
        ensures on { IfSome result (λ l. is_halt inst.now ≡ false) }
    {
        match inst {
            Inst::Branch { .. } | Inst::Jspci { .. } | Inst::Jpc | Inst::Jpcrs | Inst::Halt => None,
            _ => Some(Lead {
                target: None,
                cancels: false,
            }),
        }
    }

    // The stages move on, the next fetch being where the word in ALU leads.
    #[inline(always)]
    fn move_on(&mut self, lead: &Lead)
        requires code_address { IfSome lead.now.target (λ a. a < 2 ^ 31) }
        ensures state { MovesBy (record { target = lead.now.target; cancels = lead.now.cancels }) self.old self.new }
        ensures next { self.new.next ≡ fetch_of (next_of lead.now.target self.old.next.address) }
        ensures counts { self.new.counts ≡ self.old.counts }
        ensures missed { self.new.missed ≡ self.old.missed }
        ensures window { self.new.window ≡ self.old.window }
        ensures other { self.new.other ≡ self.old.other }
        ensures mark { self.new.mark ≡ self.old.mark }
    {
        self.wb = self.mem;
        self.mem = self.alu;
        self.alu = squashed(lead.cancels, self.rf);
        self.rf = squashed(lead.cancels, self.next.held());
        self.next = led_to(lead.target, &self.next);
    }

    // The stages move on, where a transfer in ALU leads. Answers whether it cancels the two words behind it; none, and nothing is
    // done, where it goes back to a saved fetch; nor of a halt.
    #[inline(always)]
    pub(crate) fn follow(&mut self, inst: &Inst, lane: &Lane) -> Option<bool>
        ensures state { IfSome result (λ c. DecidesBy inst.now (lead_of inst.now self.old lane.now) self.old lane.now self.new lane.now) }
        ensures cancels { IfSome result (λ c. c ≡ (lead_of inst.now self.old lane.now).cancels) }
        ensures next { IfSome result (λ c. self.new.next ≡ fetch_of (next_of (lead_of inst.now self.old lane.now).target self.old.next.address)) }
        ensures counts { self.new.counts ≡ self.old.counts }
        ensures missed { self.new.missed ≡ self.old.missed }
        ensures window { self.new.window ≡ self.old.window }
        ensures other { self.new.other ≡ self.old.other }
        ensures mark { self.new.mark ≡ self.old.mark }
        ensures nothing { IfNone result (self.new ≡ self.old) }
        ensures on { IfSome result (λ c. is_halt inst.now ≡ false) }
    {
        if is_halt(inst) {
            return None;
        }
        let Some(lead) = self.transfer(inst, lane) else {
            return None;
        };
        self.move_on(&lead);
        Some(lead.cancels)
    }

    // The stages move on to the saved fetch.
    fn go_back(&mut self, decided: &Decided, lane: &mut Lane)
        requires code_address { IfSome decided.now.target (λ a. a < 2 ^ 31) }
        ensures state { (b : Contents) (past : List ℕ) (before : Words) (shown : Shown) (counts : Counted)
            → lane_of (joined self.new lane.new) b (self.new.next.address ∷ past) before shown counts
            ≡ shifted (back decided.now.restores (record { target = decided.now.target; cancels = decided.now.cancels })
            (lane_of (joined self.old lane.old) b past before shown counts)) }
        ensures counts { self.new.counts ≡ self.old.counts }
        ensures missed { self.new.missed ≡ self.old.missed }
        ensures window { self.new.window ≡ self.old.window }
        ensures other { self.new.other ≡ self.old.other }
        ensures mark { self.new.mark ≡ self.old.mark }
    {
        self.wb = self.mem;
        self.mem = self.alu;
        self.alu = squashed(decided.cancels, self.rf);
        self.rf = squashed(decided.cancels, self.next.held());
        self.next = Coming::of(led(
            true,
            &lane.registers.chain,
            decided.target,
            self.next.fetched(),
        ));
        lane.registers.chain = popped(true, lane.registers.chain);
        lane.psw = restored(decided.restores, lane.psw);
    }

    // The same where the word goes back to a saved fetch; none, and nothing is done, where it does not.
    #[inline(never)]
    fn come_back(&mut self, inst: Inst, lane: &mut Lane) -> Option<bool>
        ensures state { IfSome result (λ c. DecidesBy inst (lead_of inst self.old lane.old) self.old lane.old self.new lane.new) }
        ensures cancels { IfSome result (λ c. c ≡ (lead_of inst self.old lane.old).cancels) }
        ensures counts { self.new.counts ≡ self.old.counts }
        ensures missed { self.new.missed ≡ self.old.missed }
        ensures window { self.new.window ≡ self.old.window }
        ensures other { self.new.other ≡ self.old.other }
        ensures mark { self.new.mark ≡ self.old.mark }
        ensures nothing { IfNone result (self.new ≡ self.old) }
        ensures kept { IfNone result (lane.new ≡ lane.old) }
        ensures on { IfSome result (λ c. is_halt inst ≡ false) }
    {
        if is_halt(&inst) {
            return None;
        }
        let decided = decide(&inst, self.alu.address(), &lane.registers);
        if !goes_back(decided.pops, lane.psw.current.user) {
            return None;
        }
        self.go_back(&decided, lane);
        Some(decided.cancels)
    }

    // The same of each transfer.
    #[inline(always)]
    fn transfers(&mut self, inst: &Inst, lane: &mut Lane) -> Option<bool>
        ensures state { IfSome result (λ c. DecidesBy inst.now (lead_of inst.now self.old lane.old) self.old lane.old self.new lane.new) }
        ensures cancels { IfSome result (λ c. c ≡ (lead_of inst.now self.old lane.old).cancels) }
        ensures counts { self.new.counts ≡ self.old.counts }
        ensures missed { self.new.missed ≡ self.old.missed }
        ensures window { self.new.window ≡ self.old.window }
        ensures other { self.new.other ≡ self.old.other }
        ensures mark { self.new.mark ≡ self.old.mark }
        ensures nothing { IfNone result (self.new ≡ self.old) }
        ensures kept { IfNone result (lane.new ≡ lane.old) }
        ensures on { IfSome result (λ c. is_halt inst.now ≡ false) }
    {
        if is_return(inst, lane.psw.current.user) {
            return self.come_back(*inst, lane);
        }
        self.follow(inst, lane)
    }

    // The same of any word in ALU. Most are no transfers.
    #[inline(always)]
    pub(crate) fn step(&mut self, inst: &Inst, lane: &mut Lane) -> Option<bool>
        ensures state { IfSome result (λ c. DecidesBy inst.now (lead_of inst.now self.old lane.old) self.old lane.old self.new lane.new) }
        ensures cancels { IfSome result (λ c. c ≡ (lead_of inst.now self.old lane.old).cancels) }
        ensures counts { self.new.counts ≡ self.old.counts }
        ensures missed { self.new.missed ≡ self.old.missed }
        ensures window { self.new.window ≡ self.old.window }
        ensures other { self.new.other ≡ self.old.other }
        ensures mark { self.new.mark ≡ self.old.mark }
        ensures nothing { IfNone result (self.new ≡ self.old) }
        ensures kept { IfNone result (lane.new ≡ lane.old) }
        ensures on { IfSome result (λ c. is_halt inst.now ≡ false) }
    {
        let Some(lead) = self.plain_lead(inst, lane) else {
            return self.transfers(inst, lane);
        };
        self.move_on(&lead);
        Some(lead.cancels)
    }

    // The word in MEM commits.
    #[inline(always)]
    pub(crate) fn commit(&self, inst: &Inst, lane: &mut Lane, board: &mut Board) -> Option<u8>
        requires fits { ShiftFits inst.now }
        requires on { is_halt inst.now ≡ false }
        ensures state { (code : Code) (past : List ℕ) (before : Words) (shown : Shown) (counts : Counted) → inst.now ≡ live code self.now.mem
            → lane_of (joined self.now lane.new) board.new past (slice_index lane.old.registers.file) shown counts
            ≡ committed code board.old.input (lane_of (joined self.now lane.old) board.old past before shown counts) }
        ensures byte { (code : Code) (past : List ℕ) (before : Words) (shown : Shown) (counts : Counted) → inst.now ≡ live code self.now.mem
            → result ≡ commit_byte code board.old.input (lane_of (joined self.now lane.old) board.old past before shown counts) }
        ensures input { board.new.input ≡ board.old.input }
        ensures replaced { lane.new.replaced ≡ reg (slice_index lane.old.registers.file) (dest inst.now) }
    {
        lane.replaced = read(&lane.registers.file, inst.dest());
        lane.registers
            .commit(inst, self.mem.address(), lane.psw.current.user, board)
            .byte
    }

    // The cache fetches the next word. Answers how many cycles that takes. Nothing is known of the cache then.
    #[inline(never)]
    fn ask<C: FetchCache>(&mut self, cache: &mut C) -> u64
        requires room { self.old.counts.cycles + 2 ≤ 2 ^ 63 }
        requires mark { 2 ≤ self.old.mark }
        ensures cycles { (past : List ℕ) → C.holds cache.old past → result ≡ turn_cycles (resident past self.old.next.address) }
        ensures few { result ≤ 3 }
        ensures some { 0 < result }
        ensures risen { self.new.counts.cycles + 1 ≡ self.old.counts.cycles + result }
        ensures mark { self.new.mark + result ≡ self.old.mark + 1 }
        ensures counts { (past : List ℕ) → C.holds cache.old past
            → self.new.counts ≡ turn_counts (resident past self.old.next.address) self.old.counts }
        ensures missed { (past : List ℕ) → C.holds cache.old past → self.new.missed ≡ not (resident past self.old.next.address) }
        ensures cache { (past : List ℕ) → C.holds cache.old past → C.holds cache.new (self.old.next.address ∷ past) }
        ensures known { AreKnown C.holds self.new cache.new }
        ensures rest { self.new ≡ record self.old {
          counts = self.new.counts;
          missed = self.new.missed;
          window = self.new.window;
          other = self.new.other;
          mark = self.new.mark;
        } }
    {
        let hit = cache.fetch(self.next.address());
        self.missed = !hit;
        self.window = Window::empty();
        self.other = Window::empty();
        if hit {
            return 1;
        }
        self.counts.stalled();
        self.counts.stalled();
        self.mark -= 2;
        LONGEST_TURN
    }

    // The same of a word that may be in the cache.
    #[inline(never)]
    fn look_up<C: FetchCache>(&mut self, cache: &mut C) -> u64
        requires known { AreKnown C.holds self.old cache.old }
        requires missed { self.old.missed ≡ false }
        requires room { self.old.counts.cycles + 2 ≤ 2 ^ 63 }
        requires mark { 2 ≤ self.old.mark }
        ensures cycles { (past : List ℕ) → C.holds cache.old past → result ≡ turn_cycles (resident past self.old.next.address) }
        ensures few { result ≤ 3 }
        ensures some { 0 < result }
        ensures risen { self.new.counts.cycles + 1 ≡ self.old.counts.cycles + result }
        ensures mark { self.new.mark + result ≡ self.old.mark + 1 }
        ensures counts { (past : List ℕ) → C.holds cache.old past
            → self.new.counts ≡ turn_counts (resident past self.old.next.address) self.old.counts }
        ensures missed { (past : List ℕ) → C.holds cache.old past → self.new.missed ≡ not (resident past self.old.next.address) }
        ensures cache { (past : List ℕ) → C.holds cache.old past → C.holds cache.new (self.old.next.address ∷ past) }
        ensures known { AreKnown C.holds self.new cache.new }
        ensures rest { self.new ≡ record self.old {
          counts = self.new.counts;
          missed = self.new.missed;
          window = self.new.window;
          other = self.new.other;
          mark = self.new.mark;
        } }
    {
        let address = self.next.address();
        let found = window_of(address, cache);
        if !found.has(address, cache) {
            return self.ask(cache);
        }
        self.other = self.window;
        self.window = found;
        1
    }

    // The same of a word that may be in the other window, as in a loop over two lines.
    #[inline(always)]
    fn seek<C: FetchCache>(&mut self, cache: &mut C) -> u64
        requires known { AreKnown C.holds self.old cache.old }
        requires missed { self.old.missed ≡ false }
        requires room { self.old.counts.cycles + 2 ≤ 2 ^ 63 }
        requires mark { 2 ≤ self.old.mark }
        ensures cycles { (past : List ℕ) → C.holds cache.old past → result ≡ turn_cycles (resident past self.old.next.address) }
        ensures few { result ≤ 3 }
        ensures some { 0 < result }
        ensures risen { self.new.counts.cycles + 1 ≡ self.old.counts.cycles + result }
        ensures mark { self.new.mark + result ≡ self.old.mark + 1 }
        ensures counts { (past : List ℕ) → C.holds cache.old past
            → self.new.counts ≡ turn_counts (resident past self.old.next.address) self.old.counts }
        ensures missed { (past : List ℕ) → C.holds cache.old past → self.new.missed ≡ not (resident past self.old.next.address) }
        ensures cache { (past : List ℕ) → C.holds cache.old past → C.holds cache.new (self.old.next.address ∷ past) }
        ensures known { AreKnown C.holds self.new cache.new }
        ensures rest { self.new ≡ record self.old {
          counts = self.new.counts;
          missed = self.new.missed;
          window = self.new.window;
          other = self.new.other;
          mark = self.new.mark;
        } }
    {
        if !self.other.has(self.next.address(), cache) {
            return self.look_up(cache);
        }
        let window = self.window;
        self.window = self.other;
        self.other = window;
        1
    }

    // The turns are counted.
    #[inline(always)]
    pub(crate) fn settle(&mut self, left: u64)
        requires counting { IsCounting left self.old }
        ensures { self.new ≡ record self.old { counts = after_turns (self.old.mark - left) self.old.counts; mark = left } }
    {
        let turns = self.mark - left;
        self.counts = Counts {
            cycles: self.counts.cycles + turns,
            fetches: self.counts.fetches + turns,
            ..self.counts
        };
        self.mark = left;
    }

    // A turn is counted whose fetch missed, or whose word cancels two. Few do: a call of its own keeps the way of the others short.
    #[inline(never)]
    fn count_apart(&mut self, left: u64, cancels: bool)
        requires counting { IsCounting left self.old }
        requires left { 1 ≤ left }
        ensures { self.new ≡ record self.old {
          counts = after_turn self.old.missed cancels false (caught_up left self.old).counts;
          missed = false;
          mark = left - 1;
        } }
    {
        self.settle(left);
        self.counts.turned(self.missed, cancels, false);
        self.missed = false;
        self.mark = left - 1;
    }

    // The turn is counted, or will be with those behind it. Its fetch was a hit.
    #[inline(always)]
    #[tactic(auto, using(crate::proofs::Counting::one_more))]
    fn count_later(&mut self, left: u64, cancels: bool)
        requires counting { IsCounting left self.old }
        requires left { 1 ≤ left }
        requires missed { self.old.missed ≡ false }
        ensures counts { (caught_up (left - 1) self.new).counts ≡ after_turn self.old.missed cancels false (caught_up left self.old).counts }
        ensures missed { self.new.missed ≡ false }
        ensures within { left - 1 ≤ self.new.mark }
        ensures total { self.new.counts.cycles + self.new.mark ≡ self.old.counts.cycles + self.old.mark }
        ensures rest { self.new ≡ record self.old { counts = self.new.counts; missed = self.new.missed; mark = self.new.mark } }
    {
        if cancels {
            self.count_apart(left, cancels);
        }
    }

    // The same, whether its fetch was a hit or not.
    #[inline(always)]
    fn count_turn(&mut self, left: u64, cancels: bool)
        requires counting { IsCounting left self.old }
        requires left { 1 ≤ left }
        ensures counts { (caught_up (left - 1) self.new).counts ≡ after_turn self.old.missed cancels false (caught_up left self.old).counts }
        ensures missed { self.new.missed ≡ false }
        ensures within { left - 1 ≤ self.new.mark }
        ensures total { self.new.counts.cycles + self.new.mark ≡ self.old.counts.cycles + self.old.mark }
        ensures rest { self.new ≡ record self.old { counts = self.new.counts; missed = self.new.missed; mark = self.new.mark } }
    {
        if self.missed {
            self.count_apart(left, cancels);
        } else {
            self.count_later(left, cancels);
        }
    }

    // The turn is counted, with the stalled cycles of a fetch that is not in the window. Answers how many cycles these are.
    #[inline(never)]
    fn count_anew<C: FetchCache>(&mut self, left: u64, cancels: bool, cache: &mut C) -> u64
        requires counting { IsCounting left self.old }
        requires left { 3 ≤ left }
        requires known { AreKnown C.holds self.old cache.old }
        ensures cycles { (past : List ℕ) → C.holds cache.old past → result ≡ turn_cycles (resident past self.old.next.address) }
        ensures few { result ≤ 3 }
        ensures some { 0 < result }
        ensures within { left - result ≤ self.new.mark }
        ensures total { self.new.counts.cycles + self.new.mark ≡ self.old.counts.cycles + self.old.mark }
        ensures counts { (past : List ℕ) → C.holds cache.old past → (caught_up (left - result) self.new).counts
            ≡ turn_counts (resident past self.old.next.address) (after_turn self.old.missed cancels false (caught_up left self.old).counts) }
        ensures missed { (past : List ℕ) → C.holds cache.old past → self.new.missed ≡ not (resident past self.old.next.address) }
        ensures cache { (past : List ℕ) → C.holds cache.old past → C.holds cache.new (self.old.next.address ∷ past) }
        ensures known { AreKnown C.holds self.new cache.new }
        ensures rest { self.new ≡ record self.old {
          counts = self.new.counts;
          missed = self.new.missed;
          window = self.new.window;
          other = self.new.other;
          mark = self.new.mark;
        } }
    {
        self.count_turn(left, cancels);
        self.seek(cache)
    }

    // The turn is counted, with the stalled cycles of the next fetch. Answers how many cycles these are.
    #[inline(always)]
    pub(crate) fn count<C: FetchCache>(&mut self, left: u64, cancels: bool, cache: &mut C) -> u64
        requires counting { IsCounting left self.old }
        requires left { 3 ≤ left }
        requires known { AreKnown C.holds self.old cache.old }
        ensures cycles { (past : List ℕ) → C.holds cache.old past → result ≡ turn_cycles (resident past self.old.next.address) }
        ensures few { result ≤ 3 }
        ensures some { 0 < result }
        ensures within { left - result ≤ self.new.mark }
        ensures total { self.new.counts.cycles + self.new.mark ≡ self.old.counts.cycles + self.old.mark }
        ensures counts { (past : List ℕ) → C.holds cache.old past → (caught_up (left - result) self.new).counts
            ≡ turn_counts (resident past self.old.next.address) (after_turn self.old.missed cancels false (caught_up left self.old).counts) }
        ensures missed { (past : List ℕ) → C.holds cache.old past → self.new.missed ≡ not (resident past self.old.next.address) }
        ensures cache { (past : List ℕ) → C.holds cache.old past → C.holds cache.new (self.old.next.address ∷ past) }
        ensures known { AreKnown C.holds self.new cache.new }
        ensures rest { self.new ≡ record self.old {
          counts = self.new.counts;
          missed = self.new.missed;
          window = self.new.window;
          other = self.new.other;
          mark = self.new.mark;
        } }
    {
        if !self.window.has(self.next.address(), cache) {
            return self.count_anew(left, cancels, cache);
        }
        self.count_later(left, cancels);
        1
    }

    // Whether the fetch of the turn was a hit, and the next one is in the window, and not a saved one.
    pub(crate) fn is_near<C: FetchCache>(&self, inst: &Inst, lane: &Lane, cache: &C) -> bool
        requires known { AreKnown C.holds self.now cache.now }
        ensures resident { result ≡ true → (past : List ℕ) → C.holds cache.now past
            → resident past (next_of (lead_of inst.now self.now lane.now).target self.now.next.address) ≡ true }
        ensures keeps { result ≡ true → (past : List ℕ) → C.holds cache.now past
            → C.holds cache.now (next_of (lead_of inst.now self.now lane.now).target self.now.next.address ∷ past) }
        ensures hit { result ≡ true → self.now.missed ≡ false }
    {
        if self.missed {
            return false;
        }
        let Some(lead) = self.transfer(inst, lane) else {
            return false;
        };
        let coming = led_to(lead.target, &self.next);
        self.window.has(coming.address(), cache)
    }

    // The turn is counted, where the next fetch is resident. Answers its cycles, as above.
    pub(crate) fn count_short<C: FetchCache>(&mut self, left: u64, cancels: bool, _cache: &C) -> u64
        requires counting { IsCounting left self.old }
        requires left { 1 ≤ left }
        requires known { AreKnown C.holds self.old _cache.now }
        requires missed { self.old.missed ≡ false }
        requires resident { (past : List ℕ) → C.holds _cache.now past → resident past self.old.next.address ≡ true }
        requires keeps { (past : List ℕ) → C.holds _cache.now past → C.holds _cache.now (self.old.next.address ∷ past) }
        ensures cycles { (past : List ℕ) → C.holds _cache.now past → result ≡ turn_cycles (resident past self.old.next.address) }
        ensures few { result ≤ 1 }
        ensures within { left - result ≤ self.new.mark }
        ensures total { self.new.counts.cycles + self.new.mark ≡ self.old.counts.cycles + self.old.mark }
        ensures counts { (past : List ℕ) → C.holds _cache.now past → (caught_up (left - result) self.new).counts
            ≡ turn_counts (resident past self.old.next.address) (after_turn self.old.missed cancels false (caught_up left self.old).counts) }
        ensures missed { (past : List ℕ) → C.holds _cache.now past → self.new.missed ≡ not (resident past self.old.next.address) }
        ensures cache { (past : List ℕ) → C.holds _cache.now past → C.holds _cache.now (self.old.next.address ∷ past) }
        ensures known { AreKnown C.holds self.new _cache.now }
        ensures rest { self.new ≡ record self.old {
          counts = self.new.counts;
          missed = self.new.missed;
          window = self.new.window;
          other = self.new.other;
          mark = self.new.mark;
        } }
    {
        self.count_later(left, cancels);
        1
    }
}

// A stage, squashed where a branch cancels it.
#[inline(always)]
#[tactic(auto, using(crate::proofs::Turning::unsquashed))]
fn squashed(cancels: bool, stage: Held) -> Held
    ensures { result ≡ squash cancels stage }
{
    if cancels { marked(stage) } else { stage }
}

// A squashed stage. Few are: a call of its own keeps the way of the others short.
#[inline(never)]
fn marked(stage: Held) -> Held
    ensures { result ≡ squash true stage }
{
    Held::of(squash(true, stage.stage()))
}

// The next fetch: of a target, or of the address behind the last one.
fn led_to(target: Option<u32>, last: &Coming) -> Coming
    requires { IfSome target (λ a. a < 2 ^ 31) }
    ensures { result ≡ fetch_of (next_of target last.now.address) }
{
    match target {
        Some(target) => Coming::at(target),
        None => last.following(),
    }
}

// Whether a word goes back from the system.
fn goes_back(pops: bool, user: bool) -> bool
    ensures { result ≡ (pops && not user) }
{
    pops && !user
}

// Whether a word goes back from the system, or may do so.
fn is_return(inst: &Inst, user: bool) -> bool {
    matches!(inst, Inst::Jpc | Inst::Jpcrs) && !user
}

// Whether a word is a halt.
fn is_halt(inst: &Inst) -> bool
    ensures { result ≡ is_halt inst.now }
{
    matches!(inst, Inst::Halt)
}
