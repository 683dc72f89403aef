//! Turns without a request, one and many.
ghost use Rattle.std.specs.Prelude.{◌≡◌, ◌≤◌, ◌+◌, ◌-◌, ◌^◌, ◌++◌, IfOk, OnOk};
ghost use Rattle.mx_delay.specs.Delay.{Code, idle};
ghost use Rattle.mx_turn.specs.Decoded.{ShiftFits, code_in};
ghost use Rattle.mx_turn.specs.Stages.{live};
ghost use Rattle.mx_turn.specs.Cycle.{MachineState as State};
ghost use Rattle.mx_lane.specs.Lanes.{joined, quietly, later_bytes, InTurn, AreKnown, IsCounting, caught_up};

use crate::Lane;
use crate::queue::{LONGEST_TURN, Queue};
use mx_board::Board;
use mx_icache::FetchCache;
use mx_isa::Inst;
use mx_text::push_byte;
use mx_turn::Decoded;
use std::alloc::AllocError;

impl Queue {
    // One turn of a word, with the stalled cycles of the next fetch. Answers how many cycles they are; 0, and nothing is done,
    // where the word is a halt.
    #[inline(always)]
    fn turn_of<C: FetchCache>(
        &mut self,
        left: u64,
        inst: &Inst,
        lane: &mut Lane,
        board: &mut Board,
        cache: &mut C,
        console: &mut Vec<u8>,
    ) -> Result<u64, AllocError>
        requires counting { IsCounting left self.old }
        requires left { 3 ≤ left }
        requires fits { ShiftFits inst.now }
        requires known { AreKnown C.holds self.old cache.old }
        ensures few { IfOk result (λ n. n ≤ 3) }
        ensures within { IfOk result (λ n. left - n ≤ self.new.mark) }
        ensures total { OnOk result (self.new.counts.cycles + self.new.mark ≡ self.old.counts.cycles + self.old.mark) }
        ensures input { board.new.input ≡ board.old.input }
        ensures known { OnOk result (AreKnown C.holds self.new cache.new) }
        ensures next { IfOk result (λ n. (code : Code) (m : State) → inst.now ≡ live code self.old.alu
            → InTurn C.holds code m (joined (caught_up left self.old) lane.old) board.old cache.old
            → InTurn C.holds code (quietly code board.old.input n m) (joined (caught_up (left - n) self.new) lane.new) board.new cache.new) }
        ensures console { IfOk result (λ n. (code : Code) (m : State) → inst.now ≡ live code self.old.alu
            → InTurn C.holds code m (joined (caught_up left self.old) lane.old) board.old cache.old
            → console.new.items ≡ console.old.items ++ later_bytes code board.old.input n m) }
    {
        let Some(cancels) = self.step(inst, lane) else {
            return Ok(0);
        };
        let byte = self.commit(inst, lane, board);
        push_byte(console, byte)?;
        Ok(self.count(left, cancels, cache))
    }

    // The same of words that are rare: a call of its own keeps the way of the others short.
    #[inline(never)]
    fn turn_apart<C: FetchCache>(
        &mut self,
        left: u64,
        inst: &Inst,
        lane: &mut Lane,
        board: &mut Board,
        cache: &mut C,
        console: &mut Vec<u8>,
    ) -> Result<u64, AllocError>
        requires counting { IsCounting left self.old }
        requires left { 3 ≤ left }
        requires fits { ShiftFits inst.now }
        requires known { AreKnown C.holds self.old cache.old }
        ensures few { IfOk result (λ n. n ≤ 3) }
        ensures within { IfOk result (λ n. left - n ≤ self.new.mark) }
        ensures total { OnOk result (self.new.counts.cycles + self.new.mark ≡ self.old.counts.cycles + self.old.mark) }
        ensures input { board.new.input ≡ board.old.input }
        ensures known { OnOk result (AreKnown C.holds self.new cache.new) }
        ensures next { IfOk result (λ n. (code : Code) (m : State) → inst.now ≡ live code self.old.alu
            → InTurn C.holds code m (joined (caught_up left self.old) lane.old) board.old cache.old
            → InTurn C.holds code (quietly code board.old.input n m) (joined (caught_up (left - n) self.new) lane.new) board.new cache.new) }
        ensures console { IfOk result (λ n. (code : Code) (m : State) → inst.now ≡ live code self.old.alu
            → InTurn C.holds code m (joined (caught_up left self.old) lane.old) board.old cache.old
            → console.new.items ≡ console.old.items ++ later_bytes code board.old.input n m) }
    {
        self.turn_of(left, inst, lane, board, cache, console)
    }

    // The same where the word does nothing: its instruction is made in a call of its own, and so not in each turn.
    #[inline(never)]
    fn turn_idle<C: FetchCache>(
        &mut self,
        left: u64,
        lane: &mut Lane,
        board: &mut Board,
        cache: &mut C,
        console: &mut Vec<u8>,
    ) -> Result<u64, AllocError>
        requires counting { IsCounting left self.old }
        requires left { 3 ≤ left }
        requires known { AreKnown C.holds self.old cache.old }
        ensures few { IfOk result (λ n. n ≤ 3) }
        ensures within { IfOk result (λ n. left - n ≤ self.new.mark) }
        ensures total { OnOk result (self.new.counts.cycles + self.new.mark ≡ self.old.counts.cycles + self.old.mark) }
        ensures input { board.new.input ≡ board.old.input }
        ensures known { OnOk result (AreKnown C.holds self.new cache.new) }
        ensures next { IfOk result (λ n. (code : Code) (m : State) → idle ≡ live code self.old.alu
            → InTurn C.holds code m (joined (caught_up left self.old) lane.old) board.old cache.old
            → InTurn C.holds code (quietly code board.old.input n m) (joined (caught_up (left - n) self.new) lane.new) board.new cache.new) }
        ensures console { IfOk result (λ n. (code : Code) (m : State) → idle ≡ live code self.old.alu
            → InTurn C.holds code m (joined (caught_up left self.old) lane.old) board.old cache.old
            → console.new.items ≡ console.old.items ++ later_bytes code board.old.input n m) }
    {
        self.turn_of(left, &Inst::default(), lane, board, cache, console)
    }

    // The same, with a way of its own for each kind of word that is frequent: the compiler then tests the kind once, also
    // since it is a copy that it tests.
    #[inline(always)]
    fn turn_by_kind<C: FetchCache>(
        &mut self,
        left: u64,
        inst: &Inst,
        lane: &mut Lane,
        board: &mut Board,
        cache: &mut C,
        console: &mut Vec<u8>,
    ) -> Result<u64, AllocError>
        requires counting { IsCounting left self.old }
        requires left { 3 ≤ left }
        requires fits { ShiftFits inst.now }
        requires known { AreKnown C.holds self.old cache.old }
        ensures few { IfOk result (λ n. n ≤ 3) }
        ensures within { IfOk result (λ n. left - n ≤ self.new.mark) }
        ensures total { OnOk result (self.new.counts.cycles + self.new.mark ≡ self.old.counts.cycles + self.old.mark) }
        ensures input { board.new.input ≡ board.old.input }
        ensures known { OnOk result (AreKnown C.holds self.new cache.new) }
        ensures next { IfOk result (λ n. (code : Code) (m : State) → inst.now ≡ live code self.old.alu
            → InTurn C.holds code m (joined (caught_up left self.old) lane.old) board.old cache.old
            → InTurn C.holds code (quietly code board.old.input n m) (joined (caught_up (left - n) self.new) lane.new) board.new cache.new) }
        ensures console { IfOk result (λ n. (code : Code) (m : State) → inst.now ≡ live code self.old.alu
            → InTurn C.holds code m (joined (caught_up left self.old) lane.old) board.old cache.old
            → console.new.items ≡ console.old.items ++ later_bytes code board.old.input n m) }
    {
        let copy = *inst;
        match inst {
            Inst::Load { .. } => self.turn_of(left, &copy, lane, board, cache, console),
            Inst::Store { .. } => self.turn_of(left, &copy, lane, board, cache, console),
            Inst::Branch { .. } => self.turn_of(left, &copy, lane, board, cache, console),
            Inst::Compute { .. } => self.turn_of(left, &copy, lane, board, cache, console),
            Inst::Addi { .. } => self.turn_of(left, &copy, lane, board, cache, console),
            Inst::Jspci { .. } => self.turn_of(left, &copy, lane, board, cache, console),
            Inst::MoveFrom { .. } => self.turn_of(left, &copy, lane, board, cache, console),
            Inst::MoveTo { .. } => self.turn_of(left, &copy, lane, board, cache, console),
            _ => self.turn_apart(left, inst, lane, board, cache, console),
        }
    }

    // The same of the word in ALU. A squashed one, or one beyond the code, does nothing.
    #[inline(always)]
    fn turn<C: FetchCache>(
        &mut self,
        left: u64,
        lane: &mut Lane,
        code: &Decoded,
        board: &mut Board,
        cache: &mut C,
        console: &mut Vec<u8>,
    ) -> Result<u64, AllocError>
        requires counting { IsCounting left self.old }
        requires left { 3 ≤ left }
        requires known { AreKnown C.holds self.old cache.old }
        ensures few { IfOk result (λ n. n ≤ 3) }
        ensures within { IfOk result (λ n. left - n ≤ self.new.mark) }
        ensures total { OnOk result (self.new.counts.cycles + self.new.mark ≡ self.old.counts.cycles + self.old.mark) }
        ensures input { board.new.input ≡ board.old.input }
        ensures known { OnOk result (AreKnown C.holds self.new cache.new) }
        ensures next { IfOk result (λ n. (m : State) → InTurn C.holds (code_in code.now) m (joined (caught_up left self.old) lane.old) board.old cache.old
            → InTurn C.holds (code_in code.now) (quietly (code_in code.now) board.old.input n m)
            (joined (caught_up (left - n) self.new) lane.new) board.new cache.new) }
        ensures console { IfOk result (λ n. (m : State) → InTurn C.holds (code_in code.now) m (joined (caught_up left self.old) lane.old) board.old cache.old
            → console.new.items ≡ console.old.items ++ later_bytes (code_in code.now) board.old.input n m) }
    {
        match code.get(self.alu) {
            Some(inst) => self.turn_by_kind(left, inst, lane, board, cache, console),
            None => self.turn_idle(left, lane, board, cache, console),
        }
    }

    // One turn of a word with room for one cycle alone: 0, and nothing is done, also where the next fetch is not in the window, or is a
    // saved one.
    fn short_turn<C: FetchCache>(
        &mut self,
        left: u64,
        inst: &Inst,
        lane: &mut Lane,
        board: &mut Board,
        cache: &C,
        console: &mut Vec<u8>,
    ) -> Result<u64, AllocError>
        requires counting { IsCounting left self.old }
        requires left { 1 ≤ left }
        requires fits { ShiftFits inst.now }
        requires known { AreKnown C.holds self.old cache.now }
        ensures few { IfOk result (λ n. n ≤ 1) }
        ensures within { IfOk result (λ n. left - n ≤ self.new.mark) }
        ensures total { OnOk result (self.new.counts.cycles + self.new.mark ≡ self.old.counts.cycles + self.old.mark) }
        ensures input { board.new.input ≡ board.old.input }
        ensures known { OnOk result (AreKnown C.holds self.new cache.now) }
        ensures next { IfOk result (λ n. (code : Code) (m : State) → inst.now ≡ live code self.old.alu
            → InTurn C.holds code m (joined (caught_up left self.old) lane.old) board.old cache.now
            → InTurn C.holds code (quietly code board.old.input n m) (joined (caught_up (left - n) self.new) lane.new) board.new cache.now) }
        ensures console { IfOk result (λ n. (code : Code) (m : State) → inst.now ≡ live code self.old.alu
            → InTurn C.holds code m (joined (caught_up left self.old) lane.old) board.old cache.now
            → console.new.items ≡ console.old.items ++ later_bytes code board.old.input n m) }
    {
        if !self.is_near(inst, lane, cache) {
            return Ok(0);
        }
        let Some(cancels) = self.follow(inst, lane) else {
            return Ok(0);
        };
        let byte = self.commit(inst, lane, board);
        push_byte(console, byte)?;
        Ok(self.count_short(left, cancels, cache))
    }

    // The same of the word in ALU. Few turns are among the last: a call of its own keeps the way of the others short.
    #[inline(never)]
    fn last_turn<C: FetchCache>(
        &mut self,
        left: u64,
        lane: &mut Lane,
        code: &Decoded,
        board: &mut Board,
        cache: &mut C,
        console: &mut Vec<u8>,
    ) -> Result<u64, AllocError>
        requires counting { IsCounting left self.old }
        requires left { 1 ≤ left }
        requires known { AreKnown C.holds self.old cache.old }
        ensures few { IfOk result (λ n. n ≤ 1) }
        ensures within { IfOk result (λ n. left - n ≤ self.new.mark) }
        ensures total { OnOk result (self.new.counts.cycles + self.new.mark ≡ self.old.counts.cycles + self.old.mark) }
        ensures input { board.new.input ≡ board.old.input }
        ensures known { OnOk result (AreKnown C.holds self.new cache.new) }
        ensures next { IfOk result (λ n. (m : State) → InTurn C.holds (code_in code.now) m (joined (caught_up left self.old) lane.old) board.old cache.old
            → InTurn C.holds (code_in code.now) (quietly (code_in code.now) board.old.input n m)
            (joined (caught_up (left - n) self.new) lane.new) board.new cache.new) }
        ensures console { IfOk result (λ n. (m : State) → InTurn C.holds (code_in code.now) m (joined (caught_up left self.old) lane.old) board.old cache.old
            → console.new.items ≡ console.old.items ++ later_bytes (code_in code.now) board.old.input n m) }
    {
        match code.get(self.alu) {
            Some(inst) => self.short_turn(left, inst, lane, board, cache, console),
            None => self.short_turn(left, &Inst::default(), lane, board, cache, console),
        }
    }

    // A turn, by how many cycles are left.
    #[inline(always)]
    fn turn_within<C: FetchCache>(
        &mut self,
        left: u64,
        lane: &mut Lane,
        code: &Decoded,
        board: &mut Board,
        cache: &mut C,
        console: &mut Vec<u8>,
    ) -> Result<u64, AllocError>
        requires counting { IsCounting left self.old }
        requires left { 1 ≤ left }
        requires known { AreKnown C.holds self.old cache.old }
        ensures few { IfOk result (λ n. n ≤ left) }
        ensures within { IfOk result (λ n. left - n ≤ self.new.mark) }
        ensures total { OnOk result (self.new.counts.cycles + self.new.mark ≡ self.old.counts.cycles + self.old.mark) }
        ensures input { board.new.input ≡ board.old.input }
        ensures known { OnOk result (AreKnown C.holds self.new cache.new) }
        ensures next { IfOk result (λ n. (m : State) → InTurn C.holds (code_in code.now) m (joined (caught_up left self.old) lane.old) board.old cache.old
            → InTurn C.holds (code_in code.now) (quietly (code_in code.now) board.old.input n m)
            (joined (caught_up (left - n) self.new) lane.new) board.new cache.new) }
        ensures console { IfOk result (λ n. (m : State) → InTurn C.holds (code_in code.now) m (joined (caught_up left self.old) lane.old) board.old cache.old
            → console.new.items ≡ console.old.items ++ later_bytes (code_in code.now) board.old.input n m) }
    {
        if left >= LONGEST_TURN {
            return self.turn(left, lane, code, board, cache, console);
        }
        self.last_turn(left, lane, code, board, cache, console)
    }

    // Turns without a request, while there is room for them. Answers how many cycles are left.
    #[inline(always)]
    fn turns<C: FetchCache>(
        &mut self,
        most: u64,
        lane: &mut Lane,
        code: &Decoded,
        board: &mut Board,
        cache: &mut C,
        console: &mut Vec<u8>,
    ) -> Result<u64, AllocError>
        requires counting { IsCounting most self.old }
        requires known { AreKnown C.holds self.old cache.old }
        ensures most { IfOk result (λ left. left ≤ most) }
        ensures within { IfOk result (λ left. left ≤ self.new.mark) }
        ensures total { OnOk result (self.new.counts.cycles + self.new.mark ≡ self.old.counts.cycles + self.old.mark) }
        ensures input { OnOk result (board.new.input ≡ board.old.input) }
        ensures next { IfOk result (λ left. (m : State) → InTurn C.holds (code_in code.now) m (joined (caught_up most self.old) lane.old) board.old cache.old
            → InTurn C.holds (code_in code.now) (quietly (code_in code.now) board.old.input (most - left) m)
            (joined (caught_up left self.new) lane.new) board.new cache.new) }
        ensures console { IfOk result (λ left. (m : State)
            → InTurn C.holds (code_in code.now) m (joined (caught_up most self.old) lane.old) board.old cache.old
            → console.new.items ≡ console.old.items ++ later_bytes (code_in code.now) board.old.input (most - left) m) }
    {
        let mut left: u64 = most;
        while left > 0 {
            let cycles = self.turn_within(left, lane, code, board, cache, console)?;
            if cycles == 0 {
                return Ok(left);
            }
            left -= cycles;
        }
        Ok(left)
    }

    /// Turns without a request, of at most so many cycles, up to one whose word in ALU is a halt. Answers
    /// how many cycles they are.
    #[inline(always)]
    pub fn go<C: FetchCache>(
        &mut self,
        most: u64,
        lane: &mut Lane,
        code: &Decoded,
        board: &mut Board,
        cache: &mut C,
        console: &mut Vec<u8>,
    ) -> Result<u64, AllocError>
        requires room { self.old.counts.cycles + most ≤ 2 ^ 63 }
        requires known { AreKnown C.holds self.old cache.old }
        requires mark { self.old.mark ≡ most }
        ensures most { IfOk result (λ n. n ≤ most) }
        ensures risen { IfOk result (λ n. self.new.counts.cycles ≡ self.old.counts.cycles + n) }
        ensures input { OnOk result (board.new.input ≡ board.old.input) }
        ensures next { IfOk result (λ n. (m : State) → InTurn C.holds (code_in code.now) m (joined self.old lane.old) board.old cache.old
            → InTurn C.holds (code_in code.now) (quietly (code_in code.now) board.old.input n m) (joined self.new lane.new) board.new cache.new) }
        ensures console { IfOk result (λ n. (m : State) → InTurn C.holds (code_in code.now) m (joined self.old lane.old) board.old cache.old
            → console.new.items ≡ console.old.items ++ later_bytes (code_in code.now) board.old.input n m) }
    {
        let left = self.turns(most, lane, code, board, cache, console)?;
        self.settle(left);
        Ok(most - left)
    }
}
