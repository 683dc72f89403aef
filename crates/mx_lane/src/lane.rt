//! Turns without a request, many at once.
ghost use Rattle.std.specs.Prelude.{◌≡◌, ◌≤◌, ◌+◌, ◌^◌, ◌++◌, List, IfOk, OnOk};
ghost use Rattle.mx_turn.specs.Decoded.{code_in};
ghost use Rattle.mx_turn.specs.Cycle.{MachineState as State};
ghost use Rattle.mx_lane.specs.declared.queue.Queue.{Queue};
ghost use Rattle.mx_lane.specs.Lanes.{joined, quietly, later_bytes, InTurn};

use crate::queue::Queue;
use crate::window::Window;
use mx_board::Board;
use mx_icache::FetchCache;
use mx_pcchain::Psw;
use mx_turn::{Coming, Counts, Decoded, Held, Registers};
use std::alloc::AllocError;

/// The fetches in the stages and the registers, once the word in MEM has committed; what was counted before the turn, and
/// whether its fetch missed.
#[derive(Drop)]
pub struct Lane {
    /// What the turn fetches, which is in IF.
    pub next: Coming,
    pub rf: Held,
    pub alu: Held,
    pub mem: Held,
    pub wb: Held,
    pub registers: Registers,
    pub psw: Psw,
    /// What stood in the register that the word in MEM writes.
    pub replaced: u32,
    pub counts: Counts,
    pub missed: bool,
}

impl Lane {
    // What changes in each turn, apart.
    fn queue(&self, most: u64) -> Queue
        ensures joined { joined result self.now ≡ self.now }
        ensures counts { result.counts ≡ self.now.counts }
        ensures mark { result.mark ≡ most }
        ensures empty { result.window.words ≡ 0 }
        ensures other { result.other.words ≡ 0 }
    {
        Queue {
            next: Coming::of(self.next.fetched()),
            rf: self.rf,
            alu: self.alu,
            mem: self.mem,
            wb: self.wb,
            counts: self.counts,
            missed: self.missed,
            window: Window::empty(),
            other: Window::empty(),
            mark: most,
        }
    }

    // It is taken back.
    fn take(&mut self, queue: Queue)
        ensures { self.new ≡ joined queue self.old }
    {
        self.next = queue.next;
        self.rf = queue.rf;
        self.alu = queue.alu;
        self.mem = queue.mem;
        self.wb = queue.wb;
        self.counts = queue.counts;
        self.missed = queue.missed;
    }

    /// Turns without a request, of at most so many cycles, up to one whose word in ALU is a halt. Answers
    /// how many cycles they are.
    #[inline(never)]
    #[tactic(auto, using(crate::proofs::Windows::none_known))]
    pub fn run<C: FetchCache>(
        &mut self,
        most: u64,
        code: &Decoded,
        board: &mut Board,
        cache: &mut C,
        console: &mut Vec<u8>,
    ) -> Result<u64, AllocError>
        requires { self.old.counts.cycles + most ≤ 2 ^ 63 }
        ensures most { IfOk result (λ n. n ≤ most) }
        ensures risen { IfOk result (λ n. self.new.counts.cycles ≡ self.old.counts.cycles + n) }
        ensures input { OnOk result (board.new.input ≡ board.old.input) }
        ensures next { IfOk result (λ n. (m : State) → InTurn C.holds (code_in code.now) m self.old board.old cache.old
            → InTurn C.holds (code_in code.now) (quietly (code_in code.now) board.old.input n m) self.new board.new cache.new) }
        ensures console { IfOk result (λ n. (m : State) → InTurn C.holds (code_in code.now) m self.old board.old cache.old
            → console.new.items ≡ console.old.items ++ later_bytes (code_in code.now) board.old.input n m) }
    {
        let mut queue = self.queue(most);
        let done = queue.go(most, self, code, board, cache, console)?;
        self.take(queue);
        Ok(done)
    }
}
