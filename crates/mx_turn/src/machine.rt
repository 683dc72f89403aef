//! What a machine is, however it is kept.
ghost use Rattle.std.specs.Prelude.{◌≡◌, ◌<◌, ◌≤◌, ◌+◌, ◌^◌, ℕ, Bool, false, List, [], ◌∷◌, ◌++◌, IfOk};
ghost use Rattle.mx_isa.specs.declared.board.TheConstants.{DATA_END};
ghost use Rattle.mx_isa.specs.Words.{reg};

use crate::{Counts, Latches};
use mx_isa::Reg;
use std::alloc::AllocError;

/// What a cycle gives: the byte that went to the console, whether an interrupt was taken, whether the machine has
/// halted, and whether the cycle was stalled. After a halt the answer is no byte, not taken, halted, not stalled.
#[derive(Clone, Copy, Debug, PartialEq, Eq)]
pub struct Cycled {
    pub byte: Option<u8>,
    pub taken: bool,
    pub halted: bool,
    pub stalled: bool,
}

impl Cycled {
    ghost use Rattle.std.specs.Prelude.{◌≡◌, None, true, false};

    /// What each cycle after a halt gives.
    pub fn after_halt() -> Cycled
        ensures { result ≡ record { byte = None; taken = false; halted = true; stalled = false } }
    {
        Cycled {
            byte: None,
            taken: false,
            halted: true,
            stalled: false,
        }
    }

    /// What a stalled cycle gives.
    pub fn in_stall() -> Cycled
        ensures { result ≡ record { byte = None; taken = false; halted = false; stalled = true } }
    {
        Cycled {
            halted: false,
            stalled: true,
            ..Cycled::after_halt()
        }
    }
}

/// A machine that runs cycle by cycle. Of its methods `advance` alone takes memory, for the console.
pub trait Machine {
    ghost use Rattle.mx_turn.specs.Program.{Program, state_after, answer_after, quiet, quiet_bytes};

    /// It stands for this program after these request bits.
    ghost stands: { Self → Program → List Bool → Type 0 };

    /// The cycles that it has counted.
    ghost cycles: { Self → ℕ };

    /// One cycle, in which an interrupt request arrives or not. Fewer than 2^63 cycles were counted before, as `counts` tells.
    fn cycle(&mut self, request: bool) -> Cycled
        requires { cycles self.old < 2 ^ 63 }
        ensures answer { (p : Program) (h : List Bool) → stands self.old p h → result ≡ answer_after p h request }
        ensures next { (p : Program) (h : List Bool) → stands self.old p h → stands self.new p (h ++ request ∷ []) }
        ensures cycles { cycles self.new ≤ cycles self.old + 1 };

    /// As many cycles without a request as it does at once, at most `most`, which are those that `cycle` does one by one:
    /// their bytes go to the console, and it answers how many they are. It does not halt in them. 0 is always right.
    ///
    /// After an error, which is want of memory, no clause describes the machine: let it go, and do not use it again.
    fn advance(&mut self, most: u64, console: &mut Vec<u8>) -> Result<u64, AllocError>
        requires { cycles self.old + most ≤ 2 ^ 63 }
        ensures most { IfOk result (λ n. n ≤ most) }
        ensures next { IfOk result (λ n. (p : Program) (h : List Bool) → stands self.old p h → stands self.new p (quiet h n)) }
        ensures console { IfOk result (λ n. (p : Program) (h : List Bool) → stands self.old p h
            → console.new.items ≡ console.old.items ++ quiet_bytes p h n) }
        ensures going { IfOk result (λ n. (p : Program) (h : List Bool) → stands self.old p h
            → (state_after p h).halted ≡ false → (state_after p (quiet h n)).halted ≡ false) }
        ensures cycles { IfOk result (λ n. cycles self.new ≤ cycles self.old + n) }
    {
        Ok(0)
    }

    /// What it has counted.
    fn counts(&self) -> Counts
        ensures counts { (p : Program) (h : List Bool) → stands self.now p h → result ≡ (state_after p h).counts }
        ensures cycles { result.cycles ≡ cycles self.now };

    /// A register's value; r0 is 0.
    fn register(&self, r: Reg) -> u32
        ensures { (p : Program) (h : List Bool) → stands self.now p h → result ≡ reg (state_after p h).core.regs r };

    /// The MD register.
    fn md(&self) -> u32
        ensures { (p : Program) (h : List Bool) → stands self.now p h → result ≡ (state_after p h).core.md };

    /// The data word at an address below 65536.
    fn user_data(&self, address: u32) -> u32
        requires { address < DATA_END }
        ensures { (p : Program) (h : List Bool) → stands self.now p h → result ≡ (state_after p h).core.mem address };

    /// The number of input bytes taken.
    fn inputs(&self) -> u32
        ensures { (p : Program) (h : List Bool) → stands self.now p h → result ≡ (state_after p h).core.taken };

    /// What the last completed turn shows.
    fn latches(&self) -> Latches
        ensures { (p : Program) (h : List Bool) → stands self.now p h → result ≡ (state_after p h).shown };
}
