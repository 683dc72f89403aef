//! What the word in MEM does.
ghost use Rattle.std.specs.Prelude.{◌≡◌, ◌≤◌, ◌==◌, cond, suc, None, false, if◌then◌else◌};
ghost use Rattle.mx_isa.specs.Effect.{stored, sent};
ghost use Rattle.mx_isa.specs.Views.{dest, is_load, is_halt};
ghost use Rattle.mx_board.specs.Data.{board, words_of};
ghost use Rattle.mx_pipe.specs.Latched.{does};
ghost use Rattle.mx_pipe.specs.Made.{reached, takes_byte, sends, md_kept, chain_kept, byte_of, halts};

use crate::Latch;
use mx_board::Board;
use mx_isa::{Inst, Reg};
use mx_pcchain::{Chain, Psw};
use mx_turn::move_to;

/// What is learned outside of the word in MEM: nothing, the byte that it sends, or that the machine halts.
#[derive(Clone, Copy)]
pub enum Signal {
    Nothing,
    Byte(u8),
    Halt,
}

impl Signal {
    ghost use Rattle.std.specs.Prelude.{◌≡◌};
    ghost use Rattle.mx_pipe.specs.Made.{byte_of, halts};

    /// Its byte.
    pub fn byte(self) -> Option<u8>
        ensures { result ≡ byte_of self }
    {
        match self {
            Signal::Byte(byte) => Some(byte),
            _ => None,
        }
    }

    /// Whether it is that of a halt.
    pub fn halts(self) -> bool
        ensures { result ≡ halts self }
    {
        match self {
            Signal::Halt => true,
            _ => false,
        }
    }
}

/// What the machine learns of the word in MEM: its signal; the register that it writes, and the one of which it passes the
/// number on to the word in ALU, r0 for none, since a load is not seen by the word behind it; the number; and what is
/// passed on, 0 for r0, so that whoever compares registers need not ask for r0.
#[derive(Clone, Copy)]
pub struct Reached {
    pub signal: Signal,
    pub to: Reg,
    pub passes: Reg,
    pub word: u32,
    pub passed: u32,
}

// It sends nothing, and writes its number to a register, or to none.
fn writes(to: Reg, word: u32) -> Reached
    ensures { result ≡ record { signal = Signal.Nothing; to = to; passes = to; word = word; passed = if to == 0 then 0 else word } }
{
    Reached {
        signal: Signal::Nothing,
        to,
        passes: to,
        word,
        passed: if to.number() == 0 { 0 } else { word },
    }
}

// The signal of a store.
fn sends_byte(byte: Option<u8>) -> Signal
    ensures byte { byte_of result ≡ byte }
    ensures halt { halts result ≡ false }
{
    match byte {
        Some(byte) => Signal::Byte(byte),
        None => Signal::Nothing,
    }
}

/// The word of ALU's latch comes into MEM: a load finds its word, a store sends one, MD and the saved fetches are written.
/// MEM's latch keeps the number of the register that the word writes in WB, in the place of the second operand, which is
/// used up.
// One match, since each costs a jump in every cycle. It reads the latch that the word leaves, since the processor waits for
// one that was copied a moment ago.
#[inline(always)]
pub fn reach(
    latch: &mut Latch,
    alu: &Latch,
    psw: &Psw,
    md: &mut u32,
    chain: &mut Chain,
    halted: &mut bool,
    memory: &mut Board,
) -> Reached
    requires running { halted.old ≡ false }
    ensures within { latch.new.b ≤ 31 }
    ensures result { latch.new ≡ record alu.now {
      b = dest (does alu.now);
      result = reached (does alu.now) alu.now.result ((board psw.now.current.user memory.old.input).load (words_of memory.old) memory.old.taken);
    } }
    ensures md { md.new ≡ md_kept alu.now.inst alu.now.result alu.now.md md.old }
    ensures chain { chain.new ≡ chain_kept psw.now.current.user (does alu.now) alu.now.result chain.old }
    ensures halted { halted.new ≡ is_halt (does alu.now) }
    ensures words { words_of memory.new ≡ stored (board psw.now.current.user memory.old.input) (sends (does alu.now) alu.now.result alu.now.b)
        (words_of memory.old) }
    ensures input { memory.new.input ≡ memory.old.input }
    ensures taken { let find = (board psw.now.current.user memory.old.input).load (words_of memory.old) memory.old.taken in
        memory.new.taken ≡ cond (takes_byte (does alu.now) alu.now.result find) (suc memory.old.taken) memory.old.taken }
    ensures halt { halts result.signal ≡ is_halt (does alu.now) }
    ensures byte { byte_of result.signal ≡ sent (board psw.now.current.user memory.old.input) (sends (does alu.now) alu.now.result alu.now.b) }
    ensures to { result.to ≡ dest (does alu.now) }
    ensures passes { result.passes ≡ cond (is_load (does alu.now)) 0 (dest (does alu.now)) }
    ensures word { result.word ≡ latch.new.result }
    ensures passed { result.passed ≡ (if result.passes == 0 then 0 else result.word) }
{
    *latch = *alu;
    let reached = match &alu.inst {
        Some(Inst::Load { dest, .. }) => {
            let word = memory.load(alu.result, psw.current.user);
            latch.result = word;
            Reached {
                signal: Signal::Nothing,
                to: *dest,
                passes: Reg::ZERO,
                word,
                passed: 0,
            }
        }
        Some(Inst::Store { .. }) => Reached {
            signal: sends_byte(memory.store(alu.result, alu.b, psw.current.user)),
            ..writes(Reg::ZERO, alu.result)
        },
        Some(Inst::Compute { dest, .. }) => {
            *md = alu.md;
            writes(*dest, alu.result)
        }
        Some(Inst::Addi { dest, .. }) => writes(*dest, alu.result),
        Some(Inst::MoveFrom { dest, .. }) => writes(*dest, alu.result),
        Some(Inst::Jspci { dest, .. }) => writes(*dest, alu.result),
        Some(Inst::MoveTo { special, .. }) => {
            move_to(alu.result, *special, psw.current.user, md, chain);
            writes(Reg::ZERO, alu.result)
        }
        Some(Inst::Halt) => {
            *halted = true;
            Reached {
                signal: Signal::Halt,
                ..writes(Reg::ZERO, alu.result)
            }
        }
        _ => writes(Reg::ZERO, alu.result),
    };
    latch.b = u32::from(reached.to.number());
    reached
}
