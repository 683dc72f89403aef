//! Whether two machines go on alike.
ghost use Rattle.std.specs.Prelude.{◌≡◌, ℕ, Bool, List, true, false, slice_index};
ghost use Rattle.mx_isa.specs.Words.{write};
ghost use Rattle.mx_isa.specs.Views.{is_load};
ghost use Rattle.mx_board.specs.Data.{is_user_data, words_of};
ghost use Rattle.mx_icache.specs.LineSets.{CacheHolds};
ghost use Rattle.mx_turn.specs.Program.{Program, state_after};
ghost use Rattle.mx_pipe.specs.Latched.{does};
ghost use Rattle.mx_pipe.specs.Kept.{StandsFor};
ghost use Rattle.law_alike.specs.Users.{UsersGoOnLike};

use crate::caches::is_same_cache;
use mx_board::Board;
use mx_icache::LineCache;
use mx_isa::{DATA_BASE, DATA_END, Inst};
use mx_pipe::{Latch, Pipe};

// Whether the word of a latch is a load.
fn is_load_in(latch: &Latch) -> bool
    ensures { result ≡ is_load (does latch.now) }
{
    matches!(latch.inst, Some(Inst::Load { .. }))
}

// Whether the words in MEM write the same, and both are loads or neither is. A word that writes no register makes any number.
fn write_alike(mem: &Latch, other: &Latch) -> bool
    ensures register { result ≡ true → mem.now.b ≡ other.now.b }
    ensures load { result ≡ true → is_load (does mem.now) ≡ is_load (does other.now) }
    ensures write { result ≡ true → (n : ℕ → ℕ) → write n mem.now.b mem.now.result ≡ write n other.now.b other.now.result }
{
    mem.b == other.b
        && (mem.b == 0 || mem.result == other.result)
        && is_load_in(mem) == is_load_in(other)
}

// Whether the stages hold the same fetches, with the same marks.
fn is_same_window(machine: &Pipe<LineCache>, other: &Pipe<LineCache>) -> bool
    ensures next { result ≡ true → machine.now.next ≡ other.now.next }
    ensures fetch { result ≡ true → machine.now.fetch.word ≡ other.now.fetch.word }
    ensures rf { result ≡ true → machine.now.rf.word ≡ other.now.rf.word }
    ensures alu { result ≡ true → machine.now.alu.word ≡ other.now.alu.word }
    ensures mem { result ≡ true → machine.now.mem.word ≡ other.now.mem.word }
    ensures wb { result ≡ true → machine.now.wb.word ≡ other.now.wb.word }
{
    machine.next == other.next
        && machine.fetch.word == other.fetch.word
        && machine.rf.word == other.rf.word
        && machine.alu.word == other.alu.word
        && machine.mem.word == other.mem.word
        && machine.wb.word == other.wb.word
}

// Whether they wait alike, with no request latched and the same MD.
fn is_same_wait(machine: &Pipe<LineCache>, other: &Pipe<LineCache>) -> bool
    ensures wait { result ≡ true → machine.now.wait ≡ other.now.wait }
    ensures quiet { result ≡ true → machine.now.asked ≡ false }
    ensures asked { result ≡ true → machine.now.asked ≡ other.now.asked }
    ensures halted { result ≡ true → machine.now.halted ≡ other.now.halted }
    ensures md { result ≡ true → machine.now.md ≡ other.now.md }
{
    machine.wait == other.wait
        && !machine.asked
        && !other.asked
        && machine.halted == other.halted
        && machine.md == other.md
}

// Whether they are in user mode, with the same saved fetches.
fn is_same_mode(machine: &Pipe<LineCache>, other: &Pipe<LineCache>) -> bool
    ensures user { result ≡ true → machine.now.psw.current.user ≡ true }
    ensures psw { result ≡ true → machine.now.psw ≡ other.now.psw }
    ensures chain { result ≡ true → machine.now.chain ≡ other.now.chain }
{
    machine.psw.current.user && machine.psw == other.psw && machine.chain == other.chain
}

// Whether two boards have the same words of user data, and took as many bytes of the input.
fn is_same_data(board: &Board, other: &Board) -> bool
    ensures words { result ≡ true → (a : ℕ) → is_user_data a ≡ true → words_of board.now a ≡ words_of other.now a }
    ensures taken { result ≡ true → board.now.taken ≡ other.now.taken }
{
    for address in DATA_BASE..DATA_END {
        if board.word(address) != other.word(address) {
            return false;
        }
    }
    board.inputs() == other.inputs()
}

/// Whether user code runs on two machines, no request is latched, and they go on alike without further ones, whatever they have counted and
/// the handler has saved; false is always right. Data is compared last.
pub fn goes_on_like(machine: &Pipe<LineCache>, other: &Pipe<LineCache>) -> bool
    ensures { result ≡ true → (p : Program) (h k : List Bool) → StandsFor CacheHolds machine.now p h → StandsFor CacheHolds other.now p k
        → UsersGoOnLike (state_after p h) (state_after p k) }
{
    is_same_window(machine, other)
        && is_same_wait(machine, other)
        && is_same_mode(machine, other)
        && write_alike(&machine.mem, &other.mem)
        && machine.file == other.file
        && is_same_cache(&machine.cache, &other.cache)
        && is_same_data(&machine.board, &other.board)
}
