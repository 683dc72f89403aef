//! The word that is fetched.
ghost use Rattle.std.specs.Prelude.{◌≡◌, ◌≤◌, length, None, ◌<◌, ◌^◌, ◌-◌, IfSome, true, is_some, unwrap_or, slice_get, option_and_then, leb, if◌then◌else◌};
ghost use Rattle.mx_isa.specs.declared.board.TheConstants.{CODE_BASE, MAX_CODE_WORDS};
ghost use Rattle.mx_turn.specs.Program.{code_with};
ghost use Rattle.mx_pipe.specs.Terms.{inst_of, code_from, idle, ShiftFits, live, address_of};
ghost use Rattle.mx_pipe.specs.Kept.{is_live};

use crate::Latch;
use mx_code::decode;
use mx_isa::{CODE_BASE, Inst};
use mx_pcchain::Fetched;

// It spells nothing, and stands for no word: an option would cost a test in every cycle.
const NO_WORD: u32 = u32::MAX;

// The word at a place, if there is one.
fn word_at(words: &[u32], place: usize) -> Option<u32>
    ensures { result ≡ slice_get words.now place }
{
    match words.get(place) {
        Some(word) => Some(*word),
        None => None,
    }
}

// The word at an address where no word of the user's is: one of the handler's, which stand below those, or none.
// Few fetches find one, and a call keeps the way of the others short.
#[inline(never)]
fn handler_word(handler: &[u32], address: u32) -> u32
    ensures { inst_of result ≡ option_and_then inst_of (if leb CODE_BASE address then None else slice_get handler.now address) }
{
    if address >= CODE_BASE {
        return NO_WORD;
    }
    match word_at(handler, address as usize) {
        Some(word) => word,
        None => NO_WORD,
    }
}

// The word at an address, if there is one: the user's words stand from 4,096 on, those of the handler from 0 on.
// An address below 4,096 wraps round to a place that no word has, so one test finds most words.
fn word_of(code: &[u32], handler: &[u32], address: u32) -> u32
    ensures { length code.now ≤ MAX_CODE_WORDS → inst_of result ≡ option_and_then inst_of
        (if leb CODE_BASE address then slice_get code.now (address - CODE_BASE) else slice_get handler.now address) }
{
    match word_at(code, address.wrapping_sub(CODE_BASE) as usize) {
        Some(word) => word,
        None => handler_word(handler, address),
    }
}

// What the word at an address does.
#[inline(always)]
fn inst_at(code: &[u32], handler: &[u32], address: u32) -> Option<Inst>
    ensures what { length code.now ≤ MAX_CODE_WORDS
        → unwrap_or result idle ≡ code_with (code_from inst_of 0 handler.now) (code_from inst_of CODE_BASE code.now) address }
    ensures fits { IfSome result ShiftFits }
{
    decode(word_of(code, handler, address))
}

/// What the word of a latch does; where there is none, or a branch squashed it, it does nothing.
#[inline(always)]
pub fn inst_in(code: &[u32], handler: &[u32], latch: &Latch) -> Option<Inst>
    ensures what { length code.now ≤ MAX_CODE_WORDS
        → unwrap_or result idle ≡ live (code_with (code_from inst_of 0 handler.now) (code_from inst_of CODE_BASE code.now)) latch.now.word }
    ensures live { is_some result ≡ true → is_live latch.now.word ≡ true }
    ensures fits { IfSome result ShiftFits }
{
    match latch.word {
        Some(
            Fetched {
                address,
                squashed: false,
            },
        ) => inst_at(code, handler, address),
        _ => None,
    }
}

/// The address of a fetch.
pub fn address(fetched: Fetched) -> u32
    ensures value { result ≡ fetched.address }
    ensures code_address { result < 2 ^ 31 }
{
    fetched.address
}

/// The address of a stage, 0 where it is empty.
pub fn address_of(stage: Option<Fetched>) -> u32
    ensures value { result ≡ address_of stage }
    ensures code_address { result < 2 ^ 31 }
{
    match stage {
        Some(fetched) => address(fetched),
        None => 0,
    }
}
