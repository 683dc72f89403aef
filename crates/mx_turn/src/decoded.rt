//! Code words, decoded once.
ghost use Rattle.std.specs.Prelude.{◌≡◌, ◌≤◌, ◌-◌, ◌++◌, IfOk, IfSome, IfNone, All, map, length, replicate};
ghost use Rattle.mx_isa.specs.declared.board.TheConstants.{CODE_BASE, MAX_CODE_WORDS};
ghost use Rattle.mx_code.specs.Decoding.{inst_of};
ghost use Rattle.mx_delay.specs.Delay.{idle, code_from};
ghost use Rattle.mx_turn.specs.Decoded.{what_of, code_in, ShiftFits};
ghost use Rattle.mx_turn.specs.Stages.{live};
ghost use Rattle.mx_turn.specs.Program.{code_with};

use crate::held::Held;
use mx_code::{IDLE, decode};
use mx_io::Memory;
use mx_isa::{CODE_BASE, Inst};
use std::alloc::{AllocError, Global};
use std::marker::Model;

// One list for both, since a place in it is then found by one comparison.
/// What each address of code does: the words of a handler from 0 on, and the user's from 4,096 on.
#[derive(Drop)]
pub struct Decoded {
    insts: Vec<Inst>,
}

impl Model for Decoded {
    ghost use Rattle.std.specs.Prelude.{List, All, length, ◌≤◌, ◌^◌};
    ghost use Rattle.mx_isa.specs.declared.inst.Inst.{Inst};
    ghost use Rattle.mx_turn.specs.Decoded.{ShiftFits};

    ghost Value = { List Inst };

    ghost view = { λ d. d.insts.items };

    ghost invariant = { λ d. All ShiftFits d.insts.items × (length d.insts.items ≤ 2 ^ 31) };
}

// What a word does; one that spells nothing does nothing.
fn what_of(word: u32) -> Inst
    ensures what { result ≡ what_of word }
    ensures fits { ShiftFits result }
{
    match decode(word) {
        Some(inst) => inst,
        None => IDLE,
    }
}

// What each of these words does.
fn all_of(alloc: Global, words: &[u32]) -> Result<Vec<Inst>, AllocError>
    ensures what { IfOk result (λ v. v.items ≡ map what_of words.now) }
    ensures fits { IfOk result (λ v. All ShiftFits v.items) }
{
    let mut insts = Vec::with_capacity(alloc, words.len())?;
    for word in words {
        insts.push(what_of(*word))?;
    }
    Ok(insts)
}

// What the words of a handler and those of the user do.
fn both(alloc: Global, handler: &[u32], user: &[u32]) -> Result<Vec<Inst>, AllocError>
    requires handler { length handler.now ≤ CODE_BASE }
    ensures what { IfOk result (λ v. v.items ≡ (map what_of handler.now ++ replicate (CODE_BASE - length handler.now) idle) ++ map what_of user.now) }
    ensures fits { IfOk result (λ v. All ShiftFits v.items) }
{
    let mut insts = all_of(alloc, handler)?;
    insts.resize(CODE_BASE as usize, IDLE)?;
    insts.extend_from_slice(&all_of(alloc, user)?)?;
    Ok(insts)
}

impl Decoded {
    /// These words, decoded.
    #[tactic(auto, using(crate::proofs::Table::code_is))]
    pub fn new(alloc: Global, handler: &[u32], user: &[u32]) -> Result<Decoded, Memory>
        requires handler { length handler.now ≤ CODE_BASE }
        requires user { length user.now ≤ MAX_CODE_WORDS }
        ensures { IfOk result (λ d. code_in d ≡ code_with (code_from inst_of 0 handler.now) (code_from inst_of CODE_BASE user.now)) }
    {
        match both(alloc, handler, user) {
            Ok(insts) => Ok(Decoded { insts }),
            Err(_) => Err(Memory),
        }
    }

    /// The same, in memory of its own.
    pub fn copied(&self, alloc: Global) -> Result<Decoded, Memory>
        ensures { IfOk result (λ d. d ≡ self.now) }
    {
        match Vec::from_slice(alloc, &self.insts) {
            Ok(insts) => Ok(Decoded { insts }),
            Err(_) => Err(Memory),
        }
    }

    /// What a stage does, where it stands; none where it does nothing.
    pub fn get(&self, stage: Held) -> Option<&Inst>
        ensures what { IfSome result (λ i. i.now ≡ live (code_in self.now) stage) }
        ensures fits { IfSome result (λ i. ShiftFits i.now) }
        ensures nothing { IfNone result (live (code_in self.now) stage ≡ idle) }
    {
        match self.insts.get(stage.place()) {
            Some(inst) => Some(inst),
            None => None,
        }
    }

    /// What a stage does; one that is empty or squashed does nothing.
    pub fn of(&self, stage: Held) -> Inst
        ensures what { result ≡ live (code_in self.now) stage }
        ensures fits { ShiftFits result }
    {
        match self.insts.get(stage.place()) {
            Some(inst) => *inst,
            None => IDLE,
        }
    }
}
