//! How many slots are filled, and with what.
ghost use Rattle.std.specs.Prelude.{◌≡◌, ◌<◌, ◌^◌, [], length, slice_get};
ghost use Rattle.std.specs.List.{fold};
ghost use Rattle.lab_terms.specs.Slots.{filling_of, filled_of, slots_in, and_one, and_place, counted, counted_places, squashes_two, is_filled};
ghost use Rattle.lab_terms.specs.Slots.{filling_at, fillings_at, fillings_to, after_load_at, after_loads};

use crate::places::{is_own_load, is_own_transfer};
use mx_code::decode;
use mx_isa::Inst;
use mx_link::Origin;
use mx_source::Statement;

/// What stands in a slot behind a transfer.
#[derive(Clone, Copy)]
pub enum Filling {
    /// An instruction that stood before the transfer.
    Before,
    /// A copy of one where the transfer leads, behind a branch that squashes it where it does not hold.
    TargetSquashed,
    /// A copy of one where the transfer leads, which is executed always.
    Target,
    /// A no-op that was put in.
    NoOp,
}

/// What stands in the slots behind transfers, two each.
#[derive(Clone, Copy)]
pub struct TransferSlots {
    pub before: u32,
    pub target_squashed: u32,
    pub target: u32,
    pub noops: u32,
}

/// How many of some places hold an instruction, and not a no-op that was put in.
#[derive(Clone, Copy)]
pub struct Slots {
    pub filled: u32,
    pub all: u32,
}

/// What stands in a slot, by where its word comes from and whether the transfer squashes it.
fn filling_of(from: Origin, squashing: bool) -> Filling
    ensures { result ≡ filling_of from squashing }
{
    match from {
        Origin::Own(_) => Filling::Before,
        Origin::Copy(_) if squashing => Filling::TargetSquashed,
        Origin::Copy(_) => Filling::Target,
        Origin::Pad => Filling::NoOp,
    }
}

impl TransferSlots {
    // None.
    fn none() -> TransferSlots
        ensures { result ≡ counted [] }
    {
        TransferSlots {
            before: 0,
            target_squashed: 0,
            target: 0,
            noops: 0,
        }
    }

    // The same with one slot more.
    fn with(self, filling: Filling) -> TransferSlots
        ensures { result ≡ and_one self filling }
    {
        match filling {
            Filling::Before => TransferSlots {
                before: self.before.saturating_add(1),
                ..self
            },
            Filling::TargetSquashed => TransferSlots {
                target_squashed: self.target_squashed.saturating_add(1),
                ..self
            },
            Filling::Target => TransferSlots {
                target: self.target.saturating_add(1),
                ..self
            },
            Filling::NoOp => TransferSlots {
                noops: self.noops.saturating_add(1),
                ..self
            },
        }
    }

    // The same with the slots of the word at an index of the code, if it is a transfer's own.
    fn with_those_of(
        self,
        statements: &[Statement],
        code: &[u32],
        origin: &[Origin],
        at: usize,
    ) -> TransferSlots
        requires { at < length code.now }
        ensures { result ≡ fold and_one self (fillings_at statements.now code.now origin.now at) }
    {
        if !is_own_transfer(statements, origin.get(at).copied()) {
            return self;
        }
        let squashing = squashes_two(code, at);
        self.with(filling_at(origin, at + 1, squashing))
            .with(filling_at(origin, at + 2, squashing))
    }

    /// How many slots there are.
    pub fn all(self) -> u32
        ensures { result ≡ slots_in self }
    {
        self.filled_slots().saturating_add(self.noops)
    }

    /// How many hold an instruction.
    pub fn filled_slots(self) -> u32
        ensures { result ≡ filled_of self }
    {
        self.before
            .saturating_add(self.target_squashed)
            .saturating_add(self.target)
    }
}

impl Slots {
    // None.
    fn none() -> Slots
        ensures { result ≡ counted_places [] }
    {
        Slots { filled: 0, all: 0 }
    }

    // The same with one place more.
    fn with(self, is_filled: bool) -> Slots
        ensures { result ≡ and_place self is_filled }
    {
        let all = self.all.saturating_add(1);
        if is_filled {
            return Slots {
                filled: self.filled.saturating_add(1),
                all,
            };
        }
        Slots { all, ..self }
    }

    // The same with the place after the word at an index of the code, if that word is a load's own.
    fn with_that_of(self, statements: &[Statement], origin: &[Origin], at: usize) -> Slots
        requires { at < 2 ^ 63 }
        ensures { result ≡ fold and_place self (after_load_at statements.now origin.now at) }
    {
        if !is_own_load(statements, origin.get(at).copied()) {
            return self;
        }
        self.with(is_filled(origin, at + 1))
    }
}

// Whether the branch at an index of the code squashes the two words after it where it does not hold.
fn squashes_two(code: &[u32], at: usize) -> bool
    ensures { result ≡ squashes_two (slice_get code.now at) }
{
    match code.get(at) {
        Some(word) => matches!(decode(*word), Some(Inst::Branch { squash: true, .. })),
        None => false,
    }
}

// What fills the slot at an index of the code. After the last word there are no-ops.
fn filling_at(origin: &[Origin], at: usize, squashing: bool) -> Filling
    ensures { result ≡ filling_at origin.now at squashing }
{
    match origin.get(at) {
        Some(from) => filling_of(*from, squashing),
        None => Filling::NoOp,
    }
}

// Whether a word of the code is an instruction, and not a no-op that was put in.
fn is_filled(origin: &[Origin], at: usize) -> bool
    ensures { result ≡ is_filled (slice_get origin.now at) }
{
    matches!(origin.get(at), Some(Origin::Own(_) | Origin::Copy(_)))
}

// The slots of the transfers, two each.
fn transfer_slots(statements: &[Statement], code: &[u32], origin: &[Origin]) -> TransferSlots
    ensures { result ≡ counted (fillings_to statements.now code.now origin.now (length code.now)) }
{
    let mut slots = TransferSlots::none();
    for at in 0..code.len() {
        slots = slots.with_those_of(statements, code, origin, at);
    }
    slots
}

// The places after the loads among so many words, one each.
fn load_slots(statements: &[Statement], origin: &[Origin], words: usize) -> Slots
    requires { words < 2 ^ 63 }
    ensures { result ≡ counted_places (after_loads statements.now origin.now words) }
{
    let mut slots = Slots::none();
    for at in 0..words {
        slots = slots.with_that_of(statements, origin, at);
    }
    slots
}

/// The slots of the transfers of linked code, two each, and the places after its loads, one each. `origin` says where each word of
/// `code` comes from.
pub fn slots_of(statements: &[Statement], code: &[u32], origin: &[Origin]) -> (TransferSlots, Slots)
    ensures transfers { result.0 ≡ counted (fillings_to statements.now code.now origin.now (length code.now)) }
    ensures loads { result.1 ≡ counted_places (after_loads statements.now origin.now (length code.now)) }
{
    (
        transfer_slots(statements, code, origin),
        load_slots(statements, origin, code.len()),
    )
}
