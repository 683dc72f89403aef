//! Fetches as words: those in the stages, and the next one.
ghost use Rattle.std.specs.Prelude.{◌≡◌, ◌<◌, ◌≤◌, ◌^◌, List, length, Option, Some, None, is_some, unwrap_or, slice_get};
ghost use Rattle.mx_isa.specs.declared.inst.Inst.{Inst};
ghost use Rattle.mx_delay.specs.Delay.{next_of, idle};
ghost use Rattle.mx_pcchain.specs.Chain.{fetch_from};
ghost use Rattle.mx_turn.specs.Stages.{fetch_of, live, address_of};
ghost use Rattle.mx_turn.specs.Decoded.{code_in};

use mx_pcchain::Fetched;
use std::marker::Model;

// A word is copied and looked up at once, where an `Option<Fetched>` is three fields.
/// A stage: the word of a fetch, as a chain keeps it, or 2^32 where the stage is empty.
#[derive(Clone, Copy)]
pub struct Held {
    word: u64,
}

impl Model for Held {
    ghost use Rattle.std.specs.Prelude.{Option, ◌≤◌, ◌^◌};
    ghost use Rattle.mx_pcchain.specs.Fetch.{Fetch};
    ghost use Rattle.mx_pcchain.specs.Held.{stage_from, word_of_stage};
    ghost use Rattle.mx_pcchain.proofs.Held.{word_of-stage_from};

    ghost Value = { Option Fetch };

    ghost view = { λ h. stage_from h.word };

    ghost inverse = { λ s. record { word = word_of_stage s } };

    ghost inverse_ok = { λ a h i. record { word = word_of-stage_from a.word h i } };

    ghost invariant = { λ h. h.word ≤ 2 ^ 32 };
}

impl Held {
    /// An empty stage.
    pub fn empty() -> Held
        ensures { result ≡ None }
    {
        Held { word: 1 << 32 }
    }

    /// A stage with this fetch, or an empty one.
    pub fn of(stage: Option<Fetched>) -> Held
        ensures { result ≡ stage }
    {
        match stage {
            Some(fetched) => Held {
                word: u64::from(fetched.entry()),
            },
            None => Held::empty(),
        }
    }

    /// The fetch, if there is one.
    pub fn stage(self) -> Option<Fetched>
        ensures { result ≡ self }
    {
        if self.word < 1 << 32 {
            Some(Fetched::from_entry(self.word as u32))
        } else {
            None
        }
    }

    /// Whether there is a fetch.
    pub fn is_some(self) -> bool
        ensures { result ≡ is_some self }
    {
        self.word < 1 << 32
    }

    /// The address, or 0 where it is empty.
    pub fn address(self) -> u32
        ensures value { result ≡ address_of self }
        ensures code_address { result < 2 ^ 31 }
    {
        (self.word % (1 << 31)) as u32
    }

    /// The place in a list of instructions, from address 0 on, of what it does; behind the list where it does nothing.
    #[tactic(auto, using(crate::proofs::Table::place_does))]
    pub fn place(self) -> usize
        ensures { (insts : List Inst) → length insts ≤ 2 ^ 31 → unwrap_or (slice_get insts result) idle ≡ live (code_in insts) self }
    {
        self.word as usize
    }
}

/// The next fetch.
#[derive(Drop)]
pub struct Coming {
    word: u32,
}

impl Model for Coming {
    ghost use Rattle.mx_pcchain.specs.Fetch.{Fetch};
    ghost use Rattle.mx_pcchain.specs.Chain.{fetch_from};

    ghost Value = { Fetch };

    ghost view = { λ c. fetch_from c.word };
}

impl Coming {
    /// This fetch.
    pub fn of(fetched: Fetched) -> Coming
        ensures { result ≡ fetched }
    {
        Coming {
            word: fetched.entry(),
        }
    }

    /// The fetch.
    pub fn fetched(&self) -> Fetched
        ensures { result ≡ self.now }
    {
        Fetched::from_entry(self.word)
    }

    /// The fetch of an address below 2^31.
    pub fn at(address: u32) -> Coming
        requires { address < 2 ^ 31 }
        ensures { result ≡ fetch_of address }
    {
        Coming { word: address }
    }

    /// The fetch of the address behind it.
    pub fn following(&self) -> Coming
        ensures { result ≡ fetch_of (next_of None self.now.address) }
    {
        Coming {
            word: self.word.wrapping_add(1) % (1 << 31),
        }
    }

    /// Its address.
    pub fn address(&self) -> u32
        ensures value { result ≡ self.now.address }
        ensures code_address { result < 2 ^ 31 }
    {
        self.word % (1 << 31)
    }

    /// The stage that it comes into.
    pub fn held(&self) -> Held
        ensures { result ≡ Some self.now }
    {
        Held {
            word: u64::from(self.word),
        }
    }
}
