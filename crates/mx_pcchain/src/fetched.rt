//! Fetches and the words that they are saved as.
ghost use Rattle.std.specs.Prelude.{◌≡◌};

use std::marker::Model;

/// A fetch: a code address below 2^31, and whether a branch squashed it.
#[derive(Clone, Copy, Debug, PartialEq, Eq)]
pub struct Fetched {
    pub address: u32,
    pub squashed: bool,
}

impl Model for Fetched {
    ghost use Rattle.std.specs.Prelude.{◌<◌, ◌^◌};
    ghost use Rattle.mx_pcchain.specs.Fetch.{Fetch};

    ghost Value = { Fetch };

    ghost view = { λ f. record { address = f.address; squashed = f.squashed } };

    ghost inverse = { λ f. record { address = f.address; squashed = f.squashed } };

    ghost invariant = { λ f. f.address < 2 ^ 31 };
}

impl Fetched {
    ghost use Rattle.mx_pcchain.specs.Chain.{entry_of, fetch_from};

    /// The word that a chain keeps of the fetch, from which the fetch is found again: the address
    /// in bits 0 to 30, the squashed flag in bit 31.
    pub fn entry(self) -> u32
        ensures word { result ≡ entry_of self }
        ensures back { fetch_from result ≡ self }
    {
        if self.squashed {
            self.address + (1 << 31)
        } else {
            self.address
        }
    }

    /// The fetch that a word of a chain stands for.
    pub fn from_entry(word: u32) -> Fetched
        ensures { result ≡ fetch_from word }
    {
        Fetched {
            address: word % (1 << 31),
            squashed: word >= 1 << 31,
        }
    }
}
