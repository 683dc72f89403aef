//! What a machine counts.
use std::marker::Model;

/// Cycles, completed turns and those whose fetch missed, squashing branches that did not hold, and interrupts taken.
#[derive(Clone, Copy, Debug, PartialEq, Eq)]
pub struct Counts {
    pub cycles: u64,
    pub fetches: u64,
    pub misses: u64,
    pub squashes: u64,
    pub interrupts: u64,
}

impl Model for Counts {
    ghost use Rattle.std.specs.Prelude.{◌≤◌};
    ghost use Rattle.mx_turn.specs.Counted.{Counted};

    ghost Value = { Counted };

    ghost view = { λ c. record { cycles = c.cycles; fetches = c.fetches; misses = c.misses; squashes = c.squashes; interrupts = c.interrupts } };

    ghost inverse = { λ c. record { cycles = c.cycles; fetches = c.fetches; misses = c.misses; squashes = c.squashes; interrupts = c.interrupts } };

    ghost invariant = { λ c. (c.fetches ≤ c.cycles) × (c.misses ≤ c.fetches) × (c.squashes ≤ c.fetches) × (c.interrupts ≤ c.fetches) };
}

impl Counts {
    ghost use Rattle.std.specs.Prelude.{◌≡◌, ◌<◌, ◌^◌};
    ghost use Rattle.mx_turn.specs.Counted.{no_counts, after_stall, after_turn};

    /// Nothing is counted.
    pub fn none() -> Counts
        ensures { result ≡ no_counts }
    {
        Counts {
            cycles: 0,
            fetches: 0,
            misses: 0,
            squashes: 0,
            interrupts: 0,
        }
    }

    /// A cycle was stalled.
    pub fn stalled(&mut self)
        requires { self.old.cycles < 2 ^ 63 }
        ensures { self.new ≡ after_stall self.old }
    {
        self.cycles += 1;
    }

    /// A turn ended with this cycle: whether its fetch missed, whether a squashing branch did not hold, and whether
    /// an interrupt was taken.
    pub fn turned(&mut self, missed: bool, squashed: bool, taken: bool)
        requires { self.old.cycles < 2 ^ 63 }
        ensures { self.new ≡ after_turn missed squashed taken self.old }
    {
        self.cycles += 1;
        self.fetches += 1;
        self.misses += u64::from(missed);
        self.squashes += u64::from(squashed);
        self.interrupts += u64::from(taken);
    }
}
