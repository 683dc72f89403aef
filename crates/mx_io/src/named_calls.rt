//! Calls that are told to fail.
ghost use Rattle.std.specs.Prelude.{◌≡◌, ◌==◌, ◌||◌, false, ℕ, OnOk, OnErr};
ghost use Rattle.mx_io.specs.Counts.{one_more};

use crate::Memory;
use std::alloc::Global;

/// The count of calls so far, and the numbers of those that are to fail.
#[derive(Drop)]
pub(crate) struct NamedCalls {
    numbers: Vec<u64>,
    count: u64,
}

impl NamedCalls {
    ghost use Rattle.mx_io.specs.NamedCalls.{names, names_next, SameNames};

    /// No call so far, and none that is to fail.
    pub(crate) fn new(alloc: Global) -> NamedCalls
        ensures names { (call : ℕ) → names result call ≡ false }
        ensures count { result.count ≡ 0 }
    {
        NamedCalls {
            numbers: Vec::new(alloc),
            count: 0,
        }
    }

    /// Lets the call with this number fail, the first of them as 1.
    pub(crate) fn add(&mut self, call: u64) -> Result<(), Memory>
        ensures ok { OnOk result ((n : ℕ) → names self.new n ≡ (names self.old n || (call == n))) }
        ensures err { OnErr result (SameNames self.old self.new) }
        ensures count { self.new.count ≡ self.old.count }
    {
        self.numbers.push(call).map_err(|_| Memory)
    }

    /// Counts a call, and says whether it is one that was named to fail.
    pub(crate) fn starts(&mut self) -> bool
        ensures answer { result ≡ names_next self.old }
        ensures counted { self.new.count ≡ one_more self.old.count }
        ensures rest { self.new ≡ record self.old { count = self.new.count } }
    {
        // Past the last number no call is one that was named.
        let Some(number) = self.count.checked_add(1) else {
            return false;
        };
        self.count = number;
        self.numbers.contains(&number)
    }
}
