//! A set of a cache.
ghost use Rattle.std.specs.Prelude.{◌≡◌, ◌≢◌, ◌+◌, ◌<◌, ◌^◌, ℕ, List, ◌∷◌, ◌++◌, Some, None, IfOk, IfSome, IfNone, length, slice_get, slice_set, bit_and, bit_or, count_ones};
ghost use Rattle.std.specs.Int.{bit_not, w64};
ghost use Rattle.std.specs.List.{All};
ghost use Rattle.lab_terms.specs.declared.geometry.Geometry.{Geometry};
ghost use Rattle.lab_cache.specs.Misses.{IsCache, set_of, misses_in};
ghost use Rattle.lab_cache.specs.Visits.{IsVisit, gone};

use std::alloc::{AllocError, Global};

/// A place for a line: its number where there is one, and a bit for each of its groups of words that is valid.
#[derive(Clone, Copy)]
pub struct Held {
    pub line: Option<u32>,
    pub valid: u64,
}

/// A place without a line.
const EMPTY: Held = Held {
    line: None,
    valid: 0,
};

/// What came of a visit: how many of its groups missed, and the line that had to go.
#[derive(Clone, Copy)]
pub struct Fetched {
    pub missed: u32,
    pub gone: Option<u32>,
}

/// The lines of a set, the newest first: a place for each way.
#[derive(Drop)]
pub struct Set {
    pub places: Vec<Held>,
}

impl Set {
    ghost use Rattle.lab_cache.specs.Sets.{SetHolds};

    /// A set without lines.
    pub fn new(alloc: Global, ways: u32) -> Result<Set, AllocError>
        ensures ways { IfOk result (λ set. length set.places.items ≡ ways) }
        ensures empty { IfOk result (λ set. All (λ held. held.line ≡ None) set.places.items) }
    {
        Ok(Set {
            places: vec![in alloc; EMPTY; ways as usize]?,
        })
    }

    // The place of a line.
    fn place_of(&self, line: u32) -> Option<usize>
        ensures within { IfSome result (λ i. i < length self.now.places.items) }
        ensures found { IfSome result (λ i. (held : Held) → slice_get self.now.places.items i ≡ Some held → held.line ≡ Some line) }
        ensures none { IfNone result ((i : ℕ) (held : Held) → slice_get self.now.places.items i ≡ Some held → held.line ≢ Some line) }
    {
        self.places.iter().position(|held| held.line == Some(line))
    }

    // Makes groups of the line at a place valid, and answers how many of them were not.
    fn touch(&mut self, place: usize, groups: u64) -> u32
        requires { place < length self.old.places.items }
        ensures small { (held : Held) → slice_get self.old.places.items place ≡ Some held → held.valid < 2 ^ 64 }
        ensures missed { (held : Held) → slice_get self.old.places.items place ≡ Some held → result ≡ count_ones (bit_and groups (bit_not w64 held.valid)) }
        ensures places { (held : Held) → slice_get self.old.places.items place ≡ Some held
            → self.new.places.items ≡ slice_set self.old.places.items place (record { line = held.line; valid = bit_or held.valid groups }) }
    {
        let held = self.places[place];
        self.places[place] = Held {
            line: held.line,
            valid: held.valid | groups,
        };
        (groups & !held.valid).count_ones()
    }

    // Puts a line before the others. Answers the line that was last, which has to go.
    fn allocate(&mut self, line: u32, groups: u64) -> Option<u32>
        ensures ways { length self.new.places.items ≡ length self.old.places.items }
        ensures places { (i : ℕ) → i < length self.old.places.items
            → slice_get self.new.places.items i ≡ slice_get (record { line = Some line; valid = groups } ∷ self.old.places.items) i }
        ensures last { (held : Held)
            → slice_get (record { line = Some line; valid = groups } ∷ self.old.places.items) (length self.old.places.items) ≡ Some held → result ≡ held.line }
    {
        let Some(last) = self.places.last().copied() else {
            return Some(line);
        };
        self.places.rotate_right(1);
        self.places[0] = Held {
            line: Some(line),
            valid: groups,
        };
        last.line
    }

    /// Takes a visit of a line of this set, which fetches a word of each of these groups.
    pub fn fetch(&mut self, line: u32, groups: u64) -> Fetched
        ensures missed { (g : Geometry) (past visit : List ℕ) → IsCache g → IsVisit g line groups visit → SetHolds g self.old past (set_of g line)
            → misses_in g (visit ++ past) ≡ misses_in g past + result.missed }
        ensures gone { (g : Geometry) (past : List ℕ) → IsCache g → SetHolds g self.old past (set_of g line) → result.gone ≡ gone g past line }
        ensures next { (g : Geometry) (past visit : List ℕ) → IsCache g → IsVisit g line groups visit → SetHolds g self.old past (set_of g line)
            → SetHolds g self.new (visit ++ past) (set_of g line) }
    {
        match self.place_of(line) {
            Some(place) => Fetched {
                missed: self.touch(place, groups),
                gone: None,
            },
            None => Fetched {
                missed: groups.count_ones(),
                gone: self.allocate(line, groups),
            },
        }
    }
}
