//! A set of a line cache.
ghost use Rattle.std.specs.Prelude.{◌≡◌, ◌≢◌, ◌<◌, ◌≤◌, ◌+◌, ◌/◌, ◌%◌, ◌==◌, ◌||◌, ◌∷◌, ℕ, List, true, false, Some, None, slice_index, IfSome, IfNone};

use crate::mask::{is_set, pair_alone, valid_from, with_pair};

/// A set of 8 ways: the line of each, a mask of its valid words, which is 0 where the way holds no
/// line, and the way that the next line goes to.
#[derive(Clone, Copy, Debug)]
pub struct Set {
    pub tags: [u32; 8],
    pub masks: [u16; 8],
    pub next: u8,
    ghost in_ring: { next < 8 },
}

impl Set {
    ghost use Rattle.mx_icache.specs.LineSets.{line_in, word_in, SetHolds};
    ghost use Rattle.mx_icache.specs.Residency.{line_of, set_of, resident};

    // A set that holds no line.
    pub(crate) fn empty() -> Set
        ensures next { result.next ≡ 0 }
        ensures lines { (w : ℕ) → line_in result w ≡ None }
    {
        Set {
            tags: [0; 8],
            masks: [0; 8],
            next: 0,
        }
    }

    // The way that holds the line.
    fn way_of(&self, line: u32) -> Option<usize>
        ensures within { IfSome result (λ w. w < 8) }
        ensures found { IfSome result (λ w. line_in self.now w ≡ Some line) }
        ensures none { IfNone result ((w : ℕ) → w < 8 → line_in self.now w ≢ Some line) }
    {
        for way in 0..8 {
            if self.masks[way] != 0 && self.tags[way] == line {
                return Some(way);
            }
        }
        None
    }

    // Whether a word of a way is valid; else it becomes valid with its pair.
    fn touch(&mut self, way: usize, word: u8) -> bool
        requires way { way < 8 }
        requires word { word < 16 }
        requires held { slice_index self.old.masks way ≢ 0 }
        ensures answer { result ≡ word_in self.old way word }
        ensures hit { result ≡ true → self.new ≡ self.old }
        ensures next { self.new.next ≡ self.old.next }
        ensures lines { (w : ℕ) → line_in self.new w ≡ line_in self.old w }
        ensures filled { result ≡ false → (j : ℕ) → word_in self.new way j ≡ (word / 2 == j / 2 || word_in self.old way j) }
        ensures others { (w j : ℕ) → w ≢ way → word_in self.new w j ≡ word_in self.old w j }
    {
        let mask = self.masks[way];
        if is_set(mask, word) {
            return true;
        }
        self.masks[way] = with_pair(mask, word);
        false
    }

    // The line goes to the next way, with the word and its pair valid.
    fn allocate(&mut self, line: u32, word: u8)
        requires { word < 16 }
        ensures next { self.new.next ≡ (self.old.next + 1) % 8 }
        ensures line { line_in self.new self.old.next ≡ Some line }
        ensures word { (j : ℕ) → word_in self.new self.old.next j ≡ (word / 2 == j / 2) }
        ensures lines { (w : ℕ) → w ≢ self.old.next → line_in self.new w ≡ line_in self.old w }
        ensures words { (w j : ℕ) → w ≢ self.old.next → word_in self.new w j ≡ word_in self.old w j }
    {
        let way = self.next as usize;
        self.tags[way] = line;
        self.masks[way] = pair_alone(word);
        self.next = (self.next + 1) % 8;
    }

    // The way that holds the line, where this word of it is valid.
    #[inline(always)]
    fn hit_of(&self, line: u32, word: u8) -> Option<usize>
        requires { word < 16 }
        ensures within { IfSome result (λ w. w < 8) }
        ensures found { IfSome result (λ w. line_in self.now w ≡ Some line) }
        ensures valid { IfSome result (λ w. word_in self.now w word ≡ true) }
    {
        for way in 0..8 {
            if self.tags[way] == line && is_set(self.masks[way], word) {
                return Some(way);
            }
        }
        None
    }

    // Takes a fetch of any address of this set.
    #[inline(never)]
    fn take(&mut self, address: u32) -> bool
        ensures answer { (past : List ℕ) → SetHolds self.old past (set_of (line_of address)) → result ≡ resident past address }
        ensures next { (past : List ℕ) → SetHolds self.old past (set_of (line_of address)) → SetHolds self.new (address ∷ past) (set_of (line_of address)) }
    {
        let line = address / 16;
        let word = (address % 16) as u8;
        match self.way_of(line) {
            Some(way) => self.touch(way, word),
            None => {
                self.allocate(line, word);
                false
            }
        }
    }

    /// Takes a fetch of an address of this set, and answers whether it was resident.
    // Most words are resident, which a tag and a bit of its mask tell; the set then stays as it is.
    #[inline(always)]
    pub(crate) fn fetch(&mut self, address: u32) -> bool
        ensures answer { (past : List ℕ) → SetHolds self.old past (set_of (line_of address)) → result ≡ resident past address }
        ensures next { (past : List ℕ) → SetHolds self.old past (set_of (line_of address)) → SetHolds self.new (address ∷ past) (set_of (line_of address)) }
    {
        match self.hit_of(address / 16, (address % 16) as u8) {
            Some(_) => true,
            None => self.take(address),
        }
    }

    /// How many words from an address of this set on are resident, up to the end of its line.
    pub(crate) fn reach(&self, address: u32) -> u32
        ensures within { address % 16 + result ≤ 16 }
        ensures resident { (past : List ℕ) → SetHolds self.now past (set_of (line_of address))
            → (j : ℕ) → j < result → resident past (address + j) ≡ true }
    {
        match self.way_of(address / 16) {
            Some(way) => valid_from(self.masks[way], (address % 16) as u8),
            None => 0,
        }
    }
}
