//! A set of a plain cache.
ghost use Rattle.std.specs.Prelude.{◌≡◌, ◌≢◌, ◌<◌, ◌-◌, ◌/◌, ◌==◌, ◌||◌, ◌∷◌, suc, ℕ, List, true, false, Some, None, [], IfSome, IfNone, length, map, take, slice_index_or};
ghost use Rattle.mx_icache.specs.PlainSets.{line_at, word_at, PlainSetHolds};
ghost use Rattle.mx_icache.specs.Residency.{line_of, set_of, resident};

use arrayvec::ArrayVec;

/// A line, and which of its words are valid.
#[derive(Clone, Copy, Debug, Default)]
pub struct HeldLine {
    line: u32,
    valid: [bool; 16],
}

/// The lines that a set holds, the newest first.
#[derive(Drop)]
pub struct PlainSet {
    lines: ArrayVec<HeldLine, 8>,
}

// The word and its pair become valid.
fn with_pair(valid: [bool; 16], word: usize) -> [bool; 16]
    requires { word < 16 }
    ensures { (j : ℕ) → j < 16 → slice_index_or result j false ≡ (word / 2 == j / 2 || slice_index_or valid j false) }
{
    let mut valid = valid;
    valid[word / 2 * 2] = true;
    valid[word / 2 * 2 + 1] = true;
    valid
}

impl PlainSet {
    /// A set that holds no line.
    pub fn new() -> PlainSet
        ensures { (w : ℕ) → line_at result w ≡ None }
    {
        PlainSet {
            lines: ArrayVec::new(),
        }
    }

    // The place of the line.
    fn place_of(&self, line: u32) -> Option<usize>
        ensures within { IfSome result (λ i. i < length self.now.lines.items) }
        ensures small { IfSome result (λ i. i < 8) }
        ensures found { IfSome result (λ i. line_at self.now i ≡ Some line) }
        ensures none { IfNone result ((i : ℕ) → i < 8 → line_at self.now i ≢ Some line) }
    {
        self.lines.iter().position(|held| held.line == line)
    }

    // Whether a word of a line is valid; else it becomes valid with its pair.
    fn touch(&mut self, place: usize, word: usize) -> bool
        requires place { place < length self.old.lines.items }
        requires word { word < 16 }
        ensures answer { result ≡ word_at self.old place word }
        ensures hit { result ≡ true → self.new ≡ self.old }
        ensures lines { map (λ h. h.line) self.new.lines.items ≡ map (λ h. h.line) self.old.lines.items }
        ensures filled { result ≡ false → (j : ℕ) → j < 16 → word_at self.new place j ≡ (word / 2 == j / 2 || word_at self.old place j) }
        ensures others { (i j : ℕ) → i ≢ place → word_at self.new i j ≡ word_at self.old i j }
    {
        let held = self.lines[place];
        if held.valid[word] {
            return true;
        }
        self.lines[place] = HeldLine {
            line: held.line,
            valid: with_pair(held.valid, word),
        };
        false
    }

    // At most 7 lines stay.
    fn make_room(&mut self)
        ensures { self.new.lines.items ≡ take 7 self.old.lines.items }
    {
        if self.lines.is_full() {
            self.lines.pop();
        }
    }

    // The line goes to the front, with the word and its pair valid.
    fn allocate(&mut self, line: u32, word: usize)
        requires { word < 16 }
        ensures lines { map (λ h. h.line) self.new.lines.items ≡ line ∷ map (λ h. h.line) (take 7 self.old.lines.items) }
        ensures word { (j : ℕ) → j < 16 → word_at self.new 0 j ≡ (word / 2 == j / 2) }
        ensures others { (i j : ℕ) → i < 7 → word_at self.new (suc i) j ≡ word_at self.old i j }
    {
        self.make_room();
        let valid = with_pair([false; 16], word);
        self.lines.insert(0, HeldLine { line, valid });
    }

    /// Takes a fetch of an address of this set, and answers whether it was resident.
    pub fn fetch(&mut self, address: u32) -> bool
        ensures answer { (past : List ℕ) → PlainSetHolds self.old past (set_of (line_of address)) → result ≡ resident past address }
        ensures next { (past : List ℕ) → PlainSetHolds self.old past (set_of (line_of address))
            → PlainSetHolds self.new (address ∷ past) (set_of (line_of address)) }
    {
        let line = address / 16;
        let word = (address % 16) as usize;
        match self.place_of(line) {
            Some(place) => self.touch(place, word),
            None => {
                self.allocate(line, word);
                false
            }
        }
    }
}
