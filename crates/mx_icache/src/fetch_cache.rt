//! What a cache of code words is, however it is kept.
ghost use Rattle.std.specs.Prelude.{◌≡◌, ◌<◌, ◌≤◌, ◌+◌, ◌^◌, ℕ, true, List, ◌∷◌};
ghost use Rattle.mx_icache.specs.Residency.{resident};

/// A cache of code words: 4 sets of 8 lines of 16 words, of which the word that is missed and its pair
/// become valid, and the line that was allocated first is replaced (this project's profile).
pub trait FetchCache: Drop {
    /// It stands for the addresses fetched so far, the newest first.
    ghost holds: { Self → List ℕ → Type 0 };

    /// Fetches the word at an address below 2^31, and answers whether it was resident.
    fn fetch(&mut self, address: u32) -> bool
        requires { address < 2 ^ 31 }
        ensures answer { (past : List ℕ) → holds self.old past → result ≡ resident past address }
        ensures next { (past : List ℕ) → holds self.old past → holds self.new (address ∷ past) };

    /// How many words from an address below 2^31 on are resident, as far as it looks; 0 is always right. A fetch of a resident
    /// word leaves the cache as it is.
    fn reach(&self, address: u32) -> u32
        requires { address < 2 ^ 31 }
        ensures within { address + result ≤ 2 ^ 31 }
        ensures resident { (past : List ℕ) → holds self.now past → (j : ℕ) → j < result → resident past (address + j) ≡ true }
        ensures keeps { (past : List ℕ) (a : ℕ) → holds self.now past → resident past a ≡ true → holds self.now (a ∷ past) };
}
