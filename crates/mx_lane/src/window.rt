//! Words that need not be looked up in the cache.
ghost use Rattle.std.specs.Prelude.{◌≡◌, ◌<◌, ◌^◌, ◌∷◌, true, ℕ, List};
ghost use Rattle.mx_icache.specs.Residency.{resident};
ghost use Rattle.mx_lane.specs.Lanes.{IsKnown};

use mx_icache::FetchCache;

/// The words of a line of the cache. A window begins with one, if these are resident.
const LINE_WORDS: u32 = 16;

/// So many words from an address on, which are resident.
#[derive(Clone, Copy)]
pub struct Window {
    pub low: u32,
    pub words: u32,
}

impl Window {
    /// No word.
    pub fn empty() -> Window
        ensures { result.words ≡ 0 }
    {
        Window { low: 0, words: 0 }
    }

    // Whether it has an address, of which the cache then need not be asked.
    #[inline(always)]
    #[tactic(auto, using(crate::proofs::Windows::has_here, crate::proofs::Windows::has_kept))]
    pub(crate) fn has<C: FetchCache>(&self, address: u32, _cache: &C) -> bool
        requires known { IsKnown C.holds self.now _cache.now }
        ensures resident { result ≡ true → (past : List ℕ) → C.holds _cache.now past → resident past address ≡ true }
        ensures keeps { result ≡ true → (past : List ℕ) → C.holds _cache.now past → C.holds _cache.now (address ∷ past) }
        ensures some { result ≡ true → 0 < self.now.words }
    {
        if address < self.low {
            return false;
        }
        address - self.low < self.words
    }
}

// So many words as are known to be resident, from an address on.
#[inline(always)]
fn window_from<C: FetchCache>(address: u32, cache: &C) -> Window
    requires { address < 2 ^ 31 }
    ensures { IsKnown C.holds result cache.now }
{
    Window {
        low: address,
        words: cache.reach(address),
    }
}

// The resident words of a line, or those from an address on.
#[inline(always)]
pub(crate) fn window_of<C: FetchCache>(address: u32, cache: &C) -> Window
    requires { address < 2 ^ 31 }
    ensures { IsKnown C.holds result cache.now }
{
    let line = window_from(address / LINE_WORDS * LINE_WORDS, cache);
    if line.has(address, cache) {
        return line;
    }
    window_from(address, cache)
}
