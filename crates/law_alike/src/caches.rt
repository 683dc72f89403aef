//! Whether two caches are the same.
ghost use Rattle.std.specs.Prelude.{◌≡◌, ℕ, List, true};
ghost use Rattle.mx_icache.specs.LineSets.{CacheHolds};
ghost use Rattle.law_alike.specs.Alike.{AnswerAlike};

use mx_icache::{LineCache, Set};

// Whether two sets are the same.
fn is_same_set(set: &Set, other: &Set) -> bool
    ensures { result ≡ true → set.now.next ≡ other.now.next × set.now.masks ≡ other.now.masks × set.now.tags ≡ other.now.tags }
{
    set.next == other.next && set.masks == other.masks && set.tags == other.tags
}

/// Whether two caches are the same: they then answer alike.
pub fn is_same_cache(cache: &LineCache, other: &LineCache) -> bool
    ensures { result ≡ true → (past past' : List ℕ) → CacheHolds cache.now past → CacheHolds other.now past' → AnswerAlike past past' }
{
    for set in 0..4 {
        if !is_same_set(&cache.sets[set], &other.sets[set]) {
            return false;
        }
    }
    true
}
