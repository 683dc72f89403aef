//! The name that was meant by a word with a slip or two.
#![tactic(auto)]

ghost use Rattle.std.specs.Prelude.{◌≡◌};
ghost use Rattle.lab_slips.specs.Slips;

use std::alloc::{AllocError, Global};
use strsim::osa_distance;

/// How many slips may lie between a word of so many bytes and the name that was meant: one for each three bytes, and one
/// at least.
pub fn most_slips(bytes: usize) -> usize
    ensures { result ≡ Slips.most_slips bytes }
{
    (bytes / 3).max(1)
}

// A name has all letters of a word, in the same order: the word only leaves some out.
fn completes(name: &str, word: &str) -> bool {
    let mut left = word.as_bytes();
    for byte in name.as_bytes() {
        if let [first, rest @ ..] = left {
            if *first == *byte {
                left = rest;
            }
        }
    }
    left.is_empty()
}

// A name is nearer to a word than the best one so far. Of two that are as near, one that completes the word is nearer.
fn is_nearer(word: &str, name: &str, distance: usize, best: Option<&str>, least: usize) -> bool {
    match best {
        Some(other) if distance == least => completes(name, word) && !completes(other, word),
        Some(_) => distance < least,
        None => true,
    }
}

/// The name that is nearest to a word, if one is near: so many letters less, more, other or swapped. Of names that are as near it
/// is the first in which the word only leaves letters out, or else the first.
pub fn nearest<'a>(
    alloc: Global,
    word: &str,
    names: &[&'a str],
) -> Result<Option<&'a str>, AllocError> {
    let mut best = None;
    let mut least = most_slips(word.len());
    for name in names {
        let distance = osa_distance(alloc, word, *name)?;
        if distance <= least && is_nearer(word, *name, distance, best, least) {
            best = Some(*name);
            least = distance;
        }
    }
    Ok(best)
}
