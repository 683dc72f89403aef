//! The first word in which two lists differ.
ghost use Rattle.std.specs.Prelude.{◌≡◌, MatchOption, slice_get};
ghost use Rattle.lab_certify.specs.Verified.{IsFirstOther};

/// A word of a list, if it has one there.
fn word_at(words: &[u32], i: usize) -> Option<u32>
    ensures { result ≡ slice_get words.now i }
{
    match words.get(i) {
        Some(word) => Some(*word),
        None => None,
    }
}

/// Where two lists of words first differ, or one of them ends, and what each has there.
#[derive(Clone, Copy)]
pub(crate) struct Difference {
    pub(crate) index: usize,
    pub(crate) expected: Option<u32>,
    pub(crate) found: Option<u32>,
}

/// The first difference of two lists of words.
pub(crate) fn first_difference(expected: &[u32], found: &[u32]) -> Option<Difference>
    ensures { MatchOption result (found.now ≡ expected.now)
        (λ d. IsFirstOther expected.now found.now d.index d.expected d.found) }
{
    let longest = expected.len().max(found.len());
    for i in 0..longest {
        let at = word_at(expected, i);
        let other = word_at(found, i);
        if at != other {
            return Some(Difference {
                index: i,
                expected: at,
                found: other,
            });
        }
    }
    None
}
