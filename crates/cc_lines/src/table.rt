//! Tables of words.

/// The meaning of a word in a table of words that mean the same.
pub(crate) fn meaning_of<T: Copy>(rows: &[(&[&str], T)], word: &[u8]) -> Option<T> {
    for (spellings, meaning) in rows {
        if is_among(spellings, word) {
            return Some(*meaning);
        }
    }
    None
}

/// Whether a word is one of these.
pub(crate) fn is_among(words: &[&str], word: &[u8]) -> bool {
    for spelling in words {
        if word == spelling.as_bytes() {
            return true;
        }
    }
    false
}
