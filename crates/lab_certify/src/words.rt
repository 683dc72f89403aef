//! The items of a line, and what they say.
ghost use Rattle.std.specs.Prelude.{◌≡◌, ◌∷◌, [], MatchOption};
ghost use Rattle.lab_certify.specs.Texts.{words_in, is_hex, number_after, address_of, copies_said};

use mx_plans::first_piece;

/// The first item of a line, and what follows it.
pub(crate) fn first_word(line: &[u8]) -> Option<(&[u8], &[u8])>
    ensures { MatchOption result (words_in line.now ≡ []) (λ r. words_in line.now ≡ r.0.now ∷ words_in r.1.now) }
{
    let mut left = line;
    'pieces: loop {
        let (piece, rest) = first_piece(left);
        if !piece.is_empty() {
            return Some((piece, rest_of(rest)));
        }
        let Some(rest) = rest else {
            return None;
        };
        left = rest;
    }
}

/// What follows a piece; nothing after the last.
fn rest_of(rest: Option<&[u8]>) -> &[u8]
    ensures { MatchOption rest.entry (result.now ≡ []) (λ r. result.now ≡ r.now) }
{
    match rest {
        Some(rest) => rest,
        None => &[],
    }
}

/// The number that digits write, where it is at most 65,535.
fn number_in(digits: &[u8]) -> Option<u32>
    ensures { result ≡ number_after 0 digits.now }
{
    let mut number = 0;
    for i in 0..digits.len() {
        let digit = digits[i];
        if !digit.is_ascii_digit() || number > 6553 {
            return None;
        }
        number = number * 10 + u32::from(digit - b'0');
    }
    if number <= 65_535 { Some(number) } else { None }
}

/// The address that one to five digits write.
pub(crate) fn address_of(word: &[u8]) -> Option<u32>
    ensures { result ≡ address_of word.now }
{
    if word.is_empty() || word.len() > 5 {
        None
    } else {
        number_in(word)
    }
}

/// How many copies, and whether the branch squashes.
pub(crate) fn copies_said(word: &[u8]) -> Option<(u8, bool)>
    ensures { result ≡ copies_said word.now }
{
    if word == b"0".as_slice() {
        Some((0, false))
    } else if word == b"1".as_slice() {
        Some((1, false))
    } else if word == b"2".as_slice() {
        Some((2, false))
    } else if word == b"1s".as_slice() {
        Some((1, true))
    } else if word == b"2s".as_slice() {
        Some((2, true))
    } else {
        None
    }
}

/// Whether it is one of the digits 0 to 9 and a to f.
pub(crate) fn is_hex(c: u8) -> bool
    ensures { result ≡ is_hex c }
{
    c.is_ascii_digit() || (97..=102).contains(&c)
}
