//! Pieces of a text.
ghost use Rattle.std.specs.Prelude.{◌≡◌, ◌≢◌, ◌<◌, ◌≤◌, ◌==◌, [], None, All, IfSome, MatchOption, not, reverse, length};
ghost use Rattle.std.specs.Char.{is_ascii_digit};
ghost use Rattle.std.specs.List.{position, position_or_len, before_first, after_first, list_all};
ghost use Rattle.cc_lines.specs.Bytes;
ghost use Rattle.cc_lines.specs.Marks;
ghost use Rattle.cc_lines.specs.Numbered;

use crate::quoted::escape;

/// The lines of a text, with what their ends leave of a CR.
#[derive(Drop)]
pub struct Lines<'a> {
    /// What is left of the text.
    pub rest: &'a [u8],
}

impl<'a> Lines<'a> {
    /// All lines of a text.
    pub fn new(text: &'a [u8]) -> Lines<'a>
        ensures { result.rest.now ≡ text.now }
    {
        Lines { rest: text }
    }

    /// The next line, if the text is not at its end.
    pub fn next_line(&mut self) -> Option<&'a [u8]>
        ensures line { MatchOption result (self.old.rest.now ≡ [])
            (λ line. line.now ≡ Bytes.trimmed (before_first (λ b. b == 10) self.old.rest.now)) }
        ensures rest { self.new.rest.now ≡ after_first (λ b. b == 10) self.old.rest.now }
    {
        if self.rest.is_empty() {
            return None;
        }
        let (line, rest) = split_at_byte(self.rest, b'\n');
        self.rest = rest;
        Some(trimmed(line))
    }
}

/// Whether a byte is a blank.
pub(crate) fn is_blank(byte: u8) -> bool
    ensures { result ≡ Bytes.is_blank byte }
{
    byte == b' ' || byte == b'\t' || byte == b'\r'
}

/// Whether a byte may be in a name.
pub(crate) fn is_named(byte: u8) -> bool
    ensures { result ≡ Bytes.is_named byte }
{
    byte.is_ascii_alphanumeric() || byte == b'_' || byte == b'.' || byte == b'$'
}

/// A kind of bytes, before the first of which a text is split.
#[derive(Clone, Copy)]
pub(crate) enum Mark {
    Byte(u8),
    /// A space or a tab.
    Gap,
    /// A space, a tab or a comma.
    Separator,
    /// A byte that may not be in a name.
    Unnamed,
    /// A byte that is no blank.
    Seen,
}

impl Mark {
    /// Whether a byte is of this kind.
    fn fits(self, byte: u8) -> bool
        ensures { result ≡ Marks.fits self byte }
    {
        match self {
            Mark::Byte(own) => byte == own,
            Mark::Gap => byte == b' ' || byte == b'\t',
            Mark::Separator => byte == b' ' || byte == b'\t' || byte == b',',
            Mark::Unnamed => !is_named(byte),
            Mark::Seen => !is_blank(byte),
        }
    }
}

/// The place of the first byte of a kind.
fn place_of(text: &[u8], mark: Mark) -> Option<usize>
    ensures { result ≡ position (λ b. Marks.fits mark b) text.now }
{
    text.iter().position(|b| mark.fits(*b))
}

/// How many bytes precede the first of a kind.
fn count_before(text: &[u8], mark: Mark) -> usize
    ensures count { result ≡ position_or_len (λ b. Marks.fits mark b) text.now }
    ensures within { result ≤ length text.now }
{
    match place_of(text, mark) {
        Some(at) => at,
        None => text.len(),
    }
}

/// A text up to the first byte of a kind, and the rest from that byte on.
pub(crate) fn split_before(text: &[u8], mark: Mark) -> (&[u8], &[u8])
    ensures front { result.0.now ≡ before_first (λ b. Marks.fits mark b) text.now }
    ensures rest { result.1.now ≡ Bytes.rest_from (λ b. Marks.fits mark b) text.now }
{
    text.split_at(count_before(text, mark))
}

/// A text up to the first byte with this value, and the rest after it.
pub(crate) fn split_at_byte(text: &[u8], byte: u8) -> (&[u8], &[u8])
    ensures front { result.0.now ≡ before_first (λ b. b == byte) text.now }
    ensures back { result.1.now ≡ after_first (λ b. b == byte) text.now }
{
    let (front, rest) = split_before(text, Mark::Byte(byte));
    match rest {
        [_, behind @ ..] => (front, behind),
        [] => (front, rest),
    }
}

/// The character constant of a comma.
static COMMA: [u8; 3] = [39, 44, 39];

/// How many bytes at the front of a text are the character constant of a comma: three or none.
fn comma_before(text: &[u8]) -> usize
    ensures count { result ≡ Bytes.comma_before text.now }
    ensures within { result ≤ length text.now }
{
    if text.starts_with(&COMMA) { 3 } else { 0 }
}

/// The first value of a text, which a comma ends, and the rest after that. The comma of `','` ends none.
pub(crate) fn split_value(text: &[u8]) -> (&[u8], &[u8])
    ensures rest { result.1.now ≡ Bytes.after_value text.now }
{
    let front = trimmed_front(text);
    let (comma, behind) = front.split_at(comma_before(front));
    let (first, rest) = split_at_byte(behind, b',');
    let count = comma.len().saturating_add(first.len());
    (front.get(..count).unwrap_or(&[]), rest)
}

/// The bytes at the front that may be in a name, and the rest after them.
pub(crate) fn split_name(text: &[u8]) -> (&[u8], &[u8])
    ensures name { result.0.now ≡ Bytes.name_of text.now }
    ensures rest { result.1.now ≡ Bytes.behind_name text.now }
{
    split_before(text, Mark::Unnamed)
}

/// How many blanks follow the last byte that is none.
fn blanks_behind(text: &[u8]) -> Option<usize>
    ensures { result ≡ position (λ b. not (Bytes.is_blank b)) (reverse text.now) }
{
    text.iter().rev().position(|b| !is_blank(*b))
}

/// A text without the blanks at its front.
pub(crate) fn trimmed_front(text: &[u8]) -> &[u8]
    ensures { result.now ≡ Bytes.front_trimmed text.now }
{
    split_before(text, Mark::Seen).1
}

/// A text without the blanks at its front and its end.
pub(crate) fn trimmed(text: &[u8]) -> &[u8]
    ensures { result.now ≡ Bytes.trimmed text.now }
{
    let front = trimmed_front(text);
    match blanks_behind(front) {
        Some(blanks) => &front[..front.len() - blanks],
        None => &[],
    }
}

/// How many bytes after the first of a text belong to it: those of a character constant, as `'a'` or `'\n'`.
fn count_behind(text: &[u8]) -> usize {
    match text {
        [b'\'', b'\\', _, b'\'', ..] => 3,
        [b'\'', _, b'\'', ..] => 2,
        [b'\'', _, ..] => 1,
        _ => 0,
    }
}

/// The place of the first byte with this value outside quotes and character constants.
fn place_outside(text: &[u8], mark: u8) -> Option<usize>
    ensures { All (λ b. b ≢ mark) text.now → result ≡ None }
{
    let mut quoted = false;
    let mut skipped = 0usize;
    for (at, byte) in text.iter().enumerate() {
        if skipped > 0 {
            skipped -= 1;
        } else if quoted && *byte == b'\\' {
            skipped = 1;
        } else if *byte == b'"' {
            quoted = !quoted;
        } else if !quoted && *byte == mark {
            return Some(at);
        } else if !quoted {
            skipped = count_behind(text.get(at..).unwrap_or(&[]));
        }
    }
    None
}

/// A line up to the first `#` outside quotes, without blanks around it.
pub fn without_comment(line: &[u8]) -> &[u8]
    ensures { All (λ b. b ≢ 35) line.now → result.now ≡ Bytes.trimmed line.now }
{
    match place_outside(line, b'#') {
        Some(at) => trimmed(line.get(..at).unwrap_or(&[])),
        None => trimmed(line),
    }
}

/// The first statement of a line without comment, which a `;` ends, and the rest after that.
pub fn first_statement(line: &[u8]) -> (&[u8], &[u8])
    ensures first { All (λ b. b ≢ 59) line.now → result.0.now ≡ line.now }
    ensures rest { All (λ b. b ≢ 59) line.now → result.1.now ≡ [] }
{
    match place_outside(line, b';') {
        Some(at) => (
            trimmed(line.get(..at).unwrap_or(&[])),
            trimmed(line.get(at..).unwrap_or(&[]).get(1..).unwrap_or(&[])),
        ),
        None => (line, &[]),
    }
}

/// The value of a digit in a base of at most 16.
pub(crate) fn digit(byte: u8, base: u32) -> Option<u32>
    ensures below { IfSome result (λ d. d < base) }
{
    let value = match byte {
        b'0'..=b'9' => u32::from(byte - b'0'),
        b'a'..=b'f' => u32::from(byte - b'a') + 10,
        b'A'..=b'F' => u32::from(byte - b'A') + 10,
        _ => return None,
    };
    if value < base { Some(value) } else { None }
}

/// The number with these digits in a base and one more after them, if it is below 2^64.
fn with_digit(value: u64, base: u32, byte: u8) -> Option<u64> {
    let digit = digit(byte, base)?;
    value
        .checked_mul(u64::from(base))?
        .checked_add(u64::from(digit))
}

/// The number that digits spell in a base of at most 16, if it is below 2^64.
fn digits(text: &[u8], base: u32) -> Option<u64>
    ensures none { text.now ≡ [] → result ≡ None }
{
    if text.is_empty() {
        return None;
    }
    let mut value = 0u64;
    for byte in text {
        value = with_digit(value, base, *byte)?;
    }
    Some(value)
}

/// The byte of a character constant, which is in `'`.
fn character(text: &[u8]) -> Option<u64> {
    match text {
        [b'\'', b'\\', letter, b'\''] => escape(*letter).map(u64::from),
        [b'\'', byte, b'\''] if *byte != b'\\' => Some(u64::from(*byte)),
        _ => None,
    }
}

/// Whether a text begins as a number does.
pub(crate) fn begins_number(text: &[u8]) -> bool {
    matches!(text, [b'0'..=b'9' | b'-' | b'+' | b'\'', ..])
}

/// Whether a text names a label that is a number: the last one before the line, as `1b`, or the next one, as `1f`.
pub fn names_numbered(text: &[u8]) -> bool
    ensures { result ≡ Numbered.names_numbered text.now }
{
    match text {
        [digits @ .., b'b' | b'f'] => is_numbered(digits),
        _ => false,
    }
}

/// Whether all bytes are decimal digits.
fn has_digits(text: &[u8]) -> bool
    ensures { result ≡ list_all is_ascii_digit text.now }
{
    text.iter().all(|b| b.is_ascii_digit())
}

/// Whether a name is a number.
pub fn is_numbered(name: &[u8]) -> bool
    ensures { result ≡ Numbered.is_numbered name.now }
{
    match name {
        [] => false,
        _ => has_digits(name),
    }
}

/// The number that a text spells, below 2^64, without a sign: decimal, octal after a `0`, binary after `0b`, hexadecimal after
/// `0x`, or the byte of a character constant.
fn unsigned(text: &[u8]) -> Option<u64> {
    match text {
        [b'\'', ..] => character(text),
        [b'0', b'x' | b'X', rest @ ..] => digits(rest, 16),
        [b'0', b'b' | b'B', rest @ ..] => digits(rest, 2),
        [b'0', _, ..] => digits(text, 8),
        _ => digits(text, 10),
    }
}

/// The number that a text spells, with a sign or without: whether it is negative, and its amount below 2^64.
fn signed_number(text: &[u8]) -> Option<(bool, u64)> {
    match text {
        [b'-', rest @ ..] => Some((true, unsigned(trimmed_front(rest))?)),
        [b'+', rest @ ..] => Some((false, unsigned(trimmed_front(rest))?)),
        _ => Some((false, unsigned(text)?)),
    }
}

/// The word that a text spells as a number from -(2^32 - 1) to 2^32 - 1, with a sign or without, modulo 2^32.
pub(crate) fn number(text: &[u8]) -> Option<u32> {
    let (negative, amount) = signed_number(text)?;
    match u32::try_from(amount) {
        Ok(word) if negative => Some(word.wrapping_neg()),
        Ok(word) => Some(word),
        Err(_) => None,
    }
}

/// The double word that a text spells as a number from -(2^64 - 1) to 2^64 - 1, with a sign or without, modulo 2^64.
pub(crate) fn wide_number(text: &[u8]) -> Option<u64> {
    let (negative, amount) = signed_number(text)?;
    Some(if negative {
        amount.wrapping_neg()
    } else {
        amount
    })
}
