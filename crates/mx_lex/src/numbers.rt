//! Numbers.
ghost use Rattle.std.specs.Prelude.{◌≡◌, ◌+◌, ◌<◌, ◌≤◌, ◌^◌, length, drop, min, IfSome, IfOk};
ghost use Rattle.std.specs.List.{prefix_len};
ghost use Rattle.std.specs.Char.{digit_value, is_digit};
ghost use Rattle.std.specs.Str.Parse.{digits_value};
ghost use Rattle.mx_lex.specs.Reading.{IsSpan};
ghost use Rattle.mx_lex.specs.Tokens.{digits_at, magnitude_at, number_at};

use crate::bytes::continues_name;
use crate::token::{Kind, LexFault, Token};

/// Greater values count as this one.
const GREATEST: u64 = 1 << 33;

/// The value of a digit or a letter, 36 for any other byte.
fn digit_of(byte: u8) -> u64
    ensures value { result ≡ digit_value byte }
    ensures bound { result ≤ 36 }
{
    u64::from(char::from(byte).to_digit(36).unwrap_or(36))
}

/// The value of digits, up to the greatest.
fn value_of(digits: &[u8], base: u64) -> u64
    requires least { 2 ≤ base }
    requires most { base ≤ 36 }
    ensures { result ≡ min (digits_value base digits.now) (2 ^ 33) }
{
    let mut value = 0;
    for digit in digits {
        value = (value * base + digit_of(*digit)).min(GREATEST);
    }
    value
}

/// Where the digits from a place on end.
fn digits_end(line: &[u8], base: u32, at: usize) -> usize
    requires least { 2 ≤ base }
    requires most { base ≤ 36 }
    requires within { at ≤ length line.now }
    ensures end { result ≡ at + prefix_len (λ b. is_digit b base) (drop at line.now) }
    ensures after { at ≤ result }
    ensures within { result ≤ length line.now }
{
    let mut end = at;
    while end < line.len() && char::from(line[end]).is_digit(base) {
        end += 1;
    }
    end
}

/// The digits at a place: where they end, and their value.
#[tactic(auto, unfolding(crate::specs::Tokens::digits_at))]
fn digits(line: &[u8], base: u32, at: usize) -> Option<(usize, u64)>
    requires least { 2 ≤ base }
    requires most { base ≤ 36 }
    requires within { at ≤ length line.now }
    ensures found { result ≡ digits_at line.now base at }
    ensures within { IfSome result (λ found. (at < found.0) × (found.0 ≤ length line.now)) }
{
    let end = digits_end(line, base, at);
    if end == at || (end < line.len() && continues_name(line[end])) {
        return None;
    }
    Some((end, value_of(&line[at..end], u64::from(base))))
}

/// The digits at a place, in hexadecimal after `0x`.
#[tactic(auto, unfolding(crate::specs::Tokens::magnitude_at))]
fn magnitude(line: &[u8], at: usize) -> Option<(usize, u64)>
    requires { at ≤ length line.now }
    ensures found { result ≡ magnitude_at line.now at }
    ensures within { IfSome result (λ found. (at < found.0) × (found.0 ≤ length line.now)) }
{
    if line.len() - at >= 2 && line[at] == b'0' && (line[at + 1] == b'x' || line[at + 1] == b'X') {
        digits(line, 16, at + 2)
    } else {
        digits(line, 10, at)
    }
}

/// The number at a place.
#[tactic(auto, unfolding(crate::specs::Tokens::number_at))]
pub fn number(line: &[u8], at: usize) -> Result<Token, LexFault>
    requires { at < length line.now }
    ensures token { result ≡ number_at line.now at }
    ensures span { IfOk result (IsSpan line.now at) }
{
    let negative = line[at] == b'-';
    let first = if negative { at + 1 } else { at };
    match magnitude(line, first) {
        Some((end, value)) => Ok(Token {
            kind: Kind::Number { negative, value },
            start: at,
            end,
        }),
        None => Err(LexFault::BadToken { at }),
    }
}
