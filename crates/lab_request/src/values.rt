//! Tests of values.
ghost use Rattle.std.specs.Prelude.{◌≡◌, map, slice_index};
ghost use Rattle.std.specs.List.{list_all, list_any};
ghost use Rattle.std.specs.Str.{bytes_eq};
ghost use Rattle.serde_json.specs.View.{view};
ghost use Rattle.lab_request.specs.Fields.{number_in, is_within, are_cycles, is_letter, is_name_sign, is_name, is_form, is_scheduler};

use serde_json::Value;

/// The greatest number of a cycle.
const MOST_CYCLE: u64 = 4_294_967_295;

/// How long a name is at most.
const MOST_NAME: usize = 64;

static FORMS: [&str; 6] = ["json", "text", "svg", "html", "kanata", "vcd"];

static SCHEDULERS: [&str; 4] = ["padded", "list", "copies", "best"];

/// The whole number that a value is; 0 where it is none.
pub fn number_in(value: &Value) -> u64
    ensures { result ≡ number_in (view value.now) }
{
    value.as_u64().unwrap_or(0)
}

/// Whether a value is a whole number of this range.
pub fn is_within(value: &Value, least: u64, most: u64) -> bool
    ensures { result ≡ is_within least most (view value.now) }
{
    match value.as_u64() {
        Some(n) => least <= n && n <= most,
        None => false,
    }
}

/// Whether values are bytes.
pub fn are_bytes(items: &[Value]) -> bool
    ensures { result ≡ list_all (is_within 0 255) (map view items.now) }
{
    for item in items {
        if !is_within(item, 0, 255) {
            return false;
        }
    }
    true
}

/// Whether values are cycles, each greater than the one before.
pub fn are_cycles(items: &[Value]) -> bool
    ensures { result ≡ are_cycles 0 (map view items.now) }
{
    let mut least = 0;
    for item in items {
        if !is_within(item, least, MOST_CYCLE) {
            return false;
        }
        least = number_in(item) + 1;
    }
    true
}

// Whether a byte is a letter, a digit or `_`.
fn is_letter(byte: u8) -> bool
    ensures { result ≡ is_letter byte }
{
    matches!(byte, 97..=122 | 65..=90 | 48..=57 | 95)
}

// Whether all bytes may stand in a name.
fn are_name_signs(bytes: &[u8]) -> bool
    ensures { result ≡ list_all is_name_sign bytes.now }
{
    for byte in bytes {
        if !is_letter(*byte) && *byte != 46 && *byte != 45 {
            return false;
        }
    }
    true
}

/// Whether a text is a name.
pub fn is_name(text: &str) -> bool
    ensures { result ≡ is_name text.now }
{
    let bytes = text.as_bytes();
    bytes.len() <= MOST_NAME && is_letter(first_byte(bytes)) && are_name_signs(bytes)
}

/// The first byte; 0 where there is none.
pub fn first_byte(bytes: &[u8]) -> u8
    ensures { result ≡ slice_index bytes.now 0 }
{
    match bytes.first() {
        Some(byte) => *byte,
        None => 0,
    }
}

// Whether a word is one of some.
fn is_among(words: &[&str], word: &str) -> bool
    ensures { result ≡ list_any (λ w. bytes_eq w.now word.now) words.now }
{
    for it in words {
        if *it == word {
            return true;
        }
    }
    false
}

/// Whether a text is the form of a picture.
pub fn is_form(text: &str) -> bool
    ensures { result ≡ is_form text.now }
{
    is_among(&FORMS, text)
}

/// Whether a text is the name of a scheduler.
pub fn is_scheduler(text: &str) -> bool
    ensures { result ≡ is_scheduler text.now }
{
    is_among(&SCHEDULERS, text)
}
