//! Numbers as words.
ghost use Rattle.std.specs.Prelude.{◌≡◌, ◌≤◌, ◌⊎◌, ◌<◌, IfSome, IfNone};
ghost use Rattle.std.specs.Str.Parse.{IsNumeral, digits_value, without_leading_plus};

/// The number that a text spells, where it is `low` to `high`: one or more decimal digits, with at
/// most one leading `+`.
pub fn number_within(text: &str, low: u32, high: u32) -> Option<u32>
    ensures numeral { IfSome result (λ _. IsNumeral 10 (without_leading_plus text.now)) }
    ensures value { IfSome result (λ n. n ≡ digits_value 10 (without_leading_plus text.now)) }
    ensures range { IfSome result (λ n. (low ≤ n) × (n ≤ high)) }
    ensures none { IfNone result (IsNumeral 10 (without_leading_plus text.now)
        → (digits_value 10 (without_leading_plus text.now) < low)
        ⊎ (high < digits_value 10 (without_leading_plus text.now))) }
{
    match text.parse::<u32>() {
        Ok(n) if low <= n && n <= high => Some(n),
        _ => None,
    }
}
