//! Numbers among the words of a command.
ghost use Rattle.std.specs.Prelude.{◌≡◌, ◌≤◌, IfSome, option_map};
ghost use Rattle.cmd_table.specs.Numbers.{number, number_or, optional};

use cmd_line::number_within;

/// The number that a text spells, where it is `low` to `high`.
pub fn number(text: &str, low: u32, high: u32) -> Option<u32>
    ensures number { result ≡ number low high text.now }
    ensures range { IfSome result (λ n. (low ≤ n) × (n ≤ high)) }
{
    number_within(text, low, high)
}

/// The number of an option, or its default where it is not given; None where it is faulty.
pub fn number_or(text: Option<&str>, default: u32, low: u32, high: u32) -> Option<u32>
    ensures number { result ≡ number_or default low high (option_map (λ s. s.now) text.entry) }
    ensures range { low ≤ default → default ≤ high → IfSome result (λ n. (low ≤ n) × (n ≤ high)) }
{
    match text {
        Some(text) => number(text, low, high),
        None => Some(default),
    }
}

/// The number of an option, if it is given; None where it is faulty.
pub fn optional(text: Option<&str>, low: u32, high: u32) -> Option<Option<u32>>
    ensures { result ≡ optional low high (option_map (λ s. s.now) text.entry) }
{
    match text {
        Some(text) => Some(Some(number(text, low, high)?)),
        None => Some(None),
    }
}
