//! Names in a source.
ghost use Rattle.std.specs.Prelude.{◌≡◌};
ghost use Rattle.cc_rules.specs.Names;
ghost use Rattle.cc_rules.specs.Numbers;

/// How many bytes a name takes in a source at most. A line has at most 255, of which a branch has `        blos r31,r31,` before the
/// name, and the name itself a `_` before it, and behind it `..` and the number of its text.
pub const LONGEST_NAME: usize = 221;

/// How many bytes a name takes in a source, where each `$` is spelled as three.
pub fn spelled_len(name: &[u8]) -> usize
    ensures { result ≡ Numbers.saturated (Names.spelled_len name.now) }
{
    let dollars = name.iter().filter(|b| **b == b'$').count();
    name.len().saturating_add(dollars.saturating_mul(2))
}
