//! Masks of the valid words of a line.
ghost use Rattle.std.specs.Prelude.{◌≡◌, ◌≢◌, ◌<◌, ◌≤◌, ◌+◌, ◌/◌, ◌==◌, ◌||◌, ℕ, true};
ghost use Rattle.mx_icache.specs.LineSets.{is_set};

/// Whether the word is valid.
pub fn is_set(mask: u16, word: u8) -> bool
    requires { word < 16 }
    ensures { result ≡ is_set mask word }
{
    (mask >> word) & 1 == 1
}

// The mask with a bit set.
fn with_bit(mask: u16, bit: u8) -> u16
    requires { bit < 16 }
    ensures bits { (j : ℕ) → is_set result j ≡ (bit == j || is_set mask j) }
{
    mask | (1 << bit)
}

/// The mask with the word and its pair valid.
pub fn with_pair(mask: u16, word: u8) -> u16
    requires { word < 16 }
    ensures bits { (j : ℕ) → is_set result j ≡ (word / 2 == j / 2 || is_set mask j) }
    ensures some { result ≢ 0 }
{
    let first = word / 2 * 2;
    with_bit(with_bit(mask, first), first + 1)
}

/// The mask of a line in which the word and its pair alone are valid.
#[tactic(auto, using(crate::proofs::Bits::zero_bits))]
pub fn pair_alone(word: u8) -> u16
    requires { word < 16 }
    ensures bits { (j : ℕ) → is_set result j ≡ (word / 2 == j / 2) }
    ensures some { result ≢ 0 }
{
    with_pair(0, word)
}

/// How many words from this one on are valid, up to the end of the line.
pub fn valid_from(mask: u16, word: u8) -> u32
    requires { word < 16 }
    ensures within { word + result ≤ 16 }
    ensures valid { (j : ℕ) → j < result → is_set mask (word + j) ≡ true }
{
    (u32::from(mask) >> word).trailing_ones()
}
