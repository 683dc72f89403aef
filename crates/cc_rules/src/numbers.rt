//! Addresses and other numbers.
ghost use Rattle.std.specs.Prelude.{◌≡◌, ◌+◌, ◌*◌, ◌/◌, ◌%◌, ◌-◌, ◌^◌, ◌<◌, ◌≤◌, ◌⊎◌, ◌↔◌, IsTrue};
ghost use Rattle.std.specs.Int.{w32, cast_signed};
ghost use Rattle.cc_rules.specs.Numbers;

/// The first address of data, in bytes.
pub const FIRST_BYTE: u64 = 1024;

/// The first byte behind the memory, which has 65536 words.
pub const LIMIT: u32 = 262_144;

/// The farthest that a load or a store reaches, in words.
const REACH: u32 = 65535;

/// How many words stand in a line at most.
const LINE_WORDS: u32 = 8;

/// A word as a signed number.
pub fn signed(word: u32) -> i64
    ensures { result ≡ cast_signed w32 word }
{
    i64::from(word.cast_signed())
}

/// Whether a number of words, signed, is in reach.
pub fn in_reach(words: u32) -> bool
    ensures { IsTrue result ↔ (words ≤ 65535) ⊎ (2 ^ 32 - 65535 ≤ words) }
{
    words <= REACH || words >= 0u32.wrapping_sub(REACH)
}

/// A quarter of a signed number, rounded down.
pub fn quarter(bytes: u32) -> u32
    ensures positive { bytes < 2 ^ 31 → result ≡ bytes / 4 }
    ensures negative { 2 ^ 31 ≤ bytes → result ≡ bytes / 4 + 3 * 2 ^ 30 }
{
    if bytes >= 0x8000_0000 {
        (bytes >> 2) + 0xc000_0000
    } else {
        bytes >> 2
    }
}

/// The number of a byte in its word.
pub fn byte_of(bytes: u32) -> u8
    ensures { result ≡ bytes % 4 }
{
    (bytes & 3) as u8
}

/// The least multiple of a number from an address on.
pub fn aligned(at: u64, align: u32) -> u64
    ensures { result ≡ Numbers.aligned at align }
{
    let align = u64::from(align).max(1);
    let over = at % align;
    if over == 0 {
        at
    } else {
        at.saturating_add(align - over)
    }
}

/// Where an address is in the image of all data.
pub fn place_in(address: u32) -> usize
    ensures { result ≡ address - FIRST_BYTE }
{
    u64::from(address).saturating_sub(FIRST_BYTE) as usize
}

/// The number that is kept as one more, where 0 keeps none.
pub fn kept_number(kept: u32) -> Option<u32>
    ensures { result ≡ Numbers.kept_number kept }
{
    if kept != 0 { Some(kept - 1) } else { None }
}

/// Where an item stands in a function whose first one has this number, if it does not stand before it.
pub fn index_within(first: usize, item: usize) -> Option<usize>
    ensures { result ≡ Numbers.index_within first item }
{
    if item >= first {
        Some(item - first)
    } else {
        None
    }
}

/// How many words a line of so many holds with one more, if it has room for it.
pub fn words_with(count: u32) -> Option<u32>
    ensures { result ≡ Numbers.words_with count }
{
    if count < LINE_WORDS {
        Some(count + 1)
    } else {
        None
    }
}

/// The key of the source file with a number in a text.
pub fn file_key(unit: u32, file: u32) -> u64
    ensures { result ≡ unit * 2 ^ 32 + file }
{
    u64::from(unit) * 4_294_967_296 + u64::from(file)
}
