//! Numbers that the source language has room for.
ghost use Rattle.std.specs.Prelude.{◌≡◌};
ghost use Rattle.cc_fits.specs.Fits;

/// Whether a register of the machine has this number.
pub(crate) fn is_register(number: u8) -> bool
    ensures { result ≡ Fits.is_register number }
{
    number < 32
}

/// Whether an instruction shifts by so many bits.
pub(crate) fn is_count(count: u8) -> bool
    ensures { result ≡ Fits.is_count count }
{
    count < 32
}

/// Whether a number has 8 bits, as its type says.
pub(crate) fn is_byte(number: u8) -> bool
    ensures { result ≡ Fits.is_byte number }
{
    u16::from(number) < 256
}

/// Whether a number has 32 bits, as its type says.
pub(crate) fn is_word(number: u32) -> bool
    ensures { result ≡ Fits.is_word number }
{
    u64::from(number) < 0x1_0000_0000
}
