//! A program that several tests speak of, as a text and as its linked words.

/// A loop that counts down from 3 and sends each digit.
pub const COUNTS_DOWN: &[u8] =
    b"addi r0,#51,r1\naddi r0,#48,r2\nL: st 255[r0],r1\naddi r1,#-1,r1\nbne r1,r2,L\nhalt\n";

/// Its words, two of them copied into the slots of its squashing branch.
pub const COUNTDOWN: &[u32] = &[
    0xc002_0033,
    0xc004_0030,
    0x8802_00ff,
    0xc043_ffff,
    0x0845_0000,
    0x8802_00ff,
    0xc043_ffff,
    0xe000_0000,
];
