//! The shipped handler.

/// The 23 words of the shipped handler, from code address 0 on, with which a machine begins that is given no other (this
/// project's profile). It saves registers 1 and 2 and the chain in system words 1 to 5, counts the interrupt in system word 0,
/// and goes back to the three fetches of the chain.
pub const SHIPPED: [u32; 23] = [
    0x8802_0001,
    0x8804_0002,
    0x5000_1001,
    0x5000_2002,
    0x8802_0003,
    0x8804_0004,
    0x5000_1003,
    0x8802_0005,
    0x8004_0000,
    0x8002_0003,
    0xc084_0001,
    0x8804_0000,
    0x5840_0001,
    0x8004_0004,
    0x8002_0005,
    0x5880_0002,
    0x5840_0003,
    0x8004_0002,
    0x8002_0001,
    0x4000_0000,
    0xd000_0000,
    0xd000_0000,
    0xd800_0000,
];
