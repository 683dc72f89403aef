//! What a certificate says.

use mx_plans::PlanLine;

/// What a certificate says of a block, besides its plan.
#[derive(Clone, Copy, Debug, PartialEq, Eq)]
pub struct Head {
    /// The address of its first word.
    pub address: u32,
    /// How many words of its target are copied into its slots.
    pub copies: u8,
    /// Whether its branch squashes.
    pub squashes: bool,
}

/// A certificate that was read.
#[derive(Drop)]
pub struct Certificate {
    /// The hexadecimal digits of the source's hash.
    pub hash: Vec<u8>,
    /// What it says of each block.
    pub heads: Vec<Head>,
    /// The plan of each block.
    pub plans: Vec<PlanLine>,
}
