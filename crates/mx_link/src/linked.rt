//! What linking gives.

use mx_blocks::Plan;
use mx_code::Image;

/// Where a word of the code comes from.
#[derive(Clone, Copy, Debug, PartialEq, Eq)]
pub enum Origin {
    /// The statement of this index.
    Own(u32),
    /// The statement of this index, copied into a slot of a transfer that goes to its block.
    Copy(u32),
    /// A no-op that was put in.
    Pad,
}

/// A linked program.
#[derive(Drop)]
pub struct Linked {
    pub image: Image,
    /// For each statement the address at which its block begins, and at last the address after the last word.
    pub links: Vec<u32>,
    /// Where each code word comes from.
    pub origin: Vec<Origin>,
    /// What was proposed for each block.
    pub proposals: Vec<Plan>,
    /// How many code words are the no-op.
    pub noops: u32,
    /// How many code words are copies.
    pub copies: u32,
    /// How many proposals are not valid, so that their blocks are padded.
    pub rejected: u32,
}
