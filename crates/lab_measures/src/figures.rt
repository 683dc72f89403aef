//! What is told of a source that is linked and run.

use lab_terms::{Slots, TransferSlots};

/// The figures of a source that is linked by some plans and run.
#[derive(Clone, Copy)]
pub struct Figures {
    /// How many code words there are.
    pub words: usize,
    /// How many of them are the no-op.
    pub noops: u32,
    /// How many of them are copies.
    pub copies: u32,
    /// How many proposed plans are not valid, so that their blocks are padded.
    pub rejected: u32,
    /// The slots behind branches, calls and jumps, two each.
    pub transfers: TransferSlots,
    /// The places directly behind loads, one each.
    pub loads: Slots,
    /// The cycles of the run.
    pub cycles: u64,
    /// The fetches of the run, and those that missed.
    pub fetches: u64,
    pub misses: u64,
    /// The branches that squashed.
    pub squashes: u64,
    /// Whether the run halted within its budget.
    pub halted: bool,
}
