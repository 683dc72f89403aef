//! Why an image is not accepted.

use mx_link::LinkError;
use mx_plans::Rule;
use mx_squash::CopyRule;

/// What a certificate says that does not hold of a source and an image. Blocks, and words of code or data, count from 0.
#[derive(Clone, Copy, Debug, PartialEq, Eq)]
pub enum Rejection {
    /// It is for a source with another hash.
    Source,
    /// It has lines for so many blocks, and the source has so many others.
    Blocks {
        expected: usize,
        found: usize,
    },
    /// The plan of the block breaks the rule.
    Plan {
        block: usize,
        rule: Rule,
    },
    /// The block begins at another address.
    Address {
        block: usize,
        expected: u32,
        found: u32,
    },
    /// The rule forbids so many copies into the slots of the block.
    Copies {
        block: usize,
        rule: CopyRule,
    },
    /// The branch of the block squashes where it must not, or does not where it must.
    Squash {
        block: usize,
    },
    /// The word of code is another or missing, or there are too many.
    Code {
        index: usize,
        expected: Option<u32>,
        found: Option<u32>,
    },
    /// The word of data is another or missing, or there are too many.
    Data {
        index: usize,
        expected: Option<u32>,
        found: Option<u32>,
    },
}

/// Why an image is not verified.
#[derive(Clone, Copy, Debug, PartialEq, Eq)]
pub enum VerifyError {
    /// The source cannot be linked.
    Link(LinkError),
    /// The image is rejected.
    Rejected(Rejection),
}
