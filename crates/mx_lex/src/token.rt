//! Tokens, and what is no token.
use thiserror::Error;

/// What a token is.
#[derive(Clone, Copy, Debug, PartialEq, Eq)]
pub enum Kind {
    /// A letter, `_` or `.`, and the letters, digits, `_` and `.` behind it.
    Name,
    /// A number in decimal, or in hexadecimal after `0x`. Its value is exact up to 2^33, and is 2^33 where it is greater.
    Number {
        /// A `-` stands before the digits.
        negative: bool,
        /// The value of the digits.
        value: u64,
    },
    /// `,`
    Comma,
    /// `[`
    Open,
    /// `]`
    Close,
    /// `#`
    Hash,
    /// `:`
    Colon,
    /// The end of the line, or the `;` of a comment.
    End,
}

/// A token, and the bytes of the line that it takes: from `start` to before `end`.
#[derive(Clone, Copy, Debug, PartialEq, Eq)]
pub struct Token {
    pub kind: Kind,
    pub start: usize,
    pub end: usize,
}

/// Why there is no token at a place of the line.
#[derive(Clone, Copy, Debug, PartialEq, Eq, Error)]
pub enum LexFault {
    /// A byte outside comments that is neither a tab nor 32 to 126.
    #[error("no text at byte {at}")]
    BadByte { at: usize },
    /// No token begins as the line does there.
    #[error("no token at byte {at}")]
    BadToken { at: usize },
}
