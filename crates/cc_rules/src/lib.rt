//! What the translation of assembly goes by, a rule a function: what is asked of an instruction, how long a name is in a source, and
//! how addresses and other numbers are reckoned.
#![tactic(auto)]

mod instructions;
mod names;
mod numbers;

pub use instructions::{has_slot, is_comparison, is_last, special_register};
pub use names::{LONGEST_NAME, spelled_len};
pub use numbers::{
    FIRST_BYTE, LIMIT, aligned, byte_of, file_key, in_reach, index_within, kept_number, place_in,
    quarter, signed, words_with,
};
