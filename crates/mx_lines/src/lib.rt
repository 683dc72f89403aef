//! The words of a line, the labels of a text, and the instruction that words are.
#![tactic(auto)]

mod fault;
mod instructions;
mod labels;
mod lines;
mod mnemonic;
mod operands;
mod resolve;
mod shapes;
mod word;

pub use fault::{AsmError, Fault, LineError, MAX_LINE_BYTES};
pub use instructions::instruction;
pub use labels::{Labels, PAST_END, add_named};
pub use lines::{lines_of, split_line};
pub use mnemonic::{MNEMONICS, Mnemonic, mnemonic_named, spells};
pub use operands::{data_word, register_named, special_named};
pub use resolve::any_label;
pub use word::{Word, split_words};
