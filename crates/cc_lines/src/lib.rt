//! Lines of MIPS-I assembly, as a compiler writes it: the labels at the front of a line, and the instruction or the directive
//! after them, or why it is not taken.
#![tactic(auto)]

mod constants;
mod cursor;
mod directive;
mod instruction;
mod line;
mod mnemonic;
mod operand;
mod quoted;
mod reading;
mod refusal;
mod several;
mod table;

pub use constants::Constants;
pub use cursor::{Lines, first_statement, is_numbered, names_numbered, without_comment};
pub use directive::{Directive, DirectiveLine, Section};
pub use instruction::{
    Condition, Instruction, LinkFrom, Long, MOST_BEHIND, Operation, Register, Shift, Source,
    Special, Statement, Width,
};
pub use line::{Line, MOST_LABELS, first_word, label_before, line_read};
pub use operand::{Values, Word};
pub use quoted::push_quoted;
pub use refusal::{LineError, Refusal};
