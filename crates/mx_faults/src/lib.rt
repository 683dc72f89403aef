//! The faults of a source text, line by line: each fault as a predicate of its own, and all faulty lines of a text.
#![tactic(auto)]

mod front;
mod laws;
mod line;
mod line_fault;
mod role;
mod shown;
mod span;
mod walk;

pub use laws::{
    assembled_fault_is_least, faultless_is_printable, faultless_is_sayable, faultless_reads_back,
    first_faulty_line, least_is_least,
};
pub use line_fault::LineFault;
pub use role::{Role, places};
pub use span::{Span, token_span};
pub use walk::assemble_all;
