//! What operations on registers become that need no memory: a few instructions of the machine.
#![tactic(auto)]

mod between;
mod comparisons;
mod computing;
mod numbers;
mod registers;

pub use between::{FIRST, SECOND, THIRD};
pub use comparisons::{set_if_below, set_if_negative, set_if_not_zero, set_if_zero, signs_of};
pub use computing::{compute, operand};
pub use numbers::{add_constant, constant};
pub use registers::{compute_registers, copy, shift_by};
