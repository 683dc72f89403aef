//! Drawings of a run: what each fetch does in each cycle.
#![tactic(auto)]

mod cell;
mod drawing;
mod frame;
mod rows;
mod stage;
mod ways;

pub use cell::Cell;
pub use drawing::{Drawing, draw};
pub use frame::Frame;
pub use rows::{Row, SPAN, rows_of};
pub use ways::{Way, way_of};
