//! What is measured of a source and of its runs, before it is shown: what four schedulers make of a source, how a run and how the
//! meaning end, and what interrupt requests cost a run.
#![tactic(auto)]

mod comparison;
mod cycles;
mod figures;
mod forward;
mod going;
mod linking;
mod machine;
mod meaning;
mod measure;
mod observed;
mod row;
mod spread;
mod sums;
mod sweep;

pub use comparison::{Comparison, Conditions, compare};
pub use cycles::{Span, cycles_in};
pub use figures::Figures;
pub use linking::{PaddedProposer, linked_with};
pub use machine::{Ran, run_machine};
pub use meaning::{Standing, stand};
pub use measure::{figures_of, figures_of_linked};
pub use observed::Entry;
pub use row::Row;
pub use spread::{Bin, Spread, spread_of};
pub use sums::{Sums, sums_of};
pub use sweep::{Sweep, Swept, pairs, singles};
