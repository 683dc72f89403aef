//! The four schedulers.
use lab_measures::{Comparison, Figures};

/// The names of the schedulers.
pub(crate) static SCHEDULERS: [&str; 4] = ["padded", "list", "copies", "best"];

/// The figures of the scheduler whose name has this index.
pub(crate) fn figures_at(comparison: &Comparison, index: usize) -> &Figures {
    match index {
        0 => &comparison.padded,
        1 => &comparison.list,
        2 => &comparison.copies,
        _ => &comparison.best,
    }
}
