//! The terms in which code and runs are told, without a run: what a place of linked code is and what fills its slots, where a
//! statement may go on, what a word does that commits, how a run stands beside the meaning, what a source is given, and what a cache is.
#![tactic(auto)]

mod committed;
mod geometry;
mod given;
mod places;
mod reach;
mod slots;
mod verdict;

pub use committed::{Committed, committed_by};
pub use geometry::{Geometry, SHIPPED_CACHE, geometries};
pub use given::given_to;
pub use places::{Place, Slot, place_at};
pub use reach::{Ways, reached, ways_of};
pub use slots::{Filling, Slots, TransferSlots, slots_of};
pub use verdict::{Verdict, enough_budget, verdict_of};
