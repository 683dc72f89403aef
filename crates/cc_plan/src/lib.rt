//! What looking over a function as a whole finds for each of its items: which registers are read behind it, which comparison its
//! branch makes, and where its datum is, with each pointer divided by 4 once.
#![tactic(auto)]

mod effects;
mod fusing;
mod knowledge;
mod liveness;
mod places;
mod plan;
mod planning;

pub use effects::{HI, bit};
pub use fusing::tested_by;
pub use knowledge::{FRAME_WORDS, STACK_WORDS};
pub use plan::{Comparison, Place, Plan, Planned, Step};
pub use planning::plans_of;
