//! The order of a valid plan keeps what its block does.
#![tactic(auto)]

mod laws;

pub use laws::{
    terminator_decides_alike, valid_order_keeps_effect, valid_order_stays_clean,
    valid_plan_has_parts,
};
