//! Runs of generated sources under many interrupts.
#![tactic(auto)]

mod laws;
mod soaking;
mod told;

pub use laws::steps_lead_to_the_halt;
pub use soaking::soak;
