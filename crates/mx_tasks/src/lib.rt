//! Two programs that share the machine.
#![tactic(auto)]

mod driving;
mod laws;
mod sharing;
mod switch;

pub use driving::{SharedRun, drive_shared};
pub use laws::{
    current_is_by_parity, places_are_defined, shared_image_holds_both, shared_run_is_two,
    short_sources_reach, switch_fetches, switch_is_quiet, switch_is_table, switch_returns,
};
pub use mx_io::Memory;
pub use sharing::{LOWER, ShareError, Shared, UPPER, share};
pub use switch::SWITCH;
