//! The replies of the commands that run a source.
#![tactic(auto)]

mod blocks_ran;
mod caches;
mod debugging;
mod draw;
mod explain;
mod interrupts;
mod profile;
mod quiet_files;
mod replies;
mod trace;

pub use blocks_ran::{RanBlocks, ran_blocks};
pub use caches::caches_reply;
pub use debugging::debug_reply;
pub use draw::draw_reply;
pub use explain::explain_reply;
pub use interrupts::interrupts_reply;
pub use profile::profile_reply;
pub use replies::{or_memory, printed};
pub use trace::trace_reply;
