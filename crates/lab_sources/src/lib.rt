//! Sources as the options ask for them: read, linked by a scheduler or a plan file, with what comes to a run from outside, and
//! written as an image file.
#![tactic(auto)]

mod building;
mod plan_files;
mod planners;
mod runs;
mod schedulers;
mod sources;
mod stimulus;
mod stimulus_files;

pub use building::build_reply;
pub use plan_files::plans_of;
pub use planners::{FilePlans, PlannedProgram, Planner};
pub use runs::{GivenRun, noted_run, read_run};
pub use sources::{linked_text, read_program, read_source, unlinked};
pub use stimulus::Stimulus;
pub use stimulus_files::read_stimulus;
