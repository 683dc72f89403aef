//! What the arguments of an analysis command say, as values: its options, the words of these, and arguments that it cannot use.
#![tactic(auto)]

mod arguments;
mod named;
mod options;

pub use arguments::{ArgumentFault, MOST_RUNS};
pub use named::{WordRow, file_by, meaning_in, meant_by};
pub use options::{
    BuildOptions, CachesOptions, CheckForm, CheckOptions, CompareOptions, DebugOptions,
    DisassembleOptions, DrawOptions, Form, LabCommand, Part, PlansOf, PlansOptions, ProfileOptions,
    RunOptions, Scheduler, Sort, StimulusNames, SweepOptions, VerifyOptions,
};
