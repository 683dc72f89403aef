//! An undisturbed run.
ghost use Rattle.std.specs.Prelude.{◌≤◌};

use crate::observed::Notes;
use mx_icache::LineCache;
use mx_pipe::Pipe;

/// The run of an image without a request, as far as it has come.
#[derive(Drop)]
pub(crate) struct Forward {
    pub machine: Pipe<LineCache>,
    /// The cycles that are done.
    pub cycle: u32,
    pub halted: bool,
    pub notes: Notes,
    ghost counted: { machine.counts.cycles ≤ cycle },
}
