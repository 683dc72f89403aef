//! Standard error, where it is a terminal.
ghost use Rattle.std.specs.Prelude.{◌≡◌, ◌/◌};

use crate::watched::Watcher;
use std::io::IsTerminal;

/// Shows the millions of cycles that are done on one line of standard error, where that is a terminal; elsewhere nothing.
/// The line is taken away at the end.
#[derive(Clone, Copy)]
pub struct OnTerminal<'a> {
    rt: &'a HostRuntime,
}

impl<'a> OnTerminal<'a> {
    /// On the standard error of this process.
    pub fn new(rt: &'a HostRuntime) -> OnTerminal<'a> {
        OnTerminal { rt }
    }
}

// The whole millions of a number of cycles.
fn millions_in(cycles: u64) -> u64
    ensures { result ≡ cycles / 1000000 }
{
    cycles / 1_000_000
}

impl Watcher for OnTerminal<'_> {
    fn tell(&self, cycles: u64) {
        let err = self.rt.stderr();
        if err.is_terminal() {
            let millions = millions_in(cycles);
            // what cannot be shown is not missed
            let _ = eprint!(err; "\r{millions} million cycles");
        }
    }

    fn done(&self) {
        let err = self.rt.stderr();
        if err.is_terminal() {
            let _ = eprint!(err; "\r\x1b[K");
        }
    }
}
