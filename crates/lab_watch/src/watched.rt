//! A machine that reports the progress of its run.
ghost use Rattle.std.specs.Prelude.{◌≡◌};

use mx_isa::Reg;
use mx_turn::{Counts, Cycled, Latches, Machine};
use std::alloc::AllocError;

/// The cycles between two reports of progress. A machine that does many cycles at once may report a few cycles later.
const REPORT_EACH: u64 = 5_000_000;

/// What takes reports of progress.
pub trait Watcher: Copy + Drop {
    /// So many cycles are done.
    fn tell(&self, cycles: u64);

    /// The run has ended.
    fn done(&self);
}

/// Nobody.
#[derive(Clone, Copy)]
pub struct Unwatched;

impl Watcher for Unwatched {
    fn tell(&self, _cycles: u64) {}

    fn done(&self) {}
}

/// The machine within, which reports to its watcher each time that 5,000,000 cycles more are done.
#[derive(Drop)]
pub struct Watched<M, W> {
    machine: M,
    watcher: W,
    /// The cycles of the last report, and those done since.
    reported: u64,
    since: u64,
}

impl<M: Machine, W: Watcher> Watched<M, W> {
    ghost use Rattle.lab_watch.specs.Within.{within};

    /// The machine with a watcher. Reports count the cycles from now on.
    pub fn new(machine: M, watcher: W) -> Watched<M, W>
        ensures { within result ≡ machine }
    {
        Watched {
            machine,
            watcher,
            reported: 0,
            since: 0,
        }
    }

    // So many cycles more are done.
    fn count(&mut self, cycles: u64)
        ensures { within self.new ≡ within self.old }
    {
        self.since = self.since.saturating_add(cycles);
        if self.since >= REPORT_EACH {
            self.reported = self.reported.saturating_add(self.since);
            self.watcher.tell(self.reported);
            self.since = 0;
        }
    }
}

impl<M: Machine, W: Watcher> Machine for Watched<M, W> {
    ghost use Rattle.lab_watch.specs.Within.{within};

    ghost stands = { λ t p h. M.stands (within t) p h };

    ghost cycles = { λ t. M.cycles (within t) };

    fn cycle(&mut self, request: bool) -> Cycled {
        self.count(1);
        self.machine.cycle(request)
    }

    // Not more at once than between two reports, so that a long run without a request is reported too.
    fn advance(&mut self, most: u64, console: &mut Vec<u8>) -> Result<u64, AllocError> {
        let done = self.machine.advance(most.min(REPORT_EACH), console)?;
        self.count(done);
        Ok(done)
    }

    fn counts(&self) -> Counts {
        self.machine.counts()
    }

    fn register(&self, r: Reg) -> u32 {
        self.machine.register(r)
    }

    fn md(&self) -> u32 {
        self.machine.md()
    }

    fn user_data(&self, address: u32) -> u32 {
        self.machine.user_data(address)
    }

    fn inputs(&self) -> u32 {
        self.machine.inputs()
    }

    fn latches(&self) -> Latches {
        self.machine.latches()
    }
}
