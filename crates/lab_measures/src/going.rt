//! How an undisturbed run goes forward, and how runs with requests go on from where it has come.
ghost use Rattle.std.specs.Prelude.{◌≡◌, ◌≤◌, ◌<◌, ◌++◌, ℕ, List, Bool, [], false, IfOk, OnOk};
ghost use Rattle.mx_icache.specs.LineSets.{CacheHolds};
ghost use Rattle.mx_turn.specs.Program.{Program};
ghost use Rattle.mx_turn.specs.Run.{is_requested};
ghost use Rattle.lab_measures.specs.Terms.{IsInput, StandsFor, image_program};
ghost use Rattle.lab_measures.specs.Going.{IsTold};
ghost use Rattle.lab_measures.specs.Forward.{HasCome};

use crate::forward::Forward;
use crate::observed::{Noter, Run, no_notes, run_on};
use mx_board::Requests;
use mx_code::Image;
use mx_icache::LineCache;
use mx_io::Memory;
use mx_pipe::Pipe;
use mx_report::observe;
use mx_turn::Machine;
use std::alloc::Global;

impl Forward {
    /// Before its first cycle.
    pub fn new(alloc: Global, image: &Image, input: Option<&[u8]>) -> Result<Forward, Memory>
        requires bytes { IsInput input }
        ensures cycle { IfOk result (λ f. f.cycle ≡ 0) }
        ensures come { IfOk result (HasCome (image_program image.now input.entry)) }
    {
        let machine = Pipe::new(alloc, image, input, LineCache::new())?;
        Ok(Forward {
            machine,
            cycle: 0,
            halted: false,
            notes: no_notes(alloc),
        })
    }

    /// Its cycles.
    pub fn cycle(&self) -> u32
        ensures { result ≡ self.now.cycle }
    {
        self.cycle
    }

    /// Its console.
    pub fn console(&self) -> &[u8]
        ensures { result.now ≡ self.now.notes.console.items }
    {
        &self.notes.console
    }

    /// Goes on to a cycle, or until it halts.
    pub fn go_on(self, alloc: Global, to: u32) -> Result<Forward, Memory>
        requires { self.cycle ≤ to }
        ensures within { IfOk result (λ f. f.cycle ≤ to) }
        ensures come { IfOk result (λ f. (p : Program) → HasCome p self → HasCome p f) }
    {
        if self.halted {
            return Ok(self);
        }
        let Forward {
            mut machine,
            cycle,
            mut notes,
            ..
        } = self;
        let requests = Requests::none(alloc);
        let noter = Noter {
            before: [].as_slice(),
        };
        match observe(&mut machine, &requests, cycle, to, &noter, &mut notes) {
            Ok(reached) => Ok(Forward {
                machine,
                cycle: reached.cycles,
                halted: reached.halted,
                notes,
            }),
            Err(_) => Err(Memory),
        }
    }

    // Its machine, in memory of its own. It has counted the same.
    fn machine_copied(&self, alloc: Global) -> Result<Pipe<LineCache>, Memory>
        ensures counts { IfOk result (λ t. t.counts ≡ self.now.machine.counts) }
        ensures stands { IfOk result (λ t. (p : Program) (h : List Bool) → StandsFor CacheHolds self.now.machine p h → StandsFor CacheHolds t p h) }
    {
        let copy = self.machine.copied(alloc, self.machine.cache)?;
        Ok(Pipe {
            counts: self.machine.counts,
            ..copy
        })
    }

    /// The run with these requests, of which none came before, for at most `budget` cycles in all. The console of the run that it
    /// answers begins behind that of this one.
    pub fn run_with(&self, alloc: Global, requests: &Requests, budget: u32) -> Result<Run, Memory>
        requires { self.now.cycle ≤ budget }
        ensures { IfOk result (λ r. (p : Program) → HasCome p self.now → ((k : ℕ) → k < self.now.cycle → is_requested requests.now k ≡ false)
            → IsTold p requests.now budget self.now.notes.console.items r) }
    {
        if self.halted {
            return Ok(Run {
                halted: true,
                counts: self.machine.counts(),
                console: Vec::new(alloc),
                entry: None,
            });
        }
        let mut machine = self.machine_copied(alloc)?;
        let run = run_on(
            alloc,
            &mut machine,
            self.cycle,
            self.console(),
            requests,
            budget,
        )?;
        Ok(run)
    }
}
