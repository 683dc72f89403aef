//! Sources with what their runs are given.
ghost use Rattle.std.specs.Prelude.{◌≡◌, IfOk, option_map};
ghost use Rattle.std.specs.Option.{option_copied};
ghost use Rattle.lab_sources.specs.Stimuli.{AreGiven};
ghost use Rattle.lab_sources.specs.Runs.{input_of, IsOfFile, IsLoaded, IsRunOf};

use crate::planners::{PlannedProgram, Planner, planned};
use crate::sources::read_program;
use crate::stimulus::Stimulus;
use crate::stimulus_files::read_stimulus;
use cmd_source::Program;
use lab_failure::LabFailure;
use lab_options::RunOptions;
use lab_watch::{Watched, Watcher, watched_pipe};
use mx_icache::LineCache;
use mx_io::{Memory, Shelf};
use mx_pipe::Pipe;
use std::alloc::Global;

/// A linked source with what its run is given, and a budget of cycles.
#[derive(Drop)]
pub struct GivenRun {
    pub program: Program,
    /// By whose plans it is linked.
    pub by: Planner,
    pub stimulus: Stimulus,
    pub budget: u32,
}

impl GivenRun {
    /// The input, where the source asks for one.
    pub fn asked_input(&self) -> Option<&[u8]>
        ensures bytes { IsOfFile (option_copied result) }
        ensures given { option_copied result ≡ input_of self.now }
    {
        match self.program.source.input() {
            Some(_) => Some(self.stimulus.input.as_slice()),
            None => None,
        }
    }

    /// The pipeline before the first cycle of the run, under the shipped handler. A watcher is told how far it has come.
    pub fn pipe<W: Watcher>(
        &self,
        alloc: Global,
        watcher: W,
    ) -> Result<Watched<Pipe<LineCache>, W>, Memory>
        ensures { IfOk result (IsLoaded self.now) }
    {
        let image = &self.program.linked.image;
        let input = self.asked_input();
        let pipe = watched_pipe(alloc, image, input, LineCache::new(), watcher)?;
        Ok(pipe)
    }
}

// A linked source with what comes to its run from outside.
fn run_with<'w, S: Shelf>(
    alloc: Global,
    shelf: &mut S,
    options: &RunOptions<'w>,
    planned: PlannedProgram,
) -> Result<GivenRun, LabFailure<'w>>
    ensures made { IfOk result (λ run. (run.program ≡ planned.program) × (run.by ≡ planned.by) × (run.budget ≡ options.now.budget)) }
    ensures given { IfOk result (λ run. AreGiven (S.told shelf.old) (option_map (λ s. s.now) options.now.stimulus.interrupts)
        (option_map (λ s. s.now) options.now.stimulus.input) (S.counts shelf.old) (S.counts shelf.new) run.stimulus) }
    ensures told_stays { S.told shelf.new ≡ S.told shelf.old }
    ensures writes_stay { S.write_faults shelf.new ≡ S.write_faults shelf.old }
{
    let PlannedProgram { program, by } = planned;
    let stimulus = read_stimulus(alloc, shelf, options.stimulus)?;
    Ok(GivenRun {
        program,
        by,
        stimulus,
        budget: options.budget,
    })
}

/// The run that the options ask for: the named source, linked by the named plan file or scheduler, with what the named files give
/// it. The files are read in this order; what is wrong with the first that is wrong is answered.
pub fn read_run<'w, S: Shelf>(
    alloc: Global,
    shelf: &mut S,
    options: &RunOptions<'w>,
) -> Result<GivenRun, LabFailure<'w>>
    ensures run { IfOk result (IsRunOf (S.told shelf.old) options.now (S.counts shelf.old) (S.counts shelf.new)) }
    ensures told_stays { S.told shelf.new ≡ S.told shelf.old }
    ensures writes_stay { S.write_faults shelf.new ≡ S.write_faults shelf.old }
{
    let read = read_program(alloc, shelf, options.source)?;
    let made = planned(alloc, shelf, options, read)?;
    let run = run_with(alloc, shelf, options, made)?;
    Ok(run)
}

/// The same, beside which a line for each plan that is rejected is left in `notes`.
pub fn noted_run<'w, S: Shelf>(
    alloc: Global,
    shelf: &mut S,
    options: &RunOptions<'w>,
    notes: &mut Vec<u8>,
) -> Result<GivenRun, LabFailure<'w>>
    ensures run { IfOk result (IsRunOf (S.told shelf.old) options.now (S.counts shelf.old) (S.counts shelf.new)) }
    ensures told_stays { S.told shelf.new ≡ S.told shelf.old }
    ensures writes_stay { S.write_faults shelf.new ≡ S.write_faults shelf.old }
{
    let run = read_run(alloc, shelf, options)?;
    notes.extend_from_slice(run.by.rejections())?;
    Ok(run)
}
