//! How often the blocks of a source run.
ghost use Rattle.std.specs.Prelude.{◌≡◌, ◌<◌, ℕ, IfOk, length, map, slice_index};
ghost use Rattle.lab_profile.specs.Tallies.{IsProfile};
ghost use Rattle.lab_sources.specs.Runs.{loaded, IsRunOf};
ghost use Rattle.lab_runs.specs.Ran.{executed_in, HaveRun, AreOfRun, words_of};

use lab_blocks::{Facts, source_blocks};
use lab_failure::LabFailure;
use lab_options::RunOptions;
use lab_profile::{LineCost, Profile, line_costs, profile_of};
use lab_sources::{GivenRun, read_run};
use lab_watch::Watcher;
use mx_io::{Memory, Shelf};
use std::alloc::{AllocError, Global};

/// The blocks of a source, with how often each ran, and whether the run halted.
#[derive(Drop)]
pub struct RanBlocks {
    pub blocks: Vec<Facts>,
    pub halted: bool,
}

/// The profile of a run.
pub(crate) fn profile_in<W: Watcher>(
    alloc: Global,
    run: &GivenRun,
    watcher: W,
) -> Result<Profile, Memory>
    ensures { IfOk result (IsProfile (loaded run.now) run.now.stimulus.requests (words_of run.now) run.now.budget) }
{
    let image = &run.program.linked.image;
    let requests = &run.stimulus.requests;
    let input = run.asked_input();
    let profile = profile_of(alloc, image, input, requests, run.budget, watcher)?;
    Ok(profile)
}

// How often each statement was executed, by its cost.
fn executed_by(alloc: Global, costs: &[LineCost]) -> Result<Vec<u64>, AllocError>
    ensures { IfOk result (λ counts. counts.items ≡ map (λ cost. cost.executed) costs.now) }
{
    let mut counts = Vec::new(alloc);
    for cost in costs {
        counts.push(cost.executed)?;
    }
    Ok(counts)
}

// How often each statement was executed in a run, by its profile.
fn executed_in(alloc: Global, run: &GivenRun, profile: &Profile) -> Result<Vec<u64>, AllocError>
    requires { IsProfile (loaded run.now) run.now.stimulus.requests (words_of run.now) run.now.budget profile.now }
    ensures { IfOk result (λ counts. (i : ℕ) → i < length run.now.program.source.statements → slice_index counts.items i ≡ executed_in run.now i) }
{
    let program = &run.program;
    let statements = program.source.statements().len();
    let origin = program.linked.origin.as_slice();
    let costs = line_costs(alloc, statements, origin, &profile.tally)?;
    let counts = executed_by(alloc, costs.as_slice())?;
    Ok(counts)
}

// The blocks of a run's source, with how often each ran, by the profile of the run.
fn blocks_by(alloc: Global, run: &GivenRun, profile: &Profile) -> Result<Vec<Facts>, Memory>
    requires { IsProfile (loaded run.now) run.now.stimulus.requests (words_of run.now) run.now.budget profile.now }
    ensures { IfOk result (λ all. HaveRun run.now all.items) }
{
    let program = &run.program;
    let Ok(counts) = executed_in(alloc, run, profile) else {
        return Err(Memory);
    };
    let blocks = source_blocks(alloc, &program.source, &program.linked, counts.as_slice())?;
    Ok(blocks)
}

// The blocks of a run's source, with how often each ran, and whether the run halted. A watcher is told how far it has come.
fn blocks_of<W: Watcher>(alloc: Global, run: &GivenRun, watcher: W) -> Result<RanBlocks, Memory>
    ensures { IfOk result (AreOfRun run.now) }
{
    let profile = profile_in(alloc, run, watcher)?;
    let blocks = blocks_by(alloc, run, &profile)?;
    Ok(RanBlocks {
        blocks,
        halted: profile.halted,
    })
}

/// The blocks of the source that the options name, with how often each ran: as often as its first statement was executed, at its own
/// word or at a copy, in the run that the options ask for; or what is wrong. A watcher is told how far the run has come.
pub fn ran_blocks<'w, S: Shelf, W: Watcher>(
    alloc: Global,
    options: &RunOptions<'w>,
    shelf: &mut S,
    watcher: W,
) -> Result<RanBlocks, LabFailure<'w>>
    ensures { IfOk result (λ ran. (run : GivenRun) × IsRunOf (S.told shelf.old) options.now (S.counts shelf.old) (S.counts shelf.new) run
        × AreOfRun run ran) }
{
    let run = read_run(alloc, shelf, options)?;
    let ran = blocks_of(alloc, &run, watcher)?;
    Ok(ran)
}
