//! The reply of `caches`.
use crate::replies::{or_memory, printed, run_status};
use cmd_answer::Reply;
use lab_caches::{Study, caches_json, caches_svg, caches_text, study_of};
use lab_failure::LabFailure;
use lab_options::{CachesOptions, Form};
use lab_sources::{GivenRun, noted_run};
use lab_terms::{Geometry, geometries};
use lab_watch::{Watched, Watcher};
use mx_icache::LineCache;
use mx_io::{Memory, Shelf};
use mx_turn::Turns;
use std::alloc::Global;

// What caches of these geometries make of a run. The turn machine runs it, which does the same cycles as the pipeline, and
// sooner one by one.
fn study_by<W: Watcher>(
    alloc: Global,
    run: &GivenRun,
    geometries: &[Geometry],
    watcher: W,
) -> Result<Study, Memory> {
    let image = &run.program.linked.image;
    let turns = Turns::new(alloc, image, run.asked_input(), LineCache::new())?;
    let mut machine = Watched::new(turns, watcher);
    study_of(alloc, &mut machine, run.budget, geometries)
}

// What the caches that the options ask for make of a run.
fn study_in<W: Watcher>(
    alloc: Global,
    options: &CachesOptions,
    run: &GivenRun,
    watcher: W,
) -> Result<Study, Memory> {
    match geometries(alloc, options.line, options.brings, options.penalty) {
        Ok(all) => study_by(alloc, run, all.as_slice(), watcher),
        Err(_) => Err(Memory),
    }
}

// The study in the form that the options ask for.
fn text_of(alloc: Global, options: &CachesOptions, study: &Study) -> Result<Vec<u8>, Memory> {
    match options.run.form {
        Form::Json => caches_json(alloc, options.run.source, study),
        Form::Svg => or_memory(caches_svg(alloc, study)),
        _ => or_memory(caches_text(alloc, study)),
    }
}

/// The reply to `caches SOURCE`. A line for each plan that is rejected is left in `notes`.
pub fn caches_reply<'w, S: Shelf, W: Watcher>(
    alloc: Global,
    options: &CachesOptions<'w>,
    shelf: &mut S,
    watcher: W,
    notes: &mut Vec<u8>,
) -> Result<Reply, LabFailure<'w>> {
    let run = noted_run(alloc, shelf, &options.run, notes)?;
    let study = study_in(alloc, options, &run, watcher)?;
    printed(run_status(study.halted), text_of(alloc, options, &study))
}
