//! The reply of `interrupts`.
ghost use Rattle.std.specs.Prelude.{◌≡◌, ◌<◌, [], IfOk};
ghost use Rattle.mx_turn.specs.Run.{run_of};
ghost use Rattle.lab_sources.specs.Runs.{loaded};

use crate::replies::{or_memory, printed, run_status};
use cmd_answer::Reply;
use lab_failure::LabFailure;
use lab_measures::{Row, Span, Sweep, Swept, cycles_in, pairs, singles};
use lab_options::{ArgumentFault, Form, MOST_RUNS, SweepOptions};
use lab_sources::{GivenRun, noted_run};
use lab_tables::{Places, places_of, sweep_csv, sweep_json, sweep_text};
use lab_watch::Watcher;
use mx_board::Requests;
use mx_io::{Memory, Shelf};
use mx_report::{Driven, drive};
use std::alloc::Global;

/// The most cycles of which each two make a run.
const MOST_PAIRED: u64 = 447;

// The cycles that the options ask for, of a run whose last cycle is this one.
fn span_given<'w>(options: &SweepOptions, last: u32) -> Result<Span, ArgumentFault<'w>>
    ensures { IfOk result (λ span. 0 < span.step) }
{
    let from = options.from;
    let to = options.to.unwrap_or(last);
    if from > last {
        return Err(ArgumentFault::AfterLast { from, last });
    }
    if from > to {
        return Err(ArgumentFault::AfterTo { from, to });
    }
    Ok(Span {
        from,
        to: to.min(last),
        step: options.step.max(1),
    })
}

// A span may not make too many runs.
fn refuse_excess<'w>(span: Span, is_pairs: bool) -> Result<(), ArgumentFault<'w>> {
    let (runs, most) = if is_pairs {
        (span.pairs(), MOST_PAIRED)
    } else {
        (span.count(), MOST_RUNS)
    };
    if runs <= MOST_RUNS {
        return Ok(());
    }
    let behind = u64::from(span.to.saturating_sub(span.from));
    let step = behind.checked_div(most).unwrap_or(0).saturating_add(1);
    Err(ArgumentFault::TooManyRuns { runs, step })
}

/// What is told of: in which cycles requests come, and whether they come in each two of these.
#[derive(Clone, Copy)]
struct Sought {
    span: Span,
    is_pairs: bool,
}

// The run without requests. A watcher is told how far it has come.
fn undisturbed_run<W: Watcher>(alloc: Global, run: &GivenRun, watcher: W) -> Result<Driven, Memory>
    ensures halted { IfOk result (λ d. d.halted ≡ (run_of (loaded run.now) [] run.now.budget).halted) }
    ensures cycles { IfOk result (λ d. d.counts.cycles ≡ (run_of (loaded run.now) [] run.now.budget).counts.cycles) }
    ensures console { IfOk result (λ d. d.console.items ≡ (run_of (loaded run.now) [] run.now.budget).console) }
{
    let requests = Requests::none(alloc);
    let mut machine = run.pipe(alloc, watcher)?;
    let driven = drive(alloc, &mut machine, &requests, run.budget, 0)?;
    Ok(driven)
}

// The last cycle of the run without requests.
fn last_cycle(run: &GivenRun, undisturbed: &Driven) -> u32 {
    let cycles = undisturbed.counts.cycles.saturating_sub(1);
    cycles.min(u64::from(run.budget)) as u32
}

// What the options ask of a run whose last cycle is this one.
fn sought_in<'w>(options: &SweepOptions, last: u32) -> Result<Sought, ArgumentFault<'w>>
    ensures { IfOk result (λ sought. 0 < sought.span.step) }
{
    let span = span_given(options, last)?;
    let is_pairs = options.is_pairs;
    refuse_excess(span, is_pairs)?;
    Ok(Sought { span, is_pairs })
}

// The runs with requests in these cycles, beside the undisturbed run.
fn rows_of<W: Watcher>(
    alloc: Global,
    run: &GivenRun,
    undisturbed: &Driven,
    sought: &Sought,
    cycles: &[u32],
    watcher: W,
) -> Result<Vec<Row>, Memory> {
    let swept = Swept {
        image: &run.program.linked.image,
        input: run.asked_input(),
        budget: run.budget,
        undisturbed: undisturbed.console.as_slice(),
        cycles,
    };
    if sought.is_pairs {
        let rows = pairs(alloc, &swept, watcher)?;
        Ok(rows)
    } else {
        let rows = singles(alloc, &swept, watcher)?;
        Ok(rows)
    }
}

// The runs with requests in the cycles of a span, beside the undisturbed run.
fn sweep_of<W: Watcher>(
    alloc: Global,
    run: &GivenRun,
    undisturbed: &Driven,
    sought: &Sought,
    watcher: W,
) -> Result<Sweep, Memory>
    requires { 0 < sought.now.span.step }
{
    let Ok(cycles) = cycles_in(alloc, sought.span) else {
        return Err(Memory);
    };
    let rows = rows_of(alloc, run, undisturbed, sought, cycles.as_slice(), watcher)?;
    Ok(Sweep {
        cycles: undisturbed.counts.cycles,
        halted: undisturbed.halted,
        span: sought.span,
        is_pairs: sought.is_pairs,
        rows,
    })
}

// A sweep of a source in the form that the options ask for.
fn form_of(
    alloc: Global,
    options: &SweepOptions,
    text: &[u8],
    sweep: &Sweep,
    places: &Places,
) -> Result<Vec<u8>, Memory> {
    let source = options.run.source;
    match options.run.form {
        Form::Json => sweep_json(alloc, source, sweep, places),
        Form::Csv => sweep_csv(alloc, source, sweep, places),
        _ => or_memory(sweep_text(alloc, sweep, places, text, options.has_rows)),
    }
}

// The same of a run's source.
fn text_of(
    alloc: Global,
    options: &SweepOptions,
    run: &GivenRun,
    sweep: &Sweep,
) -> Result<Vec<u8>, Memory> {
    let program = &run.program;
    let origin = program.linked.origin.as_slice();
    match places_of(alloc, program.source.lines(), origin) {
        Ok(places) => form_of(alloc, options, program.text.as_slice(), sweep, &places),
        Err(_) => Err(Memory),
    }
}

// Whether all of some runs halted.
fn all_halted(rows: &[Row]) -> bool {
    for row in rows {
        if !row.halted {
            return false;
        }
    }
    true
}

// The reply that tells of runs with requests, beside the run without any.
fn sweep_reply<'w, W: Watcher>(
    alloc: Global,
    options: &SweepOptions<'w>,
    run: &GivenRun,
    undisturbed: &Driven,
    watcher: W,
) -> Result<Reply, LabFailure<'w>> {
    let sought = match sought_in(options, last_cycle(run, undisturbed)) {
        Ok(sought) => sought,
        Err(fault) => return Err(LabFailure::Arguments(fault)),
    };
    let sweep = sweep_of(alloc, run, undisturbed, &sought, watcher)?;
    let halted = sweep.halted && all_halted(sweep.rows.as_slice());
    printed(run_status(halted), text_of(alloc, options, run, &sweep))
}

/// The reply to `interrupts SOURCE`. A line for each plan that is rejected is left in `notes`.
pub fn interrupts_reply<'w, S: Shelf, W: Watcher>(
    alloc: Global,
    options: &SweepOptions<'w>,
    shelf: &mut S,
    watcher: W,
    notes: &mut Vec<u8>,
) -> Result<Reply, LabFailure<'w>> {
    let run = noted_run(alloc, shelf, &options.run, notes)?;
    let undisturbed = undisturbed_run(alloc, &run, watcher)?;
    sweep_reply(alloc, options, &run, &undisturbed, watcher)
}
