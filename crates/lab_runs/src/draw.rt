//! The reply of `draw`.
ghost use Rattle.std.specs.Prelude.{◌≤◌, ◌+◌, IfOk};
ghost use Rattle.lab_draw.specs.Frames.{IsDrawing};
ghost use Rattle.lab_sources.specs.Runs.{loaded};

use crate::replies::{or_memory, printed};
use cmd_answer::{Reply, Status};
use lab_draw::{Drawing, draw, rows_of};
use lab_failure::LabFailure;
use lab_options::{DrawOptions, Form};
use lab_pictures::{PlaceNames, Subject, html, json, kanata, svg, text, vcd};
use lab_sources::{GivenRun, noted_run};
use lab_watch::Watcher;
use mx_io::{Memory, Shelf};
use std::alloc::Global;

// Which cycles are drawn: the first one, and how many.
#[derive(Clone, Copy)]
struct Span {
    from: u32,
    count: u32,
    budget: u32,
}

// The cycles that the options ask for, within the budget.
fn span_given(options: &DrawOptions) -> Span
    ensures { result.from + result.count ≤ result.budget }
{
    let budget = options.run.budget;
    let from = options.from.min(budget);
    let count = options.cycles.min(budget - from);
    Span {
        from,
        count,
        budget,
    }
}

// Draws cycles of a run, under the shipped handler. A watcher is told how far the run has come.
fn drawing_of<W: Watcher>(
    alloc: Global,
    run: &GivenRun,
    span: Span,
    watcher: W,
) -> Result<Drawing, Memory>
    requires { span.from + span.count ≤ span.budget }
    ensures { IfOk result (IsDrawing (loaded run.now) run.now.stimulus.requests span.from span.count span.budget) }
{
    let mut machine = run.pipe(alloc, watcher)?;
    let requests = &run.stimulus.requests;
    let Span {
        from,
        count,
        budget,
    } = span;
    draw(alloc, &mut machine, requests, from, count, budget)
}

// The picture of a drawing, in a form.
fn form_of(alloc: Global, form: Form, subject: &Subject) -> Result<Vec<u8>, Memory> {
    let rows = rows_of(alloc, subject.drawing.frames.as_slice())?;
    let rows = rows.as_slice();
    or_memory(match form {
        Form::Svg => svg(alloc, subject, rows),
        Form::Html => html(alloc, subject, rows),
        Form::Json => json(alloc, subject, rows),
        Form::Kanata => kanata(alloc, subject, rows),
        Form::Vcd => vcd(alloc, subject),
        _ => text(alloc, subject, rows),
    })
}

// The picture of a drawing, in the form that the options ask for, with these names of places.
fn named_picture(
    alloc: Global,
    options: &DrawOptions,
    run: &GivenRun,
    names: &PlaceNames,
    drawing: &Drawing,
    span: Span,
) -> Result<Vec<u8>, Memory> {
    let program = &run.program;
    let subject = Subject {
        file: options.run.source,
        text: program.text.as_slice(),
        lines: program.source.lines(),
        linked: &program.linked,
        scheduler: run.by.name(),
        names,
        from: span.from,
        budget: span.budget,
        drawing,
    };
    form_of(alloc, options.run.form, &subject)
}

// The picture of a drawing of a run, in the form that the options ask for.
fn picture_with(
    alloc: Global,
    options: &DrawOptions,
    run: &GivenRun,
    drawing: &Drawing,
    span: Span,
) -> Result<Vec<u8>, Memory> {
    let program = &run.program;
    let links = program.linked.links.as_slice();
    let words = program.linked.image.code.len();
    match PlaceNames::new(alloc, &program.source, links, words) {
        Ok(names) => named_picture(alloc, options, run, &names, drawing, span),
        Err(_) => Err(Memory),
    }
}

// The picture of the cycles of a run that the options ask for.
fn picture_of<W: Watcher>(
    alloc: Global,
    options: &DrawOptions,
    run: &GivenRun,
    watcher: W,
) -> Result<Vec<u8>, Memory> {
    let span = span_given(options);
    let drawing = drawing_of(alloc, run, span, watcher)?;
    picture_with(alloc, options, run, &drawing, span)
}

/// The reply to `draw SOURCE`. A line for each plan that is rejected is left in `notes`.
pub fn draw_reply<'w, S: Shelf, W: Watcher>(
    alloc: Global,
    options: &DrawOptions<'w>,
    shelf: &mut S,
    watcher: W,
    notes: &mut Vec<u8>,
) -> Result<Reply, LabFailure<'w>> {
    let run = noted_run(alloc, shelf, &options.run, notes)?;
    let reply = printed(Status::Done, picture_of(alloc, options, &run, watcher))?;
    Ok(reply)
}
