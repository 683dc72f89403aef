//! The reply of `debug` with a plan file.
ghost use Rattle.std.specs.Prelude.{◌≡◌, ◌<◌, ◌^◌, IfOk, IfErr, IfSome, length, slice_index};
ghost use Rattle.mx_isa.specs.Board.{board};
ghost use Rattle.mx_layout.specs.Overlong.{IsRefusal};
ghost use Rattle.mx_link.specs.Origins.{from_nowhere};
ghost use Rattle.mx_link.specs.Linked.{IsLinked};
ghost use Rattle.mx_plans.specs.Files.{lines_said, marks_of, marks_of_lines};
ghost use Rattle.mx_plans.specs.Says.{IsProposed};
ghost use Rattle.cmd_answer.specs.Replies.{reply_answer};
ghost use Rattle.cmd_options.specs.Options.{IsAsked};
ghost use Rattle.lab_sources.specs.Refusals.{IsTooFar};
ghost use Rattle.lab_sources.specs.PlanFiles.{ArePlansOf};
ghost use Rattle.lab_runs.specs.Sessions.{statement_at, statement_named, limits_of, IsSessionOf, IsSession, IsSessionGiven, IsNoSession, IsSessionPlanned, IsDebugOf};

use crate::quiet_files::{INPUT, INTERRUPTS, QuietFiles};
use cmd_answer::{Reply, replied};
use cmd_debug::debug_image;
use cmd_options::{RunFiles, SessionLimits};
use lab_failure::LabFailure;
use lab_options::DebugOptions;
use lab_plans::link_told;
use lab_sources::{Stimulus, plans_of, read_source, read_stimulus, unlinked};
use mx_code::Image;
use mx_io::Shelf;
use mx_isa::BOARD;
use mx_link::{LinkError, Linked};
use mx_plans::{PlanLine, link_planned_plain};
use mx_source::{Label, Source};
use std::alloc::Global;

// The statement of a source of so many at which a label stands.
fn statement_at(label: Label, count: usize) -> Option<u32>
    ensures { result ≡ statement_at count label }
{
    match label {
        Label::Code(index) => {
            if (index as usize) < count {
                Some(index)
            } else {
                None
            }
        }
        Label::Data(_) => None,
    }
}

// The statement at the code label of this name.
fn statement_named(source: &Source, name: &str) -> Option<u32>
    ensures statement { result ≡ statement_named source.now name.now }
    ensures within { IfSome result (λ index. index < length source.now.statements) }
{
    let wanted = name.as_bytes();
    let labels = source.labels();
    let count = source.statements().len();
    for i in 0..labels.len() {
        let Some((found, label)) = labels.get_index(i) else {
            unreachable!();
        };
        if wanted == found.bytes() {
            return statement_at(*label, count);
        }
    }
    None
}

// Links a source at the board's place without copies by the plans that the lines of a file say. Copies would run before the block
// that they are of.
fn linked_plain(alloc: Global, source: &Source, lines: &[PlanLine]) -> Result<Linked, LinkError>
    ensures linked { IfOk result (IsLinked (IsProposed source.now (marks_of_lines lines.now)) from_nowhere source.now board) }
    ensures refused { IfErr result (IsRefusal (IsProposed source.now (marks_of_lines lines.now)) source.now board) }
{
    let _statements = source.statements();
    link_planned_plain(alloc, source, BOARD, lines)
}

// The same by what the lines say, for the source of this name.
fn plain_linked<'w>(
    alloc: Global,
    name: &'w str,
    source: &Source,
    lines: &[PlanLine],
) -> Result<Linked, LabFailure<'w>>
    ensures linked { IfOk result (IsLinked (IsProposed source.now (marks_of (lines_said lines.now))) from_nowhere source.now board) }
    ensures refused { IfErr result (IsTooFar name.entry.now source.now (lines_said lines.now)) }
{
    match linked_plain(alloc, source, lines) {
        Ok(linked) => Ok(linked),
        Err(error) => Err(unlinked(name, error)),
    }
}

// The address of a statement.
fn link_at(linked: &Linked, index: u32) -> u32
    requires { index < length linked.now.links.items }
    ensures { result ≡ slice_index linked.now.links.items index }
{
    linked.links[index as usize]
}

// The session of an image, stopped at an address, with what comes to its run from outside.
fn session<'w>(
    alloc: Global,
    image: &Image,
    asks: bool,
    address: u32,
    stimulus: &Stimulus,
    limits: &SessionLimits,
) -> Result<Reply, LabFailure<'w>>
    requires address { address < 2 ^ 31 }
    requires asked { IsAsked limits.now }
    ensures answered { IfOk result (λ r. IsSessionOf image.now.code.items image.now.user_data.items asks address stimulus.now.cycles.items
        stimulus.now.input.items limits.now (reply_answer r)) }
    ensures memory { IfErr result (λ failure. failure ≡ LabFailure.Memory) }
{
    let cycles = stimulus.cycles.as_slice();
    let input = stimulus.input.as_slice();
    let mut shelf = QuietFiles::new(alloc, cycles, input)?;
    let files = RunFiles {
        interrupts: Some(INTERRUPTS),
        input: Some(INPUT),
    };
    let outcome = debug_image(alloc, &mut shelf, image, asks, address, &files, limits);
    let reply = replied(outcome)?;
    Ok(reply)
}

// The session of a source that is linked without copies by the plans that the lines of a file say, at a statement.
fn stopped_reply<'w>(
    alloc: Global,
    name: &'w str,
    source: &Source,
    lines: &[PlanLine],
    index: u32,
    stimulus: &Stimulus,
    limits: &SessionLimits,
) -> Result<Reply, LabFailure<'w>>
    requires asked { IsAsked limits.now }
    requires within { index < length source.now.statements }
    ensures stopped { IfOk result (λ r. IsSession source.now (lines_said lines.now) index stimulus.now.cycles.items stimulus.now.input.items
        limits.now (reply_answer r)) }
    ensures refused { IfErr result (IsTooFar name.entry.now source.now (lines_said lines.now)) }
{
    let linked = plain_linked(alloc, name, source, lines)?;
    let address = link_at(&linked, index);
    let asks = source.input().is_some();
    let reply = session(alloc, &linked.image, asks, address, stimulus, limits)?;
    Ok(reply)
}

// What the options ask of a session: the table of commands has the same ranges.
fn session_limits(options: &DebugOptions) -> SessionLimits
    ensures asked { IsAsked result }
    ensures limits { result ≡ limits_of options.now }
{
    SessionLimits {
        stops: options.stops.clamp(1, 1000),
        watch: options.watch.clamp(256, 65_535),
        budget: options.budget.min(100_000_000),
    }
}

// Leaves a line in `notes` for each plan of a file that is rejected for the source of this name.
fn note_rejected<'w>(
    alloc: Global,
    name: &'w str,
    source: &Source,
    lines: &[PlanLine],
    notes: &mut Vec<u8>,
) -> Result<(), LabFailure<'w>> {
    match link_told(alloc, source, lines) {
        Ok(told) => Ok(notes.extend_from_slice(told.rejections.as_slice())?),
        Err(error) => Err(unlinked(name, error)),
    }
}

// The lines of the plan file that the options name for a source that is linked by them; those that are rejected are noted.
fn read_lines<'w, S: Shelf>(
    alloc: Global,
    options: &DebugOptions<'w>,
    shelf: &mut S,
    source: &Source,
    notes: &mut Vec<u8>,
) -> Result<Vec<PlanLine>, LabFailure<'w>>
    ensures read { IfOk result (λ lines. ArePlansOf (S.told shelf.old) options.now.plans.now source.now (S.counts shelf.old) (S.counts shelf.new)
        (lines_said lines.items)) }
    ensures told_stays { S.told shelf.new ≡ S.told shelf.old }
    ensures writes_stay { S.write_faults shelf.new ≡ S.write_faults shelf.old }
{
    let lines = plans_of(alloc, shelf, source, options.plans)?;
    note_rejected(alloc, options.source, source, lines.as_slice(), notes)?;
    Ok(lines)
}

// The session of a source at a statement, with what the named files give.
fn labelled_reply<'w, S: Shelf>(
    alloc: Global,
    options: &DebugOptions<'w>,
    shelf: &mut S,
    source: &Source,
    lines: &[PlanLine],
    index: u32,
) -> Result<Reply, LabFailure<'w>>
    requires { index < length source.now.statements }
    ensures session { IfOk result (λ r. IsSessionGiven (S.told shelf.old) options.now source.now (lines_said lines.now) index
        (S.counts shelf.old) (S.counts shelf.new) (reply_answer r)) }
    ensures refused { IfErr result (IsNoSession (S.told shelf.old) options.now source.now (lines_said lines.now) (S.counts shelf.old) (S.counts shelf.new)) }
    ensures told_stays { S.told shelf.new ≡ S.told shelf.old }
    ensures writes_stay { S.write_faults shelf.new ≡ S.write_faults shelf.old }
{
    let stimulus = read_stimulus(alloc, shelf, options.stimulus)?;
    let limits = session_limits(options);
    let reply = stopped_reply(
        alloc,
        options.source,
        source,
        lines,
        index,
        &stimulus,
        &limits,
    )?;
    Ok(reply)
}

// The session of a source at a statement, by the named files.
fn session_reply<'w, S: Shelf>(
    alloc: Global,
    options: &DebugOptions<'w>,
    shelf: &mut S,
    source: &Source,
    index: u32,
    notes: &mut Vec<u8>,
) -> Result<Reply, LabFailure<'w>>
    requires { index < length source.now.statements }
    ensures session { IfOk result (λ r. IsSessionPlanned (S.told shelf.old) options.now source.now index (S.counts shelf.old) (S.counts shelf.new)
        (reply_answer r)) }
    ensures told_stays { S.told shelf.new ≡ S.told shelf.old }
    ensures writes_stay { S.write_faults shelf.new ≡ S.write_faults shelf.old }
{
    let lines = read_lines(alloc, options, shelf, source, notes)?;
    let reply = labelled_reply(alloc, options, shelf, source, lines.as_slice(), index)?;
    Ok(reply)
}

/// The reply to `debug SOURCE LABEL --plans FILE`: a source is refused by its first fault, then by its label, then the plan file is
/// read, then what comes to the run from outside. A line for each plan that is rejected is left in `notes`.
pub fn debug_reply<'w, S: Shelf>(
    alloc: Global,
    options: &DebugOptions<'w>,
    shelf: &mut S,
    notes: &mut Vec<u8>,
) -> Result<Reply, LabFailure<'w>>
    ensures session { IfOk result (λ r. IsDebugOf (S.told shelf.old) options.now (S.counts shelf.old) (S.counts shelf.new) (reply_answer r)) }
    ensures told_stays { S.told shelf.new ≡ S.told shelf.old }
    ensures writes_stay { S.write_faults shelf.new ≡ S.write_faults shelf.old }
{
    let source = read_source(alloc, shelf, options.source)?;
    match statement_named(&source, options.label) {
        Some(index) => {
            let reply = session_reply(alloc, options, shelf, &source, index, notes)?;
            Ok(reply)
        }
        None => Err(LabFailure::NoLabel {
            name: options.source,
            label: options.label,
        }),
    }
}
