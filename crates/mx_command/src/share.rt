//! The reply of the command that runs two sources on one machine.
ghost use Rattle.std.specs.Prelude.{◌≡◌, ◌≤◌, ◌++◌, length, slice_get, IfOk, List, ℕ, Option, Some, None, option_map, pos, ◌-ℤ◌};
ghost use Rattle.mx_io.specs.declared.limits.TheConstants.{MAX_SOURCE_BYTES};
ghost use Rattle.mx_command.specs.Terms.{SourceValue, lower, upper, sharing_protocol, limit_of, Answer, prints, text_line, Counts, Protocol, Answers, Reads};
ghost use Rattle.mx_command.specs.Terms.{Performed, reply_answer, IfAnswered, IsScheduler, overlong_text, Layouts, of_program, line_cause, wrong_by, wrong_with};
ghost use Rattle.mx_command.specs.Terms.{assembled_protocol, pair_protocol, share_protocol, IsFitting, Performs, OnAnswer, Gives, Refuses};

use cmd_answer::{Failure, FileKind, Reply, Status, line_reply};
use cmd_share::run_shared;
use cmd_source::{overlong_text, read_named};
use mx_asm::assemble_at;
use mx_code::Image;
use mx_io::{Memory, Shelf};
use mx_isa::Place;
use mx_lines::AsmError;
use mx_reorg::ListProposer;
use mx_source::Source;
use mx_tasks::{LOWER, ShareError, Shared, UPPER, share};
use std::alloc::Global;

/// How many statements each of two programs may have.
const MOST: usize = 10_000;

// The reply to what is wrong with program 1 or 2.
fn wrong_reply(alloc: Global, program: u32, cause: &str) -> Result<Reply, Memory>
    ensures { IfOk result (λ r. reply_answer r ≡ prints Status.Refused (text_line (of_program program cause.now))) }
{
    let Ok(text) = format!(in alloc; "program {program} {cause}") else {
        return Err(Memory);
    };
    let reply = line_reply(alloc, Status::Refused, text.as_str())?;
    Ok(reply)
}

// The reply to what is wrong with a line of it.
fn line_wrong(alloc: Global, program: u32, line: u32, cause: &str) -> Result<Reply, Memory>
    ensures { IfOk result (λ r. reply_answer r ≡ prints Status.Refused (text_line (of_program program (line_cause line cause.now)))) }
{
    let Ok(text) = format!(in alloc; "line {line}: {cause}") else {
        return Err(Memory);
    };
    let reply = wrong_reply(alloc, program, text.as_str())?;
    Ok(reply)
}

// The reply to a branch of it that does not reach its target.
fn far_reply(alloc: Global, program: u32, line: u32, from: u32, to: u32) -> Result<Reply, Memory>
    ensures { IfOk result (λ r. reply_answer r ≡ prints Status.Refused (text_line (of_program program (overlong_text line (pos to -ℤ pos from) from to)))) }
{
    let displacement = i64::from(to) - i64::from(from);
    let Ok(text) = overlong_text(alloc, line, displacement, from, to) else {
        return Err(Memory);
    };
    let reply = wrong_reply(alloc, program, text.as_str())?;
    Ok(reply)
}

// What keeps a source without faults from sharing the machine, with its line.
fn first_wrong(source: &Source) -> Option<(u32, &'static str)>
    ensures { option_map (λ w. line_cause w.0 w.1.now) result ≡ wrong_by None source.now.input (slice_get source.now.lines 10000) }
{
    if let Some(line) = source.input() {
        return Some((line, "input"));
    }
    match source.lines().get(MOST) {
        Some(line) => Some((*line, "too many instructions")),
        None => None,
    }
}

// The source of program 1 or 2, or the reply to what keeps it from sharing the machine.
fn shareable(alloc: Global, program: u32, source: Source) -> Result<Source, Failure>
    ensures right { IfOk result (λ kept. (kept ≡ source) × (wrong_by None source.input (slice_get source.lines 10000) ≡ None)) }
    ensures wrong { IfAnswered result (λ answer. (cause : List ℕ)
        × (wrong_by None source.input (slice_get source.lines 10000) ≡ Some cause)
        × (answer ≡ prints Status.Refused (text_line (of_program program cause)))) }
{
    match first_wrong(&source) {
        Some((line, cause)) => Err(Failure::Answered(line_wrong(alloc, program, line, cause)?)),
        None => Ok(source),
    }
}

// The source of a program's text, assembled for its place, or the reply to what is wrong with it.
fn assembled_for(alloc: Global, program: u32, place: Place, text: &[u8]) -> Result<Source, Failure>
    requires short { length text.now ≤ MAX_SOURCE_BYTES }
    requires least { 256 ≤ place.user_data }
    ensures source { IfOk result (IsFitting place text.now) }
    ensures refused { IfAnswered result (λ answer. (cause : List ℕ) × (wrong_with place text.now ≡ Some cause)
        × (answer ≡ prints Status.Refused (text_line (of_program program cause)))) }
{
    match assemble_at(alloc, text, place.user_data, place.end) {
        Ok(source) => shareable(alloc, program, source),
        Err(AsmError::Refused { line, fault }) => {
            Err(Failure::Answered(line_wrong(alloc, program, line, fault.text())?))
        }
        Err(AsmError::Memory) => Err(Failure::Memory),
    }
}

// The source of program 1 or 2, whose text is in a file, or the reply to a fault of the file, or to what is wrong with the text.
fn read_assembled<S: Shelf>(
    alloc: Global,
    shelf: &mut S,
    kind: FileKind,
    program: u32,
    place: Place,
    name: &str,
) -> Result<Source, Failure>
    requires short { limit_of kind ≤ MAX_SOURCE_BYTES }
    requires least { 256 ≤ place.user_data }
    ensures source { IfOk result (λ source. (text : List ℕ) × IsFitting place text source) }
    ensures given { IfOk result (λ source. Gives (λ next. Reads kind name.now (assembled_protocol program place next))
        (S.told shelf.old) (S.counts shelf.old) (S.counts shelf.new) source) }
    ensures refused { IfAnswered result (Refuses (λ next. Reads kind name.now (assembled_protocol program place next))
        (S.told shelf.old) (S.counts shelf.old) (S.counts shelf.new)) }
    ensures told_stays { S.told shelf.new ≡ S.told shelf.old }
    ensures writes_stay { S.write_faults shelf.new ≡ S.write_faults shelf.old }
{
    let text = read_named(alloc, shelf, kind, name)?;
    let source = assembled_for(alloc, program, place, text.as_slice())?;
    Ok(source)
}

// The image of two sources, or the reply to the first branch that does not reach its target.
fn joined_image(alloc: Global, first: &Source, second: &Source) -> Result<Image, Failure>
    requires first { (text : List ℕ) × IsFitting lower text first.now }
    requires second { (text : List ℕ) × IsFitting upper text second.now }
    ensures given { IfOk result (λ image. (layout_of : Layouts) → IsScheduler layout_of → (interrupts : Option (List ℕ)) (budget : ℕ)
        → pair_protocol layout_of interrupts budget first.now second.now ≡ sharing_protocol interrupts budget image.code.items image.user_data.items) }
    ensures refused { IfAnswered result (λ answer. (layout_of : Layouts) → IsScheduler layout_of → (interrupts : Option (List ℕ)) (budget : ℕ)
        → pair_protocol layout_of interrupts budget first.now second.now ≡ Answers answer) }
{
    match share(alloc, first, second, &mut ListProposer) {
        Ok(shared) => {
            let Shared { image, .. } = shared;
            Ok(image)
        }
        Err(
            ShareError::Displacement {
                program,
                line,
                from,
                to,
            },
        ) => {
            let reply = far_reply(alloc, program, line, from, to)?;
            Err(Failure::Answered(reply))
        }
        Err(ShareError::Memory) => Err(Failure::Memory),
    }
}

// The reply of two programs that share the machine, or the one to the first branch that does not reach its target.
fn pair_reply<S: Shelf>(
    alloc: Global,
    shelf: &mut S,
    first: &Source,
    second: &Source,
    interrupts: Option<&str>,
    budget: u32,
) -> Result<Reply, Failure>
    requires first { (text : List ℕ) × IsFitting lower text first.now }
    requires second { (text : List ℕ) × IsFitting upper text second.now }
    ensures performed { Performs (λ layout_of. pair_protocol layout_of (option_map (λ s. s.now) interrupts.entry) budget first.now second.now)
        result (S.told shelf.old) (S.counts shelf.old) (S.counts shelf.new) }
    ensures told_stays { S.told shelf.new ≡ S.told shelf.old }
    ensures writes_stay { S.write_faults shelf.new ≡ S.write_faults shelf.old }
{
    let image = joined_image(alloc, first, second)?;
    run_shared(alloc, shelf, &image, interrupts, budget)
}

// The same of a first program and a second one that is in a file, or the reply to what is wrong with that.
fn second_reply<S: Shelf>(
    alloc: Global,
    shelf: &mut S,
    first: &Source,
    second: &str,
    interrupts: Option<&str>,
    budget: u32,
) -> Result<Reply, Failure>
    requires first { (text : List ℕ) × IsFitting lower text first.now }
    ensures performed { Performs (λ layout_of. Reads FileKind.Second second.now (assembled_protocol 2 upper
        (pair_protocol layout_of (option_map (λ s. s.now) interrupts.entry) budget first.now)))
        result (S.told shelf.old) (S.counts shelf.old) (S.counts shelf.new) }
    ensures told_stays { S.told shelf.new ≡ S.told shelf.old }
    ensures writes_stay { S.write_faults shelf.new ≡ S.write_faults shelf.old }
{
    let source = read_assembled(alloc, shelf, FileKind::Second, 2, UPPER, second)?;
    pair_reply(alloc, shelf, first, &source, interrupts, budget)
}

/// The reply to `share FIRST SECOND`. The second file is read where nothing is wrong with the first program.
pub fn share_reply<S: Shelf>(
    alloc: Global,
    shelf: &mut S,
    first: &str,
    second: &str,
    interrupts: Option<&str>,
    budget: u32,
) -> Result<Reply, Failure>
    ensures performed { Performs (λ layout_of. share_protocol layout_of first.now second.now (option_map (λ s. s.now) interrupts.entry) budget)
        result (S.told shelf.old) (S.counts shelf.old) (S.counts shelf.new) }
    ensures told_stays { S.told shelf.new ≡ S.told shelf.old }
    ensures writes_stay { S.write_faults shelf.new ≡ S.write_faults shelf.old }
{
    let source = read_assembled(alloc, shelf, FileKind::First, 1, LOWER, first)?;
    second_reply(alloc, shelf, &source, second, interrupts, budget)
}
