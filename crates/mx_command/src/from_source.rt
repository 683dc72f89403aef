//! The replies of the commands that read a source.
ghost use Rattle.std.specs.Prelude.{◌≡◌, length, IfOk, List, ℕ, option_map, is_some};
ghost use Rattle.mx_command.specs.Terms.{lengths_text, blocks_in, from_target, IsLinked, IsGreedy, board, prints, Answers, Reads, contents_of, LinksFit};
ghost use Rattle.mx_command.specs.Terms.{Performed, reply_answer, OnAnswer, seen_files, IsScheduler, Layouts, linked_protocol, run_protocol, meaning_protocol};
ghost use Rattle.mx_command.specs.Terms.{build_protocol, list_protocol, best_answer, input_protocol, meaning_answer, Performs, Counts};

use crate::from_image::written_reply;
use cmd_answer::{Failure, FileKind, Reply, Status};
use cmd_best::lengths_text;
use cmd_list::listing;
use cmd_meaning::meaning_reply;
use cmd_options::{Limits, RunFiles};
use cmd_simulate::{read_input, run_image};
use cmd_source::{Program, read_program, read_source};
use mx_image::ImageFile;
use mx_io::{Memory, Shelf};
use mx_link::Linked;
use mx_source::Source;
use std::alloc::Global;

/// The reply to `run SOURCE`.
pub fn run_reply<S: Shelf>(
    alloc: Global,
    shelf: &mut S,
    source: &str,
    files: &RunFiles,
    limits: &Limits,
) -> Result<Reply, Failure>
    ensures performed { Performs (λ layout_of. Reads FileKind.Source source.now (linked_protocol layout_of (run_protocol (seen_files files.now) limits.now)))
        result (S.told shelf.old) (S.counts shelf.old) (S.counts shelf.new) }
    ensures told_stays { S.told shelf.new ≡ S.told shelf.old }
    ensures writes_stay { S.write_faults shelf.new ≡ S.write_faults shelf.old }
{
    let program = read_program(alloc, shelf, source)?;
    let asks = program.source.input().is_some();
    run_image(alloc, shelf, &program.linked.image, asks, files, limits)
}

/// The reply to `meaning SOURCE`.
pub fn told_reply<S: Shelf>(
    alloc: Global,
    shelf: &mut S,
    source: &str,
    steps: u32,
    input: Option<&str>,
) -> Result<Reply, Failure>
    ensures performed { OnAnswer result (Performed (S.told shelf.old)
        (Reads FileKind.Source source.now (meaning_protocol steps (option_map (λ s. s.now) input.entry)))
        (S.counts shelf.old) (S.counts shelf.new)) }
    ensures told_stays { S.told shelf.new ≡ S.told shelf.old }
    ensures writes_stay { S.write_faults shelf.new ≡ S.write_faults shelf.old }
{
    let source = read_source(alloc, shelf, source)?;
    source_reply(alloc, shelf, &source, steps, input)
}

// The same of a source that was read.
fn source_reply<S: Shelf>(
    alloc: Global,
    shelf: &mut S,
    source: &Source,
    steps: u32,
    input: Option<&str>,
) -> Result<Reply, Failure>
    ensures performed { OnAnswer result (Performed (S.told shelf.old)
        (input_protocol (option_map (λ s. s.now) input.entry) (λ bytes. Answers (meaning_answer source.now board bytes steps)))
        (S.counts shelf.old) (S.counts shelf.new)) }
    ensures told_stays { S.told shelf.new ≡ S.told shelf.old }
    ensures writes_stay { S.write_faults shelf.new ≡ S.write_faults shelf.old }
{
    let bytes = read_input(alloc, shelf, input)?;
    let reply = meaning_reply(alloc, source, bytes.as_slice(), steps)?;
    Ok(reply)
}

// The image file of a program.
fn image_file(program: Program) -> ImageFile
    requires { IsLinked IsGreedy from_target program.source board program.linked }
    ensures contents { contents_of result ≡ record {
      code = program.linked.image.code.items;
      user_data = program.linked.image.user_data.items;
      input = is_some program.source.input;
      links = program.linked.links.items;
    } }
    ensures fit { LinksFit (length result.image.code.items) result.links.items }
{
    let Program { source, linked, .. } = program;
    let _statements = source.statements();
    let input = source.input().is_some();
    let Linked { image, links, .. } = linked;
    ImageFile {
        image,
        input,
        links,
    }
}

/// The reply to `build SOURCE IMAGE`.
pub fn build_reply<S: Shelf>(
    alloc: Global,
    shelf: &mut S,
    source: &str,
    target: &str,
) -> Result<Reply, Failure>
    ensures performed { Performs (λ layout_of. Reads FileKind.Source source.now (linked_protocol layout_of (build_protocol target.now)))
        result (S.told shelf.old) (S.counts shelf.old) (S.counts shelf.new) }
    ensures told_stays { S.told shelf.new ≡ S.told shelf.old }
    ensures writes_stay { S.write_faults shelf.new ≡ S.write_faults shelf.old }
{
    let built = read_program(alloc, shelf, source)?;
    let file = image_file(built);
    let reply = written_reply(alloc, &file, target)?;
    Ok(reply)
}

/// The reply to `list SOURCE`.
pub fn list_reply<S: Shelf>(alloc: Global, shelf: &mut S, source: &str) -> Result<Reply, Failure>
    ensures performed { Performs (λ layout_of. Reads FileKind.Source source.now (linked_protocol layout_of list_protocol))
        result (S.told shelf.old) (S.counts shelf.old) (S.counts shelf.new) }
    ensures told_stays { S.told shelf.new ≡ S.told shelf.old }
    ensures writes_stay { S.write_faults shelf.new ≡ S.write_faults shelf.old }
{
    let listed = read_program(alloc, shelf, source)?;
    let output = listing(alloc, &listed.source, &listed.linked)?;
    let status = Status::Done;
    Ok(Reply::Prints { status, output })
}

// The reply that tells the lengths of a source's plans.
fn lengths_reply(alloc: Global, source: &Source) -> Result<Reply, Memory>
    ensures { (layout_of : Layouts) → IsScheduler layout_of
        → IfOk result (λ r. reply_answer r ≡ prints Status.Done (lengths_text source.now (blocks_in (layout_of source.now)))) }
{
    let _statements = source.statements();
    let output = lengths_text(alloc, source)?;
    let status = Status::Done;
    Ok(Reply::Prints { status, output })
}

/// The reply to `best SOURCE`.
pub fn best_reply<S: Shelf>(alloc: Global, shelf: &mut S, source: &str) -> Result<Reply, Failure>
    ensures performed { Performs (λ layout_of. Reads FileKind.Source source.now (λ text. Answers (best_answer layout_of text)))
        result (S.told shelf.old) (S.counts shelf.old) (S.counts shelf.new) }
    ensures told_stays { S.told shelf.new ≡ S.told shelf.old }
    ensures writes_stay { S.write_faults shelf.new ≡ S.write_faults shelf.old }
{
    let source = read_source(alloc, shelf, source)?;
    let reply = lengths_reply(alloc, &source)?;
    Ok(reply)
}
