//! The reply of the command that tells a source's stops.
ghost use Rattle.std.specs.Prelude.{◌≡◌, ◌<◌, ◌^◌, length, IfOk, IfSome, List, ℕ, Option, Some, None};
ghost use Rattle.mx_command.specs.Terms.{Overlong, IsOverlong, from_nowhere, IsLinked, link_map, IsGreedy, board, prints, Reads, reply_answer, IfAnswered};
ghost use Rattle.mx_command.specs.Terms.{seen_files, IsAsked, overlong_line, statement_at, statement_named, no_label_line, labelled_protocol, debug_protocol};
ghost use Rattle.mx_command.specs.Terms.{Performs, Counts, Performed, OnAnswer, IsScheduler, Layouts};

use cmd_answer::{Failure, FileKind, Reply, Status, line_reply};
use cmd_debug::debug_image;
use cmd_options::{RunFiles, SessionLimits};
use cmd_source::{overlong_reply, read_source};
use mx_io::{Memory, Shelf};
use mx_isa::BOARD;
use mx_link::{LinkError, Linked, link_plain};
use mx_reorg::ListProposer;
use mx_source::{Label, Source};
use std::alloc::Global;

// The statement of a source of so many at which a label stands.
fn statement_at(label: Label, count: usize) -> Option<u32>
    ensures { result ≡ statement_at count label }
{
    match label {
        Label::Code(index) => {
            if (index as usize) < count {
                Some(index)
            } else {
                None
            }
        }
        Label::Data(_) => None,
    }
}

// The statement at the code label of this name.
fn statement_named(source: &Source, name: &str) -> Option<u32>
    ensures statement { result ≡ statement_named source.now name.now }
    ensures within { IfSome result (λ index. index < length source.now.statements) }
{
    let wanted = name.as_bytes();
    let labels = source.labels();
    let count = source.statements().len();
    for i in 0..labels.len() {
        let Some((found, label)) = labels.get_index(i) else {
            unreachable!();
        };
        if wanted == found.bytes() {
            return statement_at(*label, count);
        }
    }
    None
}

// The reply where no statement stands at a code label of this name.
fn no_label_reply(alloc: Global, name: &str) -> Result<Reply, Memory>
    ensures { IfOk result (λ r. reply_answer r ≡ prints Status.Refused (no_label_line name.now)) }
{
    let Ok(text) = format!(in alloc; "no code label {name}") else {
        return Err(Memory);
    };
    let reply = line_reply(alloc, Status::Refused, text.as_str())?;
    Ok(reply)
}

// A source, linked by the list scheduler without copies, or the reply to its first branch that does not reach its target.
fn plain_source(alloc: Global, source: &Source) -> Result<Linked, Failure>
    ensures linked { IfOk result (IsLinked IsGreedy from_nowhere source.now board) }
    ensures refused { IfAnswered result (λ answer. (found : Overlong) × IsOverlong IsGreedy source.now board found
        × (answer ≡ prints Status.Refused (overlong_line found.line found.from found.to))) }
{
    let _statements = source.statements();
    match link_plain(alloc, source, BOARD, &mut ListProposer) {
        Ok(linked) => Ok(linked),
        Err(LinkError::Displacement { line, from, to }) => {
            Err(Failure::Answered(overlong_reply(alloc, line, from, to)?))
        }
        Err(LinkError::Memory) => Err(Failure::Memory),
    }
}

// The address at which the block of a statement begins.
fn address_of(linked: &Linked, source: &Source, index: u32) -> u32
    requires linked { IsLinked IsGreedy from_nowhere source.now board linked.now }
    requires within { index < length source.now.statements }
    ensures address { (k : IsLinked IsGreedy from_nowhere source.now board linked.now) → result ≡ link_map board k.sites index }
    ensures low { result < 2 ^ 31 }
{
    let _statements = source.statements();
    linked.links[index as usize]
}

// The reply to a session of a source at a label.
fn labelled_reply<S: Shelf>(
    alloc: Global,
    shelf: &mut S,
    source: &Source,
    label: &str,
    files: &RunFiles,
    limits: &SessionLimits,
) -> Result<Reply, Failure>
    requires { IsAsked limits.now }
    ensures performed { Performs (λ layout_of. labelled_protocol layout_of label.now (seen_files files.now) limits.now source.now)
        result (S.told shelf.old) (S.counts shelf.old) (S.counts shelf.new) }
    ensures told_stays { S.told shelf.new ≡ S.told shelf.old }
    ensures writes_stay { S.write_faults shelf.new ≡ S.write_faults shelf.old }
{
    let Some(index) = statement_named(source, label) else {
        let reply = no_label_reply(alloc, label)?;
        return Ok(reply);
    };
    let linked = plain_source(alloc, source)?;
    let address = address_of(&linked, source, index);
    let asks = source.input().is_some();
    debug_image(alloc, shelf, &linked.image, asks, address, files, limits)
}

/// The reply to `debug SOURCE LABEL`.
pub fn debug_reply<S: Shelf>(
    alloc: Global,
    shelf: &mut S,
    source: &str,
    label: &str,
    files: &RunFiles,
    limits: &SessionLimits,
) -> Result<Reply, Failure>
    requires { IsAsked limits.now }
    ensures performed { Performs (λ layout_of. Reads FileKind.Source source.now (debug_protocol layout_of label.now (seen_files files.now) limits.now))
        result (S.told shelf.old) (S.counts shelf.old) (S.counts shelf.new) }
    ensures told_stays { S.told shelf.new ≡ S.told shelf.old }
    ensures writes_stay { S.write_faults shelf.new ≡ S.write_faults shelf.old }
{
    let source = read_source(alloc, shelf, source)?;
    labelled_reply(alloc, shelf, &source, label, files, limits)
}
