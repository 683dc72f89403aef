//! Sources, assembled and linked, or the reply to what is wrong with them.
ghost use Rattle.std.specs.Prelude.{◌≡◌, ◌≤◌, ◌++◌, codes, length, vec_len, IfOk, List, ℕ, Some, None, string_bytes};
ghost use Rattle.mx_isa.specs.declared.board.TheConstants.{DATA_BASE, DATA_END};
ghost use Rattle.mx_io.specs.declared.limits.TheConstants.{MAX_SOURCE_BYTES};
ghost use Rattle.mx_source.specs.SourceValue.{SourceValue};
ghost use Rattle.mx_layout.specs.Overlong.{Overlong, IsOverlong};
ghost use Rattle.mx_link.specs.Origins.{from_target};
ghost use Rattle.mx_link.specs.Linked.{IsLinked};
ghost use Rattle.mx_reorg.specs.Greedy.{IsGreedy};
ghost use Rattle.mx_lines.specs.declared.Fault.{Fault as SourceFault};
ghost use Rattle.mx_asm.specs.Texts.{source_of, text_fault};
ghost use Rattle.mx_isa.specs.Board.{board};
ghost use Rattle.cmd_answer.specs.Answer.{Answer, prints};
ghost use Rattle.mx_io.specs.Shelves.{Counts};
ghost use Rattle.cmd_answer.specs.Protocol.{Protocol, Answers, Reads, Performed};
ghost use Rattle.cmd_answer.specs.Readings.{Gives, Refuses};
ghost use Rattle.cmd_answer.specs.Replies.{reply_answer, IfAnswered};
ghost use Rattle.law_schedule.specs.Schedule.{IsScheduler};
ghost use Rattle.cmd_source.specs.Refusals.{fault_line, displacement_text, span_text, overlong_text, overlong_line};
ghost use Rattle.cmd_source.specs.Protocols.{source_protocol, Layouts, AfterLayout, linked_protocol};
ghost use Rattle.cmd_source.specs.Replied.{IsReplied};

use crate::files::read_named;
use cmd_answer::{Failure, FileKind, Reply, Status, line_reply};
use mx_asm::assemble;
use mx_io::{Memory, Shelf};
use mx_isa::BOARD;
use mx_lines::{AsmError, Fault};
use mx_link::{LinkError, Linked, link};
use mx_reorg::ListProposer;
use mx_source::Source;
use std::alloc::{AllocError, Global};

/// A text, the source that it reads as, and the program that this is linked to.
#[derive(Drop)]
pub struct Program {
    pub text: Vec<u8>,
    pub source: Source,
    pub linked: Linked,
}

// The reply to a faulty source.
fn fault_reply(alloc: Global, line: u32, fault: Fault) -> Result<Reply, Memory>
    ensures { IfOk result (λ r. reply_answer r ≡ prints Status.Refused (fault_line line fault)) }
{
    let fault = fault.text();
    let Ok(text) = format!(in alloc; "line {line}: {fault}") else {
        return Err(Memory);
    };
    let reply = line_reply(alloc, Status::Refused, text.as_str())?;
    Ok(reply)
}

/// The source of a text, or the reply to its first fault.
pub fn assembled(alloc: Global, text: &[u8]) -> Result<Source, Failure>
    requires { length text.now ≤ MAX_SOURCE_BYTES }
    ensures source { IfOk result (λ source. (text_fault DATA_BASE DATA_END text.now ≡ None) × (source ≡ source_of DATA_BASE text.now)) }
    ensures refused { IfAnswered result
        (λ answer. (line : ℕ) × (fault : SourceFault) × (text_fault DATA_BASE DATA_END text.now ≡ Some (line, fault))
        × (answer ≡ prints Status.Refused (fault_line line fault))) }
{
    match assemble(alloc, text) {
        Ok(source) => Ok(source),
        Err(AsmError::Refused { line, fault }) => {
            Err(Failure::Answered(fault_reply(alloc, line, fault)?))
        }
        Err(AsmError::Memory) => Err(Failure::Memory),
    }
}

// The text of a displacement on a line.
fn displacement_text(alloc: Global, line: u32, displacement: i64) -> Result<String, AllocError>
    ensures { IfOk result (λ text. string_bytes text ≡ displacement_text line displacement) }
{
    let text = format!(in alloc; "line {line}: displacement {displacement}")?;
    Ok(text)
}

// The text of two addresses.
fn span_text(alloc: Global, from: u32, to: u32) -> Result<String, AllocError>
    ensures { IfOk result (λ text. string_bytes text ≡ span_text from to) }
{
    let text = format!(in alloc; " from {from} to {to}")?;
    Ok(text)
}

/// The text of a branch with this displacement, at one address, which does not reach another.
pub fn overlong_text(
    alloc: Global,
    line: u32,
    displacement: i64,
    from: u32,
    to: u32,
) -> Result<String, AllocError>
    ensures { IfOk result (λ text. string_bytes text ≡ overlong_text line displacement from to) }
{
    let mut text = displacement_text(alloc, line, displacement)?;
    let span = span_text(alloc, from, to)?;
    text.push_str(span.as_str())?;
    Ok(text)
}

/// The reply to a branch that does not reach its target.
pub fn overlong_reply(alloc: Global, line: u32, from: u32, to: u32) -> Result<Reply, Memory>
    ensures { IfOk result (λ r. reply_answer r ≡ prints Status.Refused (overlong_line line from to)) }
{
    let displacement = i64::from(to) - i64::from(from);
    let Ok(text) = overlong_text(alloc, line, displacement, from, to) else {
        return Err(Memory);
    };
    let reply = line_reply(alloc, Status::Refused, text.as_str())?;
    Ok(reply)
}

/// A source, linked by the list scheduler, or the reply to its first branch that does not reach its target.
pub fn linked_source(alloc: Global, source: &Source) -> Result<Linked, Failure>
    ensures linked { IfOk result (IsLinked IsGreedy from_target source.now board) }
    ensures refused { IfAnswered result (λ answer. (found : Overlong) × IsOverlong IsGreedy source.now board found
        × (answer ≡ prints Status.Refused (overlong_line found.line found.from found.to))) }
{
    let _statements = source.statements();
    match link(alloc, source, BOARD, &mut ListProposer) {
        Ok(linked) => Ok(linked),
        Err(LinkError::Displacement { line, from, to }) => {
            Err(Failure::Answered(overlong_reply(alloc, line, from, to)?))
        }
        Err(LinkError::Memory) => Err(Failure::Memory),
    }
}

/// The program of a text, or the reply to its first fault, or to its first branch that does not reach its target.
pub fn linked_text(alloc: Global, text: Vec<u8>) -> Result<Program, Failure>
    requires { vec_len text ≤ MAX_SOURCE_BYTES }
    ensures source { IfOk result (λ p. (p.text.items ≡ text.items)
        × (text_fault DATA_BASE DATA_END text.items ≡ None) × (p.source ≡ source_of DATA_BASE text.items)) }
    ensures linked { IfOk result (λ p. IsLinked IsGreedy from_target p.source board p.linked) }
    ensures given { IfOk result (λ p. (layout_of : Layouts) → IsScheduler layout_of → (next : AfterLayout)
        → linked_protocol layout_of next text.items ≡ next p.source (layout_of p.source)) }
    ensures refused { IfAnswered result (λ answer. (layout_of : Layouts) → IsScheduler layout_of → (next : AfterLayout)
        → linked_protocol layout_of next text.items ≡ Answers answer) }
    ensures replied { IfAnswered result IsReplied }
{
    let source = assembled(alloc, text.as_slice())?;
    let linked = linked_source(alloc, &source)?;
    Ok(Program {
        text,
        source,
        linked,
    })
}

/// The source of this name, or the reply to the fault of its file, or to what is wrong with its text.
pub fn read_source<S: Shelf>(alloc: Global, shelf: &mut S, name: &str) -> Result<Source, Failure>
    ensures source { IfOk result (λ source. (text : List ℕ) × (text_fault DATA_BASE DATA_END text ≡ None) × (source ≡ source_of DATA_BASE text)) }
    ensures given { IfOk result (λ source. Gives (λ next. Reads FileKind.Source name.now (source_protocol next))
        (S.told shelf.old) (S.counts shelf.old) (S.counts shelf.new) source) }
    ensures refused { IfAnswered result (Refuses (λ next. Reads FileKind.Source name.now (source_protocol next))
        (S.told shelf.old) (S.counts shelf.old) (S.counts shelf.new)) }
    ensures replied { IfAnswered result IsReplied }
    ensures told_stays { S.told shelf.new ≡ S.told shelf.old }
    ensures writes_stay { S.write_faults shelf.new ≡ S.write_faults shelf.old }
{
    let text = read_named(alloc, shelf, FileKind::Source, name)?;
    let source = assembled(alloc, text.as_slice())?;
    Ok(source)
}

/// The program of the source of this name, or the reply to the fault of its file, or to what is wrong with its text.
pub fn read_program<S: Shelf>(alloc: Global, shelf: &mut S, name: &str) -> Result<Program, Failure>
    ensures source { IfOk result (λ p. (text_fault DATA_BASE DATA_END p.text.items ≡ None) × (p.source ≡ source_of DATA_BASE p.text.items)) }
    ensures linked { IfOk result (λ p. IsLinked IsGreedy from_target p.source board p.linked) }
    ensures given { IfOk result (λ p. (layout_of : Layouts) → IsScheduler layout_of → (next : AfterLayout) (after : Counts) (answer : Answer)
        → Performed (S.told shelf.old) (next p.source (layout_of p.source))
        (S.counts shelf.new) after answer
        → Performed (S.told shelf.old) (Reads FileKind.Source name.now (linked_protocol layout_of next))
        (S.counts shelf.old) after answer) }
    ensures refused { IfAnswered result (λ answer. (layout_of : Layouts) → IsScheduler layout_of → (next : AfterLayout)
        → Performed (S.told shelf.old) (Reads FileKind.Source name.now (linked_protocol layout_of next))
        (S.counts shelf.old) (S.counts shelf.new) answer) }
    ensures replied { IfAnswered result IsReplied }
    ensures told_stays { S.told shelf.new ≡ S.told shelf.old }
    ensures writes_stay { S.write_faults shelf.new ≡ S.write_faults shelf.old }
{
    let text = read_named(alloc, shelf, FileKind::Source, name)?;
    let program = linked_text(alloc, text)?;
    Ok(program)
}
