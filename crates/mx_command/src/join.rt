//! The reply of the command that joins modules to one source.
ghost use Rattle.std.specs.Prelude.{◌≡◌, ◌≤◌, [], length, IfOk, List, ℕ};
ghost use Rattle.mx_command.specs.Terms.{prints, Performed, reply_answer, IfAnswered, OnAnswer, texts, join_fault_text, refusal_line, join_answer};
ghost use Rattle.mx_command.specs.Terms.{modules_protocol, Counts};

use cmd_answer::{Failure, FileKind, Reply, Status, line_reply};
use cmd_source::read_named;
use mx_io::{Memory, Shelf};
use mx_module::{JoinError, JoinFault, Joiner};
use std::alloc::Global;

// The text of a fault of a module's line.
fn join_fault_text(fault: JoinFault) -> &'static str
    ensures { result.now ≡ join_fault_text fault }
{
    match fault {
        JoinFault::BadName => "G1 BadName",
        JoinFault::NotDefined => "G2 NotDefined",
        JoinFault::DuplicateExport => "G3 DuplicateExport",
        JoinFault::NoExport => "G4 NoExport",
        JoinFault::LocalClash => "G5 LocalClash",
        JoinFault::Line(fault) => fault.text(),
    }
}

// The reply to modules that are refused.
fn refusal_reply(alloc: Global, number: u32, line: u32, fault: JoinFault) -> Result<Reply, Memory>
    ensures { IfOk result (λ r. reply_answer r ≡ prints Status.Refused (refusal_line (number, line, fault))) }
{
    let cause = join_fault_text(fault);
    let Ok(text) = format!(in alloc; "module {number} line {line}: {cause}") else {
        return Err(Memory);
    };
    let reply = line_reply(alloc, Status::Refused, text.as_str())?;
    Ok(reply)
}

// The reply to the texts of modules.
fn joined_reply(alloc: Global, joiner: &Joiner) -> Result<Reply, Memory>
    requires some { 1 ≤ length joiner.now }
    ensures { IfOk result (λ r. reply_answer r ≡ join_answer joiner.now) }
{
    match joiner.join(alloc) {
        Ok(source) => {
            let output = source.print(alloc)?;
            let status = Status::Done;
            Ok(Reply::Prints { status, output })
        }
        Err(
            JoinError::Refused {
                module,
                line,
                fault,
            },
        ) => {
            let reply = refusal_reply(alloc, module, line, fault)?;
            Ok(reply)
        }
        Err(JoinError::Memory) => Err(Memory),
    }
}

// The texts of modules, whose files are read in order, or the reply to the first fault of a file.
fn read_modules<S: Shelf>(alloc: Global, shelf: &mut S, names: &[&str]) -> Result<Joiner, Failure>
    requires few { length names.now ≤ 16 }
    ensures count { IfOk result (λ joiner. length joiner ≡ length names.now) }
    ensures given { IfOk result (λ joiner. Performed (S.told shelf.old)
        (modules_protocol (texts names.now) [])
        (S.counts shelf.old) (S.counts shelf.new) (join_answer joiner)) }
    ensures refused { IfAnswered result (Performed (S.told shelf.old)
        (modules_protocol (texts names.now) [])
        (S.counts shelf.old) (S.counts shelf.new)) }
    ensures told_stays { S.told shelf.new ≡ S.told shelf.old }
    ensures writes_stay { S.write_faults shelf.new ≡ S.write_faults shelf.old }
{
    let mut joiner = Joiner::new(alloc);
    let mut number = 1u32;
    for name in names {
        let text = read_named(alloc, shelf, FileKind::Module(number), name)?;
        joiner.add(text.as_slice())?;
        number += 1;
    }
    Ok(joiner)
}

/// The reply to `join FIRST SECOND ..`. All files are read before what is wrong with one of their texts is told.
pub fn join_reply<S: Shelf>(alloc: Global, shelf: &mut S, names: &[&str]) -> Result<Reply, Failure>
    requires some { 1 ≤ length names.now }
    requires few { length names.now ≤ 16 }
    ensures performed { OnAnswer result (Performed (S.told shelf.old)
        (modules_protocol (texts names.now) [])
        (S.counts shelf.old) (S.counts shelf.new)) }
    ensures told_stays { S.told shelf.new ≡ S.told shelf.old }
    ensures writes_stay { S.write_faults shelf.new ≡ S.write_faults shelf.old }
{
    let joiner = read_modules(alloc, shelf, names)?;
    let reply = joined_reply(alloc, &joiner)?;
    Ok(reply)
}
