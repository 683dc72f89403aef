//! Sources by their names: read, assembled and linked, or what is wrong with them.
ghost use Rattle.std.specs.Prelude.{◌≡◌, ◌≤◌, ℕ, List, IfOk, IfErr, length, vec_len};
ghost use Rattle.mx_io.specs.declared.limits.TheConstants.{MAX_SOURCE_BYTES};
ghost use Rattle.lab_sources.specs.Refusals.{Tells};
ghost use Rattle.lab_sources.specs.Schedulers.{IsLinkedSource};
ghost use Rattle.lab_sources.specs.Sources.{Spells, IsFaultOf, IsSourceOf, IsNoSource, IsNoProgramOf, IsNoProgram};

use crate::schedulers::linked_by;
use cmd_source::Program;
use lab_failure::{LabFailure, LabFile, read_lab_file};
use lab_options::Scheduler;
use mx_asm::assemble;
use mx_io::Shelf;
use mx_lines::AsmError;
use mx_link::LinkError;
use mx_source::Source;
use std::alloc::Global;

/// The source of this name is not linked.
pub fn unlinked<'w>(name: &'w str, error: LinkError) -> LabFailure<'w>
    ensures { Tells name.entry.now error result }
{
    match error {
        LinkError::Displacement { line, from, to } => LabFailure::Overlong {
            name,
            line,
            from,
            to,
        },
        LinkError::Memory => LabFailure::Memory,
    }
}

// The source of the text of a file of this name, or its first fault.
fn assembled<'w>(alloc: Global, name: &'w str, text: &[u8]) -> Result<Source, LabFailure<'w>>
    requires { length text.now ≤ MAX_SOURCE_BYTES }
    ensures spells { IfOk result (Spells text.now) }
    ensures refused { IfErr result (IsFaultOf name.entry.now text.now) }
{
    match assemble(alloc, text) {
        Ok(source) => Ok(source),
        Err(AsmError::Refused { line, fault }) => Err(LabFailure::Source { name, line, fault }),
        Err(AsmError::Memory) => Err(LabFailure::Memory),
    }
}

/// The source of this name.
pub fn read_source<'w, S: Shelf>(
    alloc: Global,
    shelf: &mut S,
    name: &'w str,
) -> Result<Source, LabFailure<'w>>
    ensures read { IfOk result (λ source. (text : List ℕ)
        × IsSourceOf (S.told shelf.old) name.entry.now (S.counts shelf.old) (S.counts shelf.new) text source) }
    ensures refused { IfErr result (IsNoSource (S.told shelf.old) name.entry.now (S.counts shelf.old) (S.counts shelf.new)) }
    ensures told_stays { S.told shelf.new ≡ S.told shelf.old }
    ensures writes_stay { S.write_faults shelf.new ≡ S.write_faults shelf.old }
{
    let text = read_lab_file(alloc, shelf, LabFile::Source, name)?;
    let source = assembled(alloc, name, text.as_slice())?;
    Ok(source)
}

/// The program of the text of a file of this name, linked as `run` has it.
pub fn linked_text<'w>(
    alloc: Global,
    name: &'w str,
    text: Vec<u8>,
) -> Result<Program, LabFailure<'w>>
    requires { vec_len text ≤ MAX_SOURCE_BYTES }
    ensures text { IfOk result (λ p. (p.text ≡ text) × Spells text.items p.source) }
    ensures linked { IfOk result IsLinkedSource }
    ensures refused { IfErr result (IsNoProgramOf name.entry.now text.items) }
{
    let source = assembled(alloc, name, text.as_slice())?;
    match linked_by(alloc, &source, Scheduler::Copies) {
        Ok(linked) => Ok(Program {
            text,
            source,
            linked,
        }),
        Err(error) => Err(unlinked(name, error)),
    }
}

/// The program of the source of this name, linked as `run` has it.
pub fn read_program<'w, S: Shelf>(
    alloc: Global,
    shelf: &mut S,
    name: &'w str,
) -> Result<Program, LabFailure<'w>>
    ensures read { IfOk result (λ p. IsSourceOf (S.told shelf.old) name.entry.now (S.counts shelf.old) (S.counts shelf.new) p.text.items p.source) }
    ensures linked { IfOk result IsLinkedSource }
    ensures refused { IfErr result (IsNoProgram (S.told shelf.old) name.entry.now (S.counts shelf.old) (S.counts shelf.new)) }
    ensures told_stays { S.told shelf.new ≡ S.told shelf.old }
    ensures writes_stay { S.write_faults shelf.new ≡ S.write_faults shelf.old }
{
    let text = read_lab_file(alloc, shelf, LabFile::Source, name)?;
    let program = linked_text(alloc, name, text)?;
    Ok(program)
}
