//! Plan files.
ghost use Rattle.std.specs.Prelude.{◌≡◌, ◌≤◌, ℕ, List, IfOk, Ok, length};
ghost use Rattle.mx_io.specs.declared.limits.TheConstants.{MAX_FILE_BYTES};
ghost use Rattle.mx_blocks.specs.declared.block.Block.{Block};
ghost use Rattle.mx_blocks.specs.Leaders.{AreBlocks};
ghost use Rattle.mx_plans.specs.Files.{lines_said, plans_in};
ghost use Rattle.lab_sources.specs.PlanFiles.{ArePlansOf};

use lab_failure::{LabFailure, LabFile, LineFault, read_lab_file};
use mx_blocks::blocks;
use mx_io::Shelf;
use mx_plans::{PlanError, PlanLine, read_plans};
use mx_source::Source;
use std::alloc::Global;

// What is wrong with a plan file of this name.
fn plans_failure<'w>(name: &'w str, error: PlanError) -> LabFailure<'w> {
    match error {
        PlanError::Refused { line, fault } => LabFailure::Line {
            name,
            line,
            fault: LineFault::Plan(fault),
        },
        PlanError::Memory => LabFailure::Memory,
    }
}

// The lines of the bytes of a plan file of this name for a source, or its first faulty line.
fn parse_plans<'w>(
    alloc: Global,
    source: &Source,
    name: &'w str,
    text: &[u8],
) -> Result<Vec<PlanLine>, LabFailure<'w>>
    requires { length text.now ≤ MAX_FILE_BYTES }
    ensures { IfOk result (λ lines. (blocks : List Block) × AreBlocks source.now blocks
        × (plans_in (length blocks) text.now ≡ Ok (lines_said lines.items))) }
{
    let found = blocks(alloc, source)?;
    match read_plans(alloc, found.len(), text) {
        Ok(lines) => Ok(lines),
        Err(error) => Err(plans_failure(name, error)),
    }
}

/// The lines of the plan file of this name for a source.
pub fn plans_of<'w, S: Shelf>(
    alloc: Global,
    shelf: &mut S,
    source: &Source,
    name: &'w str,
) -> Result<Vec<PlanLine>, LabFailure<'w>>
    ensures read { IfOk result (λ lines. ArePlansOf (S.told shelf.old) name.entry.now source.now (S.counts shelf.old) (S.counts shelf.new)
        (lines_said lines.items)) }
    ensures told_stays { S.told shelf.new ≡ S.told shelf.old }
    ensures writes_stay { S.write_faults shelf.new ≡ S.write_faults shelf.old }
{
    let text = read_lab_file(alloc, shelf, LabFile::Plans, name)?;
    let lines = parse_plans(alloc, source, name, text.as_slice())?;
    Ok(lines)
}
