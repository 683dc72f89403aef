//! Linking by the plans of a file.
ghost use Rattle.std.specs.Prelude.{◌≡◌, ◌≤◌, ◌+◌, ◌*◌, IfOk, IfErr, OnOk, length, map};
ghost use Rattle.std.specs.List.Sorted.{IsNonDecreasing};
ghost use Rattle.mx_blocks.specs.declared.Block.{Block};
ghost use Rattle.mx_layout.specs.Kept.{AreKept};
ghost use Rattle.mx_layout.specs.Overlong.{IsRefusal};
ghost use Rattle.mx_source.specs.SourceValue.{IsSource};
ghost use Rattle.mx_link.specs.Origins.{from_nowhere};
ghost use Rattle.mx_link.specs.Parts.{HaveRegisters, sites_of};
ghost use Rattle.mx_link.specs.Laid.{IsLaidAt, IsLinkedFrom};
ghost use Rattle.mx_link.specs.Linked.{IsLinked};
ghost use Rattle.mx_plans.specs.Copies.{as_planned};
ghost use Rattle.mx_plans.specs.Files.{lines_said, marks_of_lines};
ghost use Rattle.mx_plans.specs.Says.{Proposes, IsProposed, number_below, line_at};

use crate::copies::choices_of;
use crate::file::PlanLine;
use crate::proposer::{FileProposer, Lines};
use mx_blocks::{Block, blocks};
use mx_isa::Place;
use mx_layout::Layout;
use mx_link::{LinkError, Linked, Slots, laid_out, link_laid};
use mx_source::Source;
use std::alloc::{AllocError, Global};
use std::marker::{Brand, PhantomData};

/// The first statement of each block.
fn firsts_of(alloc: Global, blocks: &[Block]) -> Result<Vec<u32>, AllocError>
    ensures { IfOk result (λ firsts. firsts.items ≡ map (λ (b : Block). b.first) blocks.now) }
{
    let mut firsts = Vec::new(alloc);
    for block in blocks {
        firsts.push(block.first)?;
    }
    Ok(firsts)
}

/// Lays out a source at a place by the plans that are proposed.
fn lay_by<L: Lines>(
    alloc: Global,
    source: &Source,
    place: Place,
    firsts: &[u32],
    lines: &[PlanLine],
) -> Result<Layout, LinkError>
    requires room { place.code + 3 * length source.now.statements ≤ 65535 }
    requires rising { IsNonDecreasing firsts.now }
    requires tells { (block : Block) → line_at (marks_of_lines lines.now) (number_below firsts.now block.first) ≡ L.marks block }
    ensures laid { IfOk result (IsLaidAt source.now place) }
    ensures kept { IfOk result (λ l. AreKept (λ block plan. Proposes (L.marks block) block plan) l.rejected (sites_of l) l.proposals.items) }
    ensures refused { IfErr result (IsRefusal (λ block plan. Proposes (L.marks block) block plan) source.now place) }
{
    let mut proposer: FileProposer<L> = FileProposer {
        firsts,
        lines,
        of: PhantomData,
    };
    laid_out(alloc, source, place, &mut proposer)
}

/// Lays out a source at a place as `link` does, by the plans that the lines of a file say.
///
/// # Errors
///
/// Those of `link`.
pub fn lay_planned(
    alloc: Global,
    source: &Source,
    place: Place,
    lines: &[PlanLine],
) -> Result<Layout, LinkError>
    requires { place.code + 3 * length source.now.statements ≤ 65535 }
    ensures laid { IfOk result (IsLaidAt source.now place) }
    ensures kept { IfOk result (λ l. AreKept (IsProposed source.now (marks_of_lines lines.now)) l.rejected (sites_of l) l.proposals.items) }
    ensures refused { IfErr result (IsRefusal (IsProposed source.now (marks_of_lines lines.now)) source.now place) }
{
    let blocks = blocks(alloc, source)?;
    let firsts = firsts_of(alloc, blocks.as_slice())?;
    lay_by::<Brand>(alloc, source, place, firsts.as_slice(), lines)
}

/// The linked program of a source that is laid out at a place by the plans of a file, with the copies that its lines choose.
///
/// # Errors
///
/// Where there is no room.
pub fn link_lines(
    alloc: Global,
    source: &Source,
    place: Place,
    layout: Layout,
    lines: &[PlanLine],
) -> Result<Linked, AllocError>
    requires { IsLaidAt source.now place layout }
    ensures source { IsSource source.now }
    ensures registers { OnOk result (HaveRegisters source.now.statements) }
    ensures linked { IfOk result (IsLinkedFrom (as_planned (lines_said lines.now)) source.now place layout) }
{
    let _statements = source.statements();
    let choices = choices_of(alloc, layout.blocks.as_slice(), lines)?;
    link_laid(
        alloc,
        source,
        place,
        layout,
        Slots::Chosen(choices.as_slice()),
    )
}

/// Links a source at a place by the plans that the lines of a file say, without copies.
///
/// # Errors
///
/// Those of `link`.
pub fn link_planned_plain(
    alloc: Global,
    source: &Source,
    place: Place,
    lines: &[PlanLine],
) -> Result<Linked, LinkError>
    requires { place.code + 3 * length source.now.statements ≤ 65535 }
    ensures linked { IfOk result (IsLinked (IsProposed source.now (marks_of_lines lines.now)) from_nowhere source.now place) }
    ensures registers { OnOk result (HaveRegisters source.now.statements) }
    ensures refused { IfErr result (IsRefusal (IsProposed source.now (marks_of_lines lines.now)) source.now place) }
{
    let layout = lay_planned(alloc, source, place, lines)?;
    let linked = link_laid(alloc, source, place, layout, Slots::Kept)?;
    Ok(linked)
}
