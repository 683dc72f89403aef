//! Linking by the plans of a file, and what is told of those that are rejected.
ghost use Rattle.std.specs.Prelude.{◌≡◌, ◌≤◌, ◌+◌, ◌*◌, OnOk, IfOk, IfErr, length};
ghost use Rattle.mx_layout.specs.Kept.{AreKept};
ghost use Rattle.mx_link.specs.Laid.{IsLaidAt, IsLinkedFrom};
ghost use Rattle.mx_link.specs.Parts.{sites_of};
ghost use Rattle.lab_plans.specs.Terms.{IsSource, IsRefusal, HaveRegisters, board, lines_said, marks_of, marks_of_lines, IsProposed, as_planned};
ghost use Rattle.lab_plans.specs.Linking.{IsLinkedTold};

use crate::verdicts::told;
use mx_isa::BOARD;
use mx_layout::Layout;
use mx_link::{LinkError, Linked};
use mx_plans::{PlanLine, lay_planned, link_lines};
use mx_source::Source;
use std::alloc::{AllocError, Global};

/// A source that is linked by the plans of a file, and a line for each plan that is rejected, whose block is padded, and for copies
/// that are rejected, in whose place nothing is copied.
#[derive(Drop)]
pub struct LinkedTold {
    pub linked: Linked,
    pub rejections: Vec<u8>,
}

/// Lays out a source at the board's place by the plans that the lines of a file say.
fn laid_by(alloc: Global, source: &Source, plans: &[PlanLine]) -> Result<Layout, LinkError>
    ensures source { IsSource source.now }
    ensures laid { IfOk result (IsLaidAt source.now board) }
    ensures kept { IfOk result (λ l. AreKept (IsProposed source.now (marks_of_lines plans.now)) l.rejected (sites_of l) l.proposals.items) }
    ensures refused { IfErr result (IsRefusal (IsProposed source.now (marks_of_lines plans.now)) source.now board) }
{
    let _statements = source.statements();
    lay_planned(alloc, source, BOARD, plans)
}

/// The same, by what the lines say.
fn laid_out(alloc: Global, source: &Source, plans: &[PlanLine]) -> Result<Layout, LinkError>
    ensures source { IsSource source.now }
    ensures laid { IfOk result (IsLaidAt source.now board) }
    ensures kept { IfOk result (λ l. AreKept (IsProposed source.now (marks_of (lines_said plans.now))) l.rejected (sites_of l) l.proposals.items) }
    ensures refused { IfErr result (IsRefusal (IsProposed source.now (marks_of (lines_said plans.now))) source.now board) }
{
    laid_by(alloc, source, plans)
}

/// The linked program of a source that is laid out at the board's place, with the copies that the lines of a file choose.
fn linked_by(
    alloc: Global,
    source: &Source,
    layout: Layout,
    plans: &[PlanLine],
) -> Result<Linked, AllocError>
    requires { IsLaidAt source.now board layout }
    ensures registers { OnOk result (HaveRegisters source.now.statements) }
    ensures linked { IfOk result (IsLinkedFrom (as_planned (lines_said plans.now)) source.now board layout) }
{
    link_lines(alloc, source, BOARD, layout, plans)
}

/// Links a source at the board's place by the plans that the lines of a file say, with the copies that they choose, and tells which
/// of them are rejected.
///
/// # Errors
///
/// Those of `link`.
pub fn link_told(
    alloc: Global,
    source: &Source,
    plans: &[PlanLine],
) -> Result<LinkedTold, LinkError>
    ensures told { IfOk result (IsLinkedTold source.now (lines_said plans.now)) }
    ensures registers { OnOk result (HaveRegisters source.now.statements) }
    ensures source { IsSource source.now }
    ensures refused { IfErr result (IsRefusal (IsProposed source.now (marks_of (lines_said plans.now))) source.now board) }
{
    let layout = laid_out(alloc, source, plans)?;
    let rejections = told(alloc, source, &layout, plans)?;
    let linked = linked_by(alloc, source, layout, plans)?;
    Ok(LinkedTold { linked, rejections })
}
