//! The figures of a source that is linked by the plans of a file.
ghost use Rattle.std.specs.Prelude.{◌≤◌, IfOk, IfErr, length};
ghost use Rattle.mx_io.specs.declared.limits.TheConstants.{MAX_FILE_BYTES};
ghost use Rattle.lab_plans.specs.Terms.{IsRefusal, board, lines_said, marks_of, IsProposed};
ghost use Rattle.lab_plans.specs.Figures.{ArePlannedFigures};

use crate::linking::link_told;
use lab_measures::{Conditions, Figures, figures_of_linked};
use lab_watch::Watcher;
use mx_link::LinkError;
use mx_plans::PlanLine;
use mx_source::Source;
use std::alloc::Global;

/// The figures of a source that is linked by the plans of a file, and a line for each plan that is rejected and for copies that are.
#[derive(Drop)]
pub struct PlannedFigures {
    pub figures: Figures,
    pub rejections: Vec<u8>,
}

/// The figures of a source that is linked by the plans that the lines of a file say, and run under the shipped handler with these
/// conditions, beside a line for each plan that is rejected and for copies that are. A watcher is told how far the run has come.
///
/// # Errors
///
/// Those of `link`.
pub fn figures_by_plans<W: Watcher>(
    alloc: Global,
    source: &Source,
    plans: &[PlanLine],
    conditions: &Conditions,
    watcher: W,
) -> Result<PlannedFigures, LinkError>
    requires { length conditions.now.input.now ≤ MAX_FILE_BYTES }
    ensures figures { IfOk result (ArePlannedFigures source.now (lines_said plans.now)
        conditions.now.requests.now conditions.now.input.now conditions.now.budget) }
    ensures refused { IfErr result (IsRefusal (IsProposed source.now (marks_of (lines_said plans.now))) source.now board) }
{
    let told = link_told(alloc, source, plans)?;
    let figures = figures_of_linked(alloc, source, &told.linked, conditions, watcher)?;
    Ok(PlannedFigures {
        figures,
        rejections: told.rejections,
    })
}
