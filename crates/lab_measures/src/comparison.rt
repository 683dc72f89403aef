//! The four schedulers.
ghost use Rattle.std.specs.Prelude.{◌≤◌, IfOk, IfErr, length};
ghost use Rattle.lab_measures.specs.Terms.{MAX_FILE_BYTES, IsRefusal, board};
ghost use Rattle.lab_measures.specs.Comparisons.{IsComparison, IsRefused};

use crate::{Figures, PaddedProposer, figures_of};
use lab_watch::Watcher;
use mx_best::BestProposer;
use mx_board::Requests;
use mx_link::LinkError;
use mx_reorg::ListProposer;
use mx_source::Source;
use std::alloc::Global;

/// What a source and its run come to by four schedulers.
#[derive(Clone, Copy)]
pub struct Comparison {
    /// Padded plans.
    pub padded: Figures,
    /// Greedy plans, without copies in the slots.
    pub list: Figures,
    /// Greedy plans, with copies.
    pub copies: Figures,
    /// Shortest plans of small blocks and greedy plans of others, with copies.
    pub best: Figures,
}

/// What the runs of a source are given: their requests, their input and their budget of cycles.
#[derive(Clone, Copy)]
pub struct Conditions<'a> {
    pub requests: &'a Requests,
    pub input: &'a [u8],
    pub budget: u32,
}

/// What a source and its run come to by padded plans, by greedy plans without and with copies, and by shortest plans
/// with copies. A watcher is told how far each run has come.
///
/// # Errors
///
/// Those of `link`.
pub fn compare<W: Watcher>(
    alloc: Global,
    source: &Source,
    conditions: &Conditions,
    watcher: W,
) -> Result<Comparison, LinkError>
    requires { length conditions.now.input.now ≤ MAX_FILE_BYTES }
    ensures figures { IfOk result
        (IsComparison source.now conditions.now.requests.now conditions.now.input.now conditions.now.budget) }
    ensures refused { IfErr result (IsRefused source.now) }
{
    let by = &mut PaddedProposer;
    let padded = figures_of(alloc, source, by, false, conditions, watcher)?;
    let by = &mut ListProposer;
    let list = figures_of(alloc, source, by, false, conditions, watcher)?;
    let by = &mut ListProposer;
    let copies = figures_of(alloc, source, by, true, conditions, watcher)?;
    let by = &mut BestProposer;
    let best = figures_of(alloc, source, by, true, conditions, watcher)?;
    Ok(Comparison {
        padded,
        list,
        copies,
        best,
    })
}
