//! The figures of one scheduler.
ghost use Rattle.std.specs.Prelude.{◌≡◌, ◌≤◌, IfOk, IfErr, cond, length};
ghost use Rattle.lab_measures.specs.Terms.{MAX_FILE_BYTES, IsRefusal, from_target, from_nowhere, board};
ghost use Rattle.lab_measures.specs.Figures.{AreFigures, linked_run};

use crate::machine::{cycles_in, fetches_in, has_halted, misses_in, squashes_in};
use crate::{Conditions, Figures, linked_with};
use lab_terms::{given_to, slots_of};
use lab_watch::{Watcher, watched_pipe};
use mx_icache::LineCache;
use mx_io::Memory;
use mx_link::{LinkError, Linked};
use mx_report::drive;
use mx_source::Source;
use mx_validate::Proposer;
use std::alloc::Global;

/// The figures of a linked source, run under the shipped handler with these conditions. A watcher is told how far the run has
/// come.
pub fn figures_of_linked<W: Watcher>(
    alloc: Global,
    source: &Source,
    linked: &Linked,
    conditions: &Conditions,
    watcher: W,
) -> Result<Figures, Memory>
    requires { length conditions.now.input.now ≤ MAX_FILE_BYTES }
    ensures words { IfOk result (λ f. f.words ≡ length linked.now.image.code.items) }
    ensures noops { IfOk result (λ f. f.noops ≡ linked.now.noops) }
    ensures copies { IfOk result (λ f. f.copies ≡ linked.now.copies) }
    ensures rejected { IfOk result (λ f. f.rejected ≡ linked.now.rejected) }
    ensures cycles { IfOk result (λ f. f.cycles ≡ (linked_run source.now linked.now
        conditions.now.requests.now conditions.now.input.now conditions.now.budget).counts.cycles) }
    ensures fetches { IfOk result (λ f. f.fetches ≡ (linked_run source.now linked.now
        conditions.now.requests.now conditions.now.input.now conditions.now.budget).counts.fetches) }
    ensures misses { IfOk result (λ f. f.misses ≡ (linked_run source.now linked.now
        conditions.now.requests.now conditions.now.input.now conditions.now.budget).counts.misses) }
    ensures squashes { IfOk result (λ f. f.squashes ≡ (linked_run source.now linked.now
        conditions.now.requests.now conditions.now.input.now conditions.now.budget).counts.squashes) }
    ensures halted { IfOk result (λ f. f.halted ≡ (linked_run source.now linked.now
        conditions.now.requests.now conditions.now.input.now conditions.now.budget).halted) }
{
    let (transfers, loads) = slots_of(
        source.statements(),
        linked.image.code.as_slice(),
        linked.origin.as_slice(),
    );
    let input = given_to(source, conditions.input);
    let mut machine = watched_pipe(alloc, &linked.image, input, LineCache::new(), watcher)?;
    let driven = drive(
        alloc,
        &mut machine,
        conditions.requests,
        conditions.budget,
        0,
    )?;
    Ok(Figures {
        words: linked.image.code.len(),
        noops: linked.noops,
        copies: linked.copies,
        rejected: linked.rejected,
        transfers,
        loads,
        cycles: cycles_in(&driven),
        fetches: fetches_in(&driven),
        misses: misses_in(&driven),
        squashes: squashes_in(&driven),
        halted: has_halted(&driven),
    })
}

/// The figures of a source that is linked by what a scheduler proposes, its slots filled from their targets or not, and
/// run under the shipped handler with these conditions. A watcher is told how far the run has come.
///
/// # Errors
///
/// Those of `link`.
pub fn figures_of<P: Proposer, W: Watcher>(
    alloc: Global,
    source: &Source,
    proposer: &mut P,
    copies: bool,
    conditions: &Conditions,
    watcher: W,
) -> Result<Figures, LinkError>
    requires { length conditions.now.input.now ≤ MAX_FILE_BYTES }
    ensures figures { IfOk result (AreFigures P.proposes (cond copies from_target from_nowhere) source.now
        conditions.now.requests.now conditions.now.input.now conditions.now.budget) }
    ensures refused { IfErr result (IsRefusal P.proposes source.now board) }
{
    let linked = linked_with(alloc, source, proposer, copies)?;
    Ok(figures_of_linked(alloc, source, &linked, conditions, watcher)?)
}
