//! The schedulers whose plans a source is linked by.
ghost use Rattle.std.specs.Prelude.{◌≡◌, IfOk, IfErr};
ghost use Rattle.lab_sources.specs.Schedulers.{board, proposes, fills, IsLinked, IsRefusal, IsLinkedSource, IsLinkedBy};

use crate::sources::unlinked;
use cmd_source::Program;
use lab_failure::LabFailure;
use lab_measures::{PaddedProposer, linked_with};
use lab_options::Scheduler;
use mx_best::BestProposer;
use mx_link::{LinkError, Linked};
use mx_reorg::ListProposer;
use mx_source::Source;
use std::alloc::Global;

/// A source, linked at the board's place by a scheduler.
pub(crate) fn linked_by(
    alloc: Global,
    source: &Source,
    scheduler: Scheduler,
) -> Result<Linked, LinkError>
    ensures linked { IfOk result (IsLinked (proposes scheduler) (fills scheduler) source.now board) }
    ensures refused { IfErr result (IsRefusal (proposes scheduler) source.now board) }
{
    match scheduler {
        Scheduler::Padded => linked_with(alloc, source, &mut PaddedProposer, false),
        Scheduler::List => linked_with(alloc, source, &mut ListProposer, false),
        Scheduler::Copies => linked_with(alloc, source, &mut ListProposer, true),
        Scheduler::Best => linked_with(alloc, source, &mut BestProposer, true),
    }
}

// The program of a text and its source of this name, linked by a scheduler.
fn linked_anew<'w>(
    alloc: Global,
    name: &'w str,
    program: Program,
    scheduler: Scheduler,
) -> Result<Program, LabFailure<'w>>
    ensures linked { IfOk result (IsLinkedBy scheduler) }
    ensures text { IfOk result (λ p. (p.text ≡ program.text) × (p.source ≡ program.source)) }
{
    let Program { text, source, .. } = program;
    match linked_by(alloc, &source, scheduler) {
        Ok(linked) => Ok(Program {
            text,
            source,
            linked,
        }),
        Err(error) => Err(unlinked(name, error)),
    }
}

/// A program that is linked as `run` has it, linked by a scheduler. Its source is in the file of this name.
pub fn program_by<'w>(
    alloc: Global,
    name: &'w str,
    program: Program,
    scheduler: Scheduler,
) -> Result<Program, LabFailure<'w>>
    requires { IsLinkedSource program }
    ensures linked { IfOk result (IsLinkedBy scheduler) }
    ensures text { IfOk result (λ p. (p.text ≡ program.text) × (p.source ≡ program.source)) }
{
    match scheduler {
        Scheduler::Copies => Ok(program),
        other => linked_anew(alloc, name, program, other),
    }
}
