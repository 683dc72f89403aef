//! By whose plans a source is linked.
ghost use Rattle.std.specs.Prelude.{◌≡◌, IfOk};
ghost use Rattle.lab_sources.specs.Schedulers.{IsLinkedSource};
ghost use Rattle.lab_sources.specs.Planners.{IsLinkedAs, IsAskedFor, IsByLines};

use crate::plan_files::plans_of;
use crate::schedulers::program_by;
use crate::sources::unlinked;
use cmd_source::Program;
use lab_failure::LabFailure;
use lab_options::{PlansOf, RunOptions, Scheduler};
use lab_plans::link_told;
use mx_io::Shelf;
use mx_plans::PlanLine;
use std::alloc::Global;

/// The lines of a plan file, and a line for each plan of it that is rejected and for copies that are.
#[derive(Drop)]
pub struct FilePlans {
    pub lines: Vec<PlanLine>,
    pub rejections: Vec<u8>,
}

/// By whose plans a source is linked: by those of a scheduler, or of a file.
#[derive(Drop)]
pub enum Planner {
    Scheduler(Scheduler),
    File(FilePlans),
}

impl Planner {
    /// What a picture calls it.
    pub fn name(&self) -> &'static str {
        match self {
            Planner::Scheduler(scheduler) => scheduler.name(),
            Planner::File(_) => "plans",
        }
    }

    /// A line for each plan that is rejected, and for copies that are.
    pub fn rejections(&self) -> &[u8] {
        match self {
            Planner::Scheduler(_) => b"",
            Planner::File(plans) => plans.rejections.as_slice(),
        }
    }
}

/// A linked source, and by whose plans.
#[derive(Drop)]
pub struct PlannedProgram {
    pub program: Program,
    pub by: Planner,
}

// The program of a text and its source of this name, linked by the plans that the lines of a file say.
fn linked_by_file<'w>(
    alloc: Global,
    name: &'w str,
    program: Program,
    lines: Vec<PlanLine>,
) -> Result<PlannedProgram, LabFailure<'w>>
    ensures linked { IfOk result (λ made. IsLinkedAs made.by made.program) }
    ensures text { IfOk result (λ made. (made.program.text ≡ program.text) × (made.program.source ≡ program.source)) }
    ensures by { IfOk result (λ made. IsByLines lines.items made.by) }
{
    let Program { text, source, .. } = program;
    match link_told(alloc, &source, lines.as_slice()) {
        Ok(told) => Ok(PlannedProgram {
            program: Program {
                text,
                source,
                linked: told.linked,
            },
            by: Planner::File(FilePlans {
                lines,
                rejections: told.rejections,
            }),
        }),
        Err(error) => Err(unlinked(name, error)),
    }
}

// The same by the plan file of a name.
fn read_planned<'w, S: Shelf>(
    alloc: Global,
    shelf: &mut S,
    source: &'w str,
    program: Program,
    file: &'w str,
) -> Result<PlannedProgram, LabFailure<'w>>
    ensures linked { IfOk result (λ made. IsLinkedAs made.by made.program) }
    ensures text { IfOk result (λ made. (made.program.text ≡ program.text) × (made.program.source ≡ program.source)) }
    ensures by { IfOk result (λ made. IsAskedFor (S.told shelf.old) (PlansOf.File file.entry) program.source
        (S.counts shelf.old) (S.counts shelf.new) made.by) }
    ensures told_stays { S.told shelf.new ≡ S.told shelf.old }
    ensures writes_stay { S.write_faults shelf.new ≡ S.write_faults shelf.old }
{
    let lines = plans_of(alloc, shelf, &program.source, file)?;
    let made = linked_by_file(alloc, source, program, lines)?;
    Ok(made)
}

// A program that is linked as `run` has it, linked by a scheduler. Its source is in the file of this name.
fn scheduled<'w>(
    alloc: Global,
    name: &'w str,
    program: Program,
    scheduler: Scheduler,
) -> Result<PlannedProgram, LabFailure<'w>>
    requires { IsLinkedSource program }
    ensures linked { IfOk result (λ made. IsLinkedAs made.by made.program) }
    ensures text { IfOk result (λ made. (made.program.text ≡ program.text) × (made.program.source ≡ program.source)) }
    ensures by { IfOk result (λ made. made.by ≡ Planner.Scheduler scheduler) }
{
    let linked = program_by(alloc, name, program, scheduler)?;
    Ok(PlannedProgram {
        program: linked,
        by: Planner::Scheduler(scheduler),
    })
}

/// A program that is linked as `run` has it, linked by the plan file or the scheduler that the options name.
pub fn planned<'w, S: Shelf>(
    alloc: Global,
    shelf: &mut S,
    options: &RunOptions<'w>,
    program: Program,
) -> Result<PlannedProgram, LabFailure<'w>>
    requires { IsLinkedSource program }
    ensures linked { IfOk result (λ made. IsLinkedAs made.by made.program) }
    ensures text { IfOk result (λ made. (made.program.text ≡ program.text) × (made.program.source ≡ program.source)) }
    ensures by { IfOk result (λ made. IsAskedFor (S.told shelf.old) options.now.plans program.source
        (S.counts shelf.old) (S.counts shelf.new) made.by) }
    ensures told_stays { S.told shelf.new ≡ S.told shelf.old }
    ensures writes_stay { S.write_faults shelf.new ≡ S.write_faults shelf.old }
{
    let name = options.source;
    match options.plans {
        PlansOf::File(file) => read_planned(alloc, shelf, name, program, file),
        PlansOf::Scheduler(scheduler) => scheduled(alloc, name, program, scheduler),
    }
}
