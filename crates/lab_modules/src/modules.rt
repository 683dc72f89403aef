//! Whether modules are refused, and what is found in them then, or else.
ghost use Rattle.std.specs.Prelude.{◌≡◌, ◌≤◌, ◌<◌, true, false, length, is_some, nat_lt, if◌then◌else◌, Some, None, IfOk, IfErr};
ghost use Rattle.mx_lines.specs.Words.{texts};
ghost use Rattle.mx_module.specs.Joined.{Joins, IsJoinRefusal, join_fault};

use lab_check::{
    CheckedModules, MOST_LINES, Module, Refusal, accepted_findings, modules_of, numbered_texts,
    refused_findings,
};
use mx_io::Memory;
use mx_module::{JoinError, Joiner};
use mx_source::Source;
use std::alloc::{AllocError, Global};

/// How many modules a program has.
pub const MOST_MODULES: usize = 16;

// Texts to be joined.
#[tactic(auto, using(lab_faults::proofs::Marks::push_more))]
fn joiner_of(alloc: Global, modules: &[&[u8]]) -> Result<Joiner, Memory>
    requires few { length modules.now ≤ 16 }
    ensures { IfOk result (λ j. j ≡ texts modules.now) }
{
    let mut joiner = Joiner::new(alloc);
    for module in modules {
        if module.len() > MOST_LINES {
            return Err(Memory);
        }
        joiner.add(module)?;
    }
    Ok(joiner)
}

// The source that texts join as, or why they are not joined.
fn join_of(alloc: Global, modules: &[&[u8]]) -> Result<Source, JoinError>
    requires few { length modules.now ≤ 16 }
    requires some { 1 ≤ length modules.now }
    ensures source { IfOk result (Joins (texts modules.now)) }
    ensures refused { IfErr result (IsJoinRefusal (join_fault (texts modules.now))) }
{
    match joiner_of(alloc, modules) {
        Ok(joiner) => joiner.join(alloc),
        Err(_) => Err(JoinError::Memory),
    }
}

// What is found in modules that are refused.
fn refused<'a>(
    alloc: Global,
    modules: &[Module<'a>],
    refusal: Refusal,
    at_most: usize,
) -> Result<CheckedModules<'a>, AllocError>
    ensures { IfOk result (λ c. 0 < c.faults) }
{
    let CheckedModules { groups, faults, .. } = refused_findings(alloc, modules, refusal, at_most)?;
    Ok(CheckedModules {
        groups,
        faults: faults.max(1),
        is_overlong: false,
        warnings: 0,
    })
}

// Texts as slices.
fn slices_of(alloc: Global, given: &[Vec<u8>]) -> Result<Vec<&[u8]>, AllocError> {
    let mut slices = Vec::new(alloc);
    for text in given {
        slices.push(text.as_slice())?;
    }
    Ok(slices)
}

// The source that texts join as; none where there is none.
fn joined(alloc: Global, texts: &[&[u8]]) -> Result<Option<Source>, AllocError> {
    if texts.is_empty() || texts.len() > MOST_MODULES {
        return Ok(None);
    }
    match join_of(alloc, texts) {
        Ok(source) => Ok(Some(source)),
        Err(JoinError::Refused { .. }) => Ok(None),
        Err(JoinError::Memory) => Err(AllocError),
    }
}

// The source of modules whose lines are numbered through all of them; none where there is none.
fn numbered_source(
    alloc: Global,
    modules: &[Module],
    given: &[&[u8]],
) -> Result<Option<Source>, AllocError> {
    let numbered = numbered_texts(alloc, modules, given)?;
    let slices = slices_of(alloc, &numbered)?;
    joined(alloc, &slices)
}

// What is found in modules without faults.
fn accepted<'a>(
    alloc: Global,
    modules: &[Module<'a>],
    given: &[&[u8]],
    at_most: usize,
) -> Result<CheckedModules<'a>, AllocError>
    ensures { IfOk result (λ c. c.faults ≡ 0) }
{
    let source = numbered_source(alloc, modules, given)?;
    let checked = accepted_findings(alloc, modules, source.as_ref(), at_most)?;
    Ok(CheckedModules {
        groups: checked.groups,
        faults: 0,
        is_overlong: checked.is_overlong,
        warnings: checked.warnings,
    })
}

// What is found in modules, by what comes of joining them.
fn told_modules<'a>(
    alloc: Global,
    given: &[&'a [u8]],
    refusal: Option<Refusal>,
    at_most: usize,
) -> Result<CheckedModules<'a>, AllocError>
    ensures { IfOk result (λ c. nat_lt 0 c.faults ≡ is_some refusal) }
{
    let modules = modules_of(alloc, given)?;
    match refusal {
        Some(refusal) => refused(alloc, &modules, refusal, at_most),
        None => accepted(alloc, &modules, given, at_most),
    }
}

// Why modules are refused, if they are.
fn refusal_of(alloc: Global, modules: &[&[u8]]) -> Result<Option<Refusal>, Memory>
    requires few { length modules.now ≤ 16 }
    requires some { 1 ≤ length modules.now }
    ensures { IfOk result (λ o. is_some o ≡ is_some (join_fault (texts modules.now))) }
{
    match join_of(alloc, modules) {
        Ok(_) => Ok(None),
        Err(
            JoinError::Refused {
                module,
                line,
                fault,
            },
        ) => Ok(Some(Refusal {
            place: module.saturating_sub(1) as usize,
            line,
            fault,
        })),
        Err(JoinError::Memory) => Err(Memory),
    }
}

/// What is found in the modules of a program, which is checked as `join` reads it: a name stands for a label of its own module, or
/// for one that it imports. Faulty lines, up to so many, exactly where `join` refuses the modules; else a branch that does not
/// reach its target, and warnings, up to so many.
pub fn check_modules<'a>(
    alloc: Global,
    modules: &[&'a [u8]],
    at_most: usize,
) -> Result<CheckedModules<'a>, Memory>
    requires few { length modules.now ≤ 16 }
    requires some { 1 ≤ length modules.now }
    ensures refused { IfOk result (λ c. nat_lt 0 c.faults ≡ is_some (join_fault (texts modules.now))) }
{
    let refusal = refusal_of(alloc, modules)?;
    match told_modules(alloc, modules, refusal, at_most) {
        Ok(checked) => Ok(checked),
        Err(_) => Err(Memory),
    }
}
