//! The texts of faults, by `docs/SOURCE.md` and `docs/COMMANDS.md`.
use mx_lines::Fault;
use mx_module::{JoinError, JoinFault};
use mx_tasks::ShareError;
use std::alloc::Global;
use std::fmt::Display;
use std::process::Abort;
use std::test::Fail;

/// Fails where a value is printed as another text.
pub fn says<T: Display>(
    rt: &impl Abort,
    alloc: Global,
    value: &T,
    wanted: &str,
) -> Result<(), Fail> {
    let text = format!(in alloc; "{value}")?;
    assert_eq!(*rt; text.as_str(), wanted);
    Ok(())
}

static NAMES: [(JoinFault, &str); 6] = [
    (JoinFault::BadName, "G1 BadName"),
    (JoinFault::NotDefined, "G2 NotDefined"),
    (JoinFault::DuplicateExport, "G3 DuplicateExport"),
    (JoinFault::NoExport, "G4 NoExport"),
    (JoinFault::LocalClash, "G5 LocalClash"),
    (JoinFault::Line(Fault::UndefinedLabel), "F8 UndefinedLabel"),
];

#[test]
fn faults_of_modules_have_their_names(rt: HostRuntime) -> Result<(), Fail> {
    for (fault, name) in NAMES.iter() {
        says(&rt, rt.alloc(), fault, name)?;
    }
    Ok(())
}

static REFUSED: JoinError = JoinError::Refused {
    module: 2,
    line: 7,
    fault: JoinFault::NoExport,
};

#[test]
fn refused_modules_are_told_by_module_and_line(rt: HostRuntime) -> Result<(), Fail> {
    says(&rt, rt.alloc(), &REFUSED, "module 2 line 7: G4 NoExport")
}

static UNREACHED: ShareError = ShareError::Displacement {
    program: 2,
    line: 7,
    from: 34_096,
    to: 64_000,
};

#[test]
fn a_branch_of_two_programs_is_told_by_program_and_line(rt: HostRuntime) -> Result<(), Fail> {
    says(
        &rt,
        rt.alloc(),
        &UNREACHED,
        "program 2 line 7: no displacement reaches from 34096 to 64000",
    )
}

#[test]
fn no_memory_is_told_as_such(rt: HostRuntime) -> Result<(), Fail> {
    says(&rt, rt.alloc(), &JoinError::Memory, "out of memory")?;
    says(&rt, rt.alloc(), &ShareError::Memory, "out of memory")
}
