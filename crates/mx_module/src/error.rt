//! Why texts are not joined.
ghost use Rattle.std.specs.Prelude.{◌≡◌};
ghost use Rattle.mx_module.specs.declared.error.JoinError.TheVariants as errors;

use mx_io::Memory;
use mx_lines::Fault;
use std::alloc::AllocError;
use thiserror::Error;

/// What is wrong with a line of a module. An import or export line has the first of these that holds of it.
#[derive(Clone, Copy, Debug, PartialEq, Eq, Error)]
pub enum JoinFault {
    /// A label stands before the import or export, or its operands are not one name that may be linked.
    #[error("G1 BadName")]
    BadName,
    /// It exports a name that is no label of its module.
    #[error("G2 NotDefined")]
    NotDefined,
    /// It exports a name that an earlier line exports.
    #[error("G3 DuplicateExport")]
    DuplicateExport,
    /// It imports a name that no other module exports.
    #[error("G4 NoExport")]
    NoExport,
    /// It imports a label of its own module.
    #[error("G5 LocalClash")]
    LocalClash,
    /// A fault of the source language.
    #[error("{0}")]
    Line(Fault),
}

/// Why texts are not joined.
#[derive(Debug, Drop, Error)]
pub enum JoinError {
    /// The first faulty line of an import or export, or else of the other lines, with its first fault.
    /// Modules and lines count from 1.
    #[error("module {module} line {line}: {fault}")]
    Refused {
        module: u32,
        line: u32,
        fault: JoinFault,
    },
    #[error("out of memory")]
    Memory,
}

impl From<AllocError> for JoinError {
    ghost from_gives = { λ _ e. e ≡ errors.Memory };

    fn from(_: AllocError) -> JoinError {
        JoinError::Memory
    }
}
