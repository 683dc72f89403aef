//! Why a command has no answer.
ghost use Rattle.std.specs.Prelude.{◌≡◌};
ghost use Rattle.lab_failure.specs.Failures.{status_of, limit_of};
ghost use Rattle.lab_failure.specs.declared.failure.LabFailure.TheVariants as failure;

use cmd_answer::Status;
use lab_certify::CertificateFault;
use lab_options::ArgumentFault;
use mx_image::ImageError;
use mx_io::{MAX_FILE_BYTES, MAX_SOURCE_BYTES, Memory};
use mx_lines::Fault;
use mx_plans::PlanFault;
use std::alloc::{AllocError, AllocFailed};

/// A kind of file.
#[derive(Clone, Copy)]
pub enum LabFile {
    /// A source, or a file that may be one.
    Source,
    Image,
    Certificate,
    Plans,
    Interrupts,
    Input,
}

impl LabFile {
    /// How many bytes such a file may have.
    pub fn limit(self) -> usize
        ensures { result ≡ limit_of self }
    {
        match self {
            LabFile::Source => MAX_SOURCE_BYTES,
            _ => MAX_FILE_BYTES,
        }
    }
}

/// How reading a file failed.
#[derive(Clone, Copy)]
pub enum ReadFault {
    /// It cannot be read.
    Failed,
    /// It has more bytes than its kind may have.
    TooLong,
}

/// What is wrong with a line of an interrupt file, a plan file or a certificate.
#[derive(Clone, Copy)]
pub enum LineFault {
    /// The line is not one number of 32 bits.
    BadCycle,
    /// It would be the 65,537th cycle.
    TooManyCycles,
    /// The cycle is not after the one of the line before.
    NotAscending,
    Plan(PlanFault),
    Certificate(CertificateFault),
}

/// Why a command has no answer. Files are named as the arguments name them.
#[derive(Clone, Copy)]
pub enum LabFailure<'w> {
    /// Memory ran out.
    Memory,
    /// The arguments do not fit each other or the run.
    Arguments(ArgumentFault<'w>),
    /// A file cannot be read.
    Unread {
        name: &'w str,
        kind: LabFile,
        fault: ReadFault,
    },
    /// A file is not an image file.
    Image {
        name: &'w str,
        error: ImageError,
    },
    /// A line of an interrupt file, a plan file or a certificate is faulty.
    Line {
        name: &'w str,
        line: u32,
        fault: LineFault,
    },
    /// A line of a source is faulty.
    Source {
        name: &'w str,
        line: u32,
        fault: Fault,
    },
    /// The branch on a line of a source, at one address, does not reach another.
    Overlong {
        name: &'w str,
        line: u32,
        from: u32,
        to: u32,
    },
    /// No instruction of a source has this label.
    NoLabel {
        name: &'w str,
        label: &'w str,
    },
}

impl LabFailure<'_> {
    /// How a command ends by it.
    pub fn status(self) -> Status
        ensures { result ≡ status_of self.entry }
    {
        match self {
            LabFailure::Memory => Status::Memory,
            LabFailure::Arguments(_) => Status::Usage,
            LabFailure::Unread { .. } => Status::ReadFault,
            LabFailure::Image { .. } => Status::BadImage,
            LabFailure::Line { .. } => Status::BadEvents,
            LabFailure::Source { .. } | LabFailure::Overlong { .. } | LabFailure::NoLabel { .. } =>
                Status::Refused,
        }
    }
}

impl<'w> From<Memory> for LabFailure<'w> {
    ghost from_gives = { λ _ e. e ≡ failure.Memory };

    fn from(_fault: Memory) -> LabFailure<'w> {
        LabFailure::Memory
    }
}

impl<'w> From<AllocError> for LabFailure<'w> {
    ghost from_gives = { λ _ e. e ≡ failure.Memory };

    fn from(_fault: AllocError) -> LabFailure<'w> {
        LabFailure::Memory
    }
}

impl<'w, T: Drop> From<AllocFailed<T>> for LabFailure<'w> {
    ghost from_gives = { λ _ e. e ≡ failure.Memory };

    fn from(_fault: AllocFailed<T>) -> LabFailure<'w> {
        LabFailure::Memory
    }
}
