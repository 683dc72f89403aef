//! The fault of a line that stands anywhere in a text.
ghost use Rattle.std.specs.Prelude.{◌≡◌, ◌≤◌, [], length, IfOk};
ghost use Rattle.mx_isa.specs.declared.board.TheConstants.{DATA_END};
ghost use Rattle.mx_asm.specs.Faults;
ghost use Rattle.mx_faults.specs.Walking;
ghost use Rattle.mx_faults.specs.Walking.{at_front};

use mx_asm::{Position, Section, define_all, read_lines};
use mx_lines::{AsmError, Fault, Labels};
use std::alloc::{AllocError, Global};

/// From where to before where data words stand.
#[derive(Clone, Copy)]
pub struct Bounds {
    pub data_start: u32,
    pub end: u32,
}

/// A fault, or that of a label that is defined again.
fn or_repeat(repeated: bool, fault: Option<Fault>) -> Option<Fault>
    ensures { result ≡ Walking.or_repeat repeated fault }
{
    if repeated {
        Some(Fault::DuplicateLabel)
    } else {
        fault
    }
}

/// The fault of a line by the one that it has alone and the one that its position gives.
pub fn settled(alone: Option<Fault>, repeated: bool, placed: Option<Fault>) -> Option<Fault>
    ensures { result ≡ Walking.settled alone repeated placed }
{
    match alone {
        Some(
            Fault::BadByte
            | Fault::BadToken
            | Fault::UnknownMnemonic
            | Fault::BadOperands
            | Fault::BadRegister
            | Fault::NumberOutOfRange,
        ) => alone,
        Some(
            Fault::UndefinedLabel
            | Fault::WrongLabelKind
            | Fault::SystemInstruction
            | Fault::BadDirective,
        ) => or_repeat(repeated, alone),
        _ => or_repeat(repeated, placed),
    }
}

/// The fault of a line as the only one behind a section's beginning.
pub fn fault_alone(
    alloc: Global,
    labels: &Labels,
    bounds: &Bounds,
    section: Section,
    line: &[u8],
) -> Result<Option<Fault>, AllocError>
    requires order { bounds.now.data_start ≤ bounds.now.end }
    requires within { bounds.now.end ≤ DATA_END }
    ensures { IfOk result (λ o. o ≡ Faults.line_fault labels.now bounds.now.end (at_front section bounds.now.data_start) [] line.now) }
{
    let lines = [line];
    let front = Position {
        section,
        index: 0,
        address: bounds.data_start,
    };
    let definitions = define_all(alloc, &lines, front)?;
    match read_lines(
        alloc,
        labels,
        definitions.repeated,
        &lines,
        front,
        bounds.end,
    ) {
        Ok(_) => Ok(None),
        Err(AsmError::Refused { fault, .. }) => Ok(Some(fault)),
        Err(AsmError::Memory) => Err(AllocError),
    }
}
