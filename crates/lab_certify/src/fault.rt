//! What is wrong with the text of a certificate.
ghost use Rattle.std.specs.Prelude.{◌≡◌};
ghost use Rattle.lab_certify.specs.Texts.{plan_fault};

use mx_plans::PlanFault;
use thiserror::Error;

/// What is wrong with a line of a certificate: the first of these from the left.
#[derive(Clone, Copy, Debug, PartialEq, Eq, Error)]
pub enum CertificateFault {
    /// It is line 1, and not `zanderanvil certificate 1`.
    #[error("BadHeader")]
    BadHeader,
    /// It is line 2, and not `source` and 64 hexadecimal digits.
    #[error("BadHash")]
    BadHash,
    /// Its first item is not `block`.
    #[error("BadLine")]
    BadLine,
    /// Its second item is not an address.
    #[error("BadAddress")]
    BadAddress,
    /// Its third item is not a number of copies.
    #[error("BadCopies")]
    BadCopies,
    /// An item of its plan is not a number up to 63, `-` or `/`.
    #[error("BadItem")]
    BadItem,
    /// Its plan has a 132nd item.
    #[error("TooLong")]
    TooLong,
    /// Its plan has a second `/`.
    #[error("TwoPlaces")]
    TwoPlaces,
    /// Its plan has no items.
    #[error("NoPlan")]
    NoPlan,
}

/// Why a certificate is not read.
#[derive(Clone, Copy, Debug, PartialEq, Eq, Error)]
pub enum CertificateError {
    /// The first faulty line, counted from 1, with its first fault.
    #[error("line {line}: {fault}")]
    Refused { line: u32, fault: CertificateFault },
    /// Memory ran out.
    #[error("out of memory")]
    Memory,
}

/// The fault of a line whose plan has this fault.
pub(crate) fn plan_fault(fault: PlanFault) -> CertificateFault
    ensures { result ≡ plan_fault fault }
{
    match fault {
        PlanFault::BadWord => CertificateFault::BadItem,
        PlanFault::TooLong => CertificateFault::TooLong,
        PlanFault::TwoPlaces => CertificateFault::TwoPlaces,
        PlanFault::TwoCounts => CertificateFault::BadItem,
        PlanFault::NoBlock => CertificateFault::BadLine,
    }
}
