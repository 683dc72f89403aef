//! Certificates: what shows that an image is a source, linked by certain plans with certain copies.
#![tactic(auto)]

mod answer;
mod certificate;
mod checking;
mod comparing;
mod fault;
mod filed;
mod hash;
mod laws;
mod printing;
mod reading;
mod rejection;
mod verifying;
mod words;

pub use answer::rejection_text;
pub use certificate::{Certificate, Head};
pub use fault::{CertificateError, CertificateFault};
pub use filed::{FileError, verify_file};
pub use hash::hash_digits;
pub use laws::verified_is_not_rejected;
pub use printing::certify;
pub use reading::read_certificate;
pub use rejection::{Rejection, VerifyError};
pub use verifying::verify;
