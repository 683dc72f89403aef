//! The replies of `certify` and `verify`.
use crate::images::read_image;
use cmd_answer::{Reply, Status, line_reply};
use cmd_source::Program;
use lab_certify::{
    Certificate, CertificateError, FileError, Rejection, VerifyError, certify, read_certificate,
    rejection_text, verify_file,
};
use lab_failure::{LabFailure, LabFile, LineFault, read_lab_file};
use lab_options::VerifyOptions;
use lab_runs::printed;
use lab_sources::{read_program, unlinked};
use mx_image::ImageFile;
use mx_io::Shelf;
use std::alloc::Global;

// What is wrong with the text of a certificate of this name.
fn faulty<'w>(name: &'w str, error: CertificateError) -> LabFailure<'w> {
    match error {
        CertificateError::Refused { line, fault } => LabFailure::Line {
            name,
            line,
            fault: LineFault::Certificate(fault),
        },
        CertificateError::Memory => LabFailure::Memory,
    }
}

// The certificate of the file of this name, or what is wrong with it.
fn certificate_of<'w, S: Shelf>(
    alloc: Global,
    shelf: &mut S,
    name: &'w str,
) -> Result<Certificate, LabFailure<'w>> {
    let bytes = read_lab_file(alloc, shelf, LabFile::Certificate, name)?;
    match read_certificate(alloc, bytes.as_slice()) {
        Ok(certificate) => Ok(certificate),
        Err(error) => Err(faulty(name, error)),
    }
}

/// The reply to `certify SOURCE`, by the name of the source.
pub fn certify_reply<'w, S: Shelf>(
    alloc: Global,
    name: &'w str,
    shelf: &mut S,
) -> Result<Reply, LabFailure<'w>> {
    let program = read_program(alloc, shelf, name)?;
    match certify(alloc, program.text.as_slice(), &program.source) {
        Ok(text) => printed(Status::Done, Ok(text)),
        Err(error) => Err(unlinked(name, error)),
    }
}

// The reply where an image is rejected: that is the answer of the command, and no error.
fn rejected_reply<'w>(alloc: Global, rejection: &Rejection) -> Result<Reply, LabFailure<'w>> {
    let Ok(text) = rejection_text(alloc, rejection) else {
        return Err(LabFailure::Memory);
    };
    match format!(in alloc; "rejected: {text}") {
        Ok(line) => Ok(line_reply(alloc, Status::Stuck, line.as_str())?),
        Err(_) => Err(LabFailure::Memory),
    }
}

// The reply where only the flag of an image file is not what the source says.
fn input_reply<'w>(alloc: Global, file: &ImageFile) -> Result<Reply, LabFailure<'w>> {
    let line = if file.input {
        "rejected: input: the image asks for one, and the source does not"
    } else {
        "rejected: input: the source asks for one, and the image does not"
    };
    Ok(line_reply(alloc, Status::Stuck, line)?)
}

// The reply that says whether an image file means a source by a certificate.
fn verified_reply<'w>(
    alloc: Global,
    name: &'w str,
    program: &Program,
    file: &ImageFile,
    certificate: &Certificate,
) -> Result<Reply, LabFailure<'w>> {
    match verify_file(
        alloc,
        program.text.as_slice(),
        &program.source,
        file,
        certificate,
    ) {
        Ok(()) => Ok(line_reply(alloc, Status::Done, "verified")?),
        Err(FileError::Input) => input_reply(alloc, file),
        Err(FileError::Image(VerifyError::Rejected(rejection))) => {
            rejected_reply(alloc, &rejection)
        }
        Err(FileError::Image(VerifyError::Link(error))) => Err(unlinked(name, error)),
    }
}

/// The reply to `verify SOURCE IMAGE CERTIFICATE`.
pub fn verify_reply<'w, S: Shelf>(
    alloc: Global,
    options: &VerifyOptions<'w>,
    shelf: &mut S,
) -> Result<Reply, LabFailure<'w>> {
    let program = read_program(alloc, shelf, options.source)?;
    let file = read_image(alloc, shelf, options.image)?;
    let certificate = certificate_of(alloc, shelf, options.certificate)?;
    verified_reply(alloc, options.source, &program, &file, &certificate)
}
