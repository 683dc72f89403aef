//! What goes to standard error where a command has no answer.
use crate::causes::{Cause, Causes};
use crate::failure::{LabFailure, LabFile, LineFault, ReadFault};
use lab_certify::CertificateFault;
use lab_options::{ArgumentFault, file_by};
use lab_writer::Writer;
use mx_image::ImageError;
use mx_plans::PlanFault;
use std::alloc::{AllocError, Global};

/// What a message begins with that is about no line of a file.
const ERROR: &str = "zanderanvil: error: ";

// The code of a fault, and what it means.
type CodeAndMeaning = (&'static str, &'static str);

// What a fault of a plan file means.
fn plan_meaning(fault: PlanFault) -> CodeAndMeaning {
    match fault {
        PlanFault::BadWord => (
            "BadWord",
            "expected a number from 0 to 63, '-', '/', '+0', '+1' or '+2'",
        ),
        PlanFault::TooLong => ("TooLong", "a plan has at most 131 items"),
        PlanFault::TwoPlaces => ("TwoPlaces", "a plan has one '/'"),
        PlanFault::TwoCounts => ("TwoCounts", "a plan has one '+0', '+1' or '+2'"),
        PlanFault::NoBlock => ("NoBlock", "the source has no block for this plan"),
    }
}

// What a fault of a certificate means.
fn certificate_meaning(fault: CertificateFault) -> CodeAndMeaning {
    match fault {
        CertificateFault::BadHeader => ("BadHeader", "expected 'zanderanvil certificate 1'"),
        CertificateFault::BadHash => (
            "BadHash",
            "expected 'source' and the 64 digits of a hash, 0 to 9 and a to f",
        ),
        CertificateFault::BadLine => ("BadLine", "expected 'block'"),
        CertificateFault::BadAddress => (
            "BadAddress",
            "expected an address: a number from 0 to 65,535",
        ),
        CertificateFault::BadCopies => (
            "BadCopies",
            "expected a number of copies: 0, 1, 2, 1s or 2s",
        ),
        CertificateFault::BadItem => ("BadItem", "expected a number from 0 to 63, '-' or '/'"),
        CertificateFault::TooLong => ("TooLong", "a plan has at most 131 items"),
        CertificateFault::TwoPlaces => ("TwoPlaces", "a plan has one '/'"),
        CertificateFault::NoPlan => ("NoPlan", "expected the items of a plan"),
    }
}

// What a fault of a line means.
fn meaning_of(fault: LineFault) -> CodeAndMeaning {
    match fault {
        LineFault::BadCycle => ("BadLine", "expected a cycle: a decimal number"),
        LineFault::TooManyCycles => ("TooMany", "a file has at most 65,536 cycles"),
        LineFault::NotAscending => (
            "NotAscending",
            "expected a cycle after the one of the line before",
        ),
        LineFault::Plan(fault) => plan_meaning(fault),
        LineFault::Certificate(fault) => certificate_meaning(fault),
    }
}

// Appends where a faulty line is.
fn push_place(text: &mut Writer, name: &str, line: u32) {
    text.push_str(name);
    text.push_str(":");
    text.push_number(u64::from(line));
    text.push_str(": error");
}

// Appends the code of a fault and what it means.
fn push_code(text: &mut Writer, (code, meaning): (&str, &str)) {
    text.push_parts(&["[", code, "]: ", meaning]);
}

// Appends the fault of a line of a source, `F4 BadOperands`.
fn push_source_fault(text: &mut Writer, fault: &str) {
    push_code(text, fault.split_once(" ").unwrap_or(("", fault)));
}

// Appends that a branch does not reach its target.
fn push_overlong(text: &mut Writer, from: u32, to: u32) {
    text.push_str("[L1]: displacement ");
    text.write_fmt(i64::from(to) - i64::from(from));
    text.push_str(" from ");
    text.push_number(u64::from(from));
    text.push_str(" to ");
    text.push_number(u64::from(to));
    text.push_str(": branch range is -32768 to 32767 words");
}

// Appends that a file is too large.
fn push_too_large(text: &mut Writer, name: &str, kind: LabFile) {
    text.push_parts(&["'", name, "' is too large: "]);
    text.push_str(match kind {
        LabFile::Source => "a source has at most 4,194,304 bytes",
        _ => "such a file has at most 1,048,576 bytes",
    });
}

// Appends that a file cannot be read, and why, where that is known.
fn push_cause(text: &mut Writer, name: &str, cause: Option<Cause>) {
    let why = match cause {
        Some(Cause::Folder) => return text.push_parts(&["'", name, "' is a directory"]),
        Some(Cause::Missing) => ": no such file",
        Some(Cause::Denied) => ": permission denied",
        Some(Cause::Other) | None => "",
    };
    text.push_parts(&["cannot read '", name, "'", why]);
}

// Appends what is wrong with a file that cannot be read.
fn push_unread<C: Causes>(
    text: &mut Writer,
    name: &str,
    kind: LabFile,
    fault: ReadFault,
    causes: C,
) {
    text.push_str(ERROR);
    match fault {
        ReadFault::TooLong => push_too_large(text, name, kind),
        ReadFault::Failed => {
            let cause = causes.cause(text.alloc(), file_by(name));
            push_cause(text, name, cause);
        }
    }
}

// Appends what is wrong with arguments.
fn push_arguments(text: &mut Writer, fault: ArgumentFault) {
    text.push_str(ERROR);
    fault.push_to(text);
}

// Appends that a file is no image file.
fn push_image(text: &mut Writer, name: &str, error: ImageError) {
    text.push_str(ERROR);
    text.push_parts(&["'", name, "' is not a valid image file: "]);
    text.write_fmt(error);
}

// Appends that a source has no such label of an instruction.
fn push_label(text: &mut Writer, name: &str, label: &str) {
    text.push_str(ERROR);
    text.push_parts(&["no instruction of '", name, "' has the label '", label, "'"]);
}

// Appends a message.
fn push_failure<C: Causes>(text: &mut Writer, failure: LabFailure, causes: C) {
    match failure {
        LabFailure::Memory => text.push_parts(&[ERROR, "out of memory"]),
        LabFailure::Arguments(fault) => push_arguments(text, fault),
        LabFailure::Unread { name, kind, fault } => push_unread(text, name, kind, fault, causes),
        LabFailure::Image { name, error } => push_image(text, name, error),
        LabFailure::Line { name, line, fault } => {
            push_place(text, name, line);
            push_code(text, meaning_of(fault));
        }
        LabFailure::Source { name, line, fault } => {
            push_place(text, name, line);
            push_source_fault(text, fault.text());
        }
        LabFailure::Overlong {
            name,
            line,
            from,
            to,
        } => {
            push_place(text, name, line);
            push_overlong(text, from, to);
        }
        LabFailure::NoLabel { name, label } => push_label(text, name, label),
    }
}

/// What goes to standard error by a failure: the file and the line, and what is wrong.
pub fn failure_text<C: Causes>(
    alloc: Global,
    failure: LabFailure,
    causes: C,
) -> Result<Vec<u8>, AllocError> {
    let mut text = Writer::new(alloc);
    push_failure(&mut text, failure, causes);
    text.push('\n');
    text.into_bytes()
}

/// What goes to standard error where output cannot be written: to standard output, or to the file of a name.
pub fn unwritten_text(alloc: Global, name: Option<&str>) -> Result<Vec<u8>, AllocError> {
    let mut text = Writer::new(alloc);
    text.push_parts(&[ERROR, "cannot write "]);
    match name {
        Some(name) => text.push_parts(&["'", name, "'\n"]),
        None => text.push_str("to standard output\n"),
    }
    text.into_bytes()
}
