//! What is printed of a text.
use crate::finding::{Finding, Severity};
use crate::json::findings_json;
use lab_writer::Writer;
use std::alloc::{AllocError, Global};

/// How findings are printed.
#[derive(Clone, Copy, PartialEq, Eq)]
pub enum Form {
    /// A line for each, with the line of the source and what may have been meant.
    Text,
    /// The same, in the colours of a terminal.
    Coloured,
    /// An object for each, on a line of its own.
    Json,
}

/// What begins a text in a colour on a terminal, and what ends it.
const BOLD: &str = "\x1b[1m";

const RED: &str = "\x1b[1;31m";

const YELLOW: &str = "\x1b[1;33m";

const CYAN: &str = "\x1b[36m";

const PLAIN: &str = "\x1b[0m";

// The colour of how grave a finding is.
fn colour_of(severity: Severity) -> &'static str {
    match severity {
        Severity::Error => RED,
        Severity::Warning => YELLOW,
    }
}

// What is printed, as far as it is.
#[derive(Drop)]
struct Report {
    text: Writer,
    is_coloured: bool,
}

impl Report {
    // Puts down what begins or ends a colour, where there are colours.
    fn push_colour(&mut self, colour: &str) {
        if self.is_coloured {
            self.text.push_str(colour);
        }
    }

    // Puts down texts in a colour, where there are colours.
    fn push_in(&mut self, colour: &str, texts: &[&str]) {
        self.push_colour(colour);
        self.text.push_parts(texts);
        self.push_colour(PLAIN);
    }

    // Puts down where a finding is.
    fn push_place(&mut self, file: &str, finding: &Finding) {
        let (line, column) = (u64::from(finding.line), finding.column() as u64);
        self.push_colour(BOLD);
        self.text.push_str(file);
        self.text.push_numbers(&[":", ":", ":"], &[line, column]);
        self.push_colour(PLAIN);
        self.text.push(' ');
    }

    // Puts down how grave a finding is and its code.
    fn push_severity(&mut self, finding: &Finding) {
        let texts = [finding.severity.word(), "[", finding.code, "]:"];
        self.push_in(colour_of(finding.severity), &texts);
    }

    // Puts down what a finding is, and the line.
    fn push_message(&mut self, finding: &Finding) {
        self.text.push_parts(&[" ", finding.message.as_str()]);
        self.text.push_str("\n    ");
        self.text.push_bytes(finding.text);
        self.text.push('\n');
    }

    // Puts down the marks under a line, where there are some.
    fn push_marks(&mut self, finding: &Finding) {
        if !finding.marks.is_empty() {
            self.text.push_str("    ");
            self.push_colour(colour_of(finding.severity));
            self.text.push_bytes(&finding.marks);
            self.push_colour(PLAIN);
            self.text.push('\n');
        }
    }

    // Puts down what may have been meant, where that is known.
    fn push_hint(&mut self, finding: &Finding) {
        if let Some(hint) = &finding.hint {
            self.text.push_str("    ");
            self.push_in(CYAN, &["hint:"]);
            self.text.push_parts(&[" ", hint.as_str(), "\n"]);
        }
    }

    // Puts down a finding.
    fn push_finding(&mut self, file: &str, finding: &Finding) {
        self.push_place(file, finding);
        self.push_severity(finding);
        self.push_message(finding);
        self.push_marks(finding);
        self.push_hint(finding);
    }

    // Puts down that so many findings, of which this is the first one, follow from a line.
    fn push_followers(&mut self, file: &str, first: &Finding, cause: u32, count: u64) {
        self.push_place(file, first);
        self.push_in(CYAN, &["note:"]);
        let cause = u64::from(cause);
        match count {
            1 => self
                .text
                .push_numbers(&[" this fault follows from line ", "\n"], &[cause]),
            _ => self.text.push_numbers(
                &[" these ", " faults follow from line ", "\n"],
                &[count, cause],
            ),
        }
    }
}

// How many findings at the front of a list follow from a line.
fn followers(findings: &[Finding], cause: u32) -> usize {
    let mut count = 0usize;
    for finding in findings {
        if finding.follows != Some(cause) {
            return count;
        }
        count = count.saturating_add(1);
    }
    count
}

// The finding at a place follows from the same line as the one before it.
fn continues(findings: &[Finding], at: usize) -> bool {
    match (at.checked_sub(1), findings.get(at)) {
        (Some(before), Some(finding)) => match findings.get(before) {
            Some(earlier) => finding.follows == earlier.follows,
            None => false,
        },
        _ => false,
    }
}

// Puts down the finding at a place, or how many from there on follow from the same line.
fn push_at(report: &mut Report, file: &str, findings: &[Finding], at: usize) {
    let Some(finding) = findings.get(at) else {
        return;
    };
    match finding.follows {
        None => report.push_finding(file, finding),
        Some(_) if continues(findings, at) => {}
        Some(cause) => {
            let count = followers(findings.get(at..).unwrap_or(&[]), cause);
            report.push_followers(file, finding, cause, count as u64);
        }
    }
}

// Findings in a file, each with its line.
fn lines_of(
    alloc: Global,
    file: &str,
    findings: &[Finding],
    is_coloured: bool,
) -> Result<Vec<u8>, AllocError> {
    let text = Writer::new(alloc);
    let mut report = Report { text, is_coloured };
    for at in 0..findings.len() {
        push_at(&mut report, file, findings, at);
    }
    report.text.into_bytes()
}

/// What is printed of findings in a file.
pub fn findings_text(
    alloc: Global,
    file: &str,
    findings: &[Finding],
    form: Form,
) -> Result<Vec<u8>, AllocError> {
    match form {
        Form::Text => lines_of(alloc, file, findings, false),
        Form::Coloured => lines_of(alloc, file, findings, true),
        Form::Json => findings_json(alloc, file, findings),
    }
}
