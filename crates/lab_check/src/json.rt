//! Findings as JSON.
use crate::finding::Finding;
use lab_json::{Document, Value};
use std::alloc::{AllocError, Global};

// Writes what may have been meant, or null.
fn write_hint(document: &mut Document, finding: &Finding) {
    document.push_key("hint");
    match &finding.hint {
        Some(hint) => document.push(Value::Text(hint.as_str())),
        None => document.push(Value::Null),
    }
}

// Writes a finding in a file. Columns are counted in bytes, from 1.
fn write_finding(document: &mut Document, file: &str, finding: &Finding) {
    document.begin_object();
    document.push_member("file", Value::Text(file));
    document.push_numbers(&[
        ("line", u64::from(finding.line)),
        ("column", finding.column() as u64),
        ("end_column", finding.end_column() as u64),
    ]);
    document.push_member("severity", Value::Text(finding.severity.word()));
    document.push_member("code", Value::Text(finding.code));
    document.push_member("name", Value::Text(finding.name));
    document.push_member("message", Value::Text(finding.message.as_str()));
    write_hint(document, finding);
    document.end_object();
    document.end_line();
}

/// Findings in a file: an object for each, on a line of its own.
pub(crate) fn findings_json(
    alloc: Global,
    file: &str,
    findings: &[Finding],
) -> Result<Vec<u8>, AllocError> {
    let mut document = Document::of_lines(alloc);
    for finding in findings {
        write_finding(&mut document, file, finding);
    }
    match document.into_bytes() {
        Ok(text) => Ok(text),
        Err(_) => Err(AllocError),
    }
}
