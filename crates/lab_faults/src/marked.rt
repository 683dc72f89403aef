//! The marks under a line.
ghost use Rattle.std.specs.Prelude.{◌≡◌, ◌++◌, map, IfOk, OnOk};
ghost use Rattle.lab_faults.specs.Checked;
ghost use Rattle.lab_faults.specs.Checked.{caret, under};

use mx_faults::Span;
use std::alloc::{AllocError, Global};

// What stands under a byte before the marks.
fn under_byte(byte: u8) -> u8
    ensures { result ≡ under byte }
{
    if byte == b'\t' { b'\t' } else { b' ' }
}

// Blanks under the bytes before the marks, and the tabs that stand there.
#[tactic(auto, using(crate::proofs::Marks::push_more))]
fn push_under(marks: &mut Vec<u8>, bytes: &[u8]) -> Result<(), AllocError>
    ensures { OnOk result (marks.new.items ≡ marks.old.items ++ map under bytes.now) }
{
    for byte in bytes {
        marks.push(under_byte(*byte))?;
    }
    Ok(())
}

// A mark under each byte of the token.
#[tactic(auto, using(crate::proofs::Marks::push_more))]
fn push_carets(marks: &mut Vec<u8>, token: &[u8]) -> Result<(), AllocError>
    ensures { OnOk result (marks.new.items ≡ marks.old.items ++ map caret token.now) }
{
    for byte in token {
        marks.push(b'^')?;
    }
    Ok(())
}

// The marks under the bytes of a line up to the end of the token that starts there.
#[tactic(auto, using(crate::proofs::Marks::marks_are))]
fn marks_to(alloc: Global, start: usize, bytes: &[u8]) -> Result<Vec<u8>, AllocError>
    ensures { IfOk result (λ v. v.items ≡ Checked.marks_to start bytes.now) }
{
    let start = start.min(bytes.len());
    let mut marks = Vec::new(alloc);
    push_under(&mut marks, &bytes[..start])?;
    push_carets(&mut marks, &bytes[start..])?;
    Ok(marks)
}

/// The marks under a line: a `^` under each byte of the span, and under the bytes before it blanks, or tabs where those
/// are tabs.
#[tactic(auto, using(crate::proofs::Marks::take_within))]
pub fn marks_under(alloc: Global, line: &[u8], span: Option<Span>) -> Result<Vec<u8>, AllocError>
    ensures { IfOk result (λ v. v.items ≡ Checked.marks line.now span) }
{
    match span {
        Some(span) => marks_to(alloc, span.start, &line[..span.end.min(line.len())]),
        None => Ok(Vec::new(alloc)),
    }
}
