//! Parts of a text, told by where they begin and end.
ghost use Rattle.std.specs.Prelude.{◌≡◌, ◌&&◌, [], IfOk, length, nat_le, slice_range, if◌then◌else◌};
ghost use Rattle.std.specs.Str.Lines.{strip_carriage_return};
ghost use Rattle.lab_positions.specs.Positions;

use std::alloc::{AllocError, Global};

/// A part of a text.
#[derive(Clone, Copy)]
pub struct Span {
    pub start: usize,
    pub end: usize,
}

impl Span {
    /// Its bytes; none where the text is too short.
    pub fn bytes(self, text: &[u8]) -> &[u8]
        ensures { result.now ≡ (if nat_le self.start self.end && nat_le self.end (length text.now) then slice_range text.now self.start self.end else []) }
    {
        text.get(self.start..self.end).unwrap_or(b"")
    }
}

/// The lines of a text, without the end of its last line.
pub fn lines_of(text: &[u8]) -> &[u8]
    ensures { result.now ≡ Positions.lines_of text.now }
{
    match text {
        [lines @ .., b'\n'] => lines,
        _ => text,
    }
}

/// A line without a CR at its end, which the language drops.
pub fn without_return(line: &[u8]) -> &[u8]
    ensures { result.now ≡ strip_carriage_return line.now }
{
    line.strip_suffix(b"\r".as_slice()).unwrap_or(line)
}

/// Where each line of a text stands, without a CR at its end.
pub fn line_spans(alloc: Global, text: &[u8]) -> Result<Vec<Span>, AllocError>
    ensures { IfOk result (λ spans. length spans.items ≡ length (Positions.lines_in text.now)) }
{
    let mut spans = Vec::new(alloc);
    let mut start = 0usize;
    for line in lines_of(text).split(|byte| *byte == b'\n') {
        let end = start.saturating_add(without_return(line).len());
        spans.push(Span { start, end })?;
        start = start.saturating_add(line.len()).saturating_add(1);
    }
    Ok(spans)
}
