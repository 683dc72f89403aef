//! The lines of a text.
ghost use Rattle.std.specs.Prelude.{◌≡◌, ◌+◌, ◌≤◌, ◌<◌, ◌∷◌, length, drop, vec_len, IfOk};
ghost use Rattle.mx_lex.specs.Lines;
ghost use Rattle.mx_lines.specs.Words.{texts};

use memchr::memchr;
use std::alloc::{AllocError, Global};

/// The lines of a text, each without its line end.
pub fn lines_of(alloc: Global, text: &[u8]) -> Result<Vec<&[u8]>, AllocError>
    ensures lines { IfOk result (λ v. texts v.items ≡ Lines.lines_of text.now) }
    ensures few { IfOk result (λ v. vec_len v ≤ length text.now) }
{
    let mut lines = Vec::new(alloc);
    let mut rest = text;
    while !rest.is_empty() {
        let end = line_end(rest);
        lines.push(without_return(&rest[..end]))?;
        rest = behind(rest, end);
    }
    Ok(lines)
}

/// The first line of a text, without its line end, and what stands behind it.
pub fn split_line(text: &[u8]) -> (&[u8], &[u8])
    requires { 0 < length text.now }
    ensures lines { Lines.lines_of text.entry.now ≡ result.0.now ∷ Lines.lines_of result.1.now }
    ensures shorter { length result.1.now < length text.entry.now }
{
    let end = line_end(text);
    (without_return(&text[..end]), behind(text, end))
}

/// How many bytes stand before the first LF.
fn line_end(text: &[u8]) -> usize
    ensures end { result ≡ Lines.line_len text.now }
    ensures within { result ≤ length text.now }
{
    match memchr(b'\n', text) {
        Some(end) => end,
        None => text.len(),
    }
}

/// What stands behind the LF of a line.
fn behind(text: &[u8], end: usize) -> &[u8]
    requires { end ≤ length text.now }
    ensures { result.now ≡ drop (end + 1) text.entry.now }
{
    if end < text.len() {
        &text[end + 1..]
    } else {
        &text[end..]
    }
}

/// A line without a CR at its end.
fn without_return(line: &[u8]) -> &[u8]
    ensures { result.now ≡ Lines.without_return line.entry.now }
{
    let count = line.len();
    if count > 0 && line[count - 1] == b'\r' {
        &line[..count - 1]
    } else {
        line
    }
}
