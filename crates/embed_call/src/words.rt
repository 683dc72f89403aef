//! The words of a call.
ghost use Rattle.std.specs.Prelude.{◌≡◌, IfOk, map, string_bytes};
ghost use Rattle.std.specs.Str.Lines.{lines};

use mx_io::Memory;
use std::alloc::{AllocError, Global};

// Each text as a string of its own.
fn strings_of(alloc: Global, texts: &[&str]) -> Result<Vec<String>, AllocError>
    ensures { IfOk result (λ v. map string_bytes v.items ≡ map (λ t. t.now) texts.now) }
{
    let mut strings = Vec::new(alloc);
    for text in texts {
        strings.push(String::from_str(alloc, text)?)?;
    }
    Ok(strings)
}

// The lines of a text.
fn lines_of<'a>(alloc: Global, text: &'a str) -> Result<Vec<&'a str>, AllocError>
    ensures { IfOk result (λ v. map (λ t. t.now) v.items ≡ lines text.now) }
{
    text.lines().collect(alloc)
}

/// The words of a text, one on each line.
pub fn words_of(alloc: Global, text: &str) -> Result<Vec<String>, Memory>
    ensures { IfOk result (λ v. map string_bytes v.items ≡ lines text.now) }
{
    let Ok(lines) = lines_of(alloc, text) else {
        return Err(Memory);
    };
    strings_of(alloc, lines.as_slice()).map_err(|_| Memory)
}
