//! What goes to standard error where a source is refused: what `check` prints of it.
ghost use Rattle.std.specs.Prelude.{◌≤◌, length};
ghost use Rattle.mx_io.specs.declared.limits.TheConstants.{MAX_SOURCE_BYTES};

use crate::check::errors_text;
use crate::disassemble::MAGIC;
use lab_failure::{Causes, LabFailure, LabFile, read_lab_file};
use lab_options::file_by;
use lab_writer::Writer;
use mx_io::{Memory, Shelf};
use std::alloc::{AllocError, Global};

// What is said of an image file in the place of a source.
fn image_text(alloc: Global, caller: &str, name: &str) -> Result<Vec<u8>, AllocError> {
    let mut text = Writer::new(alloc);
    text.push_parts(&["zanderanvil: error: '", name, "' is an image file"]);
    text.push_parts(&[", not a source\n    hint: ", caller, " disassemble "]);
    text.push_parts(&[name, " lists it"]);
    text.push_parts(&[", ", caller, " exec "]);
    text.push_parts(&[name, " runs it\n"]);
    text.into_bytes()
}

// What is said of a text that is refused; nothing where no error is found in it.
fn text_of(alloc: Global, caller: &str, name: &str, text: &[u8]) -> Result<Option<Vec<u8>>, Memory>
    requires { length text.now ≤ MAX_SOURCE_BYTES }
{
    if !text.starts_with(MAGIC) {
        return errors_text(alloc, name, text);
    }
    match image_text(alloc, caller, name) {
        Ok(said) => Ok(Some(said)),
        Err(_) => Err(Memory),
    }
}

/// What is said of the source of this name, which is refused; nothing where it cannot be read once more.
pub fn refusal_text<S: Shelf, C: Causes>(
    alloc: Global,
    shelf: &mut S,
    name: &str,
    causes: C,
) -> Result<Option<Vec<u8>>, Memory> {
    if !causes.is_kept(file_by(name)) {
        return Ok(None);
    }
    match read_lab_file(alloc, shelf, LabFile::Source, name) {
        Ok(text) => text_of(alloc, causes.caller(), name, &text),
        Err(LabFailure::Memory) => Err(Memory),
        Err(_) => Ok(None),
    }
}
