//! The reply of `disassemble`.
ghost use Rattle.std.specs.Prelude.{◌≤◌, vec_len};
ghost use Rattle.mx_io.specs.declared.limits.TheConstants.{MAX_SOURCE_BYTES};

use crate::images::image_in;
use cmd_answer::{Reply, Status};
use lab_disassemble::{Listing, image_listing, listing_json, listing_text, source_listing};
use lab_failure::{LabFailure, LabFile, read_lab_file};
use lab_options::{DisassembleOptions, Form};
use lab_runs::{or_memory, printed};
use lab_sources::linked_text;
use mx_io::{Memory, Shelf};
use std::alloc::Global;

/// What an image file begins with.
pub(crate) const MAGIC: &[u8] = b"MXIM";

// The listing of the image file that bytes are, or what is wrong with it.
fn list_image<'w>(alloc: Global, name: &'w str, bytes: &[u8]) -> Result<Listing, LabFailure<'w>> {
    let file = image_in(alloc, name, bytes)?;
    Ok(image_listing(alloc, &file)?)
}

// The listing of a source, or what is wrong with it.
fn list_source<'w>(alloc: Global, name: &'w str, text: Vec<u8>) -> Result<Listing, LabFailure<'w>>
    requires { vec_len text ≤ MAX_SOURCE_BYTES }
{
    let program = linked_text(alloc, name, text)?;
    Ok(source_listing(alloc, &program.source, &program.linked)?)
}

// The listing of a file, or what is wrong with it.
fn read_listing<'w, S: Shelf>(
    alloc: Global,
    shelf: &mut S,
    name: &'w str,
) -> Result<Listing, LabFailure<'w>> {
    let bytes = read_lab_file(alloc, shelf, LabFile::Source, name)?;
    if bytes.as_slice().starts_with(MAGIC) {
        list_image(alloc, name, bytes.as_slice())
    } else {
        list_source(alloc, name, bytes)
    }
}

// A listing in the form that the options ask for.
fn text_of(
    alloc: Global,
    options: &DisassembleOptions,
    listing: &Listing,
) -> Result<Vec<u8>, Memory> {
    match options.form {
        Form::Json => listing_json(alloc, options.file, listing),
        _ => or_memory(listing_text(alloc, listing)),
    }
}

/// The reply to `disassemble FILE`.
pub fn disassemble_reply<'w, S: Shelf>(
    alloc: Global,
    options: &DisassembleOptions<'w>,
    shelf: &mut S,
) -> Result<Reply, LabFailure<'w>> {
    let listing = read_listing(alloc, shelf, options.file)?;
    printed(Status::Done, text_of(alloc, options, &listing))
}
