//! Image files.
use lab_failure::{LabFailure, LabFile, read_lab_file};
use mx_image::{ImageError, ImageFile, read_file as read_image_file};
use mx_io::Shelf;
use std::alloc::Global;

/// The image file that the bytes of a file of this name are, or what is wrong with them.
pub(crate) fn image_in<'w>(
    alloc: Global,
    name: &'w str,
    bytes: &[u8],
) -> Result<ImageFile, LabFailure<'w>> {
    match read_image_file(alloc, bytes) {
        Ok(file) => Ok(file),
        Err(ImageError::Memory) => Err(LabFailure::Memory),
        Err(error) => Err(LabFailure::Image { name, error }),
    }
}

/// The image file of this name, or what is wrong with it.
pub(crate) fn read_image<'w, S: Shelf>(
    alloc: Global,
    shelf: &mut S,
    name: &'w str,
) -> Result<ImageFile, LabFailure<'w>> {
    let bytes = read_lab_file(alloc, shelf, LabFile::Image, name)?;
    image_in(alloc, name, bytes.as_slice())
}
