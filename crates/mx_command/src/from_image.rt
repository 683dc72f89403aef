//! The replies of the commands that read an image file.
ghost use Rattle.std.specs.Prelude.{◌≡◌, ◌≢◌, ◌++◌, codes, length, IfOk, List, ℕ, Some, None};
ghost use Rattle.mx_command.specs.Terms.{prints, Answers, Reads, Performed, reply_answer, OnAnswer, seen_files, image_text, image_line, exec_protocol};
ghost use Rattle.mx_command.specs.Terms.{migrate_answer, contents_of, LinksFit, file_refusal, file_in, file_bytes, writes, Counts, unless_refused};

use cmd_answer::{Failure, FileKind, Reply, Status, line_reply};
use cmd_options::{Limits, RunFiles};
use cmd_simulate::run_image;
use cmd_source::read_named;
use mx_image::{ImageError, ImageFile, read_file as read_image_file, write_file};
use mx_io::{Memory, Shelf};
use std::alloc::Global;

// The reply to bytes that are no image file, with the place.
fn image_reply_at(alloc: Global, cause: &str, at: u64) -> Result<Reply, Memory>
    ensures { IfOk result (λ r. reply_answer r ≡ prints Status.BadImage (image_text at cause.now)) }
{
    let Ok(text) = format!(in alloc; "image: {cause} at {at}") else {
        return Err(Memory);
    };
    let reply = line_reply(alloc, Status::BadImage, text.as_str())?;
    Ok(reply)
}

// The reply to bytes that are no image file.
fn image_reply(alloc: Global, error: &ImageError) -> Result<Reply, Memory>
    ensures { IfOk result (λ r. (error.now ≢ ImageError.Memory) × (reply_answer r ≡ prints Status.BadImage (image_line error.now))) }
{
    match *error {
        ImageError::BadMagic => line_reply(alloc, Status::BadImage, "image: BadMagic"),
        ImageError::Truncated { at } => image_reply_at(alloc, "Truncated", at),
        ImageError::BadRange { at } => image_reply_at(alloc, "BadRange", at),
        ImageError::Trailing { at } => image_reply_at(alloc, "Trailing", at),
        ImageError::Memory => Err(Memory),
    }
}

// The reply of `exec` to the bytes of its file.
fn exec_bytes<S: Shelf>(
    alloc: Global,
    shelf: &mut S,
    bytes: &[u8],
    files: &RunFiles,
    limits: &Limits,
) -> Result<Reply, Failure>
    ensures performed { OnAnswer result (Performed (S.told shelf.old)
        (exec_protocol (seen_files files.now) limits.now bytes.now)
        (S.counts shelf.old) (S.counts shelf.new)) }
    ensures told_stays { S.told shelf.new ≡ S.told shelf.old }
    ensures writes_stay { S.write_faults shelf.new ≡ S.write_faults shelf.old }
{
    match read_image_file(alloc, bytes) {
        Ok(file) => run_image(alloc, shelf, &file.image, file.input, files, limits),
        Err(error) => {
            let reply = image_reply(alloc, &error)?;
            Ok(reply)
        }
    }
}

// The reply that writes an image file under this name.
pub fn written_reply(alloc: Global, file: &ImageFile, target: &str) -> Result<Reply, Memory>
    requires { LinksFit (length file.now.image.code.items) file.now.links.items }
    ensures { IfOk result (λ r. reply_answer r ≡ writes target.now (file_bytes (contents_of file.now))) }
{
    let Ok(name) = String::from_str(alloc, target) else {
        return Err(Memory);
    };
    let bytes = write_file(alloc, file)?;
    Ok(Reply::Writes { name, bytes })
}

// The reply of `migrate` to the bytes of its file.
fn migrate_bytes(alloc: Global, bytes: &[u8], target: &str) -> Result<Reply, Memory>
    ensures { IfOk result (λ r. reply_answer r ≡ migrate_answer target.now bytes.now) }
{
    match read_image_file(alloc, bytes) {
        Ok(file) => written_reply(alloc, &file, target),
        Err(error) => {
            let reply = image_reply(alloc, &error)?;
            Ok(reply)
        }
    }
}

/// The reply to `exec IMAGE`.
pub fn exec_reply<S: Shelf>(
    alloc: Global,
    shelf: &mut S,
    image: &str,
    files: &RunFiles,
    limits: &Limits,
) -> Result<Reply, Failure>
    ensures performed { OnAnswer result (Performed (S.told shelf.old)
        (Reads FileKind.Image image.now (exec_protocol (seen_files files.now) limits.now))
        (S.counts shelf.old) (S.counts shelf.new)) }
    ensures told_stays { S.told shelf.new ≡ S.told shelf.old }
    ensures writes_stay { S.write_faults shelf.new ≡ S.write_faults shelf.old }
{
    let bytes = read_named(alloc, shelf, FileKind::Image, image)?;
    exec_bytes(alloc, shelf, bytes.as_slice(), files, limits)
}

/// The reply to `migrate IMAGE NEW`.
pub fn migrate_reply<S: Shelf>(
    alloc: Global,
    shelf: &mut S,
    image: &str,
    target: &str,
) -> Result<Reply, Failure>
    ensures performed { OnAnswer result (Performed (S.told shelf.old)
        (Reads FileKind.Image image.now (λ bytes. Answers (migrate_answer target.now bytes)))
        (S.counts shelf.old) (S.counts shelf.new)) }
    ensures told_stays { S.told shelf.new ≡ S.told shelf.old }
    ensures writes_stay { S.write_faults shelf.new ≡ S.write_faults shelf.old }
{
    let bytes = read_named(alloc, shelf, FileKind::Image, image)?;
    let reply = migrate_bytes(alloc, bytes.as_slice(), target)?;
    Ok(reply)
}
