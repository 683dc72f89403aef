//! Version 2, an image with the flag of the input and the link map: `MXIM`, then the version, the flag, the numbers of code
//! words, data words and links, and these.
ghost use Rattle.std.specs.Prelude.{◌≡◌, ◌≤◌, ◌+◌, ◌*◌, ◌⊎◌, ℕ, List, length, drop, Some, None, IfOk, OnOk, MatchResult, position};
ghost use Rattle.mx_isa.specs.declared.board.TheConstants.{MAX_CODE_WORDS};
ghost use Rattle.mx_image.specs.Bytes.{number_at, numbers};
ghost use Rattle.mx_image.specs.Sizes.{SizesOf2};
ghost use Rattle.mx_image.specs.Contents.{Contents, contents_of, plain, LinksFit, IsImage, IsFile};
ghost use Rattle.mx_image.specs.Reads.{ReadsFile};
ghost use Rattle.mx_image.specs.Files.{magic, file_bytes, file_in, file_in_2, flag_of, is_outside, links_offset, links_refusal, outside_refusal, refusal_1, refusal_2, image_in, image_bytes, file_refusal, Spells};

use crate::fields::{MAGIC, Sizes, check_head, check_long, check_short, field};
use crate::version_1::{image_at, read_1};
use crate::words::{number_at, push_words, words_at};
use crate::{ImageError, ImageFile};
use mx_io::Memory;
use mx_isa::{CODE_BASE, MAX_CODE_WORDS, MAX_DATA_WORDS};
use std::alloc::{AllocError, Global};

/// The flag and the sizes that version 2 gives; what its links are and what follows them is not looked at.
fn sizes_2(bytes: &[u8]) -> Result<Sizes, ImageError>
    ensures { MatchResult result (SizesOf2 bytes.now) (λ e. refusal_2 bytes.now ≡ Some e) }
{
    field(bytes, 8, 1)?;
    let code = field(bytes, 12, MAX_CODE_WORDS as u32)?;
    let user_data = field(bytes, 16, MAX_DATA_WORDS as u32)?;
    let links = field(bytes, 20, 20_001)?;
    check_short(bytes, 24 + 4 * (code + user_data) + 4 * links)?;
    Ok(Sizes {
        code,
        user_data,
        links,
    })
}

/// The place of the first number that is the address of no code word and not the one after the last.
fn first_outside(words: usize, links: &[u32]) -> Option<usize>
    requires { words ≤ MAX_CODE_WORDS }
    ensures { result ≡ position (is_outside words) links.now }
{
    let last = CODE_BASE + words as u32;
    links
        .iter()
        .position(|link| *link < CODE_BASE || last < *link)
}

/// Refuses a link that is outside.
fn check_links(from: usize, words: usize, links: &[u32]) -> Result<(), ImageError>
    requires from { from ≤ 600000 }
    requires words { words ≤ MAX_CODE_WORDS }
    requires links { length links.now ≤ 20001 }
    ensures { MatchResult result (λ _. outside_refusal from (position (is_outside words) links.now) ≡ None)
        (λ e. outside_refusal from (position (is_outside words) links.now) ≡ Some e) }
{
    match first_outside(words, links) {
        Some(k) => Err(ImageError::BadRange {
            at: (from + 4 * k) as u64,
        }),
        None => Ok(()),
    }
}

/// The file of bytes in version 2, after the version.
fn read_2(alloc: Global, bytes: &[u8]) -> Result<ImageFile, ImageError>
    ensures { MatchResult result (λ file. (refusal_2 bytes.now ≡ None) × (contents_of file ≡ file_in_2 bytes.now))
        (λ e. (e ≡ ImageError.Memory) ⊎ (refusal_2 bytes.now ≡ Some e)) }
{
    let sizes = sizes_2(bytes)?;
    let from = 24 + 4 * (sizes.code + sizes.user_data);
    let image = image_at(alloc, bytes, 24, sizes)?;
    let links = words_at(alloc, bytes, from, sizes.links)?;
    check_links(from, sizes.code, &links)?;
    check_long(bytes, from + 4 * sizes.links)?;
    Ok(ImageFile {
        image,
        input: number_at(bytes, 8) == 1,
        links,
    })
}

/// Adds what stands behind the magic.
fn push_file(out: &mut Vec<u8>, file: &ImageFile) -> Result<(), AllocError>
    requires begun { out.old.items ≡ magic }
    requires links { length file.now.links.items ≤ 20001 }
    ensures { OnOk result (out.new.items ≡ file_bytes (contents_of file.now)) }
{
    let head = [
        2,
        u32::from(file.input),
        file.image.code.len() as u32,
        file.image.user_data.len() as u32,
        file.links.len() as u32,
    ];
    push_words(out, &head)?;
    push_words(out, &file.image.code)?;
    push_words(out, &file.image.user_data)?;
    push_words(out, &file.links)
}

/// The bytes of a file.
fn file_words(alloc: Global, file: &ImageFile) -> Result<Vec<u8>, AllocError>
    requires { length file.now.links.items ≤ 20001 }
    ensures { IfOk result (λ bytes. bytes.items ≡ file_bytes (contents_of file.now)) }
{
    let mut out = Vec::from_slice(alloc, &MAGIC)?;
    push_file(&mut out, file)?;
    Ok(out)
}

/// The bytes of a file in version 2.
pub fn write_file(alloc: Global, file: &ImageFile) -> Result<Vec<u8>, Memory>
    requires { LinksFit (length file.now.image.code.items) file.now.links.items }
    ensures { IfOk result (λ bytes. bytes.items ≡ file_bytes (contents_of file.now)) }
{
    file_words(alloc, file).map_err(|_| Memory)
}

/// The file of bytes in version 1, after the version: without input and links.
fn read_plain(alloc: Global, bytes: &[u8]) -> Result<ImageFile, ImageError>
    ensures { MatchResult result (λ file. (refusal_1 bytes.now ≡ None) × (contents_of file ≡ image_in bytes.now))
        (λ e. (e ≡ ImageError.Memory) ⊎ (refusal_1 bytes.now ≡ Some e)) }
{
    let image = read_1(alloc, bytes)?;
    Ok(ImageFile {
        image,
        input: false,
        links: Vec::new(alloc),
    })
}

/// The file of bytes in either version, or their first refusal, or Memory.
fn file_of(alloc: Global, bytes: &[u8]) -> Result<ImageFile, ImageError>
    ensures { ReadsFile bytes.now result }
{
    check_head(bytes)?;
    match number_at(bytes, 4) {
        1 => read_plain(alloc, bytes),
        2 => read_2(alloc, bytes),
        _ => Err(ImageError::BadRange { at: 4 }),
    }
}

/// The file of bytes in either version. The answer is the first refusal that holds of the bytes, or the file, or Memory.
pub fn read_file(alloc: Global, bytes: &[u8]) -> Result<ImageFile, ImageError>
    ensures answer { ReadsFile bytes.now result }
    ensures links { IfOk result (λ file. LinksFit (length file.image.code.items) file.links.items) }

    // What is read is spelled so, and what is spelled so in either version is read back.
    ensures spelled { IfOk result (λ file. Spells bytes.now (contents_of file)) }
    ensures read_back { (f : Contents) → IsFile f → bytes.now ≡ file_bytes f → MatchResult result (λ file. contents_of file ≡ f) (λ e. e ≡ ImageError.Memory) }
    ensures plain_read_back { (code user_data : List ℕ) → IsImage code user_data → bytes.now ≡ image_bytes code user_data
        → MatchResult result (λ file. contents_of file ≡ plain code user_data) (λ e. e ≡ ImageError.Memory) }
{
    file_of(alloc, bytes)
}
