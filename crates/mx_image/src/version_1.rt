//! Version 1, an image alone: `MXIM`, then the version, the numbers of code and data words, and these words.
ghost use Rattle.std.specs.Prelude.{◌≡◌, ◌≤◌, ◌+◌, ◌*◌, ◌⊎◌, ℕ, List, length, drop, Some, None, IfOk, OnOk, MatchResult};
ghost use Rattle.mx_isa.specs.declared.board.TheConstants.{MAX_CODE_WORDS, MAX_DATA_WORDS};
ghost use Rattle.mx_image.specs.Bytes.{number_at, numbers};
ghost use Rattle.mx_image.specs.Sizes.{SizesOf1};
ghost use Rattle.mx_image.specs.Contents.{IsImage};
ghost use Rattle.mx_image.specs.Reads.{ReadsImage};
ghost use Rattle.mx_image.specs.Files.{magic, image_bytes, image_in, refusal_1, image_refusal};

use crate::ImageError;
use crate::fields::{MAGIC, Sizes, check_head, check_long, check_short, field};
use crate::words::{number_at, push_words, words_at};
use mx_code::Image;
use mx_io::Memory;
use mx_isa::{MAX_CODE_WORDS, MAX_DATA_WORDS};
use std::alloc::{AllocError, Global};

/// The sizes that version 1 gives.
fn sizes_1(bytes: &[u8]) -> Result<Sizes, ImageError>
    ensures { MatchResult result (SizesOf1 bytes.now) (λ e. refusal_1 bytes.now ≡ Some e) }
{
    let code = field(bytes, 8, MAX_CODE_WORDS as u32)?;
    let user_data = field(bytes, 12, MAX_DATA_WORDS as u32)?;
    let end = 16 + 4 * (code + user_data);
    check_short(bytes, end)?;
    check_long(bytes, end)?;
    Ok(Sizes {
        code,
        user_data,
        links: 0,
    })
}

/// The image of the words from an offset on.
pub fn image_at(alloc: Global, bytes: &[u8], at: usize, sizes: Sizes) -> Result<Image, AllocError>
    requires code { sizes.code ≤ MAX_CODE_WORDS }
    requires user_data { sizes.user_data ≤ MAX_DATA_WORDS }
    requires whole { at + 4 * (sizes.code + sizes.user_data) ≤ length bytes.now }
    ensures code { IfOk result (λ image. image.code.items ≡ numbers sizes.code (drop at bytes.now)) }
    ensures user_data { IfOk result (λ image. image.user_data.items ≡ numbers sizes.user_data (drop (at + 4 * sizes.code) bytes.now)) }
{
    let code = words_at(alloc, bytes, at, sizes.code)?;
    let user_data = words_at(alloc, bytes, at + 4 * sizes.code, sizes.user_data)?;
    Ok(Image { code, user_data })
}

/// The image of bytes in version 1, after the version.
pub fn read_1(alloc: Global, bytes: &[u8]) -> Result<Image, ImageError>
    ensures { MatchResult result
        (λ image. (refusal_1 bytes.now ≡ None) × (image.code.items ≡ (image_in bytes.now).code) × (image.user_data.items ≡ (image_in bytes.now).user_data))
        (λ e. (e ≡ ImageError.Memory) ⊎ (refusal_1 bytes.now ≡ Some e)) }
{
    let sizes = sizes_1(bytes)?;
    Ok(image_at(alloc, bytes, 16, sizes)?)
}

/// Adds what stands behind the magic.
fn push_image(out: &mut Vec<u8>, image: &Image) -> Result<(), AllocError>
    requires { out.old.items ≡ magic }
    ensures { OnOk result (out.new.items ≡ image_bytes image.now.code.items image.now.user_data.items) }
{
    let head = [1, image.code.len() as u32, image.user_data.len() as u32];
    push_words(out, &head)?;
    push_words(out, &image.code)?;
    push_words(out, &image.user_data)
}

/// The bytes of an image.
fn image_words(alloc: Global, image: &Image) -> Result<Vec<u8>, AllocError>
    ensures { IfOk result (λ bytes. bytes.items ≡ image_bytes image.now.code.items image.now.user_data.items) }
{
    let mut out = Vec::from_slice(alloc, &MAGIC)?;
    push_image(&mut out, image)?;
    Ok(out)
}

/// The bytes of an image in version 1.
pub fn write_image(alloc: Global, image: &Image) -> Result<Vec<u8>, Memory>
    ensures { IfOk result (λ bytes. bytes.items ≡ image_bytes image.now.code.items image.now.user_data.items) }
{
    image_words(alloc, image).map_err(|_| Memory)
}

/// The image of bytes in version 1, or their first refusal, or Memory.
fn image_of(alloc: Global, bytes: &[u8]) -> Result<Image, ImageError>
    ensures { ReadsImage bytes.now result }
{
    check_head(bytes)?;
    if number_at(bytes, 4) != 1 {
        return Err(ImageError::BadRange { at: 4 });
    }
    read_1(alloc, bytes)
}

/// The image of bytes in version 1. The answer is the first refusal that holds of the bytes, or the image, or Memory.
pub fn read_image(alloc: Global, bytes: &[u8]) -> Result<Image, ImageError>
    ensures answer { ReadsImage bytes.now result }

    // What is read is spelled so, and what is spelled so is read back.
    ensures spelled { IfOk result (λ image. bytes.now ≡ image_bytes image.code.items image.user_data.items) }
    ensures read_back { (code user_data : List ℕ) → IsImage code user_data → bytes.now ≡ image_bytes code user_data
        → MatchResult result (λ image. (image.code.items ≡ code) × (image.user_data.items ≡ user_data)) (λ e. e ≡ ImageError.Memory) }
{
    image_of(alloc, bytes)
}
