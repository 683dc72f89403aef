//! Image files of both versions.
use crate::same::same;
use mx_image::{ImageError, read_file, read_image, write_file, write_image};
use std::alloc::{AllocError, Global};
use std::test::Fail;

// An image of three words and no data, in version 1.
static HELLO: [u8; 28] = [
    0x4d, 0x58, 0x49, 0x4d, 0, 0, 0, 1, 0, 0, 0, 3, 0, 0, 0, 0, 0xc0, 0x02, 0x00, 0x48, 0x88, 0x02,
    0x00, 0xff, 0xe0, 0x00, 0x00, 0x00,
];

/// These bytes and a 0.
fn longer(alloc: Global, bytes: &[u8]) -> Result<Vec<u8>, AllocError> {
    let mut longer = Vec::from_slice(alloc, bytes)?;
    longer.push(0)?;
    Ok(longer)
}

/// Whether the image is read with its words.
fn reads_words(alloc: Global) -> Result<[bool; 2], Fail> {
    let image = read_image(alloc, &HELLO)?;
    let code = [0xc002_0048, 0x8802_00ff, 0xe000_0000];
    Ok([
        image.code.as_slice() == code.as_slice(),
        image.user_data.is_empty(),
    ])
}

/// The image as it is read and written.
fn rewritten(alloc: Global) -> Result<Vec<u8>, Fail> {
    let image = read_image(alloc, &HELLO)?;
    Ok(write_image(alloc, &image)?)
}

#[test]
fn reads_and_writes_version_1(rt: HostRuntime) -> Result<(), Fail> {
    same(&rt, &reads_words(rt.alloc())?, &[true; 2]);
    same(&rt, &rewritten(rt.alloc())?.as_slice(), &HELLO.as_slice());
    Ok(())
}

#[test]
fn a_cut_image_is_refused(rt: HostRuntime) {
    for n in 0..28 {
        let fault = read_image(rt.alloc(), &HELLO[..n]).err();
        same(&rt, &fault, &Some(ImageError::Truncated { at: n as u64 }));
    }
}

#[test]
fn one_byte_more_is_refused_in_version_1(rt: HostRuntime) -> Result<(), Fail> {
    let longer = longer(rt.alloc(), &HELLO)?;
    let fault = read_image(rt.alloc(), &longer).err();
    same(&rt, &fault, &Some(ImageError::Trailing { at: 28 }));
    Ok(())
}

/// The file of the image in version 2.
fn version_2(alloc: Global) -> Result<Vec<u8>, Fail> {
    let plain = read_file(alloc, &HELLO)?;
    Ok(write_file(alloc, &plain)?)
}

/// Whether a file has the image, without input and links.
fn has_image(alloc: Global, bytes: &[u8]) -> Result<[bool; 2], Fail> {
    let plain = read_file(alloc, &HELLO)?;
    let again = read_file(alloc, bytes)?;
    Ok([again == plain, !plain.input && plain.links.is_empty()])
}

/// How long the file is in version 2, and whether it has the image.
fn rewritten_2(alloc: Global) -> Result<(usize, [bool; 2]), Fail> {
    let bytes = version_2(alloc)?;
    Ok((bytes.len(), has_image(alloc, &bytes)?))
}

#[test]
fn reads_and_writes_version_2(rt: HostRuntime) -> Result<(), Fail> {
    same(&rt, &rewritten_2(rt.alloc())?, &(36, [true; 2]));
    Ok(())
}

/// The file of the image in version 2, and a 0.
fn longer_2(alloc: Global) -> Result<Vec<u8>, Fail> {
    let bytes = version_2(alloc)?;
    Ok(longer(alloc, &bytes)?)
}

/// The fault of that, if it has one.
fn fault_of_longer_2(alloc: Global) -> Result<Option<ImageError>, Fail> {
    let longer = longer_2(alloc)?;
    Ok(read_file(alloc, &longer).err())
}

#[test]
fn one_byte_more_is_refused_in_version_2(rt: HostRuntime) -> Result<(), Fail> {
    let fault = fault_of_longer_2(rt.alloc())?;
    same(&rt, &fault, &Some(ImageError::Trailing { at: 36 }));
    Ok(())
}
