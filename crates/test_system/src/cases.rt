//! The cases, one after the other.
use crate::report::{read_line, write_line};
use anyhow::Result;
use cmd_answer::command_words;
use mx_io::{MAX_FILE_BYTES, Shelf};
use std::alloc::Global;

/// How many bytes are written: more than four buffers of 4,096 bytes, and no whole number of them.
const WRITTEN_BYTES: u32 = 20_000;

/// The bytes that are written repeat after so many.
const PERIOD: u32 = 251;

/// A file of the system that comes in pieces which are shorter than a buffer: a memory map of this process with its numbers.
const IN_PIECES: &str = "/proc/self/smaps";

/// How many bytes a file in one piece has at most.
const ONE_PIECE: usize = 4096;

// What the program's words are: one of them is not UTF-8.
fn words_line(rt: &HostRuntime) -> Result<String> {
    let alloc = rt.alloc();
    match command_words(rt) {
        Ok(words) => {
            let count = words.len();
            Ok(format!(in alloc; "words: {count}\n")?)
        }
        Err(number) => Ok(format!(in alloc; "words: status {number}\n")?),
    }
}

// The bytes that are written.
fn written_bytes(alloc: Global) -> Result<Vec<u8>> {
    let mut bytes = Vec::new(alloc);
    for at in 0..WRITTEN_BYTES {
        bytes.push((at % PERIOD) as u8)?;
    }
    Ok(bytes)
}

// In how many pieces so many bytes come, where a piece fills a buffer.
fn pieces_text(bytes: &[u8]) -> &'static str {
    if bytes.len() > ONE_PIECE {
        "more than one piece"
    } else {
        "one piece"
    }
}

// Whether a file that comes in pieces came whole. What it holds is another thing each time.
fn pieces_line<S: Shelf>(alloc: Global, shelf: &mut S) -> Result<String> {
    let told = match shelf.read(alloc, IN_PIECES, MAX_FILE_BYTES) {
        Ok(bytes) => pieces_text(bytes.as_slice()),
        Err(_fault) => "a fault",
    };
    Ok(format!(in alloc; "a file in pieces: {told}\n")?)
}

/// What became of each read and write.
pub fn told<S: Shelf>(rt: &HostRuntime, shelf: &mut S) -> Result<String> {
    let alloc = rt.alloc();
    let mut text = words_line(rt)?;
    text.push_str(read_line(alloc, shelf, "long", MAX_FILE_BYTES)?.as_str())?;
    text.push_str(read_line(alloc, shelf, "long", 10_000)?.as_str())?;
    text.push_str(read_line(alloc, shelf, "long", 9_999)?.as_str())?;
    text.push_str(read_line(alloc, shelf, "empty", MAX_FILE_BYTES)?.as_str())?;
    text.push_str(read_line(alloc, shelf, "missing", MAX_FILE_BYTES)?.as_str())?;
    text.push_str(read_line(alloc, shelf, ".", MAX_FILE_BYTES)?.as_str())?;
    text.push_str(read_line(alloc, shelf, "/dev/stdin", MAX_FILE_BYTES)?.as_str())?;
    text.push_str(pieces_line(alloc, shelf)?.as_str())?;
    let bytes = written_bytes(alloc)?;
    text.push_str(write_line(alloc, shelf, "written", bytes.as_slice())?.as_str())?;
    text.push_str(read_line(alloc, shelf, "written", MAX_FILE_BYTES)?.as_str())?;
    text.push_str(write_line(alloc, shelf, "missing/written", bytes.as_slice())?.as_str())?;
    Ok(text)
}
