//! Commands over files in memory.
use anyhow::{Context, Result};
use mx_command::{Status, command};
use mx_io::{MemoryShelf, MemorySink, Shelf};
use std::alloc::Global;
use std::fs;
use test_case_files::words_of;

/// How many bytes the sink takes at most in one put.
const PIECE: usize = 64;

/// The most bytes that a case prints.
const ROOM: usize = 1_048_576;

/// The most bytes of a file that are read back.
const LIMIT: usize = 2_097_152;

/// A file that a case begins with.
#[derive(Drop)]
struct File {
    name: String,
    bytes: Vec<u8>,
}

/// A command, the files that are there when it begins, and what it prints.
#[derive(Drop)]
pub struct Case {
    words: Vec<String>,
    files: Vec<File>,
    shelf: MemoryShelf,
    output: MemorySink,
}

impl Case {
    /// The words of a command, and no file.
    pub fn new(alloc: Global, line: &str) -> Result<Case> {
        let words = words_of(alloc, line)?;
        Ok(Case {
            words,
            files: Vec::new(alloc),
            shelf: MemoryShelf::new(alloc),
            output: MemorySink::new(alloc, PIECE, ROOM)?,
        })
    }

    /// The words of a command, and the stored files that they name.
    pub fn stored(rt: &HostRuntime, line: &str) -> Result<Case> {
        let mut case = Case::new(rt.alloc(), line)?;
        for word in line.split(" ") {
            case.add_stored(rt, word)?;
        }
        Ok(case)
    }

    /// The same of words between a front and a back.
    pub fn stored_between(rt: &HostRuntime, front: &str, words: &str, back: &str) -> Result<Case> {
        let line = format!(in rt.alloc(); "{front} {words} {back}")?;
        Case::stored(rt, line.as_str())
    }

    fn add_stored(&mut self, rt: &HostRuntime, name: &str) -> Result<()> {
        match stored(rt, name)? {
            Some(bytes) => self.add(rt.alloc(), name, bytes),
            None => Ok(()),
        }
    }

    /// Makes a name hold the bytes when the command begins.
    pub fn add(&mut self, alloc: Global, name: &str, bytes: Vec<u8>) -> Result<()> {
        self.shelf.add(name, bytes.as_slice())?;
        let name = String::from_str(alloc, name)?;
        self.files.push(File { name, bytes })?;
        Ok(())
    }

    /// The bytes of the file that was added with this number, from 0 on.
    pub fn file(&self, number: usize) -> Result<&[u8]> {
        let file = self.files.get(number).context("no such file")?;
        Ok(file.bytes.as_slice())
    }

    /// Lets a read or write fail, the first of them as 1.
    pub fn fail_at(&mut self, call: u64) -> Result<()> {
        self.shelf.fail_at(call)?;
        Ok(())
    }

    /// Lets the command print into this sink.
    pub fn print_into(&mut self, output: MemorySink) {
        self.output = output;
    }

    /// Runs the command.
    pub fn run(&mut self, alloc: Global) -> Status {
        command(
            alloc,
            self.words.as_slice(),
            &mut self.shelf,
            &mut self.output,
        )
    }

    /// What was printed.
    pub fn printed(&self) -> &[u8] {
        self.output.written()
    }

    /// The same as a text.
    pub fn text(&self) -> Result<&str> {
        let text = str::from_utf8(self.output.written())?;
        Ok(text)
    }

    /// Runs the command, for the text that it prints.
    pub fn run_for_text(&mut self, alloc: Global) -> Result<&str> {
        self.run(alloc);
        self.text()
    }

    /// Runs the command, for its exit status and the first line that it prints.
    pub fn beginning(&mut self, alloc: Global) -> Result<String> {
        let status = self.run(alloc).number();
        let first = self.text()?.lines().next().context("no line")?;
        Ok(format!(in alloc; "{status} {first}")?)
    }

    /// Each file holds what it held when the command began.
    pub fn keeps_files(&mut self, alloc: Global) -> Result<bool> {
        for file in self.files.iter() {
            let now = held(alloc, &mut self.shelf, file.name.as_str())?;
            if now.as_slice() != file.bytes.as_slice() {
                return Ok(false);
            }
        }
        Ok(true)
    }

    /// What the last name of the command holds, which is the file that a command writes.
    pub fn written(&mut self, alloc: Global) -> Result<Vec<u8>> {
        let name = self.words.last().context("no word")?;
        let bytes = self.shelf.read(alloc, name.as_str(), LIMIT)?;
        Ok(bytes)
    }
}

/// What a name holds at the end. A read that was to fail may be this one, where the command made fewer: it is made again.
fn held(alloc: Global, shelf: &mut MemoryShelf, name: &str) -> Result<Vec<u8>> {
    if let Ok(bytes) = shelf.read(alloc, name, LIMIT) {
        return Ok(bytes);
    }
    let bytes = shelf.read(alloc, name, LIMIT)?;
    Ok(bytes)
}

/// The bytes that a text spells in hexadecimal, between blanks and line ends.
pub fn bytes_of(alloc: Global, text: &str) -> Result<Vec<u8>> {
    let mut digits = String::new(alloc);
    for word in text.split_whitespace() {
        digits.push_str(word)?;
    }
    let bytes = hex::decode(alloc, digits)?;
    Ok(bytes)
}

/// The bytes that a file spells in hexadecimal, where it is there.
pub fn spelled(rt: &HostRuntime, path: String) -> Result<Option<Vec<u8>>> {
    let Ok(text) = fs::read_to_string(rt, path) else {
        return Ok(None);
    };
    let bytes = bytes_of(rt.alloc(), text.as_str())?;
    Ok(Some(bytes))
}

/// The bytes of `files/NAME`, or those that `files/NAME.hex` spells, where one of these is there.
pub fn stored(rt: &HostRuntime, name: &str) -> Result<Option<Vec<u8>>> {
    match test_case_files::stored(rt, name)? {
        Some(bytes) => Ok(Some(bytes)),
        None => spelled(rt, format!(in rt.alloc(); "files/{name}.hex")?),
    }
}

/// The bytes of a stored file that has to be there.
pub fn needed(rt: &HostRuntime, name: &str) -> Result<Vec<u8>> {
    stored(rt, name)?.context("no such file")
}
