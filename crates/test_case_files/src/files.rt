//! What is stored beside the cases: files that commands read, and what has to be printed.
use anyhow::Result;
use mx_io::MemoryShelf;
use std::alloc::Global;
use std::fs;

/// The words of a line, between single spaces. Of an empty line there are none.
pub fn words_of(alloc: Global, line: &str) -> Result<Vec<String>> {
    let mut words = Vec::new(alloc);
    for word in line.split(" ") {
        if !word.is_empty() {
            words.push(String::from_str(alloc, word)?)?;
        }
    }
    Ok(words)
}

/// The bytes of `files/NAME`, where that is there.
pub fn stored(rt: &HostRuntime, name: &str) -> Result<Option<Vec<u8>>> {
    let path = format!(in rt.alloc(); "files/{name}")?;
    Ok(fs::read(rt, path).ok())
}

/// A shelf with the stored files that the words of a line name.
pub fn stored_shelf(rt: &HostRuntime, line: &str) -> Result<MemoryShelf> {
    let mut shelf = MemoryShelf::new(rt.alloc());
    for word in line.split(" ") {
        add_stored(rt, &mut shelf, word)?;
    }
    Ok(shelf)
}

fn add_stored(rt: &HostRuntime, shelf: &mut MemoryShelf, name: &str) -> Result<()> {
    if let Some(bytes) = stored(rt, name)? {
        shelf.add(name, bytes.as_slice())?;
    }
    Ok(())
}

/// The bytes of `wanted/NAME`.
pub fn wanted(rt: &HostRuntime, name: &str) -> Result<Vec<u8>> {
    let bytes = fs::read(rt, wanted_path(rt.alloc(), name)?)?;
    Ok(bytes)
}

/// The text of `wanted/NAME`.
pub fn wanted_text(rt: &HostRuntime, name: &str) -> Result<String> {
    let text = fs::read_to_string(rt, wanted_path(rt.alloc(), name)?)?;
    Ok(text)
}

fn wanted_path(alloc: Global, name: &str) -> Result<String> {
    Ok(format!(in alloc; "wanted/{name}")?)
}
