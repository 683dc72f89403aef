//! The words of an image file.
use crate::entry::{Entry, Listing, behind_those_at};
use indexmap::IndexMap;
use lab_words::PlaceNames;
use mx_image::ImageFile;
use mx_isa::CODE_BASE;
use std::alloc::{AllocError, Global};

/// How many links an image file has at most: one for each statement, and one behind the last.
const MOST_LINKS: usize = 20_001;

// The statements from one to another, if there is one.
fn statements_between(first: usize, behind: usize) -> Option<(u32, u32)> {
    if first < behind {
        Some((first.min(MOST_LINKS) as u32, behind.min(MOST_LINKS) as u32))
    } else {
        None
    }
}

// A word, with the statements whose block begins at it.
fn entry_at(
    alloc: Global,
    names: &PlaceNames,
    address: u32,
    word: u32,
    statements: Option<(u32, u32)>,
) -> Result<Entry, AllocError> {
    let mut entry = Entry::of_word(alloc, names, None, address, word)?;
    entry.statements = statements;
    Ok(entry)
}

// The words of a code, of which these are the addresses of its statements.
fn entries_of(
    alloc: Global,
    names: &PlaceNames,
    code: &[u32],
    links: &[u32],
) -> Result<Vec<Entry>, AllocError> {
    let mut entries = Vec::new(alloc);
    let (mut address, mut begun) = (CODE_BASE, 0usize);
    for word in code {
        let next = behind_those_at(links, begun, address);
        let statements = statements_between(begun, next);
        entries.push(entry_at(alloc, names, address, *word, statements)?)?;
        begun = next;
        address = address.saturating_add(1);
    }
    Ok(entries)
}

// The words of an image file, of whose places these are the names.
fn listing_of(alloc: Global, names: &PlaceNames, file: &ImageFile) -> Result<Listing, AllocError> {
    let entries = entries_of(alloc, names, &file.image.code, &file.links)?;
    Ok(Listing {
        entries,
        has_places: false,
    })
}

/// The words of the code of an image file, in assembly language, each with the statements whose block begins at it, where the
/// file has links.
pub fn image_listing(alloc: Global, file: &ImageFile) -> Result<Listing, AllocError> {
    let labels = IndexMap::new(alloc);
    let names = PlaceNames::of_labels(alloc, &labels, 0, &[], 0)?;
    listing_of(alloc, &names, file)
}
