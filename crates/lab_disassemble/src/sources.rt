//! The words of a linked source.
use crate::entry::{Entry, Listing, behind_those_at};
use lab_terms::{Place, place_at};
use lab_words::{NamedPlace, PlaceNames};
use mx_isa::CODE_BASE;
use mx_link::Linked;
use mx_source::Source;
use std::alloc::{AllocError, Global};

// The code labels, by their addresses: the address and the number of a label, in order.
fn code_labels(alloc: Global, names: &PlaceNames) -> Result<Vec<(u32, usize)>, AllocError> {
    let mut labels = Vec::new(alloc);
    for (index, place) in names.places().iter().enumerate() {
        if let NamedPlace::Code(address) = place {
            labels.push((*address, index))?;
        }
    }
    labels.sort()?;
    Ok(labels)
}

// A name as a text. It is ASCII.
fn name_text(alloc: Global, name: &[u8]) -> Result<String, AllocError> {
    String::from_str(alloc, str::from_utf8(name).unwrap_or("?"))
}

// The labels of an address, of those from an index on.
fn labels_at(
    alloc: Global,
    names: &PlaceNames,
    labels: &[(u32, usize)],
    told: usize,
    address: u32,
) -> Result<Vec<String>, AllocError> {
    let mut texts = Vec::new(alloc);
    for at in told..labels.len() {
        let (labelled, index) = labels[at];
        if labelled != address {
            break;
        }
        texts.push(name_text(alloc, names.name(index))?)?;
    }
    Ok(texts)
}

// The line of the statement that the word at a place comes from, where one is known.
fn line_at(lines: &[u32], place: Option<Place>) -> Option<u32> {
    let statement = place?.statement()?;
    lines.get(statement as usize).copied()
}

// Where the statement that the word at a place comes from goes, or of which place it makes the address.
fn aim_of(names: &PlaceNames, place: Option<Place>) -> Option<u32> {
    names.aim(place?.statement()?)
}

/// How far a source is listed.
#[derive(Clone, Copy)]
struct Progress {
    address: u32,
    /// How many labels are told.
    labels: usize,
    /// How many statements have begun, and in how many blocks.
    statements: usize,
    block: u32,
}

impl Progress {
    // The same with the statements that begin at the address.
    fn begin(self, links: &[u32]) -> Progress {
        let statements = behind_those_at(links, self.statements, self.address);
        let begins = u32::from(statements > self.statements);
        Progress {
            statements,
            block: self.block.saturating_add(begins),
            ..self
        }
    }

    // The same behind the word of the address, which has so many labels.
    fn next(self, labels: usize) -> Progress {
        Progress {
            address: self.address.saturating_add(1),
            labels: self.labels.saturating_add(labels),
            ..self
        }
    }
}

// A word at an address, with its labels.
fn labelled_word(
    alloc: Global,
    names: &PlaceNames,
    labels: &[(u32, usize)],
    progress: Progress,
    aim: Option<u32>,
    word: u32,
) -> Result<Entry, AllocError> {
    let address = progress.address;
    let texts = labels_at(alloc, names, labels, progress.labels, address)?;
    let mut entry = Entry::of_word(alloc, names, aim, address, word)?;
    entry.labels = texts;
    Ok(entry)
}

// Sets what is known of the place of a word.
fn set_place(entry: &mut Entry, lines: &[u32], block: u32, place: Option<Place>) {
    entry.line = line_at(lines, place).unwrap_or(0);
    entry.block = block;
    entry.place = place;
}

// The words of a linked source, with the names of its places and these labels.
fn labelled_entries(
    alloc: Global,
    source: &Source,
    linked: &Linked,
    names: &PlaceNames,
    labels: &[(u32, usize)],
) -> Result<Vec<Entry>, AllocError> {
    let (code, origin) = (linked.image.code.as_slice(), linked.origin.as_slice());
    let mut progress = Progress {
        address: CODE_BASE,
        labels: 0,
        statements: 0,
        block: 0,
    };
    let mut entries = Vec::new(alloc);
    for at in 0..code.len() {
        progress = progress.begin(linked.links.as_slice());
        let place = place_at(source.statements(), origin, at);
        let aim = aim_of(names, place);
        let mut entry = labelled_word(alloc, names, labels, progress, aim, code[at])?;
        set_place(&mut entry, source.lines(), progress.block, place);
        progress = progress.next(entry.labels.len());
        entries.push(entry)?;
    }
    Ok(entries)
}

// The words of a linked source, with the names of its places.
fn entries_of(
    alloc: Global,
    source: &Source,
    linked: &Linked,
    names: &PlaceNames,
) -> Result<Vec<Entry>, AllocError> {
    let labels = code_labels(alloc, names)?;
    labelled_entries(alloc, source, linked, names, labels.as_slice())
}

/// The words of a source that is linked, in assembly language, each with its labels, its line, its block and what its place is.
pub fn source_listing(
    alloc: Global,
    source: &Source,
    linked: &Linked,
) -> Result<Listing, AllocError> {
    let names = PlaceNames::new(
        alloc,
        source,
        linked.links.as_slice(),
        linked.image.code.len(),
    )?;
    let entries = entries_of(alloc, source, linked, &names)?;
    Ok(Listing {
        entries,
        has_places: true,
    })
}
