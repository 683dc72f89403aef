//! A listing as a text.
use crate::entry::{Entry, Listing};
use lab_writer::Writer;
use std::alloc::{AllocError, Global};

/// The head of a listing whose places are known.
const HEAD: &str = "address     word      instruction                      line  block  place\n";

/// The head of another.
const BARE_HEAD: &str = "address     word      instruction\n";

/// How wide the column of a line is.
const LINE: usize = 4;

// Appends the line of the statements whose block begins at a word.
fn push_statements(text: &mut Writer, first: u32, last: u32) {
    let (first, last) = (u64::from(first), u64::from(last));
    if first == last {
        text.push_numbers(&["; statement ", "\n"], &[first]);
    } else {
        text.push_numbers(&["; statements ", " to ", "\n"], &[first, last]);
    }
}

// Appends the lines that stand before a word: its labels, and the statements whose block begins there.
fn push_begin(text: &mut Writer, entry: &Entry) {
    for label in entry.labels.iter() {
        text.push_parts(&[label.as_str(), ":\n"]);
    }
    if let Some((first, behind)) = entry.statements {
        push_statements(text, first, behind.saturating_sub(1));
    }
}

// Appends a line's number in its column; nothing for 0.
fn push_line_number(text: &mut Writer, line: u32) {
    if line == 0 {
        text.push_blanks(LINE);
    } else {
        text.push_right(line as i128, LINE);
    }
}

// Appends an instruction in its column, with its line, its block and the words for its place, if there are any.
fn push_placed(text: &mut Writer, entry: &Entry, place: &str) {
    text.push_padded(&entry.text, 32);
    text.push(' ');
    push_line_number(text, entry.line);
    text.push(' ');
    text.push_columns(&[(u64::from(entry.block), 5)]);
    if !place.is_empty() {
        text.push_parts(&["  ", place]);
    }
}

// Appends the lines of a word, with what its place is where that is known.
fn push_entry(text: &mut Writer, entry: &Entry) {
    let Entry { address, word, .. } = entry;
    push_begin(text, entry);
    write!(text, "0x{address:08x}  {word:08x}  ");
    match entry.place {
        Some(place) => push_placed(text, entry, place.words()),
        None => text.push_str(&entry.text),
    }
    text.push('\n');
}

/// A listing as a text: a word a line, with its labels on lines before it.
pub fn listing_text(alloc: Global, listing: &Listing) -> Result<Vec<u8>, AllocError> {
    let mut text = Writer::new(alloc);
    text.push_str(if listing.has_places { HEAD } else { BARE_HEAD });
    for entry in listing.entries.iter() {
        push_entry(&mut text, entry);
    }
    text.into_bytes()
}
