//! A listing as JSON.
use crate::entry::{Entry, Listing};
use lab_json::{Document, Value};
use lab_terms::Place;
use mx_io::Memory;
use std::alloc::Global;

// Writes the labels of a word.
fn write_labels(document: &mut Document, labels: &[String]) {
    document.push_key("labels");
    document.begin_list();
    for label in labels {
        document.push(Value::Text(label.as_str()));
    }
    document.end_list();
}

// Writes the statements whose block begins at a word, if there are any.
fn write_statements(document: &mut Document, statements: Option<(u32, u32)>) {
    if let Some((first, behind)) = statements {
        let ends = [("first", u64::from(first)), ("behind", u64::from(behind))];
        document.push_object("statements", &ends);
    }
}

// Writes what the place of a word is.
fn write_place(document: &mut Document, entry: &Entry, place: Place) {
    let numbers = [
        ("line", u64::from(entry.line)),
        ("block", u64::from(entry.block)),
        ("slot", u64::from(place.slot())),
    ];
    document.push_key("place");
    document.begin_object();
    document.push_member("kind", Value::Text(place.kind()));
    document.push_numbers(&numbers);
    document.push_member("why", Value::Text(place.why()));
    document.end_object();
}

// Writes a word with what is told of it.
fn write_entry(document: &mut Document, entry: &Entry) {
    let (address, word) = (u64::from(entry.address), u64::from(entry.word));
    document.begin_object();
    document.push_numbers(&[("address", address), ("word", word)]);
    document.push_member("text", Value::Text(entry.text.as_str()));
    write_labels(document, entry.labels.as_slice());
    write_statements(document, entry.statements);
    if let Some(place) = entry.place {
        write_place(document, entry, place);
    }
    document.end_object();
}

/// A listing as JSON, with the name of its file.
pub fn listing_json(alloc: Global, file: &str, listing: &Listing) -> Result<Vec<u8>, Memory> {
    let mut document = Document::new(alloc);
    document.begin_object();
    document.push_member("command", Value::Text("disassemble"));
    document.push_member("file", Value::Text(file));
    document.push_key("words");
    document.begin_list();
    for entry in listing.entries.iter() {
        write_entry(&mut document, entry);
    }
    document.end_list();
    document.end_object();
    document.into_bytes()
}
