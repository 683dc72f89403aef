//! What is told of a word.
use lab_terms::Place;
use lab_words::{PlaceNames, word_text};
use std::alloc::{AllocError, Global};

/// A word of a code, with what is told of it.
#[derive(Drop)]
pub struct Entry {
    pub address: u32,
    pub word: u32,
    /// The word in assembly language; `.word` and its number where it spells no instruction.
    pub text: String,
    /// The code labels at this address.
    pub labels: Vec<String>,
    /// The statements, counted from 0, whose block begins at this address: the first, and the one behind the last.
    pub statements: Option<(u32, u32)>,
    /// The line of the statement that the word comes from; 0 where none is known.
    pub line: u32,
    /// The number of its block, counted from 1; 0 where none is known.
    pub block: u32,
    /// What the place is, where it is known.
    pub place: Option<Place>,
}

/// The words of a code.
#[derive(Drop)]
pub struct Listing {
    pub entries: Vec<Entry>,
    /// Whether lines, blocks and places are known.
    pub has_places: bool,
}

/// The statement behind those whose block begins at an address, where these are the addresses of the statements, and the first
/// that is asked for stands at an index.
pub(crate) fn behind_those_at(links: &[u32], first: usize, address: u32) -> usize {
    for at in first..links.len() {
        if links[at] != address {
            return at;
        }
    }
    links.len()
}

impl Entry {
    /// What is told of a word at an address by itself, with the aim of its statement where that is known.
    pub(crate) fn of_word(
        alloc: Global,
        names: &PlaceNames,
        aim: Option<u32>,
        address: u32,
        word: u32,
    ) -> Result<Entry, AllocError> {
        let text = word_text(alloc, names, aim, address, word)?;
        Ok(Entry {
            address,
            word,
            text,
            labels: Vec::new(alloc),
            statements: None,
            line: 0,
            block: 0,
            place: None,
        })
    }
}
