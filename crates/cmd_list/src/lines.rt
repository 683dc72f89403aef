//! The lines of a listing.
ghost use Rattle.std.specs.Prelude.{◌≡◌, ◌≤◌, ◌+◌, ◌<◌, ◌++◌, OnOk, IfOk, length, slice_index, slice_index_or};
ghost use Rattle.mx_source.specs.Names.{name_bytes, named_labels};
ghost use Rattle.mx_text.specs.Text.{line};
ghost use Rattle.cmd_list.specs.Listing.{listed_line, kind_text, handler_lines, code_lines, label_line, label_lines, counts_text, listing_text, linked_parts};

use indexmap::IndexMap;
use mx_io::Memory;
use mx_link::{Linked, Origin};
use mx_source::{Label, Name, Source};
use mx_text::{push_count, push_decimal, push_line, push_word};
use mx_turn::SHIPPED;
use std::alloc::{AllocError, Global};

// A number of a list, 0 past its end.
fn number_at(numbers: &[u32], index: u32) -> u32
    ensures { result ≡ slice_index numbers.now index }
{
    match numbers.get(index as usize) {
        Some(number) => *number,
        None => 0,
    }
}

// Where a code word comes from.
fn origin_at(origins: &[Origin], k: usize) -> Origin
    ensures { result ≡ slice_index_or origins.now k Origin.Pad }
{
    match origins.get(k) {
        Some(origin) => *origin,
        None => Origin::Pad,
    }
}

// Appends the line `ADDRESS WORD KIND`.
fn push_listed(text: &mut Vec<u8>, address: u32, word: u32, kind: &[u8]) -> Result<(), AllocError>
    ensures { OnOk result (text.new.items ≡ text.old.items ++ listed_line address word kind.now) }
{
    push_word(text, address)?;
    text.push(b' ')?;
    push_word(text, word)?;
    text.push(b' ')?;
    text.extend_from_slice(kind)?;
    text.push(b'\n')?;
    Ok(())
}

// Appends the lines of a handler's words.
fn push_handler(text: &mut Vec<u8>, words: &[u32]) -> Result<(), AllocError>
    requires { length words.now ≤ 4096 }
    ensures { OnOk result (text.new.items ≡ text.old.items ++ handler_lines words.now) }
{
    for a in 0..words.len() {
        push_listed(text, a as u32, words[a], b"h")?;
    }
    Ok(())
}

// Appends where a code word comes from: the lines of statements are given.
fn push_kind(
    alloc: Global,
    text: &mut Vec<u8>,
    lines: &[u32],
    origin: Origin,
) -> Result<(), AllocError>
    ensures { OnOk result (text.new.items ≡ text.old.items ++ kind_text lines.now origin) }
{
    match origin {
        Origin::Own(statement) => {
            push_decimal(alloc, text, u64::from(number_at(lines, statement)))
        }
        Origin::Copy(statement) => {
            text.push(b'+')?;
            push_decimal(alloc, text, u64::from(number_at(lines, statement)))
        }
        Origin::Pad => {
            text.push(b'-')?;
            Ok(())
        }
    }
}

// Appends the line of a code word.
fn push_code_word(
    alloc: Global,
    text: &mut Vec<u8>,
    lines: &[u32],
    address: u32,
    word: u32,
    origin: Origin,
) -> Result<(), AllocError>
    ensures { OnOk result (text.new.items ≡ text.old.items ++ listed_line address word (kind_text lines.now origin)) }
{
    let mut kind = Vec::new(alloc);
    push_kind(alloc, &mut kind, lines, origin)?;
    push_listed(text, address, word, kind.as_slice())
}

// Appends the lines of the code words.
fn push_code(
    alloc: Global,
    text: &mut Vec<u8>,
    lines: &[u32],
    code: &[u32],
    origins: &[Origin],
) -> Result<(), AllocError>
    requires { length code.now ≤ 60000 }
    ensures { OnOk result (text.new.items ≡ text.old.items ++ code_lines lines.now code.now origins.now) }
{
    for k in 0..code.len() {
        let origin = origin_at(origins, k);
        push_code_word(alloc, text, lines, 4096 + k as u32, code[k], origin)?;
    }
    Ok(())
}

// Appends the line of a code label; a data label has none.
fn push_label(
    text: &mut Vec<u8>,
    links: &[u32],
    name: &Name,
    label: &Label,
) -> Result<(), AllocError>
    ensures { OnOk result (text.new.items ≡ text.old.items ++ label_line links.now (name_bytes name.now) label.now) }
{
    match label {
        Label::Code(statement) => {
            text.extend_from_slice(name.bytes())?;
            text.push(b' ')?;
            push_word(text, number_at(links, *statement))?;
            text.push(b'\n')?;
            Ok(())
        }
        Label::Data(_) => Ok(()),
    }
}

// Appends the lines of the code labels, in their order.
fn push_labels(
    text: &mut Vec<u8>,
    links: &[u32],
    labels: &IndexMap<Name, Label>,
) -> Result<(), AllocError>
    ensures { OnOk result (text.new.items ≡ text.old.items ++ label_lines links.now (named_labels labels.now.entries)) }
{
    for i in 0..labels.len() {
        let Some((name, label)) = labels.get_index(i) else {
            unreachable!();
        };
        push_label(text, links, name, label)?;
    }
    Ok(())
}

// Appends the counts.
fn push_counts(alloc: Global, text: &mut Vec<u8>, linked: &Linked) -> Result<(), AllocError>
    ensures { OnOk result (text.new.items ≡ text.old.items ++ counts_text (linked_parts linked.now)) }
{
    push_count(alloc, text, "words", linked.image.code.len() as u64)?;
    push_count(alloc, text, "noops", u64::from(linked.noops))?;
    push_count(alloc, text, "copies", u64::from(linked.copies))?;
    push_count(alloc, text, "rejected", u64::from(linked.rejected))
}

// The whole listing.
#[tactic(auto, unfolding(crate::specs::Listing::listing_text))]
fn text_of(alloc: Global, source: &Source, linked: &Linked) -> Result<Vec<u8>, AllocError>
    ensures { IfOk result (λ text. text.items ≡ listing_text source.now (linked_parts linked.now)) }
{
    let mut text = Vec::new(alloc);
    push_handler(&mut text, SHIPPED.as_slice())?;
    push_code(
        alloc,
        &mut text,
        source.lines(),
        linked.image.code.as_slice(),
        linked.origin.as_slice(),
    )?;
    push_line(&mut text, "links")?;
    push_labels(&mut text, linked.links.as_slice(), source.labels())?;
    push_counts(alloc, &mut text, linked)?;
    Ok(text)
}

/// Lists a linked program of a source: the words of the shipped handler and of the code, each with its address and with where
/// it comes from, then the addresses of the code labels, and at last how many words, no-ops, copies and rejected proposals
/// there are.
///
/// # Errors
///
/// `Memory` where there is no room for the text.
pub fn listing(alloc: Global, source: &Source, linked: &Linked) -> Result<Vec<u8>, Memory>
    ensures { IfOk result (λ text. text.items ≡ listing_text source.now (linked_parts linked.now)) }
{
    match text_of(alloc, source, linked) {
        Ok(text) => Ok(text),
        Err(_) => Err(Memory),
    }
}
