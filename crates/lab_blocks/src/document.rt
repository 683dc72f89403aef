//! The blocks of a source as JSON.
use crate::facts::{Edge, Facts, Row, Successors, end_word};
use crate::registers::{CALLED, has_name};
use lab_json::{Document, Value};
use mx_io::Memory;
use mx_isa::Names;
use std::alloc::Global;

// Writes the names of a set.
fn write_names(document: &mut Document, key: &str, names: Names) {
    document.push_key(key);
    document.begin_list();
    for number in 1..CALLED.len() {
        if has_name(names, number) {
            document.push(Value::Text(CALLED[number]));
        }
    }
    document.end_list();
}

// Writes an instruction.
fn write_row(document: &mut Document, row: &Row) {
    document.begin_object();
    document.push_numbers(&[("line", u64::from(row.line))]);
    document.push_member("text", Value::Text(row.text.as_str()));
    write_names(document, "reads", row.inst.reads());
    write_names(document, "writes", row.inst.writes());
    document.push_numbers(&[("height", u64::from(row.height))]);
    document.end_object();
}

// Writes a dependence.
fn write_edge(document: &mut Document, edge: Edge) {
    document.push_record(&[
        ("from", Value::Number(edge.from as u64)),
        ("to", Value::Number(edge.to as u64)),
        ("kind", Value::Text(edge.kind.word())),
        ("weight", Value::Number(u64::from(edge.weight))),
    ]);
}

// Writes the labels of a block.
fn write_labels(document: &mut Document, labels: &[String]) {
    document.push_key("labels");
    document.begin_list();
    for label in labels {
        document.push(Value::Text(label.as_str()));
    }
    document.end_list();
}

// Writes where a block goes on.
fn write_successors(document: &mut Document, successors: Successors) {
    document.push_key("successors");
    document.begin_list();
    for block in &[successors.target, successors.next] {
        if let Some(block) = *block {
            document.push(Value::Number(u64::from(block)));
        }
    }
    document.end_list();
}

// Writes the instructions of a block and their dependences.
fn write_graph(document: &mut Document, facts: &Facts) {
    document.push_key("instructions");
    document.begin_list();
    for row in facts.rows.iter() {
        write_row(document, row);
    }
    document.end_list();
    document.push_key("dependences");
    document.begin_list();
    for edge in facts.edges.iter() {
        write_edge(document, *edge);
    }
    document.end_list();
}

// Writes a block.
fn write_block(document: &mut Document, number: u64, facts: &Facts) {
    let lengths = facts.lengths;
    document.begin_object();
    document.push_numbers(&[("block", number)]);
    write_labels(document, facts.labels.as_slice());
    write_graph(document, facts);
    document.push_member("end", Value::Text(end_word(facts.end)));
    write_successors(document, facts.successors);
    document.push_numbers(&[("bound", u64::from(facts.bound))]);
    let words = [
        ("padded", u64::from(lengths.padded)),
        ("list", u64::from(lengths.list)),
        ("copies", u64::from(lengths.list)),
        ("best", u64::from(lengths.best)),
    ];
    document.push_object("words", &words);
    document.push_numbers(&[("copied", facts.copied as u64), ("ran", facts.ran)]);
    document.end_object();
}

/// The blocks of a source as JSON, with the name of its file, and whether its run halted.
pub fn blocks_json(
    alloc: Global,
    source: &str,
    blocks: &[Facts],
    halted: bool,
) -> Result<Vec<u8>, Memory> {
    let mut document = Document::new(alloc);
    document.begin_object();
    document.push_member("command", Value::Text("blocks"));
    document.push_member("source", Value::Text(source));
    document.push_member("halted", Value::Flag(halted));
    document.push_key("blocks");
    document.begin_list();
    let mut number = 0u64;
    for facts in blocks {
        number = number.saturating_add(1);
        write_block(&mut document, number, facts);
    }
    document.end_list();
    document.end_object();
    document.into_bytes()
}
