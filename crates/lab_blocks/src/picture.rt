//! The blocks of a source as a graph in the DOT language.
use crate::facts::{Facts, NOT_HALTED, Row};
use crate::text::push_ran;
use lab_writer::Writer;
use std::alloc::{AllocError, Global};

// Appends the name of a node: its block and its number there.
fn push_node(text: &mut Writer, block: u64, k: u64) {
    text.push_numbers(&["b", "_", ""], &[block, k]);
}

// Appends the node of an instruction.
fn push_row(text: &mut Writer, block: u64, k: u64, row: &Row) {
    text.push_str("    ");
    push_node(text, block, k);
    text.push_numbers(&[" [label=\"", ": "], &[k]);
    text.push_parts(&[row.text.as_str(), "\"];\n"]);
}

// Appends the edges of a block's dependences.
fn push_edges(text: &mut Writer, block: u64, facts: &Facts) {
    for edge in facts.edges.iter() {
        text.push_str("    ");
        push_node(text, block, edge.from as u64);
        text.push_str(" -> ");
        push_node(text, block, edge.to as u64);
        text.push_parts(&[" [label=\"", edge.kind.word(), " "]);
        text.push_numbers(&["", "\"];\n"], &[u64::from(edge.weight)]);
    }
}

// Appends a dashed edge from the last instruction of a block to the first of another one.
fn push_way(text: &mut Writer, block: u64, facts: &Facts, to: Option<u32>) {
    if let Some(to) = to {
        text.push_str("  ");
        push_node(text, block, facts.rows.len().saturating_sub(1) as u64);
        text.push_str(" -> ");
        push_node(text, u64::from(to), 0);
        text.push_str(" [style=dashed];\n");
    }
}

// Appends a block.
fn push_block(text: &mut Writer, block: u64, facts: &Facts) {
    let (line, _) = facts.lines();
    let bound = u64::from(facts.bound);
    text.push_numbers(
        &["  subgraph cluster_", " {\n    label=\"block "],
        &[block, block],
    );
    text.push_numbers(&[", line ", ": bound "], &[u64::from(line), bound]);
    push_ran(text, facts.ran);
    text.push_str("\";\n");
    let mut k = 0u64;
    for row in facts.rows.iter() {
        push_row(text, block, k, row);
        k = k.saturating_add(1);
    }
    push_edges(text, block, facts);
    text.push_str("  }\n");
    push_way(text, block, facts, facts.successors.target);
    push_way(text, block, facts, facts.successors.next);
}

/// The blocks of a source as a graph in the DOT language: a box for each block with its dependences, and dashed edges where a block
/// goes on. The graph has a label where the run has not halted.
pub fn blocks_dot(alloc: Global, blocks: &[Facts], halted: bool) -> Result<Vec<u8>, AllocError> {
    let mut text = Writer::new(alloc);
    text.push_str("digraph blocks {\n  node [shape=box, fontname=monospace];\n");
    let mut number = 0u64;
    for facts in blocks {
        number = number.saturating_add(1);
        push_block(&mut text, number, facts);
    }
    if !halted {
        text.push_parts(&["  label=\"", NOT_HALTED, "\";\n"]);
    }
    text.push_str("}\n");
    text.into_bytes()
}
