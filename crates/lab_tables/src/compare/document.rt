//! Comparisons as JSON.
use super::schedulers::{SCHEDULERS, figures_at};
use super::several::{Column, Compared, Sums, sums_of};
use lab_json::{Document, Value};
use lab_measures::{Comparison, Figures};
use lab_terms::{Slots, TransferSlots};
use mx_io::Memory;
use std::alloc::Global;

// How many plans are rejected, how many words there are, and how many of them are the no-op or copies.
fn words_of(figures: &Figures) -> [(&'static str, u64); 4] {
    [
        ("rejected", u64::from(figures.rejected)),
        ("words", figures.words as u64),
        ("noops", u64::from(figures.noops)),
        ("copies", u64::from(figures.copies)),
    ]
}

// What stands in the slots behind transfers.
fn slots_of(slots: TransferSlots) -> [(&'static str, u64); 5] {
    [
        ("all", u64::from(slots.all())),
        ("before", u64::from(slots.before)),
        ("target_squashed", u64::from(slots.target_squashed)),
        ("target", u64::from(slots.target)),
        ("noops", u64::from(slots.noops)),
    ]
}

// The places behind loads.
fn loads_of(loads: Slots) -> [(&'static str, u64); 2] {
    [
        ("all", u64::from(loads.all)),
        ("filled", u64::from(loads.filled)),
    ]
}

// What the run comes to.
fn run_of(figures: &Figures) -> [(&'static str, u64); 4] {
    [
        ("cycles", figures.cycles),
        ("fetches", figures.fetches),
        ("misses", figures.misses),
        ("squashes", figures.squashes),
    ]
}

// Writes the figures of plans.
fn write_figures(document: &mut Document, plans: &str, figures: &Figures) {
    document.begin_object();
    document.push_member("plans", Value::Text(plans));
    document.push_numbers(&words_of(figures));
    document.push_object("branch_slots", &slots_of(figures.transfers));
    document.push_object("load_slots", &loads_of(figures.loads));
    document.push_member("halted", Value::Flag(figures.halted));
    document.push_numbers(&run_of(figures));
    document.end_object();
}

// Writes the four schedulers, and the plans from files.
fn write_schedulers(document: &mut Document, comparison: &Comparison, columns: &[Column]) {
    document.push_key("schedulers");
    document.begin_list();
    for at in 0..SCHEDULERS.len() {
        write_figures(document, SCHEDULERS[at], figures_at(comparison, at));
    }
    for column in columns {
        write_figures(document, column.name, &column.figures);
    }
    document.end_list();
}

// Writes each source and its comparison.
fn write_sources(document: &mut Document, compared: &[Compared]) {
    document.push_key("sources");
    document.begin_list();
    for one in compared {
        document.begin_object();
        document.push_member("source", Value::Text(one.source));
        write_schedulers(document, &one.comparison, &[]);
        document.end_object();
    }
    document.end_list();
}

// Writes what several sources come to together.
fn write_sums(document: &mut Document, all: &Sums) {
    document.push_key("sums");
    document.begin_object();
    document.push_numbers(&[
        ("sources", all.sources as u64),
        ("halted", all.halted as u64),
    ]);
    write_schedulers(document, &all.figures, &[]);
    document.end_object();
}

// A document of which the name of its command is written.
fn document_of(alloc: Global) -> Document {
    let mut document = Document::new(alloc);
    document.begin_object();
    document.push_member("command", Value::Text("compare"));
    document
}

/// A comparison as JSON, with the name of its source, and plans from files.
pub fn comparison_json(
    alloc: Global,
    one: &Compared,
    columns: &[Column],
) -> Result<Vec<u8>, Memory> {
    let mut document = document_of(alloc);
    document.push_member("source", Value::Text(one.source));
    write_schedulers(&mut document, &one.comparison, columns);
    document.end_object();
    document.into_bytes()
}

/// Comparisons of several sources as JSON, with their sums.
pub fn comparisons_json(alloc: Global, compared: &[Compared]) -> Result<Vec<u8>, Memory> {
    let mut document = document_of(alloc);
    write_sources(&mut document, compared);
    write_sums(&mut document, &sums_of(compared));
    document.end_object();
    document.into_bytes()
}
