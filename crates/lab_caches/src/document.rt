//! Caches as JSON.
use super::study::{CacheRow, Study};
use lab_json::{Document, Value};
use lab_terms::SHIPPED_CACHE;
use mx_io::Memory;
use std::alloc::Global;

// Writes the members before the rows.
fn write_front(document: &mut Document, source: &str, study: &Study) {
    let counts = &study.counts;
    document.push_member("command", Value::Text("caches"));
    document.push_member("source", Value::Text(source));
    document.push_member("halted", Value::Flag(study.halted));
    document.push_numbers(&[
        ("cycles", counts.cycles),
        ("fetches", counts.fetches),
        ("misses", counts.misses),
    ]);
}

// Writes a cache, with what the run costs with it.
fn write_cache(document: &mut Document, row: &CacheRow) {
    let geometry = row.geometry;
    document.begin_object();
    document.push_numbers(&[
        ("words", geometry.words()),
        ("sets", u64::from(geometry.sets)),
        ("ways", u64::from(geometry.ways)),
        ("line", u64::from(geometry.line)),
        ("brings", u64::from(geometry.brings)),
        ("penalty", u64::from(geometry.penalty)),
    ]);
    document.push_member("shipped", Value::Flag(geometry == SHIPPED_CACHE));
    document.push_numbers(&[("misses", row.misses), ("cycles", row.cycles)]);
    document.end_object();
}

// Writes all caches.
fn write_caches(document: &mut Document, rows: &[CacheRow]) {
    document.push_key("caches");
    document.begin_list();
    for row in rows {
        write_cache(document, row);
    }
    document.end_list();
}

/// Caches as JSON, with the name of the source.
pub fn caches_json(alloc: Global, source: &str, study: &Study) -> Result<Vec<u8>, Memory> {
    let mut document = Document::new(alloc);
    document.begin_object();
    write_front(&mut document, source, study);
    write_caches(&mut document, study.rows.as_slice());
    document.end_object();
    document.into_bytes()
}
