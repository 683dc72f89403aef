//! What a run cost, as JSON.
ghost use Rattle.std.specs.Prelude.{◌≡◌, ◌+◌, ◌-◌, ◌^◌, min, slice_index};

use crate::grouping::By;
use crate::rows::{Row, rows_by};
use crate::shown::text_of;
use crate::spent::spent_in;
use crate::subject::Subject;
use lab_json::{Document, Value};
use lab_profile::{Column, LineCost, Spent};
use mx_io::Memory;
use mx_isa::CODE_BASE;
use mx_link::Origin;
use mx_turn::Counts;
use std::alloc::Global;

// The counts of a run.
fn counts_of(counts: &Counts) -> [(&'static str, u64); 5] {
    [
        ("cycles", counts.cycles),
        ("fetches", counts.fetches),
        ("misses", counts.misses),
        ("squashes", counts.squashes),
        ("interrupts", counts.interrupts),
    ]
}

// What the cycles of a run were spent on.
fn parts_of(on: Spent) -> [(&'static str, u64); 6] {
    [
        ("instructions", on.instructions),
        ("noops", on.noops),
        ("squashed", on.squashed),
        ("killed", on.killed),
        ("handler", on.handler),
        ("misses", on.misses),
    ]
}

// What was counted at a word of the code, 0 past its end.
fn counted(list: &[u64], place: usize) -> u64
    ensures { result ≡ slice_index list.now place }
{
    list.get(place).copied().unwrap_or(0)
}

// The address of a word of the code.
fn address_of(place: usize) -> u32
    ensures { result ≡ min (CODE_BASE + place) (2 ^ 32 - 1) }
{
    CODE_BASE.saturating_add(u32::try_from(place).unwrap_or(u32::MAX))
}

// The word of the command line for parts of a source.
fn word_of(by: By) -> &'static str {
    match by {
        By::Line => "line",
        By::Label => "label",
        By::Function => "function",
        By::C => "c",
    }
}

// Writes a part of a source, with what it cost. A name that is no UTF-8 needs memory.
fn write_row(alloc: Global, document: &mut Document, name: &[u8], line: u32, cost: &LineCost) {
    document.begin_object();
    match text_of(alloc, name) {
        Ok(name) => document.push_member("name", Value::Text(name.as_str())),
        Err(_) => document.fail(),
    }
    document.push_numbers(&[
        ("line", u64::from(line)),
        ("count", cost.executed),
        ("cycles", cost.cycles),
        ("caused", cost.caused()),
        ("stalls", cost.stalls),
    ]);
    document.push_numbers(&[
        ("noops", cost.noops),
        ("squashed", cost.cancelled),
        ("killed", cost.killed),
        ("squashes", cost.squashes),
        ("penalty", cost.penalty),
    ]);
    document.end_object();
}

// Writes the parts of the source.
fn write_rows(alloc: Global, document: &mut Document, subject: &Subject, rows: &[Row]) {
    document.push_key("rows");
    document.begin_list();
    for row in rows {
        write_row(
            alloc,
            document,
            row.name.bytes(subject),
            row.line,
            &row.cost,
        );
    }
    document.end_list();
}

// Writes what comes from no statement.
fn write_rest(alloc: Global, document: &mut Document, subject: &Subject) {
    document.push_key("handler");
    write_row(alloc, document, b"the handler", 0, &subject.handler());
    document.push_key("behind");
    write_row(alloc, document, b"behind the code", 0, &subject.behind());
}

// Writes a word of the code that comes from there, with what was counted at it.
fn write_word(document: &mut Document, subject: &Subject, place: usize, from: Origin) {
    let (kind, line) = match from {
        Origin::Own(statement) => ("own", subject.line_of(statement)),
        Origin::Copy(statement) => ("copy", subject.line_of(statement)),
        Origin::Pad => ("noop", 0),
    };
    let tally = &subject.profile.tally;
    document.begin_object();
    document.push_numbers(&[("address", u64::from(address_of(place)))]);
    document.push_member("kind", Value::Text(kind));
    document.push_numbers(&[
        ("line", u64::from(line)),
        ("fetches", counted(&tally.fetches, place)),
        ("cycles", counted(&tally.cycles, place)),
        ("executed", counted(&tally.executed, place)),
        ("squashed", counted(&tally.cancelled, place)),
        ("squashes", counted(&tally.squashes, place)),
        ("penalty", counted(&tally.penalty, place)),
    ]);
    document.end_object();
}

// Writes each word of the code.
fn write_words(document: &mut Document, subject: &Subject) {
    document.push_key("words");
    document.begin_list();
    for (place, from) in subject.origin().iter().enumerate() {
        write_word(document, subject, place, *from);
    }
    document.end_list();
}

// Writes what the run is, its counts, what its cycles were spent on, and by which parts costs are told.
fn write_front(document: &mut Document, subject: &Subject, spent: Spent, by: By) {
    let profile = subject.profile;
    document.push_member("command", Value::Text("profile"));
    document.push_member("source", Value::Text(subject.file));
    document.push_member("halted", Value::Flag(profile.halted));
    document.push_object("counts", &counts_of(&profile.counts));
    document.push_numbers(&[("waiting", profile.waiting)]);
    document.push_object("spent", &parts_of(spent));
    document.push_member("by", Value::Text(word_of(by)));
}

/// What a run cost as JSON: by parts of its source in the order of a column, the sums, and each word of the code.
pub fn profile_json(
    alloc: Global,
    subject: &Subject,
    by: By,
    column: Column,
) -> Result<Vec<u8>, Memory> {
    let Ok(costs) = subject.statement_costs(alloc) else {
        return Err(Memory);
    };
    let Ok(rows) = rows_by(alloc, subject, costs.as_slice(), by, column) else {
        return Err(Memory);
    };
    let mut document = Document::new(alloc);
    document.begin_object();
    write_front(
        &mut document,
        subject,
        spent_in(subject, costs.as_slice()),
        by,
    );
    write_rows(alloc, &mut document, subject, rows.as_slice());
    write_rest(alloc, &mut document, subject);
    write_words(&mut document, subject);
    document.end_object();
    document.into_bytes()
}
