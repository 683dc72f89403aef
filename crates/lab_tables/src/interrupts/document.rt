//! A sweep as JSON.
use super::interrupt::interrupt_of;
use super::places::Places;
use lab_json::{Document, Value};
use lab_measures::{Bin, Row, Spread, Sums, Sweep, sums_of};
use mx_io::Memory;
use std::alloc::Global;

// Writes how numbers are spread, or null.
fn write_spread(document: &mut Document, name: &str, spread: &Option<Spread>) {
    document.push_key(name);
    match spread {
        Some(spread) => document.push_record(&[
            ("least", Value::Signed(spread.least)),
            ("median", Value::Signed(spread.median)),
            ("greatest", Value::Signed(spread.greatest)),
        ]),
        None => document.push(Value::Null),
    }
}

// How often each number stands.
fn bins_of(spread: &Option<Spread>) -> &[Bin] {
    match spread {
        Some(spread) => spread.bins.as_slice(),
        None => &[],
    }
}

// Writes how many runs have each number of cycles.
fn write_bins(document: &mut Document, name: &str, bins: &[Bin]) {
    document.push_key(name);
    document.begin_list();
    for bin in bins {
        document.push_record(&[
            ("cycles", Value::Signed(bin.number)),
            ("runs", Value::Number(bin.runs)),
        ]);
    }
    document.end_list();
}

// Writes the cycles of the requests of a run.
fn write_requests(document: &mut Document, row: &Row) {
    document.push_key("requests");
    document.begin_list();
    document.push(Value::Number(u64::from(row.first)));
    if let Some(second) = row.second {
        document.push(Value::Number(u64::from(second)));
    }
    document.end_list();
}

// Writes how the last request of a run became an interrupt, or null.
fn write_interrupt(document: &mut Document, row: &Row, places: &Places) {
    document.push_key("interrupt");
    match interrupt_of(row, places) {
        Some(interrupt) => document.push_record(&[
            ("taken", Value::Number(interrupt.taken)),
            ("handler", Value::Number(interrupt.handler)),
            ("wait", Value::Signed(interrupt.wait)),
            ("address", Value::Number(u64::from(interrupt.address))),
            ("squashed", Value::Flag(interrupt.squashed)),
            ("line", Value::Number(u64::from(interrupt.line))),
        ]),
        None => document.push(Value::Null),
    }
}

// Writes a run.
fn write_row(document: &mut Document, sweep: &Sweep, row: &Row, places: &Places) {
    document.begin_object();
    write_requests(document, row);
    write_interrupt(document, row, places);
    document.push_members(&[
        ("halted", Value::Flag(row.halted)),
        ("cycles", Value::Number(row.cycles)),
        ("cost", Value::signed(sweep.cost(row))),
        ("same_console", Value::Flag(row.same_console)),
    ]);
    document.end_object();
}

// Writes all runs.
fn write_rows(document: &mut Document, sweep: &Sweep, places: &Places) {
    document.push_key("rows");
    document.begin_list();
    for row in sweep.rows.iter() {
        write_row(document, sweep, row, places);
    }
    document.end_list();
}

// Writes what all runs come to, and the run that waits longest, or null.
fn write_sums(document: &mut Document, sweep: &Sweep, sums: &Sums, places: &Places) {
    document.push_key("sums");
    document.begin_object();
    document.push_numbers(&[
        ("runs", sums.runs as u64),
        ("halted", sums.halted as u64),
        ("other_console", sums.other_console as u64),
        ("interrupted", sums.interrupted as u64),
    ]);
    write_spread(document, "cost", &sums.cost);
    write_spread(document, "wait", &sums.wait);
    document.push_key("longest_wait");
    match &sums.longest {
        Some(row) => write_row(document, sweep, row, places),
        None => document.push(Value::Null),
    }
    document.end_object();
}

// Writes what stands before the sums: the undisturbed run, and which requests there are.
fn write_front(document: &mut Document, source: &str, sweep: &Sweep) {
    let span = sweep.span;
    document.push_member("command", Value::Text("interrupts"));
    document.push_member("source", Value::Text(source));
    document.push_key("undisturbed");
    document.push_record(&[
        ("halted", Value::Flag(sweep.halted)),
        ("cycles", Value::Number(sweep.cycles)),
    ]);
    document.push_numbers(&[
        ("from", u64::from(span.from)),
        ("to", u64::from(span.to)),
        ("step", u64::from(span.step)),
    ]);
    document.push_member("pairs", Value::Flag(sweep.is_pairs));
}

/// A sweep as JSON, with the name of its source.
pub fn sweep_json(
    alloc: Global,
    source: &str,
    sweep: &Sweep,
    places: &Places,
) -> Result<Vec<u8>, Memory> {
    let Ok(sums) = sums_of(alloc, sweep) else {
        return Err(Memory);
    };
    let mut document = Document::new(alloc);
    document.begin_object();
    write_front(&mut document, source, sweep);
    write_sums(&mut document, sweep, &sums, places);
    write_bins(&mut document, "costs", bins_of(&sums.cost));
    write_bins(&mut document, "waits", bins_of(&sums.wait));
    write_rows(&mut document, sweep, places);
    document.end_object();
    document.into_bytes()
}
