//! The data of a drawing as JSON, which the page of HTML holds and `json` hands out.
use crate::ending::push_ending;
use crate::subject::{HANDLER, Subject};
use lab_draw::{Cell, Frame, Row, Way, way_of};
use lab_words::{NamedPlace, PlaceNames};
use lab_writer::Writer;
use mx_isa::{CODE_BASE, Inst};
use mx_turn::{Latches, Stage};

/// The registers before the first cycle that is told.
static NO_REGISTERS: [u32; 32] = [0; 32];

// Whether a byte stands for itself in a string of JSON. One that may end the string or the page's element does not.
fn is_plain(byte: u8) -> bool {
    byte >= 32 && byte <= 126 && byte != b'"' && byte != b'\\' && byte != b'<'
}

// Appends bytes between the quotes of a string of JSON, those that do not stand for themselves by their numbers.
fn push_bytes(text: &mut Writer, bytes: &[u8]) {
    for byte in bytes {
        let byte = *byte;
        if is_plain(byte) {
            text.push(char::from(byte));
        } else {
            write!(text, "\\u{byte:04x}");
        }
    }
}

/// Appends bytes as a string of JSON, a byte a sign.
pub fn push_string(text: &mut Writer, bytes: &[u8]) {
    text.push('"');
    push_bytes(text, bytes);
    text.push('"');
}

// The kind of a word: 1 a load, 2 a store, 3 a transfer, 4 a branch that squashes, 0 another.
fn kind_of(inst: &Inst) -> u64 {
    match *inst {
        Inst::Load { .. } => 1,
        Inst::Store { .. } => 2,
        Inst::Branch { squash: true, .. } => 4,
        Inst::Branch { .. } | Inst::Jspci { .. } | Inst::Jpc | Inst::Jpcrs => 3,
        _ => 0,
    }
}

// Appends the registers that a word reads, and its kind.
fn push_reads(text: &mut Writer, inst: &Option<Inst>) {
    match inst {
        Some(inst) => {
            let (a, b) = inst.sources();
            text.push_numbers(
                &["", ",", ","],
                &[u64::from(a.number()), u64::from(b.number()), kind_of(inst)],
            );
        }
        None => text.push_str("0,0,0"),
    }
}

// Appends the line from which the word of an address comes, 0 for none.
fn push_line(text: &mut Writer, subject: &Subject, address: u32) {
    let (_, line) = subject.origin_of(Some(address));
    text.push_number(u64::from(line.unwrap_or(0)));
}

// Appends what the page does not show of a word of the listing, but goes by: its line, the registers that it reads, and its kind.
fn push_facts(text: &mut Writer, subject: &Subject, address: u32) {
    text.push_str("\",");
    push_line(text, subject, address);
    text.push(',');
    push_reads(text, &subject.inst_at(address));
    text.push(']');
}

// Appends a word of the listing.
fn push_listed(text: &mut Writer, subject: &Subject, address: u32, word: u32) {
    text.push_numbers(&["[", ",", ",\""], &[u64::from(address), u64::from(word)]);
    subject.push_word(text, Some(address));
    text.push_str("\",\"");
    subject.push_origin(text, Some(address), 0);
    push_facts(text, subject, address);
}

// Appends words of the listing, the first of which is at an address.
fn push_listing(text: &mut Writer, subject: &Subject, first: u32, words: &[u32]) {
    let mut address = first;
    for word in words {
        text.separate();
        push_listed(text, subject, address, *word);
        address = address.saturating_add(1);
    }
}

// Appends what a label names: its address, and what stands there.
fn push_place(text: &mut Writer, place: NamedPlace) {
    match place {
        NamedPlace::Code(address) => {
            text.push_numbers(&[",", ",\"code\"]"], &[u64::from(address)]);
        }
        NamedPlace::Data(address) => {
            text.push_numbers(&[",", ",\"data\"]"], &[u64::from(address)]);
        }
    }
}

// Appends the labels: their names, their addresses and what they name.
fn push_names(text: &mut Writer, names: &PlaceNames) {
    for (index, place) in names.places().iter().enumerate() {
        text.push_str(if index == 0 { "[" } else { ",[" });
        push_string(text, names.name(index));
        push_place(text, *place);
    }
}

// The sign of a cell: a blank, `w`, a digit for a stage, a small letter for a squashed and a large one for a killed word.
fn sign_of(cell: Cell) -> char {
    match cell {
        Cell::Nothing => ' ',
        Cell::Waits => 'w',
        Cell::Live(stage) => sign_from(b'0', stage),
        Cell::Squashed(stage) => sign_from(b'a', stage),
        Cell::Killed(stage) => sign_from(b'A', stage),
    }
}

// The sign so many places behind another.
fn sign_from(first: u8, places: u8) -> char {
    char::from(first.saturating_add(places))
}

// Appends the address of a row, -1 where it is not known.
fn push_address(text: &mut Writer, address: Option<u32>) {
    match address {
        Some(address) => text.push_number(u64::from(address)),
        None => text.push_str("-1"),
    }
}

// Appends the signs of cells, up to the last one that shows something.
fn push_cells(text: &mut Writer, cells: &[Cell]) {
    for cell in cells {
        text.push(sign_of(*cell));
    }
    text.trim();
}

// Appends a row.
fn push_row(text: &mut Writer, row: &Row) {
    text.separate();
    text.push('[');
    push_address(text, row.address);
    text.push_numbers(&[",", ",\""], &[row.begins as u64]);
    push_cells(text, row.cells.as_slice());
    text.push_str("\"]");
}

// Appends the rows: the number of the first one's fetch, and each of them.
fn push_rows(text: &mut Writer, rows: &[Row]) {
    let first = match rows.first() {
        Some(row) => row.fetch,
        None => 0,
    };
    text.push_numbers(&["],\n\"first\":", ",\n\"rows\":[\n"], &[first]);
    for row in rows {
        push_row(text, row);
    }
}

// Appends a data word behind another one: a run of words begins with the address of the first one, and ends before a 0.
fn push_word(text: &mut Writer, address: u64, before: u32, word: u32) {
    if word == 0 {
        if before != 0 {
            text.push(']');
        }
        return;
    }
    if before == 0 {
        text.separate();
        text.push_numbers(&["["], &[address]);
    }
    text.push_numbers(&[","], &[u64::from(word)]);
}

// Appends the data words that are not 0, in runs: the address of the first one, and their values.
fn push_words(text: &mut Writer, words: &[u32]) {
    let mut before = 0u32;
    for (address, word) in words.iter().enumerate() {
        push_word(text, address as u64, before, *word);
        before = *word;
    }
    if before != 0 {
        text.push(']');
    }
}

// The marks of a cycle: 1 stalled, 2 requested, 4 taken, 8 halted.
fn marks_of(frame: &Frame) -> u64 {
    u64::from(frame.cycled.stalled)
        | (u64::from(frame.requested) << 1)
        | (u64::from(frame.cycled.taken) << 2)
        | (u64::from(frame.cycled.halted) << 3)
}

// What the word in a stage does, where one is there that is not squashed.
fn inst_in(subject: &Subject, stage: Stage) -> Option<Inst> {
    match stage {
        Stage::Live(address) => subject.inst_at(address),
        _ => None,
    }
}

// The number of a way.
fn way_number(way: Way) -> u64 {
    match way {
        Way::Nowhere => 0,
        Way::File => 1,
        Way::BypassInRf => 2,
        Way::BypassInAlu => 3,
    }
}

// The ways of the two operands of a word in ALU as one number: that of the first, and four times that of the second.
fn ways_of(subject: &Subject, shown: &Latches, inst: &Inst) -> u64 {
    let mem = inst_in(subject, shown.mem);
    let wb = inst_in(subject, shown.wb);
    let (a, b) = inst.sources();
    way_number(way_of(&mem, &wb, a)) | (way_number(way_of(&mem, &wb, b)) << 2)
}

// The ways of the operands of the word in ALU, where one is there.
fn ways_in(subject: &Subject, shown: &Latches) -> u64 {
    match inst_in(subject, shown.alu) {
        Some(inst) => ways_of(subject, shown, &inst),
        None => 0,
    }
}

// Appends what the word in ALU reads and makes, and which way its operands came.
fn push_alu(text: &mut Writer, subject: &Subject, shown: &Latches) {
    text.push_numbers(
        &["", ",", ",", ",", ","],
        &[
            u64::from(shown.a),
            u64::from(shown.b),
            u64::from(shown.result),
            ways_in(subject, shown),
        ],
    );
}

// Appends MD, the bytes taken and the counts.
fn push_counts(text: &mut Writer, frame: &Frame) {
    let counts = &frame.counts;
    text.push_numbers(
        &["", ",", ",", ",", ",", ",", ","],
        &[
            u64::from(frame.md),
            u64::from(frame.inputs),
            counts.fetches,
            counts.misses,
            counts.squashes,
            counts.interrupts,
        ],
    );
}

// Appends the byte that a cycle sent, -1 where it sent none.
fn push_byte(text: &mut Writer, byte: Option<u8>) {
    match byte {
        Some(byte) => text.push_number(u64::from(byte)),
        None => text.push_str("-1"),
    }
}

// Appends the registers that differ from what they were: their numbers and values, in turn.
fn push_registers(text: &mut Writer, before: &[u32; 32], now: &[u32; 32]) {
    let mut comma = "";
    for n in 0..32usize {
        if now[n] != before[n] {
            text.push_numbers(&[comma, ","], &[n as u64, u64::from(now[n])]);
            comma = ",";
        }
    }
}

// Appends the address and the data word of the store in MEM; -1 where there is none.
fn push_store(text: &mut Writer, subject: &Subject, frame: &Frame) {
    match inst_in(subject, frame.shown.mem) {
        Some(Inst::Store { .. }) if !frame.cycled.stalled => text.push_numbers(
            &["", ","],
            &[u64::from(frame.address), u64::from(frame.word)],
        ),
        _ => text.push_str("-1,0"),
    }
}

// Appends what a cycle shows beside the registers and a store.
fn push_state(text: &mut Writer, subject: &Subject, frame: &Frame) {
    text.push_numbers(&["[", ","], &[marks_of(frame)]);
    push_alu(text, subject, &frame.shown);
    push_counts(text, frame);
    push_byte(text, frame.cycled.byte);
}

// Appends a cycle as a whole, behind one with these registers.
fn push_cycle(text: &mut Writer, subject: &Subject, before: &[u32; 32], frame: &Frame) {
    push_state(text, subject, frame);
    text.push_str(",[");
    push_registers(text, before, &frame.registers);
    text.push_str("],");
    push_store(text, subject, frame);
    text.push(']');
}

// Appends the cycles. Of a stalled one, which changes nothing, only the marks stand there, the first one aside.
fn push_cycles(text: &mut Writer, subject: &Subject) {
    let mut before = &NO_REGISTERS;
    for (index, frame) in subject.drawing.frames.iter().enumerate() {
        text.separate();
        if index > 0 && frame.cycled.stalled {
            text.push_number(marks_of(frame));
        } else {
            push_cycle(text, subject, before, frame);
            before = &frame.registers;
        }
    }
}

// Appends what the page says of the run as a whole: its first cycle, its scheduler, its end, and its source.
fn push_run(text: &mut Writer, subject: &Subject) {
    text.push_numbers(
        &["\"from\":", ",\"scheduler\":"],
        &[u64::from(subject.from)],
    );
    push_string(text, subject.scheduler.as_bytes());
    text.push_str(",\"end\":\"");
    push_ending(text, subject);
    text.push_str("\",\n\"text\":");
    push_string(text, subject.text);
    text.push_str(",\n");
}

// Appends the labels, and what the console got before the first cycle that is told.
fn push_before(text: &mut Writer, subject: &Subject) {
    text.push_str("\"labels\":[");
    push_names(text, subject.names);
    text.push_str("],\n\"before\":");
    push_string(text, subject.drawing.console.as_slice());
}

// Appends the words of the run: the listing, which is of the program and of the handler, and the data.
fn push_memory(text: &mut Writer, subject: &Subject) {
    text.push_str(",\n\"listing\":[\n");
    push_listing(
        text,
        subject,
        CODE_BASE,
        subject.linked.image.code.as_slice(),
    );
    push_listing(text, subject, 0, &HANDLER);
    text.push_str("],\n\"words\":[\n");
    push_words(text, subject.drawing.words.as_slice());
}

/// Appends the members of the data as JSON, and the brace that ends them.
pub fn push_members(text: &mut Writer, subject: &Subject, rows: &[Row]) {
    push_run(text, subject);
    push_before(text, subject);
    push_memory(text, subject);
    push_rows(text, rows);
    text.push_str("],\n\"cycles\":[\n");
    push_cycles(text, subject);
    text.push_str("]}\n");
}
