//! What a run cost, as a text.
use crate::grouping::By;
use crate::rows::{Row, rows_by};
use crate::shown::{push_last, push_quotient};
use crate::spent::spent_in;
use crate::subject::Subject;
use lab_positions::{lines_of, without_return};
use lab_profile::{Column, LineCost, Profile, Spent};
use lab_writer::{Ratio, Writer};
use mx_isa::CODE_BASE;
use mx_link::Origin;
use mx_report::push_counts;
use mx_turn::Counts;
use std::alloc::{AllocError, Global};

/// The head of the table, but for what a row is named by.
const HEAD: &str =
    "  line     count    cycles      %   caused    CPI   stalls  no-ops squashed  killed  ";

/// How wide the column of a line is.
const LINE: usize = 6;

/// How wide the numbers of a row are together.
const NUMBERS: usize = 85;

/// The head of what cycles were spent on.
const SPENT: &str = "cycles by what they were spent on\n";

/// What words are told under that came to no end.
const KILLED: &str = "words that an interrupt killed, or that were under way at the end";

// Appends the column of a line, empty where there is none.
fn push_line_column(text: &mut Writer, line: u32) {
    if line == 0 {
        text.push_blanks(LINE);
    } else {
        text.push_right(line as i128, LINE);
    }
}

// Appends the columns of a row, and what it is named by.
fn push_row(text: &mut Writer, line: u32, cost: &LineCost, all: u64, name: &[u8]) {
    push_line_column(text, line);
    text.push_columns(&[(cost.executed, 9), (cost.cycles, 9)]);
    push_quotient(text, Ratio::Percent(cost.cycles, all));
    text.push_columns(&[(cost.caused(), 8)]);
    push_quotient(text, Ratio::Plain(cost.caused(), cost.executed));
    text.push_columns(&[
        (cost.stalls, 8),
        (cost.noops, 7),
        (cost.cancelled, 8),
        (cost.killed, 7),
    ]);
    text.push_str("  ");
    push_last(text, name);
}

// Appends the row of a part of the source.
fn push_part_row(text: &mut Writer, subject: &Subject, row: &Row, all: u64) {
    push_row(text, row.line, &row.cost, all, row.name.bytes(subject));
}

// The copies of the code, by their statements: a statement and the address of a copy of it.
fn copies_in(alloc: Global, origin: &[Origin]) -> Result<Vec<(u32, u32)>, AllocError> {
    let mut copies = Vec::new(alloc);
    let mut address = CODE_BASE;
    for from in origin {
        if let Origin::Copy(statement) = from {
            copies.push((*statement, address))?;
        }
        address = address.saturating_add(1);
    }
    copies.sort()?;
    Ok(copies)
}

// The index of the first statement from an index on that stands behind a line.
fn statements_to(lines: &[u32], from: usize, line: u32) -> usize {
    for at in from..lines.len() {
        if lines[at] > line {
            return at;
        }
    }
    lines.len()
}

// The index of the first copy from an index on of a statement that is not below this one.
fn copies_to(copies: &[(u32, u32)], from: usize, statement: usize) -> usize {
    for at in from..copies.len() {
        if copies[at].0 as usize >= statement {
            return at;
        }
    }
    copies.len()
}

// Appends the addresses of copies, where there are any.
fn push_copies(text: &mut Writer, copies: &[(u32, u32)]) {
    if !copies.is_empty() {
        text.push_blanks(NUMBERS);
        text.push_str("copies at");
        for (_, address) in copies {
            write!(text, " 0x{address:08x}");
        }
        text.push('\n');
    }
}

// Appends a line of the source that has no statement; an empty one is left empty.
fn push_bare_line(text: &mut Writer, line: &[u8]) {
    if !line.is_empty() {
        text.push_blanks(NUMBERS);
    }
    push_last(text, line);
}

// Appends all lines of the source, with the rows of those that have statements, and the addresses of the copies of them.
fn push_lines(text: &mut Writer, subject: &Subject, rows: &[Row], copies: &[(u32, u32)], all: u64) {
    let lines = subject.source.lines();
    let (mut statement, mut copy, mut number) = (0, 0, 0u32);
    let mut rows = rows.iter();
    for line in lines_of(subject.text).split(|byte| *byte == b'\n') {
        number = number.saturating_add(1);
        let next = statements_to(lines, statement, number);
        let row = if statement < next { rows.next() } else { None };
        match row {
            Some(row) => push_part_row(text, subject, row, all),
            None => push_bare_line(text, without_return(line)),
        }
        let next_copy = copies_to(copies, copy, next);
        push_copies(text, copies.get(copy..next_copy).unwrap_or(&[]));
        statement = next;
        copy = next_copy;
    }
}

// Appends the source, with the rows and the copies of its statements.
fn push_source(text: &mut Writer, subject: &Subject, rows: &[Row], all: u64) {
    if let Some(copies) = text.take(copies_in(text.alloc(), subject.origin())) {
        push_lines(text, subject, rows, &copies, all);
    }
}

// What stands at the head of the last column.
fn named_by(by: By) -> &'static str {
    match by {
        By::Line => "source\n",
        By::Label => "label\n",
        By::Function => "function\n",
        By::C => "line of C\n",
    }
}

// Appends what the cycles were spent on.
fn push_spent(text: &mut Writer, on: Spent) {
    let all = on.cycles();
    let told = [
        (on.instructions, "instructions"),
        (on.noops, "no-ops that were put in"),
        (on.squashed, "squashed words"),
        (on.killed, KILLED),
        (on.handler, "the handler"),
        (on.misses, "waiting for a miss"),
        (all, "together"),
    ];
    text.push_str(SPENT);
    for (part, words) in told {
        text.push_right(part as i128, 16);
        push_quotient(text, Ratio::Percent(part, all));
        text.push_parts(&["  ", words, "\n"]);
    }
}

// The counts of a run, a line for each.
fn lines_of_counts(alloc: Global, counts: &Counts) -> Result<Vec<u8>, AllocError> {
    let mut lines = Vec::new(alloc);
    push_counts(alloc, &mut lines, counts)?;
    Ok(lines)
}

// Appends the counts of the run.
fn push_sums(text: &mut Writer, profile: &Profile, noops: u64) {
    text.push_str(if profile.halted {
        "halted\n"
    } else {
        "out of budget\n"
    });
    if let Some(lines) = text.take(lines_of_counts(text.alloc(), &profile.counts)) {
        text.push_bytes(&lines);
    }
    text.push_numbers(
        &["waiting ", "\nnoops passed ", "\n"],
        &[profile.waiting, noops],
    );
}

// Appends the rows of what comes from no statement, and that of all.
fn push_rest(text: &mut Writer, subject: &Subject, together: LineCost) {
    let rest = [
        (subject.handler(), "the handler"),
        (subject.behind(), "behind the code"),
        (together, "together"),
    ];
    for (cost, name) in rest {
        push_row(text, 0, &cost, together.cycles, name.as_bytes());
    }
}

/// What a run cost, and how that is printed.
#[derive(Clone, Copy)]
struct Table<'a> {
    subject: &'a Subject<'a>,
    /// The rows of its parts.
    rows: &'a [Row],
    by: By,
    column: Column,
    /// The cost of all together.
    together: LineCost,
}

// Appends the rows of the parts of the source.
fn push_table(text: &mut Writer, table: &Table) {
    let (subject, all) = (table.subject, table.together.cycles);
    if table.by == By::Line && table.column == Column::Line {
        push_source(text, subject, table.rows, all);
    } else {
        for row in table.rows {
            push_part_row(text, subject, row, all);
        }
    }
}

// The text of a table, of a run whose cycles were spent on this.
fn text_of(alloc: Global, table: &Table, spent: Spent) -> Result<Vec<u8>, AllocError> {
    let (subject, together) = (table.subject, table.together);
    let mut text = Writer::new(alloc);
    text.push_parts(&[HEAD, named_by(table.by)]);
    push_table(&mut text, table);
    push_rest(&mut text, subject, together);
    push_spent(&mut text, spent);
    push_sums(&mut text, subject.profile, together.noops);
    text.into_bytes()
}

/// What a run cost, by parts of its source in the order of a column, and the sums.
pub fn profile_text(
    alloc: Global,
    subject: &Subject,
    by: By,
    column: Column,
) -> Result<Vec<u8>, AllocError> {
    let costs = subject.statement_costs(alloc)?;
    let rows = rows_by(alloc, subject, &costs, by, column)?;
    let table = Table {
        subject,
        rows: &rows,
        by,
        column,
        together: subject.together(&costs),
    };
    text_of(alloc, &table, spent_in(subject, &costs))
}
