//! A drawing as SVG.
use crate::ending::push_ending;
use crate::escape::push_escaped;
use crate::label::{push_address, push_fitted_word};
use crate::marks::{is_shown, stage_name};
use crate::subject::Subject;
use lab_draw::{Cell, Frame, Row};
use lab_writer::Writer;
use std::alloc::{AllocError, Global};

/// The width of the labels.
const LABEL: u64 = 330;

/// The width of a column.
const COLUMN: u64 = 34;

/// The height of a row.
const ROW: u64 = 18;

/// The height of the head, which has the numbers of the cycles and what came in them.
const HEAD: u64 = 58;

/// The height of the foot.
const FOOT: u64 = 66;

/// How many stages there are.
const STAGES: u8 = 5;

/// The number of MEM.
const MEM: u8 = 3;

/// Where the second column of the foot begins, behind a cell for each stage.
const SECOND: u64 = 184;

/// Where its words begin.
const BESIDE: u64 = SECOND + COLUMN + 4;

/// The signs of a row's word at most.
const WORD: usize = 29;

/// What stands behind a word.
const END: &str = "</text>";

/// From here on a cycle has a number that is wider than a column, and only every second one is told.
const WIDE: u64 = 100_000;

/// The looks of the cells, by their stages and marks.
fn style() -> &'static str {
    r"<style>text{font:11px monospace;fill:#222}.b{fill:#fff}.g{fill:#666}.c text{text-anchor:middle}rect{stroke:#fff}.IF{fill:#cfe2f3}.RF{fill:#d9ead3}.ALU{fill:#fff2cc}.MEM{fill:#f9cb9c}.WB{fill:#d9d2e9}
.s{fill:#ddd}.s+text{fill:#555;text-decoration:line-through}.k{fill:#f4b6b6}.q{fill:#f3f3f3;stroke:#999;stroke-dasharray:2}.i{fill:#f4b6b6;opacity:.35}.l{stroke:#bbb}
@media(prefers-color-scheme:dark){text{fill:#ececec}.b{fill:#16181b}.g{fill:#b0b0b0}rect{stroke:#16181b}.IF{fill:#1f435f}.RF{fill:#28492a}.ALU{fill:#55471a}.MEM{fill:#5e3d1b}.WB{fill:#453a63}
.s{fill:#34373b}.s+text{fill:#b5b5b5}.k{fill:#6b2727}.q{fill:#202327;stroke:#8a8f96}.i{fill:#6b2727;opacity:.6}.l{stroke:#555a60}}</style>
"
}

/// Where a column begins.
fn across(place: usize) -> u64 {
    LABEL.saturating_add((place as u64).saturating_mul(COLUMN))
}

// Appends what stands before a word.
fn push_open(text: &mut Writer, x: u64, y: u64) {
    text.push_numbers(&["<text x=\"", "\" y=\"", "\">"], &[x, y]);
}

// Appends a word of the head or of a label.
fn push_word(text: &mut Writer, x: u64, y: u64, word: &str) {
    push_open(text, x, y);
    text.push_str(word);
    text.push_str(END);
}

// Appends what stands between two words, the second of which is at this place.
fn push_next(text: &mut Writer, x: u64, y: u64) {
    text.push_str(END);
    push_open(text, x, y);
}

// Appends a cell with a look and a word in it.
fn push_box(text: &mut Writer, x: u64, y: u64, look: &str, word: &str) {
    text.push_numbers(
        &[
            "<rect x=\"",
            "\" y=\"",
            "\" width=\"",
            "\" height=\"",
            "\" class=\"",
            look,
            "\"/>",
        ],
        &[x, y, COLUMN - 2, ROW - 2],
    );
    let middle = x.saturating_add(COLUMN / 2);
    push_word(text, middle, y.saturating_add(12), word);
}

// Appends a cell.
fn push_cell(text: &mut Writer, x: u64, y: u64, cell: Cell) {
    match cell {
        Cell::Nothing => {}
        Cell::Waits => push_box(text, x, y, "q", "wait"),
        Cell::Live(number) => push_box(text, x, y, stage_name(number), stage_name(number)),
        Cell::Squashed(number) => push_box(text, x, y, "s", stage_name(number)),
        Cell::Killed(number) => push_box(text, x, y, "k", stage_name(number)),
    }
}

// Appends the label of a row.
fn push_label(text: &mut Writer, subject: &Subject, address: Option<u32>, base: u64) {
    push_open(text, 6, base);
    push_address(text, address);
    push_next(text, 76, base);
    push_fitted_word(text, subject, address, WORD);
    push_next(text, 272, base);
    subject.push_origin(text, address, 0);
    text.push_str(END);
}

// The place of the last cell of a row that shows something; that of its first cell where none does.
fn last_shown(row: &Row) -> usize {
    let mut last = row.begins;
    for (k, cell) in row.cells.iter().enumerate() {
        if *cell != Cell::Nothing {
            last = row.begins.saturating_add(k);
        }
    }
    last
}

// Appends the line on which a row's cells stand, from the first to the last one that shows something.
fn push_track(text: &mut Writer, row: &Row, middle: u64) {
    text.push_numbers(
        &[
            "<line class=\"l\" x1=\"",
            "\" y1=\"",
            "\" x2=\"",
            "\" y2=\"",
            "\"/>",
        ],
        &[across(row.begins), middle, across(last_shown(row)), middle],
    );
}

// Appends the cells of a row.
fn push_cells(text: &mut Writer, row: &Row, y: u64) {
    let mut x = across(row.begins);
    for cell in row.cells.iter() {
        push_cell(text, x, y, *cell);
        x = x.saturating_add(COLUMN);
    }
}

// Appends a row.
fn push_row(text: &mut Writer, subject: &Subject, row: &Row, y: u64) {
    push_label(text, subject, row.address, y.saturating_add(12));
    push_track(text, row, y.saturating_add(8));
    text.push_str("<g class=\"c\">");
    push_cells(text, row, y);
    text.push_str("</g>\n");
}

// Appends the byte that a cycle sent, as a character where it is a letter, a digit or another sign that stands for itself.
fn push_sent_byte(text: &mut Writer, x: u64, byte: u8) {
    text.push_numbers(&["<text class=\"g\" x=\"", "\" y=\"46\">"], &[x]);
    if byte.is_ascii_alphanumeric() {
        text.push('\'');
        text.push(char::from(byte));
        text.push('\'');
    } else {
        write!(text, "{byte:02x}");
    }
    text.push_str(END);
}

// Appends the column of a cycle in which an interrupt was taken.
fn push_taken(text: &mut Writer, x: u64, height: u64) {
    text.push_numbers(
        &[
            "<rect class=\"i\" x=\"",
            "\" y=\"20\" width=\"",
            "\" height=\"",
            "\"/>",
        ],
        &[x, COLUMN, height],
    );
    push_word(text, x, 32, "int");
}

// Appends the number of a cycle, where there is room for it.
fn push_number(text: &mut Writer, cycle: u64, place: usize) {
    if cycle < WIDE || place % 2 == 0 {
        text.push_numbers(
            &["<text x=\"", "\" y=\"16\">", END],
            &[across(place), cycle],
        );
    }
}

// Appends what stands below the number of a cycle: whether an interrupt was requested or taken, and the byte that was sent.
fn push_event(text: &mut Writer, frame: &Frame, x: u64, height: u64) {
    if frame.cycled.taken {
        push_taken(text, x, height);
    } else if frame.requested {
        push_word(text, x, 32, "req");
    }
    if let Some(byte) = frame.cycled.byte {
        push_sent_byte(text, x, byte);
    }
}

// Appends the heads of the columns.
fn push_heads(text: &mut Writer, subject: &Subject, height: u64) {
    push_word(text, 6, 16, "cycle");
    let mut cycle = u64::from(subject.from);
    for (place, frame) in subject.drawing.frames.iter().enumerate() {
        push_number(text, cycle, place);
        push_event(text, frame, across(place), height);
        cycle = cycle.saturating_add(1);
    }
    text.push('\n');
}

// How many rows show something.
fn count_shown(rows: &[Row]) -> u64 {
    let mut count = 0u64;
    for row in rows {
        if is_shown(row) {
            count = count.saturating_add(1);
        }
    }
    count
}

// Appends the title and the description.
fn push_told(text: &mut Writer, subject: &Subject) {
    text.push_str("<title id=\"title\">");
    push_escaped(text, subject.name());
    text.push_str(
        ": a run, cycle by cycle</title>\n<desc id=\"desc\">A row a fetch, a column a cycle, a cell the stage that holds the fetch; ",
    );
    push_ending(text, subject);
    text.push_str("</desc>\n");
}

// Appends the cells of the stages in a row, and one that waits.
fn push_stage_swatches(text: &mut Writer, y: u64) {
    let mut x = 6;
    for number in 0..STAGES {
        push_cell(text, x, y, Cell::Live(number));
        x = x.saturating_add(COLUMN);
    }
    push_cell(text, SECOND, y, Cell::Waits);
}

// Appends the looks of cells and what they say, in two rows.
fn push_swatches(text: &mut Writer, y: u64) {
    let second = y.saturating_add(ROW);
    text.push_str("<g class=\"c\">");
    push_stage_swatches(text, y);
    push_cell(text, 6, second, Cell::Squashed(MEM));
    push_cell(text, SECOND, second, Cell::Killed(MEM));
    text.push_str("</g>");
    let (first_base, second_base) = (y.saturating_add(12), second.saturating_add(12));
    push_word(text, BESIDE, first_base, "waits for the cache");
    push_word(text, 6 + COLUMN + 4, second_base, "squashed by a branch");
    push_word(text, BESIDE, second_base, "killed by an interrupt");
}

// Appends the foot: what the looks of the cells say, and where the run ends.
fn push_foot(text: &mut Writer, subject: &Subject, bottom: u64) {
    push_swatches(text, bottom.saturating_add(6));
    push_open(text, 6, bottom.saturating_add(58));
    push_ending(text, subject);
    text.push_str(END);
}

// Appends what stands before the columns: the size of the picture, what it shows, and the looks of its cells.
fn push_front(text: &mut Writer, subject: &Subject, height: u64) {
    let width = across(subject.drawing.frames.len()).saturating_add(10);
    text.push_numbers(
        &[
            "<svg xmlns=\"http://www.w3.org/2000/svg\" width=\"",
            "\" height=\"",
            "\" viewBox=\"0 0 ",
            " ",
            "\" role=\"img\" aria-labelledby=\"title desc\">\n",
        ],
        &[width, height, width, height],
    );
    push_told(text, subject);
    text.push_str(style());
    text.push_str("<rect class=\"b\" width=\"100%\" height=\"100%\"/>");
}

// Appends the rows that show something.
fn push_rows(text: &mut Writer, subject: &Subject, rows: &[Row]) {
    let mut y = HEAD;
    for row in rows {
        if is_shown(row) {
            push_row(text, subject, row, y);
            y = y.saturating_add(ROW);
        }
    }
}

/// A drawing as an SVG picture: a row a fetch, a column a cycle.
///
/// # Errors
///
/// `AllocError` where there is no room for it.
pub fn svg(alloc: Global, subject: &Subject, rows: &[Row]) -> Result<Vec<u8>, AllocError> {
    let mut text = Writer::new(alloc);
    let bottom = HEAD.saturating_add(count_shown(rows).saturating_mul(ROW));
    push_front(&mut text, subject, bottom.saturating_add(FOOT));
    push_heads(&mut text, subject, bottom.saturating_sub(24));
    push_rows(&mut text, subject, rows);
    push_foot(&mut text, subject, bottom);
    text.push_str("\n</svg>\n");
    text.into_bytes()
}
