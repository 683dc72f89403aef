//! What is found in a source without faults: a branch that does not reach its target, and what is seldom meant.
use crate::finding::{Finding, Found, Severity, Words};
use crate::labels::{Definition, definitions_of};
use crate::sentence::{bytes_in, text_of};
use lab_faults::line_at;
use lab_terms::{Ways, reached, ways_of};
use lab_writer::Writer;
use mx_asm::{line_words, statement_words};
use mx_faults::{Span, token_span};
use mx_isa::{INPUT, Inst, Reg};
use mx_lines::Word;
use mx_source::{Label, Source, Statement};
use std::alloc::{AllocError, Global};

// What is found in a source without faults.
#[derive(Clone, Copy)]
enum Kind {
    // A branch at one address does not reach its target at another.
    Displacement { from: u32, to: u32 },
    NoStatement,
    RunsPastEnd,
    Unreached,
    // A label whose token has this place in its line.
    UnusedLabel(usize),
    UnreadInput,
}

impl Kind {
    // How grave it is.
    fn severity(self) -> Severity {
        match self {
            Kind::Displacement { .. } => Severity::Error,
            _ => Severity::Warning,
        }
    }

    // Its number and its name.
    fn named(self) -> (&'static str, &'static str) {
        match self {
            Kind::Displacement { .. } => ("L1", "Displacement"),
            Kind::NoStatement | Kind::RunsPastEnd => ("W1", "RunsPastEnd"),
            Kind::Unreached => ("W2", "Unreached"),
            Kind::UnusedLabel(_) => ("W3", "UnusedLabel"),
            Kind::UnreadInput => ("W4", "UnreadInput"),
        }
    }

    // What is said: of a branch after what it is.
    fn told(self) -> &'static str {
        match self {
            Kind::Displacement { .. } => "branch range is -32768 to 32767 words",
            Kind::NoStatement => "no instruction: execution is stuck at once",
            Kind::RunsPastEnd => "may run past the last instruction",
            Kind::Unreached => "unreachable instruction",
            Kind::UnusedLabel(_) => "unused label ",
            Kind::UnreadInput => "the input is never read",
        }
    }

    // What helps, where that is the same wherever it is found; else nothing.
    fn hint(self) -> &'static str {
        match self {
            Kind::Displacement { .. } => {
                "'jr R' goes to any code address, which 'la LABEL,R' puts into a register"
            }
            Kind::NoStatement | Kind::RunsPastEnd => "add 'halt' where the program ends",
            Kind::UnreadInput => "'ld 254[r0],R' takes the next byte of the input",
            _ => "",
        }
    }
}

/// What is found in a source without faults, and its line, counted from 1: a branch that does not reach its target, or a warning.
#[derive(Clone, Copy)]
pub struct Notice {
    kind: Kind,
    line: u32,
}

/// A branch at an address that does not reach its target, in a line.
pub fn overlong(line: u32, from: u32, to: u32) -> Notice {
    let kind = Kind::Displacement { from, to };
    Notice { kind, line }
}

// The bytes of the token at a place of a line, if it has some.
fn span_at(line: &[u8], place: usize) -> Option<Span> {
    match token_span(line, place) {
        Some(span) if span.start < span.end => Some(span),
        _ => None,
    }
}

// The bytes of the token with which the statement of a line begins.
fn statement_span(alloc: Global, line: &[u8]) -> Result<Option<Span>, AllocError> {
    let words = line_words(alloc, line)?;
    let place = words.len().saturating_sub(statement_words(&words).len());
    Ok(span_at(line, place))
}

// The bytes of a line that are marked.
fn span_of(alloc: Global, line: &[u8], kind: Kind) -> Result<Option<Span>, AllocError> {
    match kind {
        Kind::Displacement { .. } => Ok(None),
        Kind::NoStatement => Ok(span_at(line, 0)),
        Kind::UnusedLabel(place) => Ok(span_at(line, place)),
        _ => statement_span(alloc, line),
    }
}

// What is found at this line.
fn found_at<'a>(alloc: Global, text: &'a [u8], notice: Notice) -> Result<Found<'a>, AllocError> {
    let Notice { kind, line } = notice;
    let span = span_of(alloc, text, kind)?;
    let (code, name) = kind.named();
    Ok(Found {
        line,
        text,
        span,
        severity: kind.severity(),
        code,
        name,
        follows: None,
    })
}

// Appends what is said of what is found at a token.
fn push_message(text: &mut Writer, kind: Kind, token: &[u8]) {
    match kind {
        Kind::Displacement { from, to } => {
            write!(
                text,
                "the branch at 0x{from:x} does not reach its target at 0x{to:x}: "
            );
        }
        _ => {}
    }
    text.push_str(kind.told());
    if let Kind::UnusedLabel(_) = kind {
        text.push_parts(&["'", text_of(token), "'"]);
    }
}

// What is said of what is found at a token, and what helps.
fn said_of(alloc: Global, kind: Kind, token: &[u8]) -> Result<Words, AllocError> {
    let mut message = Writer::new(alloc);
    let mut hint = Writer::new(alloc);
    push_message(&mut message, kind, token);
    hint.push_str(kind.hint());
    Words::new(message, hint)
}

/// What is found in a text of these lines, as it is told.
pub fn notice_finding<'a>(
    alloc: Global,
    lines: &[&'a [u8]],
    notice: Notice,
) -> Result<Finding<'a>, AllocError> {
    let found = found_at(alloc, line_at(lines, notice.line), notice)?;
    let said = said_of(alloc, notice.kind, bytes_in(found.text, found.span))?;
    found.told(alloc, said)
}

// Adds what is found at a line.
fn add(found: &mut Vec<Notice>, kind: Kind, line: u32) -> Result<(), AllocError> {
    found.push(Notice { kind, line })?;
    Ok(())
}

// What is noted at a place of a row; not so where there is nothing.
fn is_so(row: &[bool], at: usize) -> bool {
    row.get(at).copied().unwrap_or(false)
}

// A statement with these ways, one of so many, may run past the last one.
fn leaves(ways: Ways, at: usize, count: usize) -> bool {
    let is_last = at.saturating_add(1) == count;
    let is_target = match ways.target {
        Some(target) => target as usize >= count,
        None => false,
    };
    (ways.on && is_last) || is_target
}

// A run may come to the statement at a place, and from there run past the last one.
fn may_leave(statements: &[Statement], reached: &[bool], at: usize) -> bool {
    match statements.get(at) {
        Some(statement) if is_so(reached, at) => {
            leaves(ways_of(statement), at, statements.len())
        }
        _ => false,
    }
}

// The statement at a place is the first of a row of statements that no run comes to.
fn begins_unreached(reached: &[bool], at: usize) -> bool {
    !is_so(reached, at) && (at == 0 || is_so(reached, at.saturating_sub(1)))
}

// What a kind says holds of the statement at a place.
fn holds_at(kind: Kind, statements: &[Statement], reached: &[bool], at: usize) -> bool {
    match kind {
        Kind::RunsPastEnd => may_leave(statements, reached, at),
        Kind::Unreached => begins_unreached(reached, at),
        _ => false,
    }
}

// Adds the statements of which a kind holds.
fn add_statements(
    found: &mut Vec<Notice>,
    source: &Source,
    reached: &[bool],
    kind: Kind,
) -> Result<(), AllocError> {
    let (statements, lines) = (source.statements(), source.lines());
    for at in 0..statements.len() {
        if holds_at(kind, statements, reached, at) {
            add(found, kind, lines.get(at).copied().unwrap_or(0))?;
        }
    }
    Ok(())
}

// Adds the statements that may run past the last one, and those that no run comes to.
fn add_reached(
    found: &mut Vec<Notice>,
    source: &Source,
    reached: &[bool],
) -> Result<(), AllocError> {
    if reached.is_empty() {
        return add(found, Kind::NoStatement, 1);
    }
    add_statements(found, source, reached, Kind::RunsPastEnd)?;
    add_statements(found, source, reached, Kind::Unreached)
}

// Adds what the ways of the statements tell.
fn add_flow(found: &mut Vec<Notice>, alloc: Global, source: &Source) -> Result<(), AllocError> {
    let reached = reached(alloc, source)?;
    add_reached(found, source, &reached)
}

// Marks a label that a word names.
fn mark_word(source: &Source, word: Word, used: &mut [bool]) {
    let Word::Name(name) = word else {
        return;
    };
    let Some(index) = source.labels().get_index_of(name) else {
        return;
    };
    if let Some(mark) = used.get_mut(index) {
        *mark = true;
    }
}

// Marks the labels that the operands of a line name.
fn mark_used(source: &Source, words: &[Word], used: &mut [bool]) {
    let [_, operands @ ..] = statement_words(words) else {
        return;
    };
    for word in operands {
        mark_word(source, *word, used);
    }
}

// Marks the labels that a line names.
fn mark_line(
    alloc: Global,
    source: &Source,
    line: &[u8],
    used: &mut [bool],
) -> Result<(), AllocError> {
    let words = line_words(alloc, line)?;
    mark_used(source, &words, used);
    Ok(())
}

// Marks the labels that these lines name.
fn mark_lines(
    alloc: Global,
    source: &Source,
    lines: &[&[u8]],
    used: &mut [bool],
) -> Result<(), AllocError> {
    for line in lines {
        mark_line(alloc, source, line, used)?;
    }
    Ok(())
}

// For each label, in order, whether an operand names it.
fn used_labels(alloc: Global, source: &Source, lines: &[&[u8]]) -> Result<Vec<bool>, AllocError> {
    let mut used = vec![in alloc; false; source.labels().len()]?;
    mark_lines(alloc, source, lines, &mut used)?;
    Ok(used)
}

// The label at a place names the first statement, as a name for the whole program does.
fn is_entry(source: &Source, at: usize) -> bool {
    match source.labels().get_index(at) {
        Some((_, Label::Code(0))) => true,
        _ => false,
    }
}

// Adds the labels that no operand names: those that are not marked.
fn add_unused(
    found: &mut Vec<Notice>,
    source: &Source,
    definitions: &[Definition],
    used: &[bool],
) -> Result<(), AllocError> {
    for at in 0..definitions.len() {
        let Definition { line, place, .. } = definitions[at];
        if !is_so(used, at) && !is_entry(source, at) {
            add(found, Kind::UnusedLabel(place), line)?;
        }
    }
    Ok(())
}

// A statement may load from the address of the input.
fn may_read_input(statement: &Statement) -> bool {
    match *statement {
        Statement::Plain(Inst::Load { base, offset, .. }) => {
            base != Reg::ZERO || offset == INPUT as i32
        }
        _ => false,
    }
}

// One of the statements may load from the address of the input.
fn reads_input(statements: &[Statement]) -> bool {
    for statement in statements {
        if may_read_input(statement) {
            return true;
        }
    }
    false
}

// Adds an input that no statement can read.
fn add_unread(found: &mut Vec<Notice>, source: &Source) -> Result<(), AllocError> {
    match source.input() {
        Some(line) if !reads_input(source.statements()) => add(found, Kind::UnreadInput, line),
        _ => Ok(()),
    }
}

// Adds all that is seldom meant in a source whose labels are used so.
fn add_warnings(
    found: &mut Vec<Notice>,
    alloc: Global,
    source: &Source,
    lines: &[&[u8]],
    used: &[bool],
) -> Result<(), AllocError> {
    add_flow(found, alloc, source)?;
    let definitions = definitions_of(alloc, lines)?;
    add_unused(found, source, &definitions, used)?;
    add_unread(found, source)
}

/// What is seldom meant in a source of these lines, for each of whose labels it is known whether one uses it: a run may go past
/// its last statement, no run comes to a statement, a label is used nowhere, an input is never read; in this order, each by
/// its lines.
pub fn warnings_with(
    alloc: Global,
    lines: &[&[u8]],
    source: &Source,
    used: &[bool],
) -> Result<Vec<Notice>, AllocError> {
    let mut found = Vec::new(alloc);
    add_warnings(&mut found, alloc, source, lines, used)?;
    Ok(found)
}

/// The same of a source of one text, whose own lines name its labels.
pub fn warnings(
    alloc: Global,
    lines: &[&[u8]],
    source: &Source,
) -> Result<Vec<Notice>, AllocError> {
    let used = used_labels(alloc, source, lines)?;
    warnings_with(alloc, lines, source, &used)
}
