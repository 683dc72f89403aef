//! Parts of a source by which costs are told.
ghost use Rattle.std.specs.Prelude.{◌≡◌, ◌<◌, ◌≤◌, ◌-◌, ◌^◌, IfOk, All, length, max, min};
ghost use Rattle.lab_costs.specs.Rows.{AreBelow, AreLinesOf, AreLineGroups, IsGrouping};

use crate::subject::Subject;
use indexmap::IndexMap;
use lab_positions::{Position, Positions, Span, line_spans, positions_of};
use mx_isa::DATA_BASE;
use mx_source::{Label, Source, Statement, Value};
use std::alloc::{AllocError, Global};

/// By which parts of a source costs are told.
#[derive(Clone, Copy, Debug, PartialEq, Eq)]
pub enum By {
    /// Its lines.
    Line,
    /// What stands from a code label to the next.
    Label,
    /// The same by the labels alone that a call names, or a word for functions of C, and the one that the source begins with.
    Function,
    /// The lines of C that it was made from.
    C,
}

/// What a part of a source is named by.
#[derive(Clone, Copy)]
pub(crate) enum PartName {
    /// It stands before the first label.
    Start,
    /// No line of C is known for it.
    Unknown,
    /// A part of the text.
    Text(Span),
    /// The label of this index.
    Label(usize),
}

impl PartName {
    /// The bytes of the name.
    pub(crate) fn bytes<'a>(self, subject: &Subject<'a>) -> &'a [u8] {
        let source = subject.source;
        match self {
            PartName::Start => b"(start)",
            PartName::Unknown => b"(no line of C)",
            PartName::Text(span) => span.bytes(subject.text),
            PartName::Label(index) => match source.labels().get_index(index) {
                Some((name, _)) => name.bytes(),
                None => b"",
            },
        }
    }
}

/// A part of a source.
#[derive(Clone, Copy)]
pub(crate) struct Group {
    pub name: PartName,
    /// The first line of it, in the source; 0 where it has none.
    pub line: u32,
}

/// The parts of a source, and for each statement the number of its part.
#[derive(Drop)]
pub(crate) struct Grouping {
    pub groups: Vec<Group>,
    pub keys: Vec<u32>,
}

/// What stands for line 0, which there is none.
const NO_LINE: Group = Group {
    name: PartName::Text(Span { start: 0, end: 0 }),
    line: 0,
};

/// What a statement is told under that stands before the first label.
const BEFORE: Group = Group {
    name: PartName::Start,
    line: 0,
};

/// What a statement is told under for which no line of C is known.
const UNKNOWN: Group = Group {
    name: PartName::Unknown,
    line: 0,
};

/// The number of the last part; 0 where there is none.
fn last_number(groups: &[Group]) -> u32
    ensures { result ≡ min (length groups.now - 1) (2 ^ 32 - 1) }
{
    u32::try_from(groups.len().saturating_sub(1)).unwrap_or(u32::MAX)
}

impl Grouping {
    /// Puts the statements up to a number into the last part.
    fn fill(&mut self, statements: usize) -> Result<(), AllocError>
        ensures size { IfOk result (λ done. length self.new.keys.items ≡ max (length self.old.keys.items) statements) }
        ensures groups { IfOk result (λ done. self.new.groups.items ≡ self.old.groups.items) }
        ensures below { IfOk result (λ done. 0 < length self.old.groups.items → AreBelow self.old.keys.items (length self.old.groups.items)
            → AreBelow self.new.keys.items (length self.old.groups.items)) }
    {
        let number = last_number(self.groups.as_slice());
        for _ in self.keys.len()..statements {
            self.keys.push(number)?;
        }
        Ok(())
    }
}

/// Each line of the source by itself.
fn by_lines(alloc: Global, subject: &Subject) -> Result<Grouping, AllocError>
    ensures keys { IfOk result (λ grouping. grouping.keys.items ≡ subject.now.source.now.lines) }
    ensures groups { IfOk result (λ grouping. AreLineGroups subject.now.text.now grouping.groups.items) }
    ensures below { IfOk result (λ grouping. AreLinesOf subject.now.text.now subject.now.source.now.lines
        → AreBelow grouping.keys.items (length grouping.groups.items)) }
{
    let spans = line_spans(alloc, subject.text)?;
    let mut groups = vec![in alloc; NO_LINE; 1]?;
    let mut line = 0u32;
    for span in spans.iter() {
        line = line.saturating_add(1);
        let name = PartName::Text(*span);
        groups.push(Group { name, line })?;
    }
    let keys = Vec::from_slice(alloc, subject.source.lines())?;
    Ok(Grouping { groups, keys })
}

/// The statement whose place a data word holds that a label `d.NAME` names: a function of C that is called by its address.
fn pointed_to(source: &Source, name: &[u8], address: u32) -> Option<u32> {
    let [b'd', b'.', ..] = name else {
        return None;
    };
    let number = address.checked_sub(DATA_BASE)?;
    match source.user_data().get(number as usize)? {
        Value::Code(statement) => Some(*statement),
        Value::Int(_) => None,
    }
}

/// Notes that a function begins with a statement.
fn begin(called: &mut Vec<bool>, statement: u32) {
    if let Some(begins) = called.get_mut(statement as usize) {
        *begins = true;
    }
}

/// For each statement whether a function begins with it: a call names it, or a word for functions does, or it is the first.
fn called_statements(alloc: Global, source: &Source) -> Result<Vec<bool>, AllocError> {
    let mut called = vec![in alloc; false; source.statements().len()]?;
    begin(&mut called, 0);
    for statement in source.statements() {
        if let Statement::Call { target, .. } = statement {
            begin(&mut called, *target);
        }
    }
    let labels = source.labels();
    for index in 0..labels.len() {
        let Some((name, Label::Data(address))) = labels.get_index(index) else {
            continue;
        };
        if let Some(statement) = pointed_to(source, name.bytes(), *address) {
            begin(&mut called, statement);
        }
    }
    Ok(called)
}

/// The statements before which a label stands, in order, each with the indices of its labels.
fn labelled(
    alloc: Global,
    source: &Source,
    chosen: &[bool],
) -> Result<Vec<(u32, usize)>, AllocError> {
    let mut starts = Vec::new(alloc);
    let labels = source.labels();
    for index in 0..labels.len() {
        let Some((_, Label::Code(statement))) = labels.get_index(index) else {
            continue;
        };
        if chosen.get(*statement as usize) == Some(&true) {
            starts.push((*statement, index))?;
        }
    }
    starts.sort()?;
    Ok(starts)
}

/// Each statement by the last of these starts that does not stand behind it, with the first of its labels.
fn by_starts(alloc: Global, lines: &[u32], starts: &[(u32, usize)]) -> Result<Grouping, AllocError>
    ensures size { IfOk result (λ grouping. length grouping.keys.items ≡ length lines.now) }
    ensures below { IfOk result (λ grouping. AreBelow grouping.keys.items (length grouping.groups.items)) }
{
    let mut grouping = Grouping {
        groups: vec![in alloc; BEFORE; 1]?,
        keys: Vec::new(alloc),
    };
    let mut last = None;
    for (statement, label) in starts {
        if last == Some(*statement) {
            continue;
        }
        last = Some(*statement);
        let first = *statement as usize;
        grouping.fill(first.min(lines.len()))?;
        let name = PartName::Label(*label);
        let line = lines.get(first).copied().unwrap_or(0);
        grouping.groups.push(Group { name, line })?;
    }
    grouping.fill(lines.len())?;
    Ok(grouping)
}

/// Each statement by the last label before it, of those that stand before the chosen statements.
fn by_labels(alloc: Global, source: &Source, chosen: &[bool]) -> Result<Grouping, AllocError>
    ensures size { IfOk result (λ grouping. length grouping.keys.items ≡ length source.now.lines) }
    ensures below { IfOk result (λ grouping. AreBelow grouping.keys.items (length grouping.groups.items)) }
{
    let starts = labelled(alloc, source, chosen)?;
    by_starts(alloc, source.lines(), starts.as_slice())
}

/// The number of the part of a line of C, which is added where it is new; 0 where the line is unknown.
fn numbered(
    numbers: &mut IndexMap<(u32, u32), u32>,
    groups: &mut Vec<Group>,
    position: Option<Position>,
) -> Result<u32, AllocError>
    ensures grows { IfOk result (λ number. length groups.old.items ≤ length groups.new.items) }
    ensures below { IfOk result (λ number. 0 < length groups.old.items → All (λ e. e.1 < length groups.old.items) numbers.old.entries
        → number < length groups.new.items) }
    ensures numbers { IfOk result (λ number. All (λ e. e.1 < length groups.old.items) numbers.old.entries
        → All (λ e. e.1 < length groups.new.items) numbers.new.entries) }
{
    let Some(position) = position else {
        return Ok(0);
    };
    let place = (position.file, position.line);
    if let Some(number) = numbers.get(&place) {
        return Ok(*number);
    }
    groups.push(Group {
        name: PartName::Text(position.name),
        line: position.line,
    })?;
    let number = last_number(groups.as_slice());
    numbers.insert(place, number)?;
    Ok(number)
}

/// For each of these lines the number of the part of its line of C.
fn keys_by(
    alloc: Global,
    lines: &[u32],
    positions: &Positions,
    groups: &mut Vec<Group>,
) -> Result<Vec<u32>, AllocError>
    ensures size { IfOk result (λ keys. length keys.items ≡ length lines.now) }
    ensures below { IfOk result (λ keys. 0 < length groups.old.items → AreBelow keys.items (length groups.new.items)) }
{
    let mut numbers = IndexMap::new(alloc);
    let mut keys = Vec::new(alloc);
    for line in lines {
        let key = numbered(&mut numbers, groups, positions.at(*line))?;
        keys.push(key)?;
    }
    Ok(keys)
}

/// Each statement by the line of C that it was made from.
fn by_positions(alloc: Global, subject: &Subject) -> Result<Grouping, AllocError>
    ensures size { IfOk result (λ grouping. length grouping.keys.items ≡ length subject.now.source.now.lines) }
    ensures below { IfOk result (λ grouping. AreBelow grouping.keys.items (length grouping.groups.items)) }
{
    let positions = positions_of(alloc, subject.text)?;
    let mut groups = vec![in alloc; UNKNOWN; 1]?;
    let keys = keys_by(alloc, subject.source.lines(), &positions, &mut groups)?;
    Ok(Grouping { groups, keys })
}

/// The parts of a source.
pub(crate) fn grouping_by(alloc: Global, subject: &Subject, by: By) -> Result<Grouping, AllocError>
    ensures { IfOk result (λ grouping. IsGrouping by subject.now.text.now subject.now.source.now.lines grouping.groups.items grouping.keys.items) }
{
    let source = subject.source;
    match by {
        By::Line => by_lines(alloc, subject),
        By::Label => {
            let all = vec![in alloc; true; source.statements().len()]?;
            by_labels(alloc, source, all.as_slice())
        }
        By::Function => {
            let called = called_statements(alloc, source)?;
            by_labels(alloc, source, called.as_slice())
        }
        By::C => by_positions(alloc, subject),
    }
}
