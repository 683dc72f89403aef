//! What a run cost, in the format of callgrind.
ghost use Rattle.std.specs.Prelude.{◌≡◌};
ghost use Rattle.lab_costs.specs.Costs.{events_of};

use crate::grouping::{By, Grouping, grouping_by};
use crate::shown::push_last;
use crate::subject::Subject;
use lab_positions::{Positions, positions_of};
use lab_profile::{Called, Calls, LineCost};
use lab_writer::Writer;
use mx_isa::CODE_BASE;
use mx_link::Origin;
use std::alloc::{AllocError, Global};

/// What stands before the costs.
const HEAD: &str = "# callgrind format\nversion: 1\ncreator: mx_lab\n";

/// The columns.
const EVENTS: &str =
    "positions: line\nevents: Cycles Executed Stalls Noops Squashed Killed Caused\n";

/// Where a statement stands in a file.
#[derive(Clone, Copy)]
struct Place<'a> {
    file: &'a [u8],
    line: u32,
}

/// What places and functions are found by.
#[derive(Drop)]
struct Names<'a> {
    subject: Subject<'a>,
    functions: Grouping,
    /// The lines of C, where these are asked for.
    positions: Positions,
    /// For each function the file of its first statement whose line of C is known.
    files: Vec<Option<u32>>,
}

// Notes the file of a function, where none is noted.
fn note(files: &mut Vec<Option<u32>>, function: u32, file: u32) {
    if let Some(noted) = files.get_mut(function as usize) {
        *noted = noted.or(Some(file));
    }
}

// For each function the file of its first statement whose line of C is known.
fn files_of(
    alloc: Global,
    lines: &[u32],
    functions: &Grouping,
    positions: &Positions,
) -> Result<Vec<Option<u32>>, AllocError> {
    let mut files = vec![in alloc; None; functions.groups.len()]?;
    for (key, line) in functions.keys.iter().zip(lines.iter()) {
        if let Some(position) = positions.at(*line) {
            note(&mut files, *key, position.file);
        }
    }
    Ok(files)
}

impl<'a> Names<'a> {
    // The name of a file of C, or that of the source.
    fn file_name(&self, file: Option<u32>) -> &'a [u8] {
        match file {
            Some(file) => self.positions.file_name(self.subject.text, file),
            None => self.subject.file.as_bytes(),
        }
    }

    // The number of the function that a statement belongs to.
    fn key(&self, statement: u32) -> Option<usize> {
        let key = self.functions.keys.get(statement as usize)?;
        Some(*key as usize)
    }

    // The file of the function that a statement belongs to: that of C, where it is known, or the source.
    fn file(&self, statement: u32) -> &'a [u8] {
        let file = match self.key(statement) {
            Some(key) => self.files.get(key).copied().flatten(),
            None => None,
        };
        self.file_name(file)
    }

    // The place of a statement: its line of C, where that is asked for and known; in a function of C of which it is not known,
    // line 0; else its line of the source.
    fn place(&self, statement: u32) -> Place<'a> {
        let line = self.subject.line_of(statement);
        if let Some(position) = self.positions.at(line) {
            return Place {
                file: self.file_name(Some(position.file)),
                line: position.line,
            };
        }
        let file = self.file(statement);
        if file == self.subject.file.as_bytes() {
            Place { file, line }
        } else {
            Place { file, line: 0 }
        }
    }

    // The name of the function that a statement belongs to.
    fn function(&self, statement: u32) -> &'a [u8] {
        let group = match self.key(statement) {
            Some(key) => self.functions.groups.get(key),
            None => None,
        };
        match group {
            Some(group) => group.name.bytes(&self.subject),
            None => b"",
        }
    }

    // The statement of the code word at an address.
    fn statement_at(&self, address: u32) -> Option<u32> {
        let number = address.wrapping_sub(CODE_BASE) as usize;
        match self.subject.origin().get(number)? {
            Origin::Own(statement) | Origin::Copy(statement) => Some(*statement),
            Origin::Pad => None,
        }
    }
}

// Appends a file or a function that what follows belongs to.
fn push_name(text: &mut Writer, word: &str, name: &[u8]) {
    text.push_str(word);
    push_last(text, name);
}

// Appends numbers, a blank before each, and the end of the line.
fn push_numbers(text: &mut Writer, numbers: &[u64]) {
    for number in numbers {
        text.push_numbers(&[" "], &[*number]);
    }
    text.push('\n');
}

// Appends a line of numbers.
fn push_row(text: &mut Writer, first: u64, rest: &[u64]) {
    text.push_number(first);
    push_numbers(text, rest);
}

// The numbers of a cost, by columns.
fn columns_of(cost: &LineCost) -> [u64; 7]
    ensures { result ≡ events_of cost.now }
{
    [
        cost.cycles,
        cost.executed,
        cost.stalls,
        cost.noops,
        cost.cancelled,
        cost.killed,
        cost.caused(),
    ]
}

// Appends a cost.
fn push_cost(text: &mut Writer, line: u32, cost: &LineCost) {
    push_row(text, u64::from(line), &columns_of(cost));
}

// Appends the file and the function of what follows.
fn push_place(text: &mut Writer, file: &[u8], function: &[u8]) {
    push_name(text, "fl=", file);
    push_name(text, "fn=", function);
}

// Appends what a statement cost by itself.
fn push_own_cost(text: &mut Writer, names: &Names, statement: u32, cost: &LineCost) {
    let place = names.place(statement);
    push_place(text, place.file, names.function(statement));
    push_cost(text, place.line, cost);
}

// Appends what the statements cost by themselves.
fn push_own_costs(text: &mut Writer, names: &Names, costs: &[LineCost]) {
    let mut statement = 0u32;
    for cost in costs {
        if cost.cycles > 0 {
            push_own_cost(text, names, statement, cost);
        }
        statement = statement.saturating_add(1);
    }
}

// Appends what calls from one statement to another cost, and how often they were made.
fn push_call(text: &mut Writer, names: &Names, from: u32, to: u32, called: Called) {
    let site = names.place(from);
    push_place(text, site.file, names.function(from));
    push_name(text, "cfl=", names.file(to));
    push_name(text, "cfn=", names.function(to));
    text.push_str("calls=");
    push_row(text, called.count, &[u64::from(names.place(to).line)]);
    let costs = [called.cycles, called.executed];
    push_row(text, u64::from(site.line), &costs);
}

// Appends what the calls cost.
fn push_calls(text: &mut Writer, names: &Names, calls: &Calls) {
    for index in 0..calls.costs.len() {
        let Some((ends, called)) = calls.costs.get_index(index) else {
            continue;
        };
        let from = names.statement_at(ends.0);
        let to = names.statement_at(ends.1);
        if let (Some(from), Some(to)) = (from, to) {
            push_call(text, names, from, to, *called);
        }
    }
}

// Appends a cost that comes from no statement.
fn push_rest(text: &mut Writer, name: &[u8], cost: &LineCost) {
    if cost.cycles > 0 {
        push_place(text, b"???", name);
        push_cost(text, 0, cost);
    }
}

// Appends what stands before the costs.
fn push_head(text: &mut Writer, file: &str, together: &LineCost) {
    text.push_str(HEAD);
    text.push_parts(&["cmd: ", file, "\n"]);
    text.push_str(EVENTS);
    text.push_str("summary:");
    push_numbers(text, &columns_of(together));
}

// The lines of C, if it is by these that costs are told.
fn positions_by(alloc: Global, text: &[u8], by: By) -> Result<Positions, AllocError> {
    match by {
        By::C => positions_of(alloc, text),
        _ => Ok(Positions::new(alloc)),
    }
}

// What places and functions are found by, with the lines of C if it is by these that costs are told.
fn names_of<'a>(alloc: Global, subject: &Subject<'a>, by: By) -> Result<Names<'a>, AllocError> {
    let positions = positions_by(alloc, subject.text, by)?;
    let functions = grouping_by(alloc, subject, By::Function)?;
    let files = files_of(alloc, subject.source.lines(), &functions, &positions)?;
    Ok(Names {
        subject: *subject,
        functions,
        positions,
        files,
    })
}

// The same as a text, where these are the costs of the statements.
fn text_of(
    alloc: Global,
    names: &Names,
    calls: &Calls,
    costs: &[LineCost],
) -> Result<Vec<u8>, AllocError> {
    let subject = &names.subject;
    let mut text = Writer::new(alloc);
    push_head(&mut text, subject.file, &subject.together(costs));
    push_own_costs(&mut text, names, costs);
    push_calls(&mut text, names, calls);
    push_rest(&mut text, b"the handler", &subject.handler());
    push_rest(&mut text, b"behind the code", &subject.behind());
    text.into_bytes()
}

/// What a run cost and which calls it made, in the format of callgrind, by the lines of the source or by those of C. A function
/// is what stands from a label that a call names to the next.
pub fn callgrind(
    alloc: Global,
    subject: &Subject,
    calls: &Calls,
    by: By,
) -> Result<Vec<u8>, AllocError> {
    let costs = subject.statement_costs(alloc)?;
    let names = names_of(alloc, subject, by)?;
    text_of(alloc, &names, calls, costs.as_slice())
}
