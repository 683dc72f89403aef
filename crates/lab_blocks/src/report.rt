//! The blocks of a linked source.
ghost use Rattle.std.specs.Prelude.{◌≡◌, IfOk, map, slice_index};
ghost use Rattle.lab_blocks.specs.Ran.{RanAsCounted, runs_by};

use crate::bound::lower_bound;
use crate::edges::edges_of;
use crate::facts::{Facts, Row, Successors};
use crate::lengths::lengths_of;
use crate::statement::{address_of, statement_text};
use lab_terms::ways_of;
use lab_words::{NamedPlace, PlaceNames};
use mx_blocks::{Block, blocks};
use mx_depend::Graph;
use mx_io::Memory;
use mx_isa::Inst;
use mx_link::{Linked, Origin};
use mx_source::Source;
use std::alloc::{AllocError, Global};

/// A linked source, with the names of its statements.
#[derive(Drop)]
struct Program<'a> {
    source: &'a Source,
    linked: &'a Linked,
    names: PlaceNames<'a>,
    /// The code labels by their addresses: the address and the number of a label.
    labels: Vec<(u32, usize)>,
    /// The number of each statement's block, from 1.
    numbers: Vec<u32>,
}

// An address for each statement, and one behind the last.
fn addresses(alloc: Global, count: usize) -> Result<Vec<u32>, AllocError> {
    let mut addresses = Vec::new(alloc);
    let mut address = address_of(0);
    for _ in 0..count.saturating_add(1) {
        addresses.push(address)?;
        address = address.saturating_add(1);
    }
    Ok(addresses)
}

// The names of a source, each of whose statements is a word.
fn names_of<'a>(alloc: Global, source: &'a Source) -> Result<PlaceNames<'a>, AllocError> {
    let count = source.statements().len();
    let addresses = addresses(alloc, count)?;
    PlaceNames::new(alloc, source, addresses.as_slice(), count)
}

// The code labels by their addresses.
fn code_labels(alloc: Global, names: &PlaceNames) -> Result<Vec<(u32, usize)>, AllocError> {
    let mut labels = Vec::new(alloc);
    for (index, place) in names.places().iter().enumerate() {
        if let NamedPlace::Code(address) = place {
            labels.push((*address, index))?;
        }
    }
    labels.sort()?;
    Ok(labels)
}

// The number of each statement's block, from 1.
fn block_numbers(alloc: Global, blocks: &[Block]) -> Result<Vec<u32>, AllocError> {
    let mut numbers = Vec::new(alloc);
    let mut number = 0u32;
    for block in blocks {
        number = number.saturating_add(1);
        for _ in 0..block.insts.len() {
            numbers.push(number)?;
        }
    }
    Ok(numbers)
}

impl<'a> Program<'a> {
    // A linked source with these blocks.
    fn new(
        alloc: Global,
        source: &'a Source,
        linked: &'a Linked,
        blocks: &[Block],
    ) -> Result<Program<'a>, AllocError> {
        let names = names_of(alloc, source)?;
        let labels = code_labels(alloc, &names)?;
        let numbers = block_numbers(alloc, blocks)?;
        Ok(Program {
            source,
            linked,
            names,
            labels,
            numbers,
        })
    }

    // The number of the block of a statement, if there is such a statement.
    fn number(&self, statement: u32) -> Option<u32> {
        self.numbers.get(statement as usize).copied()
    }

    // The labels of a statement, of those from an index on.
    fn labels_at(
        &self,
        alloc: Global,
        told: usize,
        statement: u32,
    ) -> Result<Vec<String>, AllocError> {
        let address = address_of(statement);
        let mut texts = Vec::new(alloc);
        for at in told..self.labels.len() {
            let (labelled, index) = self.labels[at];
            if labelled != address {
                break;
            }
            let name = str::from_utf8(self.names.name(index)).unwrap_or("?");
            texts.push(String::from_str(alloc, name)?)?;
        }
        Ok(texts)
    }

    // The block of a target, if there is one.
    fn target(&self, target: Option<u32>) -> Option<u32> {
        self.number(target?)
    }

    // The block behind this statement, if a run may go on there.
    fn next(&self, last: u32, on: bool) -> Option<u32> {
        if on {
            self.number(last.saturating_add(1))
        } else {
            None
        }
    }

    // Where a block may go on whose last statement this is.
    fn successors(&self, last: u32) -> Successors {
        match self.source.statements().get(last as usize) {
            Some(statement) => {
                let ways = ways_of(statement);
                Successors {
                    target: self.target(ways.target),
                    next: self.next(last, ways.on),
                }
            }
            None => Successors {
                target: None,
                next: None,
            },
        }
    }

    // The address of the block that begins at a statement, from the first word of code on.
    fn offset(&self, statement: u32) -> usize {
        let links = self.linked.links.as_slice();
        let at = links.get(statement as usize).copied().unwrap_or(0);
        at.saturating_sub(address_of(0)) as usize
    }

    // How many words are copied into a block of these statements.
    fn copied(&self, first: u32, behind: u32) -> usize {
        let mut count = 0usize;
        for at in self.offset(first)..self.offset(behind) {
            if let Some(Origin::Copy(_)) = self.linked.origin.get(at) {
                count = count.saturating_add(1);
            }
        }
        count
    }
}

// The text of a statement; none where there is no such statement.
fn text_at(alloc: Global, program: &Program, statement: usize) -> Result<String, AllocError> {
    match program.source.statements().get(statement) {
        Some(found) => statement_text(alloc, &program.names, found),
        None => Ok(String::new(alloc)),
    }
}

// An instruction of this height, by its statement.
fn row_of(
    alloc: Global,
    program: &Program,
    statement: usize,
    inst: Inst,
    height: u8,
) -> Result<Row, AllocError> {
    let line = program.source.lines().get(statement).copied().unwrap_or(0);
    let text = text_at(alloc, program, statement)?;
    Ok(Row {
        line,
        text,
        inst,
        height,
    })
}

// The instructions of a block.
fn rows_of(alloc: Global, program: &Program, block: &Block) -> Result<Vec<Row>, AllocError> {
    let graph = Graph::of(block.insts.as_slice(), block.input);
    let mut rows = Vec::new(alloc);
    for k in 0..block.insts.len() {
        let statement = (block.first as usize).saturating_add(k);
        let height = graph.height(k as u8);
        let row = row_of(alloc, program, statement, block.insts[k], height)?;
        rows.push(row)?;
    }
    Ok(rows)
}

// How often a statement was executed, by the counts of all.
fn count_at(counts: &[u64], statement: u32) -> u64
    ensures { result ≡ slice_index counts.now statement }
{
    match counts.get(statement as usize) {
        Some(count) => *count,
        None => 0,
    }
}

// What is told of a block, behind so many labels, where the statements were executed so often.
fn facts_of(
    alloc: Global,
    program: &Program,
    block: &Block,
    told: usize,
    counts: &[u64],
) -> Result<Facts, AllocError>
    ensures { IfOk result (λ facts. facts.ran ≡ slice_index counts.now block.now.first) }
{
    let count = block.insts.len() as u32;
    let behind = block.first.saturating_add(count);
    Ok(Facts {
        labels: program.labels_at(alloc, told, block.first)?,
        rows: rows_of(alloc, program, block)?,
        edges: edges_of(alloc, block)?,
        end: block.end,
        successors: program.successors(behind.saturating_sub(1)),
        bound: lower_bound(block),
        lengths: lengths_of(block),
        copied: program.copied(block.first, behind),
        ran: count_at(counts, block.first),
    })
}

// What is told of each of these blocks.
fn all_facts(
    alloc: Global,
    source: &Source,
    linked: &Linked,
    blocks: &[Block],
    counts: &[u64],
) -> Result<Vec<Facts>, AllocError>
    ensures { IfOk result (λ all. map (λ facts. facts.ran) all.items ≡ runs_by counts.now blocks.now) }
{
    let program = Program::new(alloc, source, linked, blocks)?;
    let (mut all, mut told) = (Vec::new(alloc), 0usize);
    for block in blocks {
        let facts = facts_of(alloc, &program, block, told, counts)?;
        told = told.saturating_add(facts.labels.len());
        all.push(facts)?;
    }
    Ok(all)
}

/// What is told of each block of a source that is linked by the list scheduler, with copies, where its statements were executed as
/// often as the counts say. A block ran as often as its first statement was executed.
pub fn source_blocks(
    alloc: Global,
    source: &Source,
    linked: &Linked,
    counts: &[u64],
) -> Result<Vec<Facts>, Memory>
    ensures { IfOk result (λ all. RanAsCounted source.now counts.now all.items) }
{
    let blocks = blocks(alloc, source)?;
    match all_facts(alloc, source, linked, blocks.as_slice(), counts) {
        Ok(all) => Ok(all),
        Err(_) => Err(Memory),
    }
}
