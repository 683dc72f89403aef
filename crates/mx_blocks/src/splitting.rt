//! How a source falls into blocks.
ghost use Rattle.std.specs.Prelude.{◌≡◌, ◌≢◌, ◌≤◌, ◌<◌, ◌+◌, ◌-◌, ◌||◌, ◌⊎◌, ℕ, suc, true, false, IfOk, length, replicate, slice_index_or};
ghost use Rattle.mx_source.specs.Labels.{is_labelled, names_index};
ghost use Rattle.mx_blocks.specs.Leaders.{AreBlocks, IsBlockOf, gap, is_leader};

use crate::Block;
use crate::forms::{end_of, ends_block, insts_of};
use mx_source::{Label, Memory, Source};
use std::alloc::Global;

/// The blocks of a source, in order.
///
/// A block begins at statement 0, at each label, after each transfer and halt, and at each 64th statement
/// of a run without these.
///
/// # Errors
///
/// `Memory` where there is no room for them.
pub fn blocks(alloc: Global, source: &Source) -> Result<Vec<Block>, Memory>
    ensures { IfOk result (λ found. AreBlocks source.now found.items) }
{
    let labelled = labelled_places(alloc, source)?;
    let count = source.statements().len();
    let mut found = Vec::new(alloc);
    let mut first = 0;
    while first < count {
        let end = end_from(source, labelled.as_slice(), first);
        if found.push(block_of(source, first, end)).is_err() {
            return Err(Memory);
        }
        first = end;
    }
    Ok(found)
}

/// Which indices have a code label, the number of statements among them.
fn labelled_places(alloc: Global, source: &Source) -> Result<Vec<bool>, Memory>
    ensures { IfOk result (λ marks. (length marks.items ≡ length source.now.statements + 1)
        × ((i : ℕ) → i ≤ length source.now.statements
        → slice_index_or marks.items i false ≡ is_labelled source.now.labels i)) }
{
    let count = source.statements().len();
    let mut marks = no_marks(alloc, count + 1)?;
    for label in source.labels().values() {
        mark(&mut marks, label);
    }
    Ok(marks)
}

fn no_marks(alloc: Global, count: usize) -> Result<Vec<bool>, Memory>
    ensures { IfOk result (λ marks. marks.items ≡ replicate count false) }
{
    match vec![in alloc; false; count] {
        Ok(marks) => Ok(marks),
        Err(_) => Err(Memory),
    }
}

/// Marks the index of a code label.
fn mark(marks: &mut Vec<bool>, label: &Label)
    ensures len { length marks.new.items ≡ length marks.old.items }
    ensures marks { (i : ℕ) → i < length marks.old.items
        → slice_index_or marks.new.items i false ≡ (slice_index_or marks.old.items i false || names_index i label.now) }
{
    if let Label::Code(index) = *label {
        let index = index as usize;
        if index < marks.len() {
            marks[index] = true;
        }
    }
}

/// The index of the next leader, or the number of statements.
fn end_from(source: &Source, labelled: &[bool], first: usize) -> usize
    requires leader { is_leader source.now first ≡ true }
    requires within { first < length source.now.statements }
    requires marks { length source.now.statements < length labelled.now }
    requires labels { (i : ℕ) → i ≤ length source.now.statements
        → slice_index_or labelled.now i false ≡ is_labelled source.now.labels i }
    ensures later { first < result }
    ensures within { result ≤ length source.now.statements }
    ensures gaps { (i : ℕ) → first ≤ i → i < result → gap (is_labelled source.now.labels) source.now.statements i + first ≡ i }
    ensures next { (is_leader source.now result ≡ true) ⊎ (result ≡ length source.now.statements) }
{
    let count = source.statements().len();
    for i in first + 1..count {
        if leads(source, labelled, first, i) {
            return i;
        }
    }
    count
}

/// Whether statement `i` is a leader, where none lies between it and the leader `first`.
fn leads(source: &Source, labelled: &[bool], first: usize, i: usize) -> bool
    requires later { first < i }
    requires within { i < length source.now.statements }
    requires marks { length source.now.statements < length labelled.now }
    requires label { slice_index_or labelled.now i false ≡ is_labelled source.now.labels i }
    requires gap { gap (is_labelled source.now.labels) source.now.statements (i - 1) + first + 1 ≡ i }
    ensures { result ≡ is_leader source.now i }
{
    labelled[i] || ends_block(&source.statements()[i - 1]) || i - first == 64
}

/// The block of the statements from `first` up to the one before `end`.
fn block_of(source: &Source, first: usize, end: usize) -> Block
    requires leader { is_leader source.now first ≡ true }
    requires later { first < end }
    requires within { end ≤ length source.now.statements }
    requires gaps { (i : ℕ) → first ≤ i → i < end → gap (is_labelled source.now.labels) source.now.statements i + first ≡ i }
    requires next { (is_leader source.now end ≡ true) ⊎ (end ≡ length source.now.statements) }
    ensures first { result.first ≡ first }
    ensures size { length result.insts.items + first ≡ end }
    ensures block { IsBlockOf source.now result }
{
    let statements = source.statements();
    Block {
        first: first as u32,
        insts: insts_of(&statements[first..end]),
        end: end_of(&statements[end - 1]),
        input: source.input().is_some(),
    }
}
