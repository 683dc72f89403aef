//! Rows of costs.
ghost use Rattle.std.specs.Prelude.{◌≡◌, ◌<◌, ℕ, false, IfOk, length, slice_index_or};
ghost use Rattle.lab_costs.specs.Rows.{has_statements, rows_of, AreRowsBy, AreLineRows};
ghost use Rattle.lab_costs.specs.declared.grouping.By.TheVariants.{Line};

use crate::grouping::{By, Group, Grouping, PartName, grouping_by};
use crate::subject::Subject;
use lab_profile::{Column, LineCost, costs_by_line};
use std::alloc::{AllocError, Global};

/// A part of a source, with what it cost.
#[derive(Clone, Copy)]
pub(crate) struct Row {
    pub name: PartName,
    /// A line, counted from 1; 0 where there is none.
    pub line: u32,
    pub cost: LineCost,
}

// Which of so many parts have statements.
fn with_statements(alloc: Global, parts: usize, keys: &[u32]) -> Result<Vec<bool>, AllocError>
    ensures size { IfOk result (λ has. length has.items ≡ parts) }
    ensures each { IfOk result (λ has. (k : ℕ) → k < parts → slice_index_or has.items k false ≡ has_statements keys.now k) }
{
    let mut has = vec![in alloc; false; parts]?;
    for key in keys {
        let place = *key as usize;
        if place < has.len() {
            has[place] = true;
        }
    }
    Ok(has)
}

// The parts that have statements, with what they cost, by the keys and the costs of the statements.
fn rows_from(
    alloc: Global,
    groups: &[Group],
    keys: &[u32],
    costs: &[LineCost],
) -> Result<Vec<Row>, AllocError>
    requires { length keys.now ≡ length costs.now }
    ensures { IfOk result (λ rows. rows.items ≡ rows_of groups.now keys.now costs.now) }
{
    let has = with_statements(alloc, groups.len(), keys)?;
    let sums = costs_by_line(alloc, keys, costs)?;
    let mut rows = Vec::new(alloc);
    for number in 0..groups.len() {
        if has[number] {
            rows.push(Row {
                name: groups[number].name,
                line: groups[number].line,
                cost: sums[number],
            })?;
        }
    }
    Ok(rows)
}

// The parts that have statements, with what they cost, in the order of the source. Keys and costs are of the same statements.
fn rows_of(alloc: Global, grouping: &Grouping, costs: &[LineCost]) -> Result<Vec<Row>, AllocError>
    ensures { IfOk result (λ rows. length grouping.now.keys.items ≡ length costs.now
        → rows.items ≡ rows_of grouping.now.groups.items grouping.now.keys.items costs.now) }
{
    let count = grouping.keys.len().min(costs.len());
    rows_from(
        alloc,
        grouping.groups.as_slice(),
        &grouping.keys[..count],
        &costs[..count],
    )
}

/// The parts of a source that have statements, with what they cost, in the order of a column.
pub(crate) fn rows_by(
    alloc: Global,
    subject: &Subject,
    costs: &[LineCost],
    by: By,
    column: Column,
) -> Result<Vec<Row>, AllocError>
    ensures rows { IfOk result (λ rows. length costs.now ≡ length subject.now.source.now.lines
        → AreRowsBy by column subject.now.text.now subject.now.source.now.lines costs.now rows.items) }
    ensures by_line { IfOk result (λ rows. length costs.now ≡ length subject.now.source.now.lines → by ≡ Line
        → AreLineRows column subject.now.text.now subject.now.source.now.lines costs.now rows.items) }
{
    let grouping = grouping_by(alloc, subject, by)?;
    let mut rows = rows_of(alloc, &grouping, costs)?;
    rows.sort_by_key(|row| u64::MAX - column.number(&row.cost))?;
    Ok(rows)
}
