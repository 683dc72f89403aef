//! Cases by traces, which come from outside: each cell of a drawing against the stages of that cycle.
use crate::case::run;
use anyhow::Result;
use test_case_files::{behind, halves, wanted_text};

/// Where the cells of a row begin, how wide one is, and how many a band has.
const LABEL: usize = 36;

const WIDTH: usize = 4;

const BAND: usize = 16;

/// A stage of a trace that holds nothing.
const EMPTY: &str = "--------";

/// The stages, from the first on.
const STAGES: [&str; 5] = ["IF", "RF", "ALU", "MEM", "WB"];

// The cell of a line in a column of its band.
fn cell(line: &str, column: usize) -> &str {
    let begin = LABEL.saturating_add(WIDTH.saturating_mul(column));
    let end = begin.saturating_add(WIDTH).min(line.len());
    line.get(begin..end).unwrap_or("").trim()
}

// The lines of the band that begins at a cycle, if there is one.
fn band(text: &str, cycle: usize) -> Option<&str> {
    for band in text.split("\n\n") {
        if first_of(band) == Some(cycle) {
            return Some(band);
        }
    }
    None
}

// The first cycle of a band.
fn first_of(band: &str) -> Option<usize> {
    let (front, _) = band.strip_prefix("cycles ")?.split_once(" ")?;
    front.parse::<usize>().ok()
}

// The stage of a cell, without its mark.
fn stage_of(cell: &str) -> &str {
    cell.trim_end_matches(['*', '!'].as_slice())
}

// Whether a row is that of the address in a stage of a trace, and its cell has the mark of it. What an interrupt kills has no
// mark in the trace.
fn is_row(row: &str, column: usize, stage: &str) -> bool {
    let shown = cell(row, column);
    let squashed = stage.ends_with("*");
    row.starts_with(stage.trim_end_matches("*"))
        && (shown.ends_with("!") || shown.ends_with("*") == squashed)
}

// Whether a column shows in one of the stages what a trace has there, and no more.
fn is_shown(band: &str, column: usize, name: &str, stage: &str) -> bool {
    let mut shown = None;
    for row in band.lines() {
        if stage_of(cell(row, column)) == name {
            if shown.is_some() {
                return false;
            }
            shown = Some(row);
        }
    }
    match shown {
        Some(row) => is_row(row, column, stage),
        None => stage == EMPTY,
    }
}

// Whether a column shows the five stages of a trace, or none of them where the cycle is stalled.
fn are_shown(band: &str, column: usize, traced: &str) -> bool {
    let mut stages = traced.split(" ");
    for name in STAGES {
        let stage = if traced == "stall" {
            Some(EMPTY)
        } else {
            stages.next()
        };
        let Some(stage) = stage else {
            return false;
        };
        if !is_shown(band, column, name, stage) {
            return false;
        }
    }
    true
}

// Whether a drawing from cycle 0 on shows what a line of a trace has.
fn agrees(text: &str, line: &str) -> Option<bool> {
    let (cycle, traced) = line.split_once(" ")?;
    let cycle = cycle.parse::<usize>().ok()?;
    let column = cycle % BAND;
    Some(are_shown(band(text, cycle - column)?, column, traced))
}

// In how many cycles a drawing shows what a trace has.
fn agreeing(text: &str, trace: &str) -> u64 {
    let mut count = 0u64;
    for line in trace.lines() {
        if agrees(text, line) == Some(true) {
            count = count.saturating_add(1);
        }
    }
    count
}

fn agreeing_with_wanted(rt: &HostRuntime, name: &str, text: &str) -> Result<u64> {
    let trace = wanted_text(rt, name)?;
    Ok(agreeing(text, trace.as_str()))
}

fn agreeing_of_command(rt: &HostRuntime, name: &str, words: &str) -> Result<u64> {
    let ended = run(rt, words)?;
    agreeing_with_wanted(rt, name, ended.text()?)
}

/// In how many cycles the drawing shows what the trace `wanted/NAME` has, for the case `CYCLES NAME: WORDS`.
pub fn traced(rt: &HostRuntime, line: &str) -> Result<String> {
    let case = behind(line, " ")?;
    let (name, words) = halves(case, ": ")?;
    let count = agreeing_of_command(rt, name, words)?;
    Ok(format!(in rt.alloc(); "{count} {case}")?)
}
