//! What is told of a block.
use crate::kinds::Kind;
use crate::lengths::Lengths;
use mx_blocks::End;
use mx_isa::Inst;

/// An instruction of a block.
#[derive(Drop)]
pub struct Row {
    pub line: u32,
    /// The statement in assembly language.
    pub text: String,
    pub inst: Inst,
    /// The greatest weight of a path from it.
    pub height: u8,
}

/// A dependence of a later instruction of a block on an earlier one.
#[derive(Clone, Copy)]
pub struct Edge {
    pub from: usize,
    pub to: usize,
    pub kind: Kind,
    /// How many items the two are apart, at least.
    pub weight: u8,
}

/// The blocks, counted from 1, to which a block may go on.
#[derive(Clone, Copy)]
pub struct Successors {
    pub target: Option<u32>,
    pub next: Option<u32>,
}

/// What is told of a block.
#[derive(Drop)]
pub struct Facts {
    /// The code labels of its first statement.
    pub labels: Vec<String>,
    pub rows: Vec<Row>,
    pub edges: Vec<Edge>,
    pub end: End,
    pub successors: Successors,
    /// No valid plan has fewer items.
    pub bound: u8,
    pub lengths: Lengths,
    /// How many words of its target are copied into its slots.
    pub copied: usize,
    /// How often it ran: how often its first statement was executed.
    pub ran: u64,
}

impl Facts {
    /// The lines of its first and its last statement.
    pub(crate) fn lines(&self) -> (u32, u32) {
        match (self.rows.first(), self.rows.last()) {
            (Some(first), Some(last)) => (first.line, last.line),
            _ => (0, 0),
        }
    }
}

/// What is printed where the run ended with its budget.
pub(crate) const NOT_HALTED: &str = "the run has not halted within its budget";

/// What ends a block, in a word.
pub(crate) fn end_word(end: End) -> &'static str {
    match end {
        End::Falls => "falls",
        End::Halts => "halt",
        End::Branches { .. } => "branch",
        End::Calls { .. } => "call",
        End::Jumps => "jump",
    }
}
