//! The labels that name one place.
ghost use Rattle.std.specs.Prelude.{◌≡◌, ℕ, ◌≤◌, ◌<◌, ◌++◌, ◌∷◌, [], ◌==◌, cond, length, codes, take, OnOk, IfOk};
ghost use Rattle.mx_source.specs.Sections.{names_at, is_place};

use crate::Label;
use mx_isa::DATA_BASE;
use std::alloc::{AllocError, Global};

/// Which places: those of statements, or those of data words.
#[derive(Clone, Copy)]
pub(crate) enum Section {
    Code,
    Data,
}

impl Section {
    /// The number of the place that a label names, counted from the first of the section.
    pub(crate) fn place(self, label: &Label) -> Option<usize>
        ensures { (k : ℕ) → is_place result k ≡ names_at self k label.now }
    {
        match (self, label) {
            (Section::Code, Label::Code(i)) => Some(*i as usize),
            (Section::Data, Label::Data(a)) if *a >= DATA_BASE => Some((*a - DATA_BASE) as usize),
            _ => None,
        }
    }
}

/// The lines of the labels of one place, and the length of the first one's name.
#[derive(Drop)]
pub(crate) struct Group {
    lines: Vec<u8>,
    first: usize,
    ghost within: { first ≤ length lines.items },
}

impl Group {
    /// No label yet.
    pub(crate) fn new(alloc: Global) -> Group
        ensures lines { result.lines.items ≡ [] }
        ensures first { result.first ≡ 0 }
    {
        Group {
            lines: Vec::new(alloc),
            first: 0,
        }
    }

    /// Adds a label.
    pub(crate) fn add(&mut self, name: &[u8]) -> Result<(), AllocError>
        ensures lines { OnOk result (self.new.lines.items ≡ self.old.lines.items ++ (name.now ++ codes ":\n")) }
        ensures first { OnOk result (self.new.first ≡ cond (length self.old.lines.items == 0) (length name.now) self.old.first) }
    {
        let is_first = self.lines.is_empty();
        self.lines.extend_from_slice(name)?;
        if is_first {
            self.first = name.len();
        }
        self.lines.extend_from_slice(b":\n")
    }

    /// The lines.
    pub(crate) fn lines(&self) -> &[u8]
        ensures { result.now ≡ self.now.lines.items }
    {
        self.lines.as_slice()
    }

    /// The name of the first label.
    pub(crate) fn first(&self) -> &[u8]
        ensures { result.now ≡ take self.now.first self.now.lines.items }
    {
        &self.lines[..self.first]
    }
}
