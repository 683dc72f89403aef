//! Sources.
ghost use Rattle.std.specs.Prelude.{◌≡◌, Some, None, IfOk};

use crate::{Label, Name, Statement, Value, print};
use indexmap::IndexMap;
use mx_io::Memory;
use std::alloc::Global;
use std::marker::Model;

/// A source: its statements with their lines, its data words and its labels, and the line of its
/// first `.input`, if it has input.
///
/// It has at most 20,000 statements and 65,280 data words. Each target of a statement and each
/// place of code among the data has a label.
#[derive(Drop)]
pub struct Source {
    statements: Vec<Statement>,
    lines: Vec<u32>,
    user_data: Vec<Value>,
    labels: IndexMap<Name, Label>,
    input: Option<u32>,
}

impl Model for Source {
    ghost use Rattle.mx_source.specs.SourceValue.{SourceValue, IsSource};
    ghost use Rattle.mx_source.specs.SourceView.{source_value};

    ghost Value = { SourceValue };

    ghost view = { source_value };

    ghost invariant = { λ s. IsSource (source_value s) };
}

impl Source {
    ghost use Rattle.mx_source.specs.Names.{named_labels, AreApart};
    ghost use Rattle.mx_source.specs.SourceValue.{SourceValue, IsSource, plain_source};
    ghost use Rattle.mx_source.specs.Printed.{printed};

    /// The source of exactly these lists, without input. `lines` has the line of each statement,
    /// counted from 1. No two labels have one name, since they are keys of a map.
    pub fn make(
        statements: Vec<Statement>,
        lines: Vec<u32>,
        user_data: Vec<Value>,
        labels: IndexMap<Name, Label>,
    ) -> Source
        requires { AreApart (named_labels labels.entries) → IsSource (plain_source statements.items lines.items user_data.items (named_labels labels.entries)) }
        ensures { result ≡ plain_source statements.items lines.items user_data.items (named_labels labels.entries) }
    {
        // The map tells here that its keys are different.
        let _count = labels.len();
        Source {
            statements,
            lines,
            user_data,
            labels,
            input: None,
        }
    }

    /// The same source with an input, whose `.input` stands on this line.
    pub fn with_input(self, line: u32) -> Source
        ensures { result ≡ record self { input = Some line } }
    {
        let Source {
            statements,
            lines,
            user_data,
            labels,
            input: _,
        } = self;
        Source {
            statements,
            lines,
            user_data,
            labels,
            input: Some(line),
        }
    }

    /// The statements.
    pub fn statements(&self) -> &[Statement]
        ensures value { result.now ≡ self.now.statements }
        ensures source { IsSource self.now }
    {
        self.statements.as_slice()
    }

    /// The line of each statement.
    pub fn lines(&self) -> &[u32]
        ensures value { result.now ≡ self.now.lines }
        ensures source { IsSource self.now }
    {
        self.lines.as_slice()
    }

    /// The data words, in order of their addresses.
    pub fn user_data(&self) -> &[Value]
        ensures value { result.now ≡ self.now.user_data }
        ensures source { IsSource self.now }
    {
        self.user_data.as_slice()
    }

    /// The labels, in order of their definitions.
    pub fn labels(&self) -> &IndexMap<Name, Label>
        ensures value { named_labels result.now.entries ≡ self.now.labels }
        ensures source { IsSource self.now }
    {
        &self.labels
    }

    /// The line of the first `.input`, if the source has input.
    pub fn input(&self) -> Option<u32>
        ensures { result ≡ self.now.input }
    {
        self.input
    }

    /// The canonical text (this project's profile): one label, statement or data word a line.
    ///
    /// # Errors
    ///
    /// `Memory` where there is no room for it.
    pub fn print(&self, alloc: Global) -> Result<Vec<u8>, Memory>
        ensures { IfOk result (λ text. text.items ≡ printed self.now) }
    {
        match print::printed(alloc, self) {
            Ok(text) => Ok(text),
            Err(_) => Err(Memory),
        }
    }
}
