//! A source as it grows.
ghost use Rattle.std.specs.Prelude.{◌≡◌, ◌<◌, ◌≤◌, ◌∷◌, ◌^◌, decimal, length, OnOk, IfOk};
ghost use Rattle.mx_isa.specs.declared.board.TheConstants.{MAX_STATEMENTS};
ghost use Rattle.mx_source.specs.Names.{name_bytes, AreApart};
ghost use Rattle.mx_source.specs.SourceValue.{IsSource};
ghost use Rattle.mx_gen.specs.Drafts.{empty, put, name, finished};
ghost use Rattle.mx_gen.specs.Sound.{IsNew};

use indexmap::IndexMap;
use itoa::Buffer;
use mx_source::{Label, Memory, Name, Source, Statement};
use std::alloc::{AllocError, Global};
use std::marker::Model;
use std::slice;

/// Statements, labels, and the number of the next line of the canonical text.
#[derive(Drop)]
pub(crate) struct Draft {
    statements: Vec<Statement>,
    lines: Vec<u32>,
    labels: IndexMap<Name, Label>,
    line: u32,
}

impl Model for Draft {
    ghost use Rattle.mx_gen.specs.Drafts.{Draft as ADraft};
    ghost use Rattle.mx_gen.specs.DraftView.{draft_value};

    ghost Value = { ADraft };

    ghost view = { draft_value };
}

impl Draft {
    /// No statement yet.
    pub(crate) fn new(alloc: Global) -> Draft
        ensures { result ≡ empty }
    {
        Draft {
            statements: Vec::new(alloc),
            lines: Vec::new(alloc),
            labels: IndexMap::new(alloc),
            line: 1,
        }
    }

    /// The index of the next statement.
    pub(crate) fn index(&self) -> u32
        requires { length self.now.statements ≤ MAX_STATEMENTS }
        ensures { result ≡ length self.now.statements }
    {
        self.statements.len() as u32
    }

    /// Puts a statement on the next line.
    pub(crate) fn put(&mut self, statement: &Statement) -> Result<(), Memory>
        requires { self.old.line < 2 ^ 31 }
        ensures { OnOk result (self.new ≡ put statement.now self.old) }
    {
        let Ok(()) = self
            .statements
            .extend_from_slice(slice::from_ref(statement))
        else {
            return Err(Memory);
        };
        let Ok(()) = self.lines.push(self.line) else {
            return Err(Memory);
        };
        self.line += 1;
        Ok(())
    }

    /// Puts a label on the next line, of a letter and a number.
    pub(crate) fn name(&mut self, alloc: Global, letter: u8, j: u32) -> Result<(), Memory>
        requires line { self.old.line < 2 ^ 31 }
        requires few { length self.old.statements ≤ MAX_STATEMENTS }
        requires new { IsNew (letter ∷ decimal j) self.old.labels }
        ensures { OnOk result (self.new ≡ name (letter ∷ decimal j) self.old) }
    {
        let name = label_name(alloc, letter, j)?;
        let label = Label::Code(self.index());
        let Ok(_) = self.labels.insert(name, label) else {
            return Err(Memory);
        };
        self.line += 1;
        Ok(())
    }

    /// The source of the draft.
    pub(crate) fn finish(self) -> Source
        requires { AreApart (finished self).labels → IsSource (finished self) }
        ensures { result ≡ finished self }
    {
        let Draft {
            statements,
            lines,
            labels,
            line: _,
        } = self;
        Source::make(statements, lines, Vec::new(*labels.allocator()), labels)
    }
}

/// A letter and a number in decimal.
fn label_name(alloc: Global, letter: u8, j: u32) -> Result<Name, Memory>
    ensures { IfOk result (λ name. name_bytes name ≡ letter ∷ decimal j) }
{
    let mut buffer = Buffer::new();
    let number = buffer.format(j).as_bytes();
    let mut bytes = Vec::new(alloc);
    if bytes.push(letter).is_err() || bytes.extend_from_slice(number).is_err() {
        return Err(Memory);
    }
    Name::new(alloc, bytes.as_slice())
}
