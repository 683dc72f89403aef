//! The labels of a text.
ghost use Rattle.std.specs.Prelude.{◌≡◌, [], ◌∷◌, ◌++◌, None, OnOk, OnErr};
ghost use Rattle.mx_source.specs.Names.{named_labels};
ghost use Rattle.mx_lines.specs.Operands.{label_named};

use indexmap::IndexMap;
use mx_source::{Label, Name};
use std::alloc::{AllocError, Global};
use std::marker::Model;

/// Adds a label that is not there.
pub fn add_named(
    alloc: Global,
    named: &mut IndexMap<Name, Label>,
    name: &[u8],
    label: Label,
) -> Result<(), AllocError>
    requires { label_named (named_labels named.old.entries) name.now ≡ None }
    ensures ok { OnOk result (named_labels named.new.entries ≡ named_labels named.old.entries ++ (name.now, label) ∷ []) }
    ensures err { OnErr result (named.new.entries ≡ named.old.entries) }
{
    let Ok(key) = Name::new(alloc, name) else {
        return Err(AllocError);
    };
    named.insert(key, label)?;
    Ok(())
}

/// The address that stands for every place past the end of memory.
pub const PAST_END: u32 = 65_537;

/// Each label of a text once, in the order of first definitions. Addresses are at most `PAST_END`.
#[derive(Drop)]
pub struct Labels {
    table: IndexMap<Name, Label>,
}

impl Model for Labels {
    ghost use Rattle.std.specs.Prelude.{ℕ, List, All};
    ghost use Rattle.mx_source.specs.declared.statement.Label.{Label};
    ghost use Rattle.mx_lines.specs.LabelTable.{labels_view, IsNear};

    ghost Value = { List (List ℕ × Label) };

    ghost view = { labels_view };

    ghost invariant = { λ l. All (λ p. IsNear p.1) (labels_view l) };
}

impl Labels {
    ghost use Rattle.std.specs.Prelude.{IfOk, IfSome};
    ghost use Rattle.mx_lines.specs.LabelTable.{IsNear};

    /// No labels.
    pub fn new(alloc: Global) -> Labels
        ensures { result ≡ [] }
    {
        Labels {
            table: IndexMap::new(alloc),
        }
    }

    /// What the label of this name names.
    pub fn find(&self, name: &[u8]) -> Option<Label>
        ensures value { result ≡ label_named self.now name.now }
        ensures near { IfSome result IsNear }
    {
        self.table.get(name).copied()
    }

    /// Defines a label that is not there.
    pub fn define(&mut self, name: &[u8], label: Label) -> Result<(), AllocError>
        requires new { label_named self.old name.now ≡ None }
        requires near { IsNear label }
        ensures ok { OnOk result (self.new ≡ self.old ++ (name.now, label) ∷ []) }
    {
        let alloc = *self.table.allocator();
        add_named(alloc, &mut self.table, name, label)?;
        Ok(())
    }

    /// A table of the same labels.
    pub fn copied(&self, alloc: Global) -> Result<Labels, AllocError>
        ensures { IfOk result (λ l. l ≡ self.now) }
    {
        let mut table = IndexMap::new(alloc);
        for i in 0..self.table.len() {
            let Some((name, label)) = self.table.get_index(i) else {
                unreachable!();
            };
            add_named(alloc, &mut table, name.bytes(), *label)?;
        }
        Ok(Labels { table })
    }

    /// The labels, in order.
    pub fn table(&self) -> &IndexMap<Name, Label>
        ensures { named_labels result.now.entries ≡ self.now }
    {
        &self.table
    }

    /// The table of the labels itself.
    pub fn into_table(self) -> IndexMap<Name, Label>
        ensures { named_labels result.entries ≡ self }
    {
        self.table
    }
}
