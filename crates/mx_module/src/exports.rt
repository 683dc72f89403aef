//! The names that a module exports.
ghost use Rattle.std.specs.Prelude.{◌≡◌};

use crate::link::{Link, LinkKind};
use indexmap::IndexMap;
use std::alloc::{AllocError, Global};
use std::marker::Model;

/// Each exported name once, with the number of the first line that exports it.
#[derive(Drop)]
pub struct Exports<'a> {
    table: IndexMap<&'a [u8], u32>,
}

impl<'a> Model for Exports<'a> {
    ghost use Rattle.std.specs.Prelude.{ℕ, List};
    ghost use Rattle.mx_module.specs.ExportTable.{exports_view};

    ghost Value = { List (List ℕ × ℕ) };

    ghost view = { exports_view };
}

impl<'a> Exports<'a> {
    ghost use Rattle.std.specs.Prelude.{◌≡◌, ◌++◌, ◌∷◌, [], map, None, OnOk, IfOk};
    ghost use Rattle.mx_module.specs.ExportTable.{export_line, add_export, with_export, exports_from};
    ghost use Rattle.mx_module.specs.ModuleView.{link_value};

    /// No exports.
    pub fn new(alloc: Global) -> Exports<'a>
        ensures { result ≡ [] }
    {
        Exports {
            table: IndexMap::new(alloc),
        }
    }

    /// The line of the first export of a name.
    pub fn line(&self, name: &[u8]) -> Option<u32>
        ensures { result ≡ export_line self.now name.now }
    {
        self.table.get(name).copied()
    }

    /// Adds the export of a name that has none.
    fn put(&mut self, name: &'a [u8], number: u32) -> Result<(), AllocError>
        requires { export_line self.old name.now ≡ None }
        ensures { OnOk result (self.new ≡ self.old ++ (name.entry.now, number) ∷ []) }
    {
        self.table.insert(name, number)?;
        Ok(())
    }

    /// Adds an export, unless the name has one.
    #[tactic(auto, unfolding(crate::specs::ExportTable::add_export))]
    fn add(&mut self, name: &'a [u8], number: u32) -> Result<(), AllocError>
        ensures { OnOk result (self.new ≡ add_export self.old name.entry.now number) }
    {
        if self.line(name).is_some() {
            return Ok(());
        }
        self.put(name, number)
    }

    /// Adds what a line exports.
    fn add_link(&mut self, link: &Link<'a>) -> Result<(), AllocError>
        ensures { OnOk result (self.new ≡ with_export self.old link.now.number link.now.kind (link_value link.now).name) }
    {
        if let (LinkKind::Export, Some(name)) = (link.kind, link.name) {
            self.add(name, link.number)?;
        }
        Ok(())
    }

    /// The exports of these lines.
    pub fn of(alloc: Global, links: &[Link<'a>]) -> Result<Exports<'a>, AllocError>
        ensures { IfOk result (λ e. e ≡ exports_from [] (map link_value links.now)) }
    {
        let mut exports = Exports::new(alloc);
        for link in links {
            exports.add_link(link)?;
        }
        Ok(exports)
    }
}
