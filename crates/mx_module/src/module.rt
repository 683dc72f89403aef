//! The modules of a program.
ghost use Rattle.std.specs.Prelude.{◌≡◌, ◌+◌, ◌≤◌, ◌<◌, ◌^◌, ◌++◌, ◌∷◌, [], All, length, map, replicate, IfOk};
ghost use Rattle.mx_io.specs.declared.limits.TheConstants.{MAX_SOURCE_BYTES};
ghost use Rattle.mx_lines.specs.declared.labels.TheConstants.{PAST_END};
ghost use Rattle.mx_module.specs.Modules;
ghost use Rattle.mx_module.specs.ModuleView.{text_bytes, IsShort};

use crate::exports::Exports;
use crate::link::Link;
use crate::plain::{Parts, parts_in};
use indexmap::IndexMap;
use mx_asm::{Definitions, Listing, Position, Section, define_all, read_lines};
use mx_lines::{AsmError, Labels};
use mx_source::{Label, Name};
use std::alloc::{AllocError, Global};
use std::marker::Model;

/// A module: where it begins, its lines as the assembler reads them, its imports and exports and its labels.
#[derive(Drop)]
pub struct Module<'a> {
    start: Position,
    lines: Vec<&'a [u8]>,
    links: Vec<Link<'a>>,
    labels: Labels,
    repeated: Option<u32>,
    exports: Exports<'a>,
}

impl<'a> Model for Module<'a> {
    ghost use Rattle.mx_module.specs.Modules.{ModuleValue};
    ghost use Rattle.mx_module.specs.ModuleView.{module_value, IsKept};

    ghost Value = { ModuleValue };

    ghost view = { module_value };

    ghost invariant = { IsKept };
}

impl<'a> Module<'a> {
    ghost use Rattle.std.specs.Prelude.{◌≡◌, ◌+◌, ◌≤◌, ◌<◌, ◌^◌, [], length, map, replicate, IfOk, IfErr, IfSome, Option};
    ghost use Rattle.mx_asm.specs.Faults.{first_repeat};
    ghost use Rattle.mx_lines.specs.Words.{texts};
    ghost use Rattle.mx_module.specs.Terms.{first_fault, named_labels, IsNear, IsListingOf, IsRefusal, label_named};
    ghost use Rattle.mx_module.specs.ExportTable.{export_line};
    ghost use Rattle.mx_module.specs.Modules.{module_at, behind_text, exports_of};
    ghost use Rattle.mx_module.specs.ModuleView.{link_value};

    /// The module of a text that begins here, and where the next one begins; `blanks` are 256 blanks.
    pub fn read(
        alloc: Global,
        text: &'a [u8],
        blanks: &'a [u8],
        start: Position,
    ) -> Result<(Module<'a>, Position), AllocError>
        requires short { length text.now ≤ MAX_SOURCE_BYTES }
        requires blank { blanks.now ≡ replicate 256 32 }
        requires room { start.index + length text.now < 2 ^ 32 }
        requires near { start.address ≤ PAST_END }
        ensures module { IfOk result (λ r. r.0 ≡ module_at start text.now) }
        ensures next { IfOk result (λ r. r.1 ≡ behind_text start text.now) }
        ensures index { IfOk result (λ r. r.1.index ≤ start.index + length text.now) }
        ensures address { IfOk result (λ r. r.1.address ≤ PAST_END) }
    {
        let parts = parts_in(alloc, text, blanks)?;
        let defined = define_all(alloc, &parts.lines, start)?;
        let next = next_start(defined.last);
        let module = Module::of(alloc, start, parts, defined)?;
        Ok((module, next))
    }

    /// The module that begins here, of its parts and of what its lines define.
    fn of(
        alloc: Global,
        start: Position,
        parts: Parts<'a>,
        defined: Definitions,
    ) -> Result<Module<'a>, AllocError>
        requires few { length parts.lines.items ≤ MAX_SOURCE_BYTES }
        requires repeated { defined.repeated ≡ first_repeat start [] 1 (texts parts.lines.items) }
        ensures { IfOk result (λ m. m ≡ record {
          start = start;
          lines = texts parts.entry.lines.items;
          links = map link_value parts.entry.links.items;
          labels = defined.labels;
        }) }
    {
        let exports = Exports::of(alloc, &parts.links)?;
        Ok(Module {
            start,
            lines: parts.lines,
            links: parts.links,
            labels: defined.labels,
            repeated: defined.repeated,
            exports,
        })
    }

    /// Its imports and exports.
    pub fn links(&self) -> &[Link<'a>]
        ensures { map link_value result.now ≡ self.now.links }
    {
        self.links.as_slice()
    }

    /// The line of the first export of a name.
    pub fn export_line(&self, name: &[u8]) -> Option<u32>
        ensures { result ≡ export_line (exports_of self.now) name.now }
    {
        self.exports.line(name)
    }

    /// Its label of this name.
    pub fn label(&self, name: &[u8]) -> Option<Label>
        ensures value { result ≡ label_named self.now.labels name.now }
        ensures near { IfSome result IsNear }
    {
        self.labels.find(name)
    }

    /// Its labels, in order.
    pub fn named(&self) -> &IndexMap<Name, Label>
        ensures { named_labels result.now.entries ≡ self.now.labels }
    {
        self.labels.table()
    }

    /// A table of its labels.
    pub fn labels(&self, alloc: Global) -> Result<Labels, AllocError>
        ensures { IfOk result (λ l. l ≡ self.now.labels) }
    {
        self.labels.copied(alloc)
    }

    /// Where it begins.
    pub fn start(&self) -> Position
        ensures { result ≡ self.now.start }
    {
        self.start
    }

    /// What its lines do, or the first faulty one, where a name stands for what it names among `seen`.
    pub fn read_lines(&self, alloc: Global, seen: &Labels) -> Result<Listing, AsmError>
        requires room { self.now.start.index ≤ 20000 }
        requires order { self.now.start.address ≤ 65536 }
        ensures read { IfOk result (IsListingOf seen.now 65536 self.now.start self.now.lines) }
        ensures refused { IfErr result (IsRefusal (first_fault seen.now 65536 self.now.start [] 1 self.now.lines)) }
    {
        read_lines(alloc, seen, self.repeated, &self.lines, self.start, 65536)
    }
}

/// Where the text behind one that ends here begins.
fn next_start(last: Position) -> Position
    ensures { result ≡ Modules.in_code last }
{
    Position {
        section: Section::Code,
        index: last.index,
        address: last.address,
    }
}

/// Adds the module of a text that begins here, and gives where the next one begins.
fn add_module<'a>(
    alloc: Global,
    modules: &mut Vec<Module<'a>>,
    text: &'a [u8],
    blanks: &'a [u8],
    start: Position,
) -> Result<Position, AllocError>
    requires short { length text.now ≤ MAX_SOURCE_BYTES }
    requires blank { blanks.now ≡ replicate 256 32 }
    requires room { start.index + length text.now < 2 ^ 32 }
    requires near { start.address ≤ PAST_END }
    ensures module { IfOk result (λ _. modules.new.items ≡ modules.old.items ++ Modules.module_at start text.entry.now ∷ []) }
    ensures next { IfOk result (λ p. p ≡ Modules.behind_text start text.entry.now) }
    ensures index { IfOk result (λ p. p.index ≤ start.index + length text.entry.now) }
    ensures address { IfOk result (λ p. p.address ≤ PAST_END) }
{
    let (module, next) = Module::read(alloc, text, blanks, start)?;
    modules.push(module)?;
    Ok(next)
}

/// The modules of texts; `blanks` are 256 blanks.
pub fn modules_of<'a>(
    alloc: Global,
    texts: &'a [Vec<u8>],
    blanks: &'a [u8],
) -> Result<Vec<Module<'a>>, AllocError>
    requires few { length texts.now ≤ 16 }
    requires short { All IsShort texts.now }
    requires blank { blanks.now ≡ replicate 256 32 }
    ensures { IfOk result (λ v. v.items ≡ Modules.modules_of (map text_bytes texts.now)) }
{
    let mut modules = Vec::new(alloc);
    let mut start = Position::start(256);
    for text in texts {
        start = add_module(alloc, &mut modules, text.as_slice(), blanks, start)?;
    }
    Ok(modules)
}
