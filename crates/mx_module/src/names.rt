//! The labels of a program, under their names there.
ghost use Rattle.std.specs.Prelude.{◌≡◌, ◌+◌, ◌≤◌, ◌<◌, ◌++◌, ◌∷◌, [], codes, length, map, None, IfOk, OnOk};
ghost use Rattle.std.specs.Fmt.{decimal};
ghost use Rattle.mx_source.specs.Names.{named_labels};
ghost use Rattle.mx_module.specs.Terms.{label_named};
ghost use Rattle.mx_module.specs.Joined;
ghost use Rattle.mx_module.specs.Joined.{AreApart};

use crate::module::Module;
use indexmap::IndexMap;
use mx_lines::add_named;
use mx_source::{Label, Name};
use std::alloc::{AllocError, Global};

/// Adds `..` and the number of the module at this place.
fn add_number(alloc: Global, bytes: &mut Vec<u8>, place: usize) -> Result<(), AllocError>
    requires { place < 16 }
    ensures { OnOk result (bytes.new.items ≡ bytes.old.items ++ codes ".." ++ decimal (place + 1)) }
{
    let number = place + 1;
    let suffix = format!(in alloc; "..{number}")?;
    bytes.extend_from_slice(suffix.as_bytes())
}

/// The name of a label in the program.
fn program_name(
    alloc: Global,
    own: &Module,
    place: usize,
    name: &[u8],
) -> Result<Vec<u8>, AllocError>
    requires { place < 16 }
    ensures { IfOk result (λ bytes. bytes.items ≡ Joined.program_name own.now place name.now) }
{
    let mut bytes = Vec::from_slice(alloc, name)?;
    if own.export_line(name).is_none() {
        add_number(alloc, &mut bytes, place)?;
    }
    Ok(bytes)
}

/// Adds a label of the module at this place.
fn add_name(
    alloc: Global,
    own: &Module,
    place: usize,
    named: &mut IndexMap<Name, Label>,
    name: &[u8],
    label: Label,
) -> Result<(), AllocError>
    requires few { place < 16 }
    requires absent { label_named (named_labels named.old.entries) (Joined.program_name own.now place name.now) ≡ None }
    ensures { OnOk result (named_labels named.new.entries
        ≡ named_labels named.old.entries ++ Joined.renamed own.now place (name.now, label) ∷ []) }
{
    let bytes = program_name(alloc, own, place, name)?;
    add_named(alloc, named, &bytes, label)
}

/// Adds the labels of the module at this place.
fn add_names(
    alloc: Global,
    own: &Module,
    place: usize,
    named: &mut IndexMap<Name, Label>,
) -> Result<(), AllocError>
    requires few { place < 16 }
    requires apart { AreApart (named_labels named.old.entries ++ map (Joined.renamed own.now place) own.now.labels) }
    ensures { OnOk result (named_labels named.new.entries ≡ named_labels named.old.entries ++ map (Joined.renamed own.now place) own.now.labels) }
{
    let labels = own.named();
    for i in 0..labels.len() {
        let Some((name, label)) = labels.get_index(i) else {
            unreachable!();
        };
        add_name(alloc, own, place, named, name.bytes(), *label)?;
    }
    Ok(())
}

/// The labels of all modules.
pub fn names_of(alloc: Global, modules: &[Module]) -> Result<IndexMap<Name, Label>, AllocError>
    requires few { length modules.now ≤ 16 }
    requires apart { AreApart (Joined.labels_in 0 modules.now) }
    ensures { IfOk result (λ m. named_labels m.entries ≡ Joined.labels_in 0 modules.now) }
{
    let mut named = IndexMap::new(alloc);
    let mut place = 0usize;
    for module in modules {
        add_names(alloc, module, place, &mut named)?;
        place += 1;
    }
    Ok(named)
}
