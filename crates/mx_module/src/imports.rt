//! What the names of a module stand for.
ghost use Rattle.std.specs.Prelude.{◌≡◌, ◌<◌, length, IfOk, IfSome, OnOk};
ghost use Rattle.mx_lines.specs.LabelTable.{IsNear};
ghost use Rattle.mx_asm.specs.Positions;
ghost use Rattle.mx_module.specs.Joined;
ghost use Rattle.mx_module.specs.LinkFaults;
ghost use Rattle.mx_module.specs.ModuleView.{link_value};

use crate::link::{Link, LinkKind};
use crate::link_faults::exporter;
use crate::module::Module;
use mx_asm::is_dotted;
use mx_lines::Labels;
use mx_source::Label;
use std::alloc::{AllocError, Global};

/// The label of the first other module that exports the name.
fn imported(modules: &[Module], place: usize, name: &[u8]) -> Option<Label>
    requires { place < length modules.now }
    ensures label { result ≡ Joined.label_in (LinkFaults.exporter modules.now place name.now) name.now }
    ensures near { IfSome result IsNear }
{
    match exporter(modules, place, name) {
        Some(other) => other.label(name),
        None => None,
    }
}

/// Adds a label, unless the name is there.
#[tactic(auto, unfolding(mx_asm::specs::Positions::define))]
fn add_label(labels: &mut Labels, name: &[u8], label: Label) -> Result<(), AllocError>
    requires { IsNear label }
    ensures { OnOk result (labels.new ≡ Positions.define labels.old label name.now) }
{
    if is_dotted(name) {
        return Ok(());
    }
    if labels.find(name).is_some() {
        return Ok(());
    }
    labels.define(name, label)
}

/// Adds what a line imports, unless the name is there.
fn add_import(
    modules: &[Module],
    place: usize,
    labels: &mut Labels,
    link: &Link,
) -> Result<(), AllocError>
    requires { place < length modules.now }
    ensures { OnOk result (labels.new ≡ Joined.with_import modules.now place labels.old link.now.kind (link_value link.now).name) }
{
    if let (LinkKind::Import, Some(name)) = (link.kind, link.name) {
        if let Some(label) = imported(modules, place, name) {
            add_label(labels, name, label)?;
        }
    }
    Ok(())
}

/// What the names of the module at this place stand for.
pub fn seen_in(
    alloc: Global,
    modules: &[Module],
    place: usize,
    own: &Module,
) -> Result<Labels, AllocError>
    requires { place < length modules.now }
    ensures { IfOk result (λ l. l ≡ Joined.seen_in modules.now place own.now) }
{
    let mut labels = own.labels(alloc)?;
    let links = own.links();
    for link in links {
        add_import(modules, place, &mut labels, link)?;
    }
    Ok(labels)
}
