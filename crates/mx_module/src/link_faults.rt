//! The faults of import and export lines.
ghost use Rattle.std.specs.Prelude.{◌≡◌, ◌≤◌, ◌<◌, not, is_some, if◌then◌else◌, Some, None, length};
ghost use Rattle.std.specs.Option.{option_map};
ghost use Rattle.mx_module.specs.declared.error.JoinFault.TheVariants.{NoExport, LocalClash};
ghost use Rattle.mx_module.specs.declared.link.LinkKind.TheVariants.{Export};
ghost use Rattle.mx_module.specs.LinkFaults;
ghost use Rattle.mx_module.specs.ModuleView.{link_value};

use crate::error::JoinFault;
use crate::link::{Link, LinkKind};
use crate::module::Module;

/// The first of these modules that exports the name.
fn first_exporter<'m, 'a>(modules: &'m [Module<'a>], name: &[u8]) -> Option<&'m Module<'a>>
    ensures { option_map (λ m. m.now) result ≡ LinkFaults.first_exporter modules.entry.now name.now }
{
    for module in modules {
        if module.export_line(name).is_some() {
            return Some(module);
        }
    }
    None
}

/// The first module but the one at this place that exports the name.
pub fn exporter<'m, 'a>(
    modules: &'m [Module<'a>],
    place: usize,
    name: &[u8],
) -> Option<&'m Module<'a>>
    requires { place < length modules.now }
    ensures { option_map (λ m. m.now) result ≡ LinkFaults.exporter modules.entry.now place name.now }
{
    match first_exporter(&modules[..place], name) {
        Some(module) => Some(module),
        None => first_exporter(&modules[place + 1..], name),
    }
}

/// The line that was found stands before this one.
fn is_before(found: Option<u32>, number: u32) -> bool
    ensures { result ≡ LinkFaults.is_before found number }
{
    match found {
        Some(line) => line < number,
        None => false,
    }
}

/// The fault of an export.
fn export_fault(
    modules: &[Module],
    place: usize,
    own: &Module,
    number: u32,
    name: &[u8],
) -> Option<JoinFault>
    requires { place < length modules.now }
    ensures { result ≡ LinkFaults.link_fault modules.now place own.now (record { number = number; kind = Export; name = Some name.now }) }
{
    if own.label(name).is_none() {
        Some(JoinFault::NotDefined)
    } else if first_exporter(&modules[..place], name).is_some()
        || is_before(own.export_line(name), number)
    {
        Some(JoinFault::DuplicateExport)
    } else {
        None
    }
}

/// The fault of an import.
fn import_fault(modules: &[Module], place: usize, own: &Module, name: &[u8]) -> Option<JoinFault>
    requires { place < length modules.now }
    ensures { result ≡ (if not (is_some (LinkFaults.exporter modules.now place name.now)) then Some NoExport
        else (if LinkFaults.is_label own.now name.now then Some LocalClash else None)) }
{
    if exporter(modules, place, name).is_none() {
        Some(JoinFault::NoExport)
    } else if own.label(name).is_some() {
        Some(JoinFault::LocalClash)
    } else {
        None
    }
}

/// The least fault of an import or export line.
fn link_fault(modules: &[Module], place: usize, own: &Module, link: &Link) -> Option<JoinFault>
    requires { place < length modules.now }
    ensures { result ≡ LinkFaults.link_fault modules.now place own.now (link_value link.now) }
{
    match (link.kind, link.name) {
        (_, None) => Some(JoinFault::BadName),
        (LinkKind::Export, Some(name)) => { export_fault(modules, place, own, link.number, name) }
        (LinkKind::Import, Some(name)) => import_fault(modules, place, own, name),
    }
}

/// The first faulty import or export line of the module at this place, with its least fault.
fn fault_in_links(modules: &[Module], place: usize, own: &Module) -> Option<(u32, u32, JoinFault)>
    requires few { length modules.now ≤ 16 }
    requires within { place < length modules.now }
    ensures { result ≡ LinkFaults.fault_in_links modules.now place own.now own.now.links }
{
    let links = own.links();
    for link in links {
        if let Some(fault) = link_fault(modules, place, own, link) {
            return Some((place as u32 + 1, link.number, fault));
        }
    }
    None
}

/// The first faulty import or export line of all modules.
pub fn fault_in_modules(modules: &[Module]) -> Option<(u32, u32, JoinFault)>
    requires { length modules.now ≤ 16 }
    ensures { result ≡ LinkFaults.fault_in_modules modules.now 0 modules.now }
{
    let mut place = 0usize;
    for module in modules {
        if let Some(refusal) = fault_in_links(modules, place, module) {
            return Some(refusal);
        }
        place += 1;
    }
    None
}
