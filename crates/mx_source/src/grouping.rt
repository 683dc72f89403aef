//! The labels of each place of a section.
ghost use Rattle.std.specs.Prelude.{◌≡◌, ◌++◌, ◌∷◌, [], length, OnOk, IfOk};
ghost use Rattle.mx_source.specs.Names.{name_bytes, named_labels};
ghost use Rattle.mx_source.specs.Printed.{Labels};
ghost use Rattle.mx_source.specs.Groups.{AreGroups};

use crate::group::{Group, Section};
use crate::{Label, Name};
use indexmap::IndexMap;
use std::alloc::{AllocError, Global};

/// The groups of so many places of a section.
pub(crate) fn groups(
    alloc: Global,
    section: Section,
    count: usize,
    labels: &IndexMap<Name, Label>,
) -> Result<Vec<Group>, AllocError>
    ensures len { IfOk result (λ v. length v.items ≡ count) }
    ensures groups { IfOk result (λ v. AreGroups section (named_labels labels.now.entries) v.items) }
{
    let mut groups = no_labels(alloc, section, count)?;
    for i in 0..labels.len() {
        let Some((name, label)) = labels.get_index(i) else {
            unreachable!();
        };
        add_label(&mut groups, section, name, label)?;
    }
    Ok(groups)
}

/// So many groups without labels.
fn no_labels(alloc: Global, section: Section, count: usize) -> Result<Vec<Group>, AllocError>
    ensures len { IfOk result (λ v. length v.items ≡ count) }
    ensures groups { IfOk result (λ v. AreGroups section [] v.items) }
{
    let mut groups = Vec::with_capacity(alloc, count)?;
    for _ in 0..count {
        groups.push(Group::new(alloc))?;
    }
    Ok(groups)
}

/// Adds a label to the group of its place.
fn add_label(
    groups: &mut Vec<Group>,
    section: Section,
    name: &Name,
    label: &Label,
) -> Result<(), AllocError>
    ensures len { length groups.new.items ≡ length groups.old.items }
    ensures groups { OnOk result ((labels : Labels) → AreGroups section labels groups.old.items →
        AreGroups section (labels ++ (name_bytes name.now, label.now) ∷ []) groups.new.items) }
{
    if let Some(k) = section.place(label) {
        if k < groups.len() {
            groups[k].add(name.bytes())?;
        }
    }
    Ok(())
}
