//! The copies that a plan file chooses, and the rules that forbid some of them.
ghost use Rattle.std.specs.Prelude.{◌≡◌, ◌<◌, ◌++◌, None, Some, OnOk, IfOk, length, replicate, slice_get};
ghost use Rattle.mx_source.specs.SourceValue.{SourceValue};
ghost use Rattle.mx_isa.specs.declared.Place.{Place};
ghost use Rattle.mx_squash.specs.Copies.{Site};
ghost use Rattle.mx_link.specs.Parts.{sites_of};
ghost use Rattle.mx_plans.specs.Files.{lines_said};
ghost use Rattle.mx_plans.specs.Copies.{choices_of, copy_verdict, copy_verdicts};
ghost use Rattle.mx_plans.specs.Ready.{IsReady};

use crate::file::PlanLine;
use mx_blocks::Block;
use mx_layout::Layout;
use mx_squash::{CopyRule, copies_asked};
use std::alloc::{AllocError, Global};

/// Appends so many statements for which there is no choice.
fn push_none(choices: &mut Vec<Option<u8>>, n: usize) -> Result<(), AllocError>
    ensures { OnOk result (choices.new.items ≡ choices.old.items ++ replicate n None) }
{
    for _ in 0..n {
        choices.push(None)?;
    }
    Ok(())
}

/// For each statement how many copies the lines choose for the block that begins there.
pub(crate) fn choices_of(
    alloc: Global,
    blocks: &[Block],
    lines: &[PlanLine],
) -> Result<Vec<Option<u8>>, AllocError>
    ensures { IfOk result (λ choices. choices.items ≡ choices_of blocks.now (lines_said lines.now)) }
{
    let mut choices = Vec::new(alloc);
    let count = blocks.len().min(lines.len());
    for k in 0..count {
        choices.push(lines[k].copies)?;
        push_none(&mut choices, blocks[k].insts.len() - 1)?;
    }
    Ok(choices)
}

/// The first rule that forbids so many copies for block `k`.
fn fault_of(layout: &Layout, k: usize, count: u8) -> Option<CopyRule>
    requires ready { IsReady layout.now }
    requires within { k < length layout.now.blocks.items }
    ensures { (s : Site) → slice_get (sites_of layout.now) k ≡ Some s → result ≡ copy_verdict (sites_of layout.now) s (Some count) }
{
    let asked = copies_asked(
        layout.blocks.as_slice(),
        layout.plans.as_slice(),
        layout.starts.as_slice(),
        k as u32,
        count,
    );
    match asked {
        Ok(_) => None,
        Err(rule) => Some(rule),
    }
}

/// The first rule that forbids the copies that are chosen for block `k`.
fn verdict_on(layout: &Layout, k: usize, choice: Option<u8>) -> Option<CopyRule>
    requires ready { IsReady layout.now }
    requires within { k < length layout.now.blocks.items }
    ensures { (s : Site) → slice_get (sites_of layout.now) k ≡ Some s → result ≡ copy_verdict (sites_of layout.now) s choice }
{
    match choice {
        Some(count) => fault_of(layout, k, count),
        None => None,
    }
}

/// The first rule that forbids the copies that each line chooses for its block, if one does.
pub fn copy_verdicts(
    alloc: Global,
    layout: &Layout,
    lines: &[PlanLine],
) -> Result<Vec<Option<CopyRule>>, AllocError>
    requires { IsReady layout.now }
    ensures { let all = sites_of layout.now in IfOk result (λ verdicts. verdicts.items ≡ copy_verdicts all all (lines_said lines.now)) }
{
    let mut verdicts = Vec::new(alloc);
    let count = layout.blocks.len().min(lines.len());
    for k in 0..count {
        verdicts.push(verdict_on(layout, k, lines[k].copies))?;
    }
    Ok(verdicts)
}
