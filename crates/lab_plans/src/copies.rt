//! What is told of the copies that a rule forbids.
ghost use Rattle.std.specs.Prelude.{◌≡◌, ◌≤◌, ◌++◌, OnOk, length};
ghost use Rattle.lab_plans.specs.Copies.{copy_rule_text, copy_rejection, copy_line, copy_lines};

use crate::rejections::{number_at, push_rejected};
use mx_blocks::Block;
use mx_squash::CopyRule;
use std::alloc::{AllocError, Global};

/// The name of a rule of copies, and what it asks for.
fn copy_rule_text(rule: CopyRule) -> &'static str
    ensures { result.now ≡ copy_rule_text rule }
{
    match rule {
        CopyRule::Target => "Target: the block ends with a transfer to the label of a block",
        CopyRule::Room => {
            "Room: so many slots hold no-ops, and both where a conditional branch copies"
        }
        CopyRule::Front => {
            "Front: the target's plan begins with so many instructions before a no-op or /"
        }
        CopyRule::Reach => "Reach: the branch reaches the word after the copied ones",
        CopyRule::Load => { "Load: the copied word does not read the register of a load in slot 1" }
    }
}

/// Appends the line of copies that a rule forbids.
fn push_rejection(
    alloc: Global,
    text: &mut Vec<u8>,
    number: usize,
    line: u32,
    rule: CopyRule,
) -> Result<(), AllocError>
    ensures { OnOk result (text.new.items ≡ text.old.items ++ copy_rejection number line rule) }
{
    text.extend_from_slice(b"copies of ")?;
    push_rejected(alloc, text, number, line, copy_rule_text(rule))
}

/// Appends the line of copies, if a rule forbids them.
fn push_verdict(
    alloc: Global,
    text: &mut Vec<u8>,
    number: usize,
    line: u32,
    verdict: Option<CopyRule>,
) -> Result<(), AllocError>
    ensures { OnOk result (text.new.items ≡ text.old.items ++ copy_line number line verdict) }
{
    match verdict {
        Some(rule) => push_rejection(alloc, text, number, line, rule),
        None => Ok(()),
    }
}

/// Appends the lines of the copies that a rule forbids, by the lines of the statements of the source.
pub(crate) fn push_copy_lines(
    alloc: Global,
    text: &mut Vec<u8>,
    lines: &[u32],
    blocks: &[Block],
    verdicts: &[Option<CopyRule>],
) -> Result<(), AllocError>
    requires { length verdicts.now ≤ length blocks.now }
    ensures { OnOk result (text.new.items ≡ text.old.items ++ copy_lines lines.now 1 blocks.now verdicts.now) }
{
    for i in 0..verdicts.len() {
        let line = number_at(lines, blocks[i].first);
        push_verdict(alloc, text, i + 1, line, verdicts[i])?;
    }
    Ok(())
}
