//! What is told of the plans and copies that are rejected.
ghost use Rattle.std.specs.Prelude.{◌≡◌, ◌≤◌, ◌++◌, OnOk, IfOk, length};
ghost use Rattle.mx_link.specs.Laid.{IsLaidAt};
ghost use Rattle.mx_link.specs.Parts.{sites_of};
ghost use Rattle.lab_plans.specs.Terms.{board, lines_said};
ghost use Rattle.lab_plans.specs.Copies.{copy_lines};
ghost use Rattle.lab_plans.specs.Verdicts.{AreTold, AreVerdicts, rule_text, rejection_line, verdict_line, verdict_lines};

use crate::copies::push_copy_lines;
use crate::rejections::{number_at, push_rejected};
use mx_blocks::{Block, Plan};
use mx_layout::Layout;
use mx_plans::{PlanLine, Rule, copy_verdicts, first_broken_rule};
use mx_source::Source;
use mx_squash::CopyRule;
use std::alloc::{AllocError, Global};

/// The name of a rule, and what it asks for.
fn rule_text(rule: Rule) -> &'static str
    ensures { result.now ≡ rule_text rule }
{
    match rule {
        Rule::Once => "Once: each instruction occurs exactly once",
        Rule::Terminator => "Terminator: the last instruction is /",
        Rule::Tail => "Tail: two items follow the / of a transfer, none that of a halt",
        Rule::Order => "Order: dependent instructions stay in source order",
        Rule::Delay => "Delay: no load is directly followed by a reader of its register",
        Rule::LastLoad => "LastLoad: the last item is no load",
        Rule::Room => "Room: at most as many items come before the / as in the padded plan",
    }
}

/// Appends the line of a plan that breaks a rule.
fn push_rejection(
    alloc: Global,
    text: &mut Vec<u8>,
    number: usize,
    line: u32,
    rule: Rule,
) -> Result<(), AllocError>
    ensures { OnOk result (text.new.items ≡ text.old.items ++ rejection_line number line rule) }
{
    push_rejected(alloc, text, number, line, rule_text(rule))
}

/// Appends the line of a plan, if there is one.
fn push_verdict(
    alloc: Global,
    text: &mut Vec<u8>,
    number: usize,
    line: u32,
    verdict: Option<Rule>,
) -> Result<(), AllocError>
    ensures { OnOk result (text.new.items ≡ text.old.items ++ verdict_line number line verdict) }
{
    match verdict {
        Some(rule) => push_rejection(alloc, text, number, line, rule),
        None => Ok(()),
    }
}

/// The first rule that each plan breaks.
fn verdicts_of(
    alloc: Global,
    blocks: &[Block],
    plans: &[Plan],
) -> Result<Vec<Option<Rule>>, AllocError>
    requires { length plans.now ≡ length blocks.now }
    ensures { IfOk result (λ verdicts. AreVerdicts blocks.now plans.now verdicts.items) }
{
    let mut verdicts = Vec::new(alloc);
    for i in 0..blocks.len() {
        verdicts.push(first_broken_rule(&blocks[i], &plans[i]))?;
    }
    Ok(verdicts)
}

/// The lines of the plans that break a rule, by the lines of the statements of the source.
fn verdict_lines(
    alloc: Global,
    lines: &[u32],
    blocks: &[Block],
    verdicts: &[Option<Rule>],
) -> Result<Vec<u8>, AllocError>
    requires { length verdicts.now ≡ length blocks.now }
    ensures { IfOk result (λ text. text.items ≡ verdict_lines lines.now 1 blocks.now verdicts.now) }
{
    let mut text = Vec::new(alloc);
    for i in 0..blocks.len() {
        let line = number_at(lines, blocks[i].first);
        push_verdict(alloc, &mut text, i + 1, line, verdicts[i])?;
    }
    Ok(text)
}

/// The lines of the plans that break a rule, and then of the copies that a rule forbids.
fn rejection_lines(
    alloc: Global,
    lines: &[u32],
    blocks: &[Block],
    verdicts: &[Option<Rule>],
    copies: &[Option<CopyRule>],
) -> Result<Vec<u8>, AllocError>
    requires count { length verdicts.now ≡ length blocks.now }
    requires few { length copies.now ≤ length blocks.now }
    ensures { IfOk result (λ text. text.items ≡ verdict_lines lines.now 1 blocks.now verdicts.now ++ copy_lines lines.now 1 blocks.now copies.now) }
{
    let mut text = verdict_lines(alloc, lines, blocks, verdicts)?;
    push_copy_lines(alloc, &mut text, lines, blocks, copies)?;
    Ok(text)
}

/// The lines of what is proposed for the blocks of a source that is laid out and breaks a rule, and then of the copies that the lines of
/// a file choose and a rule forbids.
pub(crate) fn told(
    alloc: Global,
    source: &Source,
    layout: &Layout,
    plans: &[PlanLine],
) -> Result<Vec<u8>, AllocError>
    requires laid { IsLaidAt source.now board layout.now }
    requires count { length layout.now.proposals.items ≡ length layout.now.blocks.items }
    ensures { IfOk result (λ text. AreTold source.now (sites_of layout.now) layout.now.proposals.items (lines_said plans.now) text.items) }
{
    let blocks = layout.blocks.as_slice();
    let verdicts = verdicts_of(alloc, blocks, layout.proposals.as_slice())?;
    let copies = copy_verdicts(alloc, layout, plans)?;
    let text = rejection_lines(
        alloc,
        source.lines(),
        blocks,
        verdicts.as_slice(),
        copies.as_slice(),
    )?;
    Ok(text)
}
