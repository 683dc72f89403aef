//! What becomes of the blocks of a source.
ghost use Rattle.std.specs.Prelude.{◌≡◌, ◌<◌, ◌^◌, length};
ghost use Rattle.mx_squash.specs.Ordered.{AreOfOneSource};

use crate::backwards::Backwards;
use anyhow::{Result, bail, ensure};
use mx_asm::assemble;
use mx_best::{MOST_SEARCHED, best};
use mx_blocks::{Block, Item, Plan, blocks};
use mx_reorg::ListProposer;
use mx_source::Source;
use mx_squash::{Copied, copies};
use mx_validate::{Proposer, choose, padded};
use std::alloc::{AllocError, Global};
use test_case_files::{before, text_of_lines};

/// The address of the first block.
const CODE: u32 = 4096;

/// Appends an item, the number of an instruction or `-`, and a blank.
fn push_item(text: &mut String, item: Item) -> Result<(), AllocError> {
    match item {
        Item::Op(k) => write!(text, "{k} "),
        Item::Nop => text.push_str("- "),
    }
}

/// Appends a plan: its items and the terminator's place.
fn push_plan(text: &mut String, plan: &Plan) -> Result<(), AllocError> {
    for item in plan.items.as_slice() {
        push_item(text, *item)?;
    }
    write!(text, "at {}", plan.place)
}

/// Appends how many items the shortest plan of a small block has, or `-`.
fn push_best(text: &mut String, block: &Block) -> Result<(), AllocError> {
    if block.insts.len() <= MOST_SEARCHED {
        write!(text, "{}", best(block).items.len())
    } else {
        text.push('-')
    }
}

/// What is said of a proposal.
fn verdict<P: Proposer>(block: &Block, proposer: &mut P) -> &'static str {
    if choose(block, proposer).rejected {
        "rejected"
    } else {
        "accepted"
    }
}

/// The greedy plan of each block.
fn greedy_plans(alloc: Global, blocks: &[Block]) -> Result<Vec<Plan>, AllocError> {
    let mut plans = Vec::new(alloc);
    for block in blocks {
        plans.push(ListProposer.propose(block))?;
    }
    Ok(plans)
}

/// The address of each block, where they stand as these plans.
fn starts_of(alloc: Global, plans: &[Plan]) -> Result<Vec<u32>, AllocError> {
    let mut starts = Vec::new(alloc);
    let mut at = CODE;
    for plan in plans {
        starts.push(at)?;
        at = at.saturating_add(plan.items.len() as u32);
    }
    Ok(starts)
}

/// Appends the copies of a block.
fn push_copies(text: &mut String, copied: Copied) -> Result<(), AllocError> {
    push_item(text, copied.from[0])?;
    push_item(text, copied.from[1])?;
    write!(text, "{}", copied.count)?;
    if copied.squash {
        text.push_str(" squash")?;
    }
    Ok(())
}

/// The source that a case spells.
fn source_of(alloc: Global, spelled: &str) -> Result<Source> {
    let text = text_of_lines(alloc, spelled)?;
    ensure!(text.len() <= 4_194_304, "the source is too long");
    match assemble(alloc, text.as_slice()) {
        Ok(source) => Ok(source),
        Err(_) => bail!("the source has a fault"),
    }
}

/// Appends the plans of a block, the greedy one as it is given.
fn push_plans(text: &mut String, block: &Block, greedy: &Plan) -> Result<(), AllocError> {
    write!(text, "{}: padded ", block.first)?;
    push_plan(text, &padded(block))?;
    text.push_str(", greedy ")?;
    push_plan(text, greedy)?;
    text.push_str(", best ")?;
    push_best(text, block)?;
    write!(text, ", backwards {}", verdict(block, &mut Backwards))
}

/// Appends what becomes of a block.
fn push_block(
    text: &mut String,
    block: &Block,
    greedy: &Plan,
    copied: Copied,
) -> Result<(), AllocError> {
    push_plans(text, block, greedy)?;
    text.push_str(", copies ")?;
    push_copies(text, copied)
}

/// What becomes of each block.
fn all_text(
    alloc: Global,
    blocks: &[Block],
    plans: &[Plan],
    starts: &[u32],
) -> Result<String, AllocError>
    requires blocks { AreOfOneSource blocks.now }
    requires plans { length plans.now ≡ length blocks.now }
    requires starts { length starts.now ≡ length blocks.now }
    requires few { length blocks.now < 2 ^ 32 }
{
    let mut text = String::new(alloc);
    for branch in 0..blocks.len() {
        if branch > 0 {
            text.push_str(" | ")?;
        }
        let copied = copies(blocks, plans, starts, branch as u32);
        push_block(&mut text, &blocks[branch], &plans[branch], copied)?;
    }
    Ok(text)
}

/// What becomes of each block, where they stand as these plans.
fn placed_text(alloc: Global, blocks: &[Block], plans: &[Plan]) -> Result<String>
    requires { AreOfOneSource blocks.now }
{
    let starts = starts_of(alloc, plans)?;
    ensure!(blocks.len() <= 20_000, "there are too many blocks");
    ensure!(plans.len() == blocks.len(), "a plan is missing");
    ensure!(starts.len() == blocks.len(), "a start is missing");
    Ok(all_text(alloc, blocks, plans, &starts)?)
}

/// What becomes of each block, where they stand as the greedy plans.
fn planned_text(alloc: Global, blocks: &[Block]) -> Result<String>
    requires { AreOfOneSource blocks.now }
{
    let plans = greedy_plans(alloc, blocks)?;
    placed_text(alloc, blocks, &plans)
}

/// What becomes of each block of a source.
fn blocks_text(alloc: Global, source: &Source) -> Result<String> {
    let Ok(found) = blocks(alloc, source) else {
        bail!("out of memory")
    };
    planned_text(alloc, &found)
}

fn text_of_blocks(alloc: Global, spelled: &str) -> Result<String> {
    let source = source_of(alloc, spelled)?;
    blocks_text(alloc, &source)
}

/// The line of a case, with the answer that the crates give in place of its own.
pub fn answered(alloc: Global, line: &str) -> Result<String> {
    let spelled = before(line, " => ")?;
    let answer = text_of_blocks(alloc, spelled)?;
    Ok(format!(in alloc; "{spelled} => {answer}")?)
}
