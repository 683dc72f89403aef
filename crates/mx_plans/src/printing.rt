//! The plan file of the list scheduler.
ghost use Rattle.std.specs.Prelude.{◌≡◌, ◌++◌, ◌∷◌, ◌==◌, ◌&&◌, [], true, not, List, OnOk, IfOk, length};
ghost use Rattle.mx_validate.specs.Padded.{falls, items_of};
ghost use Rattle.mx_blocks.specs.declared.Block.{Block};
ghost use Rattle.mx_blocks.specs.Leaders.{AreBlocks};
ghost use Rattle.mx_plans.specs.Printed.{mark_at, mark_word, word_of_line, words_from, marks_from, marks_of_plan, plan_line, plans_text};

use crate::mark::Mark;
use mx_blocks::{Block, End, Item, Plan, blocks};
use mx_io::Memory;
use mx_reorg::ListProposer;
use mx_source::Source;
use mx_text::push_decimal;
use mx_validate::Proposer;
use std::alloc::{AllocError, Global};

/// What an item says, at the terminator's place or not.
fn mark_at(is_place: bool, item: Item) -> Mark
    ensures { result ≡ mark_at is_place item }
{
    if is_place {
        return Mark::Terminator;
    }
    match item {
        Item::Op(k) => Mark::Number(k),
        Item::Nop => Mark::NoOp,
    }
}

/// Appends a word.
fn push_mark(alloc: Global, text: &mut Vec<u8>, mark: Mark) -> Result<(), AllocError>
    ensures { OnOk result (text.new.items ≡ text.old.items ++ mark_word mark) }
{
    match mark {
        Mark::Number(k) => push_decimal(alloc, text, u64::from(k)),
        Mark::NoOp => {
            text.push(b'-')?;
            Ok(())
        }
        Mark::Terminator => {
            text.push(b'/')?;
            Ok(())
        }
    }
}

/// Appends a word, with a space before it where it is not the first.
fn push_word(alloc: Global, text: &mut Vec<u8>, first: bool, mark: Mark) -> Result<(), AllocError>
    ensures { OnOk result (text.new.items ≡ text.old.items ++ word_of_line first mark) }
{
    if !first {
        text.push(b' ')?;
    }
    push_mark(alloc, text, mark)
}

/// Whether the block has a terminator.
fn has_terminator(end: End) -> bool
    ensures { result ≡ not (falls end) }
{
    !matches!(end, End::Falls)
}

/// Appends the words of a plan of the block.
pub fn push_plan(
    alloc: Global,
    text: &mut Vec<u8>,
    block: &Block,
    plan: &Plan,
) -> Result<(), AllocError>
    ensures { OnOk result (text.new.items ≡ text.old.items ++ words_from true (marks_of_plan block.now plan.now)) }
{
    let ends = has_terminator(block.end);
    let place = plan.place as usize;
    let items = plan.items.as_slice();
    for p in 0..items.len() {
        let mark = mark_at(ends && p == place, items[p]);
        push_word(alloc, text, p == 0, mark)?;
    }
    Ok(())
}

/// Appends the line of a block.
fn push_block(alloc: Global, text: &mut Vec<u8>, block: &Block) -> Result<(), AllocError>
    ensures { OnOk result (text.new.items ≡ text.old.items ++ plan_line block.now) }
{
    let mut scheduler = ListProposer;
    let plan = scheduler.propose(block);
    push_plan(alloc, text, block, &plan)?;
    text.push(b'\n')?;
    Ok(())
}

/// Appends the lines of blocks.
fn push_blocks(alloc: Global, text: &mut Vec<u8>, blocks: &[Block]) -> Result<(), AllocError>
    ensures { OnOk result (text.new.items ≡ text.old.items ++ plans_text blocks.now) }
{
    for block in blocks {
        push_block(alloc, text, block)?;
    }
    Ok(())
}

/// The plan file that says what the list scheduler proposes: a line for each block of the source.
///
/// # Errors
///
/// `Memory` where there is no room for the blocks or the text.
pub fn print_plans(alloc: Global, source: &Source) -> Result<Vec<u8>, Memory>
    ensures { (blocks : List Block) → AreBlocks source.now blocks → IfOk result (λ text. text.items ≡ plans_text blocks) }
{
    let _statements = source.statements();
    let blocks = blocks(alloc, source)?;
    let mut text = Vec::new(alloc);
    match push_blocks(alloc, &mut text, blocks.as_slice()) {
        Ok(()) => Ok(text),
        Err(_) => Err(Memory),
    }
}
