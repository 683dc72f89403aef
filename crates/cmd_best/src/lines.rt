//! The lines of the lengths.
ghost use Rattle.std.specs.Prelude.{◌≡◌, ◌≤◌, ◌<◌, ◌+◌, ◌^◌, ◌++◌, OnOk, IfOk, List, length, codes, slice_index};
ghost use Rattle.std.specs.Option.{unwrap_or};
ghost use Rattle.std.specs.List.{flat_map, sum_by};
ghost use Rattle.mx_text.specs.Text.{count_line};
ghost use Rattle.mx_blocks.specs.declared.block.Block.{Block};
ghost use Rattle.mx_blocks.specs.Leaders.{AreBlocks};
ghost use Rattle.cmd_best.specs.Lengths.{part, searched_text, block_line, lengths_text, padded_length, greedy_length, searched_length, best_length};

use crate::measure::{Lengths, lengths_of};
use mx_blocks::{Block, blocks};
use mx_io::Memory;
use mx_source::Source;
use mx_text::{push_count, push_decimal};
use std::alloc::{AllocError, Global};

/// How many items the plans of blocks have together.
#[derive(Clone, Copy)]
struct Sums {
    padded: u64,
    greedy: u64,
    best: u64,
}

/// A number of a list, 0 past its end.
fn number_at(numbers: &[u32], index: u32) -> u32
    ensures { result ≡ slice_index numbers.now index }
{
    match numbers.get(index as usize) {
        Some(number) => *number,
        None => 0,
    }
}

/// Appends a name and a number.
fn push_part(alloc: Global, text: &mut Vec<u8>, name: &str, n: u64) -> Result<(), AllocError>
    ensures { OnOk result (text.new.items ≡ text.old.items ++ part name.now n) }
{
    text.extend_from_slice(name.as_bytes())?;
    push_decimal(alloc, text, n)
}

/// Appends the length of a shortest plan, or `-`.
fn push_searched(
    alloc: Global,
    text: &mut Vec<u8>,
    searched: Option<usize>,
) -> Result<(), AllocError>
    ensures { OnOk result (text.new.items ≡ text.old.items ++ searched_text searched) }
{
    match searched {
        Some(n) => push_decimal(alloc, text, n as u64),
        None => text.extend_from_slice(b"-"),
    }
}

/// Appends the line of a block.
fn push_block(
    alloc: Global,
    text: &mut Vec<u8>,
    lines: &[u32],
    block: &Block,
    lengths: &Lengths,
) -> Result<(), AllocError>
    requires padded { lengths.now.padded ≡ padded_length block.now }
    requires greedy { lengths.now.greedy ≡ greedy_length block.now }
    requires searched { lengths.now.searched ≡ searched_length block.now }
    ensures { OnOk result (text.new.items ≡ text.old.items ++ block_line lines.now block.now) }
{
    push_part(
        alloc,
        text,
        "line ",
        u64::from(number_at(lines, block.first)),
    )?;
    push_part(alloc, text, " size ", block.insts.len() as u64)?;
    push_part(alloc, text, " padded ", lengths.padded as u64)?;
    push_part(alloc, text, " list ", lengths.greedy as u64)?;
    text.extend_from_slice(b" best ")?;
    push_searched(alloc, text, lengths.searched)?;
    text.push(b'\n')?;
    Ok(())
}

/// The sums with the lengths of one more block.
fn added(sums: Sums, lengths: &Lengths) -> Sums
    requires padded { sums.padded + lengths.now.padded < 2 ^ 64 }
    requires greedy { sums.greedy + lengths.now.greedy < 2 ^ 64 }
    requires best { sums.best + unwrap_or lengths.now.searched lengths.now.greedy < 2 ^ 64 }
    ensures padded { result.padded ≡ sums.padded + lengths.now.padded }
    ensures greedy { result.greedy ≡ sums.greedy + lengths.now.greedy }
    ensures best { result.best ≡ sums.best + unwrap_or lengths.now.searched lengths.now.greedy }
{
    Sums {
        padded: sums.padded + lengths.padded as u64,
        greedy: sums.greedy + lengths.greedy as u64,
        best: sums.best + lengths.searched.unwrap_or(lengths.greedy) as u64,
    }
}

/// Appends the line of each block, and tells the sums.
fn push_blocks(
    alloc: Global,
    text: &mut Vec<u8>,
    lines: &[u32],
    blocks: &[Block],
) -> Result<Sums, AllocError>
    requires { length blocks.now ≤ 20000 }
    ensures text { OnOk result (text.new.items ≡ text.old.items ++ flat_map (block_line lines.now) blocks.now) }
    ensures padded { IfOk result (λ sums. sums.padded ≡ sum_by padded_length blocks.now) }
    ensures greedy { IfOk result (λ sums. sums.greedy ≡ sum_by greedy_length blocks.now) }
    ensures best { IfOk result (λ sums. sums.best ≡ sum_by best_length blocks.now) }
{
    let mut sums = Sums {
        padded: 0,
        greedy: 0,
        best: 0,
    };
    for i in 0..blocks.len() {
        let lengths = lengths_of(&blocks[i]);
        push_block(alloc, text, lines, &blocks[i], &lengths)?;
        sums = added(sums, &lengths);
    }
    Ok(sums)
}

/// Appends the sums.
fn push_sums(alloc: Global, text: &mut Vec<u8>, sums: &Sums) -> Result<(), AllocError>
    ensures { OnOk result (text.new.items ≡ text.old.items
        ++ ((count_line (codes "padded") sums.now.padded ++ count_line (codes "list") sums.now.greedy) ++ count_line (codes "best") sums.now.best)) }
{
    push_count(alloc, text, "padded", sums.padded)?;
    push_count(alloc, text, "list", sums.greedy)?;
    push_count(alloc, text, "best", sums.best)
}

/// The text of these blocks.
#[tactic(auto, unfolding(crate::specs::Lengths::lengths_text))]
fn text_of(alloc: Global, source: &Source, blocks: &[Block]) -> Result<Vec<u8>, AllocError>
    requires { length blocks.now ≤ 20000 }
    ensures { IfOk result (λ text. text.items ≡ lengths_text source.now blocks.now) }
{
    let mut text = Vec::new(alloc);
    let sums = push_blocks(alloc, &mut text, source.lines(), blocks)?;
    push_sums(alloc, &mut text, &sums)?;
    Ok(text)
}

/// Tells for each block of a source how many items its padded, its greedy and its shortest plan have, and the sums.
///
/// # Errors
///
/// `Memory` where there is no room for the blocks or the text.
pub fn lengths_text(alloc: Global, source: &Source) -> Result<Vec<u8>, Memory>
    ensures { (blocks : List Block) → AreBlocks source.now blocks → IfOk result (λ text. text.items ≡ lengths_text source.now blocks) }
{
    let _statements = source.statements();
    let blocks = blocks(alloc, source)?;
    match text_of(alloc, source, blocks.as_slice()) {
        Ok(text) => Ok(text),
        Err(_) => Err(Memory),
    }
}
