//! The lengths of the plans of a block.
ghost use Rattle.std.specs.Prelude.{◌≡◌, ◌≤◌, IfSome};
ghost use Rattle.mx_blocks.specs.Leaders.{size};
ghost use Rattle.mx_best.specs.Shortest.{most_searched};
ghost use Rattle.cmd_best.specs.Lengths.{padded_length, greedy_length, shortest_length, searched_length};

use mx_best::{MOST_SEARCHED, best};
use mx_blocks::Block;
use mx_reorg::ListProposer;
use mx_validate::{Proposer, padded};

/// How many items the plans of a block have.
#[derive(Clone, Copy)]
pub(crate) struct Lengths {
    pub padded: usize,
    pub greedy: usize,
    /// Of a shortest plan, where the block has few enough instructions to be searched.
    pub searched: Option<usize>,
}

/// The lengths of the plans of a block.
pub(crate) fn lengths_of(block: &Block) -> Lengths
    ensures padded { result.padded ≡ padded_length block.now }
    ensures greedy { result.greedy ≡ greedy_length block.now }
    ensures searched { result.searched ≡ searched_length block.now }
    ensures few_padded { result.padded ≤ 131 }
    ensures few_greedy { result.greedy ≤ 131 }
    ensures few_searched { IfSome result.searched (λ n. n ≤ 131) }
{
    Lengths {
        padded: padded(block).items.len(),
        greedy: greedy_length(block),
        searched: searched_length(block),
    }
}

fn greedy_length(block: &Block) -> usize
    ensures value { result ≡ greedy_length block.now }
    ensures few { result ≤ 131 }
{
    let mut scheduler = ListProposer;
    let plan = scheduler.propose(block);
    plan.items.len()
}

fn searched_length(block: &Block) -> Option<usize>
    ensures value { result ≡ searched_length block.now }
    ensures few { IfSome result (λ n. n ≤ 131) }
{
    if block.insts.len() <= MOST_SEARCHED {
        Some(shortest_length(block))
    } else {
        None
    }
}

fn shortest_length(block: &Block) -> usize
    requires { size block.now ≤ most_searched }
    ensures value { result ≡ shortest_length block.now }
    ensures few { result ≤ 131 }
{
    let plan = best(block);
    plan.items.len()
}
