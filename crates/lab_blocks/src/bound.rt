//! The lower bound for the plans of a block.
ghost use Rattle.std.specs.Prelude.{◌≡◌, ◌≤◌, ◌<◌, ◌↔◌, ℕ, IsTrue, length, slice_index};
ghost use Rattle.mx_blocks.specs.declared.block.Plan.{Plan};
ghost use Rattle.mx_blocks.specs.Leaders.{size};
ghost use Rattle.mx_depend.specs.Graphs.{IsEdge, inst_at, weight};
ghost use Rattle.mx_isa.specs.Views.{is_load};
ghost use Rattle.mx_validate.specs.Padded.{insts_of, items_of};
ghost use Rattle.mx_validate.specs.Validity.{Valid, end_count};
ghost use Rattle.lab_blocks.specs.Bounds.{IsLowerBound, IsSpan, is_terminator, least_rest};

use mx_blocks::{Block, End};
use mx_depend::{feeds, independent};

/// The least length that the dependences of a block and its number of instructions leave to its plans: the greater of the number of
/// instructions and the greatest weight of a path in its graph, with the slots of the transfer at its end. No valid plan of the block
/// has fewer items.
pub fn lower_bound(block: &Block) -> u8
    ensures exact { IsLowerBound block.now result }
    ensures shortest { (plan : Plan) → Valid block.now plan → result ≤ length (items_of plan) }
{
    let spans = spans(block);
    greatest_of(block, &spans)
}

/// The greatest of the spans of a block's instructions and their number.
#[tactic(auto, using(crate::proofs::Spans::count_alone, crate::proofs::Spans::with_span, crate::proofs::Spans::whole_bound))]
fn greatest_of(block: &Block, spans: &[u8; 64]) -> u8
    requires { (x : ℕ) → x < size block.now → IsSpan block.now x (slice_index spans.now x) }
    ensures { IsLowerBound block.now result }
{
    let count = block.insts.len();
    let mut greatest = count as u8;
    for x in 0..count {
        greatest = greatest.max(spans[x]);
    }
    greatest
}

/// The greatest span of a path from each instruction.
fn spans(block: &Block) -> [u8; 64]
    ensures { (x : ℕ) → x < size block.now → IsSpan block.now x (slice_index result x) }
{
    let mut spans = [0; 64];
    let n = block.insts.len();
    for done in 0..n {
        let x = n - 1 - done;
        spans[x] = span_of(block, x, &spans);
    }
    spans
}

/// The greatest span of a path from instruction `x`, from those of the later ones.
#[tactic(auto, using(crate::proofs::Spans::begun))]
fn span_of(block: &Block, x: usize, spans: &[u8; 64]) -> u8
    requires within { x < size block.now }
    requires few { size block.now ≤ 64 }
    requires known { (y : ℕ) → x < y → y < size block.now → IsSpan block.now y (slice_index spans.now y) }
    ensures { IsSpan block.now x result }
{
    let mut greatest: u8 = least_rest(block, x);
    for y in x + 1..block.insts.len() {
        if depends(block, x, y) {
            greatest = greatest.max(edge_weight(block, x, y) + spans[y]);
        }
    }
    greatest
}

/// How many items every plan has from instruction `x` on, at least.
fn least_rest(block: &Block, x: usize) -> u8
    requires { x < size block.now }
    ensures { result ≡ least_rest block.now x }
{
    if is_terminator(block, x) {
        end_count(block.end)
    } else if loads_at(block, x) {
        2
    } else {
        1
    }
}

/// Whether instruction `x` is the transfer or halt at the end of its block.
fn is_terminator(block: &Block, x: usize) -> bool
    requires { x < size block.now }
    ensures { result ≡ is_terminator block.now x }
{
    match block.end {
        End::Falls => false,
        End::Halts | End::Branches { .. } | End::Calls { .. } | End::Jumps => {
            x == block.insts.len() - 1
        }
    }
}

/// The number of items from the terminator on.
fn end_count(end: End) -> u8
    ensures { result ≡ end_count end }
{
    match end {
        End::Falls => 0,
        End::Halts => 1,
        End::Branches { .. } | End::Calls { .. } | End::Jumps => 3,
    }
}

fn loads_at(block: &Block, x: usize) -> bool
    requires { x < size block.now }
    ensures { result ≡ is_load (inst_at (insts_of block.now) x) }
{
    block.insts[x].is_load()
}

/// Whether an edge goes from instruction `x` to the later `y`.
fn depends(block: &Block, x: usize, y: usize) -> bool
    requires later { x < y }
    requires within { y < size block.now }
    ensures { IsTrue result ↔ IsEdge (insts_of block.now) block.now.input x y }
{
    !independent(&block.insts[x], &block.insts[y], block.input)
}

/// The weight of an edge.
pub(crate) fn edge_weight(block: &Block, x: usize, y: usize) -> u8
    requires first { x < size block.now }
    requires second { y < size block.now }
    ensures { result ≡ weight (insts_of block.now) x y }
{
    if feeds(&block.insts[x], &block.insts[y]) {
        2
    } else {
        1
    }
}
