//! The block of a target.
ghost use Rattle.std.specs.Prelude.{◌≡◌, ◌<◌, ◌≤◌, ◌==◌, ℕ, true, false, Some, slice_get, length, IfSome, MatchOption};
ghost use Rattle.mx_blocks.specs.declared.block.Block.{Block};
ghost use Rattle.mx_squash.specs.Copies.{is_target};
ghost use Rattle.mx_squash.specs.Ordered.{Ascends, IsFound};

use mx_blocks::{Block, End};

/// The number of the block that begins where a block that ends so goes, if there is one.
pub(crate) fn target_of(blocks: &[Block], end: End) -> Option<usize>
    requires { Ascends blocks.now }
    ensures within { IfSome result (λ i. i < length blocks.now) }
    ensures found { MatchOption result
        ((i : ℕ) (b : Block) → slice_get blocks.now i ≡ Some b → is_target end b ≡ false)
        (IsFound (is_target end) blocks.now) }
{
    match end {
        End::Branches { target } => index_of(blocks, target),
        End::Calls { target } => index_of(blocks, target),
        End::Falls | End::Halts | End::Jumps => None,
    }
}

/// The number of the block that begins at the statement, if there is one.
fn index_of(blocks: &[Block], target: u32) -> Option<usize>
    requires { Ascends blocks.now }
    ensures within { IfSome result (λ i. i < length blocks.now) }
    ensures found { MatchOption result
        ((i : ℕ) (b : Block) → slice_get blocks.now i ≡ Some b → (b.first == target) ≡ false)
        (IsFound (λ b. b.first == target) blocks.now) }
{
    let low = first_from(blocks, target);
    if low == blocks.len() {
        return None;
    }
    if blocks[low].first == target {
        Some(low)
    } else {
        None
    }
}

/// How many blocks begin before the statement, by halving.
fn first_from(blocks: &[Block], target: u32) -> usize
    requires { Ascends blocks.now }
    ensures within { result ≤ length blocks.now }
    ensures before { (i : ℕ) (b : Block) → i < result → slice_get blocks.now i ≡ Some b → b.first < target }
    ensures behind { (i : ℕ) (b : Block) → result ≤ i → slice_get blocks.now i ≡ Some b → target ≤ b.first }
{
    let mut low = 0;
    let mut high = blocks.len();
    while low < high {
        let middle = low + (high - low) / 2;
        if blocks[middle].first < target {
            low = middle + 1;
        } else {
            high = middle;
        }
    }
    low
}
