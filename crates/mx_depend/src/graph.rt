//! The dependence graph.
ghost use Rattle.std.specs.Prelude.{◌≡◌, ◌≤◌, ◌<◌, ◌↔◌, ◌==◌, ◌||◌, ℕ, IsTrue, length, slice_index};
ghost use Rattle.mx_depend.specs.Graphs.{IsEdge, IsMask, IsHeight, has_bit, weight};

use crate::{feeds, independent};
use mx_isa::Inst;
use std::marker::Model;

/// The dependence graph of at most 64 instructions: an edge goes from one instruction to a later one
/// where the two are not independent (Hennessy and Gross).
#[derive(Drop)]
pub struct Graph {
    count: usize,
    masks: [u64; 64],
    heights: [u8; 64],
}

impl Model for Graph {
    ghost use Rattle.std.specs.Prelude.{◌≤◌};
    ghost use Rattle.mx_depend.specs.Graphs.{GraphValue};

    ghost Value = { GraphValue };

    ghost view = { λ g. record { count = g.count; masks = g.masks; heights = g.heights } };

    ghost invariant = { λ g. g.count ≤ 64 };
}

impl Graph {
    ghost use Rattle.std.specs.Prelude.{Bool, List};
    ghost use Rattle.mx_isa.specs.declared.inst.Inst.{Inst};
    ghost use Rattle.mx_depend.specs.Graphs.{IsGraph};

    /// The graph of these instructions; `input` says whether loads keep their order.
    pub fn of(insts: &[Inst], input: bool) -> Graph
        requires { length insts.now ≤ 64 }
        ensures { IsGraph insts.now input result }
    {
        Graph {
            count: insts.len(),
            masks: masks(insts, input),
            heights: heights(insts, input),
        }
    }

    /// The instructions from which an edge goes to instruction `i`, as bits of a mask.
    pub fn before(&self, i: u8) -> u64
        requires { i < self.now.count }
        ensures exact { (insts : List Inst) (input : Bool) → IsGraph insts input self.now → IsMask insts input i result }
    {
        self.masks[i as usize]
    }

    /// The greatest weight of a path from instruction `i`: an edge from a load to a reader of its register
    /// weighs 2, every other edge 1.
    pub fn height(&self, i: u8) -> u8
        requires { i < self.now.count }
        ensures exact { (insts : List Inst) (input : Bool) → IsGraph insts input self.now → IsHeight insts input i result }
    {
        self.heights[i as usize]
    }
}

fn masks(insts: &[Inst], input: bool) -> [u64; 64]
    requires { length insts.now ≤ 64 }
    ensures { (y : ℕ) → y < length insts.now → IsMask insts.now input y (slice_index result y) }
{
    let mut masks = [0; 64];
    for y in 0..insts.len() {
        masks[y] = mask_of(insts, y, input);
    }
    masks
}

fn mask_of(insts: &[Inst], y: usize, input: bool) -> u64
    requires within { y < length insts.now }
    requires few { length insts.now ≤ 64 }
    ensures { IsMask insts.now input y result }
{
    let mut mask = 0;
    for x in 0..y {
        if depends(insts, x, y, input) {
            mask = with_bit(mask, x);
        }
    }
    mask
}

/// Whether an edge goes from `x` to the later `y`.
fn depends(insts: &[Inst], x: usize, y: usize, input: bool) -> bool
    requires later { x < y }
    requires within { y < length insts.now }
    ensures { IsTrue result ↔ IsEdge insts.now input x y }
{
    !independent(&insts[x], &insts[y], input)
}

/// The mask with one more number.
pub fn with_bit(mask: u64, x: usize) -> u64
    requires { x < 64 }
    ensures { (z : ℕ) → has_bit result z ≡ (z == x || has_bit mask z) }
{
    mask | 1 << x
}

fn heights(insts: &[Inst], input: bool) -> [u8; 64]
    requires { length insts.now ≤ 64 }
    ensures { (x : ℕ) → x < length insts.now → IsHeight insts.now input x (slice_index result x) }
{
    let mut heights = [0; 64];
    let n = insts.len();
    for done in 0..n {
        let x = n - 1 - done;
        heights[x] = height_of(insts, x, &heights, input);
    }
    heights
}

/// The height of instruction `x`, from those of the later ones.
fn height_of(insts: &[Inst], x: usize, heights: &[u8; 64], input: bool) -> u8
    requires within { x < length insts.now }
    requires few { length insts.now ≤ 64 }
    requires known { (y : ℕ) → x < y → y < length insts.now → IsHeight insts.now input y (slice_index heights.now y) }
    ensures { IsHeight insts.now input x result }
{
    let mut greatest: u8 = 0;
    for y in x + 1..insts.len() {
        if depends(insts, x, y, input) {
            greatest = greatest.max(edge_weight(insts, x, y) + heights[y]);
        }
    }
    greatest
}

fn edge_weight(insts: &[Inst], x: usize, y: usize) -> u8
    requires first { x < length insts.now }
    requires second { y < length insts.now }
    ensures { result ≡ weight insts.now x y }
{
    if feeds(&insts[x], &insts[y]) { 2 } else { 1 }
}
