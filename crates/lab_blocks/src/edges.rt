//! The dependences of a block.
ghost use Rattle.std.specs.Prelude.{◌≡◌, ◌<◌, IfSome, IfNone};
ghost use Rattle.mx_blocks.specs.Leaders.{size};
ghost use Rattle.mx_depend.specs.Graphs.{IsEdge, inst_at, weight};
ghost use Rattle.mx_validate.specs.Padded.{insts_of};
ghost use Rattle.lab_blocks.specs.Dependences.{IsKind};

use crate::bound::edge_weight;
use crate::facts::Edge;
use crate::kinds::{Kind, dependence};
use mx_blocks::Block;
use std::alloc::{AllocError, Global};

// Why instruction `y` depends on the earlier `x`, if it does.
fn kind_at(block: &Block, x: usize, y: usize) -> Option<Kind>
    requires later { x < y }
    requires within { y < size block.now }
    ensures { IsKind (inst_at (insts_of block.now) x) (inst_at (insts_of block.now) y) block.now.input result }
{
    dependence(&block.insts[x], &block.insts[y], block.input)
}

// The dependence of instruction `y` on the earlier `x`, if there is one.
fn edge_at(block: &Block, x: usize, y: usize) -> Option<Edge>
    requires later { x < y }
    requires within { y < size block.now }
    ensures ends { IfSome result (λ edge. (edge.from ≡ x) × (edge.to ≡ y)) }
    ensures weighs { IfSome result (λ edge. edge.weight ≡ weight (insts_of block.now) x y) }
{
    match kind_at(block, x, y) {
        Some(kind) => Some(Edge {
            from: x,
            to: y,
            kind,
            weight: edge_weight(block, x, y),
        }),
        None => None,
    }
}

// Appends the dependences of instruction `y`.
fn push_edges(edges: &mut Vec<Edge>, block: &Block, y: usize) -> Result<(), AllocError>
    requires { y < size block.now }
{
    for x in 0..y {
        if let Some(edge) = edge_at(block, x, y) {
            edges.push(edge)?;
        }
    }
    Ok(())
}

/// The dependences of a block, those of its first instructions first.
pub(crate) fn edges_of(alloc: Global, block: &Block) -> Result<Vec<Edge>, AllocError> {
    let mut edges = Vec::new(alloc);
    for y in 0..block.insts.len() {
        push_edges(&mut edges, block, y)?;
    }
    Ok(edges)
}
