//! The list scheduler.
ghost use Rattle.std.specs.Prelude.{◌≡◌, ◌≤◌, length};
ghost use Rattle.mx_reorg.specs.Terms.{Plan, IsGraph, insts_of, Valid};
ghost use Rattle.mx_reorg.specs.Greedy.{IsGreedy};
ghost use Rattle.mx_reorg.specs.Making.{IsFront};

use crate::choosing::next_item;
use crate::ending::{may_end, push_slots, push_terminator};
use arrayvec::ArrayVec;
use mx_blocks::{Block, End, Item, Plan};
use mx_depend::Graph;
use mx_validate::Proposer;

/// A list scheduler (Hennessy and Gross): at each place stands the candidate of greatest height in the
/// dependence graph, and the terminator at the first place where what is left fits its slots.
#[derive(Clone, Copy, Debug, PartialEq, Eq)]
pub struct ListProposer;

impl Proposer for ListProposer {
    ghost use Rattle.std.specs.Prelude.{◌≡◌};
    ghost use Rattle.mx_blocks.specs.declared.block.Plan.{Plan};
    ghost use Rattle.mx_reorg.specs.Greedy.{IsGreedy};

    ghost proposes = { λ block plan. IsGreedy block plan };

    /// Exactly one plan of a block is greedy: this one, which is valid.
    fn propose(&mut self, block: &Block) -> Plan
        ensures proposes { IsGreedy block.now result }
        ensures only { (plan : Plan) → IsGreedy block.now plan → plan ≡ result }
        ensures valid { Valid block.now result }
    {
        let insts = block.insts.as_slice();
        let graph = Graph::of(insts, block.input);
        greedy_plan(block, &graph)
    }
}

/// The greedy plan.
fn greedy_plan(block: &Block, graph: &Graph) -> Plan
    requires graph { IsGraph (insts_of block.now) block.now.input graph.now }
    requires few { length (insts_of block.now) ≤ 64 }
    ensures greedy { IsGreedy block.now result }
    ensures only { (plan : Plan) → IsGreedy block.now plan → plan ≡ result }
    ensures valid { Valid block.now result }
{
    let front = front_of(block, graph);
    finished(block, graph, front)
}

/// What stands before the terminator.
fn front_of(block: &Block, graph: &Graph) -> ArrayVec<Item, 131>
    requires graph { IsGraph (insts_of block.now) block.now.input graph.now }
    requires few { length (insts_of block.now) ≤ 64 }
    ensures { IsFront block.now result.items }
{
    let mut items = ArrayVec::new();
    'front: while !may_end(block, graph, items.as_slice()) {
        let next = next_item(block, graph, items.as_slice());
        items.push(next);
    }
    items
}

/// The plan with this front.
fn finished(block: &Block, graph: &Graph, front: ArrayVec<Item, 131>) -> Plan
    requires graph { IsGraph (insts_of block.now) block.now.input graph.now }
    requires front { IsFront block.now front.items }
    ensures { IsGreedy block.now result }
{
    let mut items = front;
    let place = items.len() as u8;
    match block.end {
        End::Falls => Plan { items, place },
        End::Halts => {
            push_terminator(block, &mut items);
            Plan { items, place }
        }
        _ => {
            let _second = push_slots(block, graph, &mut items);
            Plan { items, place }
        }
    }
}
