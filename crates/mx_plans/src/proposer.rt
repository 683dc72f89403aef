//! The proposer of what a plan file says.
ghost use Rattle.std.specs.Prelude.{◌≡◌, ◌≤◌, ◌<◌, ltb, length, IfSome};
ghost use Rattle.std.specs.List.{position};
ghost use Rattle.std.specs.List.Sorted.{IsNonDecreasing};
ghost use Rattle.mx_blocks.specs.declared.Block.{Block};
ghost use Rattle.mx_plans.specs.Marks.{IsSaid, place_said, is_terminator};
ghost use Rattle.mx_plans.specs.Says.{Proposes, number_below, line_at};
ghost use Rattle.mx_plans.specs.Files.{marks_of_lines};
ghost use Rattle.mx_plans.specs.Props.{marks_set};

use crate::file::PlanLine;
use crate::mark::{Mark, is_terminator, item_said};
use arrayvec::ArrayVec;
use mx_blocks::{Block, Item, Plan};
use mx_reorg::ListProposer;
use mx_validate::Proposer;
use std::marker::{Brand, PhantomData};

/// The words of each block's line, as a function that a caller picks.
pub(crate) trait Lines {
    ghost use Rattle.std.specs.Prelude.{List};
    ghost use Rattle.mx_blocks.specs.declared.Block.{Block};
    ghost use Rattle.mx_plans.specs.declared.mark.Mark.{Mark};

    ghost marks: { Block → List Mark };
}

impl Lines for Brand {
    ghost use Rattle.std.specs.Prelude.{[]};

    ghost marks = { λ block. [] };
}

/// Proposes for each block what the line of its number says.
#[derive(Drop)]
pub(crate) struct FileProposer<'a, L: Lines> {
    /// The first statement of each block of the source.
    pub(crate) firsts: &'a [u32],
    pub(crate) lines: &'a [PlanLine],
    pub(crate) of: PhantomData<L>,
    ghost rising: { IsNonDecreasing firsts.now },
    ghost tells: { (block : Block) → line_at (marks_of_lines lines.now) (number_below firsts.now block.first) ≡ L.marks block } by { Prim.hlevel marks_set },
}

impl<'a, L: Lines> Proposer for FileProposer<'a, L> {
    ghost use Rattle.mx_plans.specs.Says.{Proposes};

    ghost proposes = { λ block plan. Proposes (L.marks block) block plan };

    fn propose(&mut self, block: &Block) -> Plan {
        let number = number_below(self.firsts, block.first);
        let said = line_at(self.lines, number);
        plan_of(block, said)
    }
}

/// How many of these numbers, which do not fall, are less.
fn number_below(firsts: &[u32], first: u32) -> usize
    requires { IsNonDecreasing firsts.now }
    ensures { result ≡ number_below firsts.now first }
{
    firsts.partition_point(
        |f: &u32| -> bool
            ensures { result ≡ ltb f.now first }
        { *f < first },
    )
}

/// The words of a line, of which there are none behind the last.
fn line_at(lines: &[PlanLine], n: usize) -> &[Mark]
    ensures marks { result.now ≡ line_at (marks_of_lines lines.now) n }
    ensures few { length result.now ≤ 131 }
{
    match lines.get(n) {
        Some(line) => line.marks.as_slice(),
        None => &[],
    }
}

/// What the words of a line propose for its block.
fn plan_of(block: &Block, marks: &[Mark]) -> Plan
    requires { length marks.now ≤ 131 }
    ensures { Proposes marks.now block.now result }
{
    if marks.is_empty() {
        let mut scheduler = ListProposer;
        scheduler.propose(block)
    } else {
        plan_said(block, marks)
    }
}

/// The plan that the words of a line say for a block.
fn plan_said(block: &Block, marks: &[Mark]) -> Plan
    requires { length marks.now ≤ 131 }
    ensures { IsSaid block.now marks.now result }
{
    let mut items = ArrayVec::new();
    for mark in marks {
        items.push(item_said(block, *mark));
    }
    let place = place_said(marks) as u8;
    Plan { items, place }
}

/// The place of the first `/`.
fn terminator_at(marks: &[Mark]) -> Option<usize>
    ensures place { result ≡ position is_terminator marks.now }
    ensures within { IfSome result (λ place. place < length marks.now) }
{
    marks.iter().position(|mark| is_terminator(*mark))
}

/// Where the terminator stands.
fn place_said(marks: &[Mark]) -> usize
    ensures place { result ≡ place_said marks.now }
    ensures within { result ≤ length marks.now }
{
    match terminator_at(marks) {
        Some(place) => place,
        None => marks.len(),
    }
}
