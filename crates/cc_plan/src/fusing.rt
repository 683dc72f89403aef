//! Comparisons that are made by the branch that reads them.
ghost use Rattle.std.specs.Prelude.{◌≡◌, ℕ};
ghost use Rattle.cc_lines.specs.Conditions.{holds};
ghost use Rattle.cc_plan.specs.Comparisons.{value_of, asked_by, tested};

use crate::effects::{of, reads, writes};
use crate::plan::{Comparison, Plan, Step};
use cc_lines::{Condition, Instruction, Operation, Register, Source};
use cc_program::{Item, Symbols};
use cc_rules::is_comparison;

/// How many items before a branch its comparison stands at most.
const MOST_BETWEEN: usize = 32;

/// The condition that `slt` or `sltu` and its like test. Some comparisons without signs are comparisons with register 0.
#[tactic(auto, using(crate::proofs::Zeros::below_one, crate::proofs::Zeros::above_zero))]
pub fn tested_by(op: Operation, rs: Register, second: Source) -> Comparison
    ensures made { result ≡ tested op rs second }
    ensures truth { (words : ℕ → ℕ) → words 0 ≡ 0 → holds result.condition (words result.rs.0) (value_of words result.second)
        ≡ holds (asked_by op) (words rs.0) (value_of words second) }
{
    match (op, second) {
        (Operation::Lower, Source::Number(1)) => Comparison {
            condition: Condition::Equal,
            rs,
            second: Source::Register(Register::ZERO),
        },
        (Operation::Lower, Source::Register(rt)) if rs == Register::ZERO => Comparison {
            condition: Condition::NotEqual,
            rs: rt,
            second: Source::Register(Register::ZERO),
        },
        (Operation::Lower, _) => Comparison {
            condition: Condition::Lower,
            rs,
            second,
        },
        _ => Comparison {
            condition: Condition::Less,
            rs,
            second,
        },
    }
}

/// The registers that a comparison reads.
fn operands(rs: Register, second: Source) -> u64 {
    match second {
        Source::Register(rt) => of(rs) | of(rt),
        Source::Number(_) => of(rs),
    }
}

/// The register that a branch to a symbol tests against 0, and whether it is taken where that is not 0.
fn tested(item: &Item) -> Option<(Register, bool)> {
    let Item::Code {
        instruction: Instruction::Branch {
            condition,
            rs,
            second: Source::Register(Register(0)) | Source::Number(0),
        },
        symbol: Some(_),
        ..
    } = *item
    else {
        return None;
    };
    match condition {
        Condition::NotEqual if rs != Register::ZERO => Some((rs, true)),
        Condition::Equal if rs != Register::ZERO => Some((rs, false)),
        _ => None,
    }
}

/// Whether control comes to an item, or goes on behind it, other than straight on.
fn breaks(item: &Item, symbols: &Symbols) -> bool {
    match item {
        Item::Label(symbol) => symbols.is_used(*symbol),
        Item::Location { .. } => false,
        Item::Code { instruction, .. } => matches!(
            instruction,
            Instruction::Branch { .. }
                | Instruction::Jump(_)
                | Instruction::Call(_)
                | Instruction::Break(_)
        ),
    }
}

/// What stands before a branch, in the same block, and alone writes the register that this tests for it.
#[derive(Clone, Copy)]
struct Giver {
    number: usize,
    instruction: Instruction,
    /// The registers that change between the two.
    touched: u64,
}

impl Giver {
    /// Whether registers are at the branch as they were before the instruction.
    fn keeps(&self, registers: u64) -> bool {
        self.touched & registers == 0
    }
}

/// What gives the register `x` for the branch with a number, if nothing else reads it between.
fn giver_of(items: &[Item], symbols: &Symbols, from: usize, x: Register) -> Option<Giver> {
    // It changes in each statement that needs a register of its own.
    let mut touched = of(Register::BETWEEN);
    for back in 1..MOST_BETWEEN {
        let number = from.checked_sub(back)?;
        let item = items.get(number)?;
        if breaks(item, symbols) {
            return None;
        }
        if let Item::Code { instruction, .. } = item {
            if (reads(instruction) | writes(instruction)) & of(x) != 0 {
                return Some(Giver {
                    number,
                    instruction: *instruction,
                    touched,
                });
            }
            touched |= writes(instruction);
        }
    }
    None
}

/// Whether a branch may give a register what it found, once it has compared others.
fn may_split(found: Comparison, x: Register) -> bool {
    let is_sign = found.condition == Condition::Less
        && matches!(
            found.second,
            Source::Number(0) | Source::Register(Register(0))
        );
    !is_sign
        && operands(found.rs, found.second) & of(x) == 0
        && (of(Register::STACK) | of(Register::FRAME) | of(Register::LINK)) & of(x) == 0
}

/// How a branch on the register `x` makes the comparison that gives this. It is taken where that `holds`, or where it does not.
fn by_comparison(found: Comparison, x: Register, holds: bool, is_live: bool) -> Option<Step> {
    let asked = if holds { found } else { found.opposite() };
    if !is_live {
        return Some(Step::Fused(asked));
    }
    if may_split(found, x) {
        return Some(Step::Split {
            found: asked,
            into: x,
            taken: holds,
        });
    }
    None
}

/// The condition of 0 and a word that begins with the bits of a mask, which are all its low ones or a single one, and how many bits
/// of the register that is. The branch is taken where one of them is set, or where none is.
fn bits_of(mask: u32, holds: bool) -> Option<(u8, Condition)> {
    let (bits, found) = if mask.count_ones() == 1 {
        (mask.trailing_zeros() + 1, Condition::Less)
    } else if mask & mask.wrapping_add(1) == 0 && mask > 0 {
        (mask.count_ones(), Condition::NotEqual)
    } else {
        return None;
    };
    let count = u8::try_from(bits).unwrap_or(32);
    if count > 31 {
        return None;
    }
    Some((count, if holds { found } else { found.opposite() }))
}

/// How a branch on the register `x` does what gives this.
fn by_giver(giver: &Giver, x: Register, holds: bool, is_live: bool) -> Option<Step> {
    match giver.instruction {
        Instruction::Compute { op, rd, rs, second }
            if is_comparison(op) && rd == x && giver.keeps(operands(rs, second)) => {
            by_comparison(tested_by(op, rs, second), x, holds, is_live)
        }
        Instruction::Compute {
            op: Operation::And,
            rd,
            rs,
            second: Source::Number(mask),
        } if rd == x && !is_live && giver.keeps(of(rs)) => {
            let (count, condition) = bits_of(mask, holds)?;
            Some(Step::Bits {
                rs,
                count,
                condition,
            })
        }
        _ => None,
    }
}

/// How the branch with a number does what stands before it, and the number of the item that does it no more.
fn fused_at(
    items: &[Item],
    symbols: &Symbols,
    plans: &[Plan],
    number: usize,
) -> Option<(usize, Step)> {
    let (x, holds) = tested(items.get(number)?)?;
    let is_live = plans.get(number)?.live & of(x) != 0;
    let giver = giver_of(items, symbols, number, x)?;
    Some((giver.number, by_giver(&giver, x, holds, is_live)?))
}

/// Lets a plan say what becomes of the item with a number.
fn set_step(plans: &mut [Plan], number: usize, step: Step) {
    if let Some(plan) = plans.get_mut(number) {
        plan.step = step;
    }
}

/// Lets each comparison, and each selection of bits, that a branch of its block tests be made by that branch.
pub(crate) fn fuse(items: &[Item], symbols: &Symbols, plans: &mut [Plan]) {
    for number in 0..items.len() {
        if let Some((from, step)) = fused_at(items, symbols, plans, number) {
            set_step(plans, from, Step::Gone);
            set_step(plans, number, step);
        }
    }
}
