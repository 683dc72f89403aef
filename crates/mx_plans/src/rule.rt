//! The rules of a valid plan, and the first that a plan breaks.
ghost use Rattle.std.specs.Prelude.{◌≡◌, ◌↔◌, ◌<◌, ◌+◌, IsTrue, MatchOption};
ghost use Rattle.mx_plans.specs.Rules.{rank, Keeps, IsVerdict};

use mx_blocks::{Block, Plan};
use mx_validate::padded;
use mx_validate::rules::{
    ends_without_load, has_length, has_place, keeps_apart, keeps_order, stands_once,
};

/// A rule of a valid plan.
#[derive(Clone, Copy, Debug, PartialEq, Eq)]
pub enum Rule {
    /// Each instruction stands once, and no other number stands.
    Once,
    /// The terminator stands at the plan's place.
    Terminator,
    /// Two items follow a transfer, nothing a halt, and the place of a block that falls through is the length.
    Tail,
    /// Two instructions that stand in the opposite order of the source are independent.
    Order,
    /// No load is directly followed by a reader of its register.
    Delay,
    /// The last item is not a load.
    LastLoad,
    /// No more items stand before the terminator's place than in the padded plan.
    Room,
}

/// Whether the plan keeps the rule.
fn keeps(block: &Block, plan: &Plan, rule: Rule) -> bool
    requires { 1 < rank rule → Keeps block.now plan.now Rule.Once }
    ensures { IsTrue result ↔ Keeps block.now plan.now rule }
{
    let insts = block.insts.as_slice();
    let items = plan.items.as_slice();
    match rule {
        Rule::Once => stands_once(items, insts.len()),
        Rule::Terminator => has_place(block, plan),
        Rule::Tail => has_length(block, plan),
        Rule::Order => keeps_order(insts, items, block.input),
        Rule::Delay => keeps_apart(insts, items),
        Rule::LastLoad => ends_without_load(insts, items),
        Rule::Room => plan.place <= padded(block).place,
    }
}

/// The rule behind this one.
fn next(rule: Rule) -> Option<Rule>
    ensures { MatchOption result (rank rule ≡ 7) (λ later. rank later ≡ rank rule + 1) }
{
    match rule {
        Rule::Once => Some(Rule::Terminator),
        Rule::Terminator => Some(Rule::Tail),
        Rule::Tail => Some(Rule::Order),
        Rule::Order => Some(Rule::Delay),
        Rule::Delay => Some(Rule::LastLoad),
        Rule::LastLoad => Some(Rule::Room),
        Rule::Room => None,
    }
}

/// The first rule that the plan breaks, in the order of `Rule`. A plan that breaks none is valid.
pub fn first_broken_rule(block: &Block, plan: &Plan) -> Option<Rule>
    ensures { IsVerdict block.now plan.now result }
{
    let mut rule = Rule::Once;
    'rules: loop {
        if !keeps(block, plan, rule) {
            return Some(rule);
        }
        match next(rule) {
            Some(later) => rule = later,
            None => return None,
        }
    }
}
