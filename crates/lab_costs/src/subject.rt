//! What is told of.
ghost use Rattle.std.specs.Prelude.{◌≡◌, IfOk, length, slice_index};
ghost use Rattle.lab_profile.specs.Lines.{AreStatementCosts};
ghost use Rattle.lab_costs.specs.Costs.{handler_cost, behind_cost, IsTogether};

use lab_profile::{LineCost, Profile, cost_at, line_costs, total};
use mx_link::{Linked, Origin};
use mx_source::Source;
use std::alloc::{AllocError, Global};

/// A source that was linked and run, with what its run cost.
#[derive(Clone, Copy)]
pub struct Subject<'a> {
    /// The name of its file.
    pub file: &'a str,
    pub text: &'a [u8],
    pub source: &'a Source,
    pub linked: &'a Linked,
    pub profile: &'a Profile,
}

impl<'a> Subject<'a> {
    /// Where the words of the code come from.
    pub(crate) fn origin(&self) -> &'a [Origin]
        ensures { result.now ≡ self.now.linked.now.origin.items }
    {
        self.linked.origin.as_slice()
    }

    /// How many words the code has.
    pub(crate) fn words(&self) -> usize
        ensures { result ≡ length self.now.linked.now.image.code.items }
    {
        self.linked.image.code.len()
    }

    /// The cost of each statement.
    pub(crate) fn statement_costs(&self, alloc: Global) -> Result<Vec<LineCost>, AllocError>
        ensures size { IfOk result (λ costs. length costs.items ≡ length self.now.source.now.statements) }
        ensures columns { IfOk result (λ costs. AreStatementCosts (length self.now.source.now.statements)
            self.now.linked.now.origin.items self.now.profile.now.tally costs.items) }
    {
        let statements = self.source.statements().len();
        line_costs(alloc, statements, self.origin(), &self.profile.tally)
    }

    /// What the handler cost.
    pub(crate) fn handler(&self) -> LineCost
        ensures { result ≡ handler_cost self.now.profile.now.tally (length self.now.linked.now.image.code.items) }
    {
        cost_at(&self.profile.tally, self.words())
    }

    /// What the words behind the code cost, which are none of the source.
    pub(crate) fn behind(&self) -> LineCost
        ensures { result ≡ behind_cost self.now.profile.now.tally (length self.now.linked.now.image.code.items) }
    {
        cost_at(&self.profile.tally, self.words().saturating_add(1))
    }

    /// All costs together, where these are those of the statements.
    pub(crate) fn together(&self, costs: &[LineCost]) -> LineCost
        ensures { IsTogether costs.now self.now.profile.now.tally (length self.now.linked.now.image.code.items) result }
    {
        total(costs).plus(self.handler()).plus(self.behind())
    }

    /// The line of a statement; 0 where there is none.
    pub(crate) fn line_of(&self, statement: u32) -> u32
        ensures { result ≡ slice_index self.now.source.now.lines statement }
    {
        self.source
            .lines()
            .get(statement as usize)
            .copied()
            .unwrap_or(0)
    }
}
