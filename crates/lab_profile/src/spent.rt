//! What the cycles of a run were spent on.
ghost use Rattle.std.specs.Prelude.{◌≡◌};
ghost use Rattle.lab_profile.specs.Parts.{spent_together};

/// What the cycles of a run were spent on. Each cycle is stalled, or that of one fetch, which is told by what became of it.
#[derive(Clone, Copy)]
pub struct Spent {
    /// Executed words of statements, and words that were executed behind the code.
    pub instructions: u64,
    /// Executed no-ops that were put in.
    pub noops: u64,
    /// Words that a branch squashed.
    pub squashed: u64,
    /// Words that an interrupt killed, which are fetched again behind the handler, and those that were under way as the run ended.
    pub killed: u64,
    /// Words of the handler.
    pub handler: u64,
    /// Stalled cycles: a word was not in the cache.
    pub misses: u64,
}

impl Spent {
    /// The cycles of the run: all of them.
    pub fn cycles(self) -> u64
        ensures { result ≡ spent_together self }
    {
        self.instructions
            .saturating_add(self.noops)
            .saturating_add(self.squashed)
            .saturating_add(self.killed)
            .saturating_add(self.handler)
            .saturating_add(self.misses)
    }
}
