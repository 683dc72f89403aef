//! What is told of a run.
ghost use Rattle.std.specs.Prelude.{◌≡◌};
ghost use Rattle.lab_measures.specs.Rows.{last_request, wait_of, cost_over, killed_of};

use crate::observed::Entry;
use mx_turn::Stage;

/// A run with a request in one cycle, or in two.
#[derive(Clone, Copy)]
pub struct Row {
    /// The cycle of the first request, and that of the second if there is one.
    pub first: u32,
    pub second: Option<u32>,
    /// The cycles of the run, and whether it halted within its budget.
    pub cycles: u64,
    pub halted: bool,
    /// Whether its console is that of the undisturbed run.
    pub same_console: bool,
    /// How the last request became an interrupt, if it did.
    pub entry: Option<Entry>,
}

impl Row {
    /// The cycle of its last request.
    pub fn last(&self) -> u32
        ensures { result ≡ last_request self.now }
    {
        self.second.unwrap_or(self.first)
    }

    /// How many cycles the handler's first word is fetched after the last request, if it is.
    pub fn wait(&self) -> Option<i64>
        ensures { result ≡ wait_of self.now }
    {
        let entry = self.entry?;
        let fetched = i64::try_from(entry.fetched).ok()?;
        Some(fetched.saturating_sub(i64::from(self.last())))
    }

    /// How many cycles more the run takes than so many, if it halted.
    pub fn cost(&self, undisturbed: u64) -> Option<i64>
        ensures { result ≡ cost_over self.now undisturbed }
    {
        if !self.halted {
            return None;
        }
        let cycles = i64::try_from(self.cycles).ok()?;
        Some(cycles.saturating_sub(i64::try_from(undisturbed).ok()?))
    }

    /// The address of the first word that the interrupt killed and the handler brings back, if there is one, and whether it
    /// was squashed.
    pub fn killed(&self) -> Option<(u32, bool)>
        ensures { result ≡ killed_of self.now }
    {
        match self.entry?.killed {
            Stage::Live(address) => Some((address, false)),
            Stage::Squashed(address) => Some((address, true)),
            Stage::Empty => None,
        }
    }
}
