//! Several sources, and what they come to together; plans from files beside the four schedulers.
use lab_measures::{Comparison, Figures};
use lab_terms::{Slots, TransferSlots};

/// A source by its name, and what it and its run come to.
#[derive(Clone, Copy)]
pub struct Compared<'a> {
    pub source: &'a str,
    pub comparison: Comparison,
}

/// The figures of plans from a file, by the name that they were given, and a line for each of them that is rejected.
#[derive(Clone, Copy)]
pub struct Column<'n, 'r> {
    pub name: &'n str,
    pub figures: Figures,
    pub rejections: &'r [u8],
}

/// What several sources come to together.
#[derive(Clone, Copy)]
pub struct Sums {
    /// How many sources there are, and of how many all four runs halted.
    pub sources: usize,
    pub halted: usize,
    /// The sums of their figures. Those of runs are of the sources alone of which all four runs halted.
    pub figures: Comparison,
}

/// No figures.
const NOTHING: Figures = Figures {
    words: 0,
    noops: 0,
    copies: 0,
    rejected: 0,
    transfers: TransferSlots {
        before: 0,
        target_squashed: 0,
        target: 0,
        noops: 0,
    },
    loads: Slots { filled: 0, all: 0 },
    cycles: 0,
    fetches: 0,
    misses: 0,
    squashes: 0,
    halted: true,
};

// Whether all four runs halted.
fn has_halted(comparison: &Comparison) -> bool {
    comparison.padded.halted
        && comparison.list.halted
        && comparison.copies.halted
        && comparison.best.halted
}

// A number where it is to be counted, else 0.
fn number_if(counted: bool, number: u64) -> u64 {
    if counted { number } else { 0 }
}

// Slots together.
fn slots_with(sum: TransferSlots, other: TransferSlots) -> TransferSlots {
    TransferSlots {
        before: sum.before.saturating_add(other.before),
        target_squashed: sum.target_squashed.saturating_add(other.target_squashed),
        target: sum.target.saturating_add(other.target),
        noops: sum.noops.saturating_add(other.noops),
    }
}

// Figures together, with or without those of the run.
fn figures_with(sum: &Figures, other: &Figures, runs: bool) -> Figures {
    Figures {
        words: sum.words.saturating_add(other.words),
        noops: sum.noops.saturating_add(other.noops),
        copies: sum.copies.saturating_add(other.copies),
        rejected: sum.rejected.saturating_add(other.rejected),
        transfers: slots_with(sum.transfers, other.transfers),
        loads: Slots {
            filled: sum.loads.filled.saturating_add(other.loads.filled),
            all: sum.loads.all.saturating_add(other.loads.all),
        },
        cycles: sum.cycles.saturating_add(number_if(runs, other.cycles)),
        fetches: sum.fetches.saturating_add(number_if(runs, other.fetches)),
        misses: sum.misses.saturating_add(number_if(runs, other.misses)),
        squashes: sum.squashes.saturating_add(number_if(runs, other.squashes)),
        halted: sum.halted && other.halted,
    }
}

// Four schedulers together.
fn comparison_with(sum: &Comparison, other: &Comparison, runs: bool) -> Comparison {
    Comparison {
        padded: figures_with(&sum.padded, &other.padded, runs),
        list: figures_with(&sum.list, &other.list, runs),
        copies: figures_with(&sum.copies, &other.copies, runs),
        best: figures_with(&sum.best, &other.best, runs),
    }
}

/// What several sources come to together.
pub fn sums_of(compared: &[Compared]) -> Sums {
    let mut figures = Comparison {
        padded: NOTHING,
        list: NOTHING,
        copies: NOTHING,
        best: NOTHING,
    };
    let mut halted = 0usize;
    for one in compared {
        let runs = has_halted(&one.comparison);
        figures = comparison_with(&figures, &one.comparison, runs);
        halted = halted.saturating_add(usize::from(runs));
    }
    Sums {
        sources: compared.len(),
        halted,
        figures,
    }
}
