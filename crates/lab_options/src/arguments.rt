//! Arguments that each are valid, and that a command cannot use.
use lab_writer::Writer;

/// The most runs of `interrupts`.
pub const MOST_RUNS: u64 = 100_000;

/// Why a command cannot use its arguments.
#[derive(Clone, Copy)]
pub enum ArgumentFault<'w> {
    /// A scheduler and a plan file are given.
    SchedulerAndPlans,
    /// A miss brings more words than a line has.
    MoreThanLine,
    /// The first cycle is after the last one of the undisturbed run.
    AfterLast { from: u32, last: u32 },
    /// The first cycle is after the last one that is asked for.
    AfterTo { from: u32, to: u32 },
    /// There are so many runs; this step makes fewer.
    TooManyRuns { runs: u64, step: u64 },
    /// A column is not `NAME=FILE`.
    ColumnWord(&'w str),
    /// A column has the name of a scheduler.
    ColumnTaken(&'w str),
    /// Two columns have this name.
    ColumnTwice(&'w str),
    /// Plan files are given with so many sources.
    ColumnsOfSeveral(usize),
    /// There are too many modules.
    TooManyModules,
    /// The modules together have too many bytes.
    TooLongModules,
}

// Appends a number of cycles or runs.
fn push_cycle(text: &mut Writer, cycle: u32) {
    text.push_number(u64::from(cycle));
}

// Appends that the first cycle is after another.
fn push_after(text: &mut Writer, from: u32, bounded: &str, cycle: u32) {
    text.push_str("--from ");
    push_cycle(text, from);
    text.push_str(bounded);
    push_cycle(text, cycle);
}

// Appends that there are too many runs.
fn push_runs(text: &mut Writer, runs: u64, step: u64) {
    text.push_number(runs);
    text.push_str(" runs are more than ");
    text.push_number(MOST_RUNS);
    text.push_str(": --step ");
    text.push_number(step);
    text.push_str(" makes fewer");
}

// Appends that a column is not `NAME=FILE`.
fn push_column_word(text: &mut Writer, word: &str) {
    text.push_parts(&[
        "invalid value '",
        word,
        "' for '--plans': expected NAME=FILE",
    ]);
    text.push_str(", with a name of 1 to 16 letters, digits, '_', '-' or '.'");
}

// Appends that plan files are given with several sources.
fn push_several(text: &mut Writer, sources: usize) {
    text.push_str("a plan file is that of one source, and ");
    text.push_number(sources as u64);
    text.push_str(" are given: compare each by itself");
}

impl ArgumentFault<'_> {
    /// Appends what is wrong, without the end of a line.
    pub fn push_to(self, text: &mut Writer) {
        match self {
            ArgumentFault::SchedulerAndPlans => {
                text.push_str("--scheduler and --plans exclude each other: give one of them");
            }
            ArgumentFault::MoreThanLine => text.push_str("--brings is more than --line"),
            ArgumentFault::AfterLast { from, last } => {
                let bounded = " is after the last cycle of the undisturbed run, ";
                push_after(text, from, bounded, last);
            }
            ArgumentFault::AfterTo { from, to } => push_after(
                text,
                from,
                " is more than --to ",
                to,
            ),
            ArgumentFault::TooManyRuns { runs, step } => push_runs(text, runs, step),
            ArgumentFault::ColumnWord(word) => push_column_word(text, word),
            ArgumentFault::ColumnTaken(name) => {
                text.push_parts(&["'", name, "' is a column of 'compare'"]);
                text.push_str(": '--plans' needs another name");
            }
            ArgumentFault::ColumnTwice(name) => {
                text.push_parts(&["'", name, "' names two plan files"]);
                text.push_str(": each '--plans' needs a name of its own");
            }
            ArgumentFault::ColumnsOfSeveral(sources) => push_several(text, sources),
            ArgumentFault::TooManyModules => text.push_str("a program has at most 16 modules"),
            ArgumentFault::TooLongModules => {
                text.push_str("modules have at most 4,000,000 bytes together");
            }
        }
    }
}
