//! Laws over the definitions.
ghost use Rattle.law_end_to_end.specs.Laws.{FilledRunMeansItsSource, RunMeansItsSource, TextMeansItsSource};

/// The run of a source that is linked by valid plans, with its branches in reach, on the pipelined machine, whatever interrupts
/// come: it sends a prefix of what the meaning sends; where it halts, so does the meaning, with its console, registers and data;
/// where the meaning halts after n statements, it halts within the bound of cycles for n statements; and what the meaning sends
/// in m statements is sent within the bound for m and 64 more.
pub fn run_means_its_source()
    ensures linked { RunMeansItsSource }
    ensures text { TextMeansItsSource }
{}

/// So does the run of code of another linker, which copies for each transfer any number of its target's first words that no rule
/// forbids.
pub fn filled_run_means_its_source()
    ensures { FilledRunMeansItsSource }
{}
