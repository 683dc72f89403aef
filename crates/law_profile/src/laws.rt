//! Laws of the charges to clean code.
ghost use Rattle.law_profile.specs.Laws.{ExecutedIsDelay};
ghost use Rattle.law_profile.specs.Meant.{ProfileIsMeant, LinesAreMeant};

/// Whatever interrupts come, a run of clean code executes each word as often as the machine with delay slots does in as many
/// steps as words passed.
pub fn executed_is_delay()
    ensures { ExecutedIsDelay }
{}

/// Where the profiled run of a source has halted, each statement was executed, at its own word or at a copy, as often as the
/// meaning was at it, whatever interrupts came. `profile` gives such a profile, and `line_costs` such costs.
pub fn profile_is_meant()
    ensures { ProfileIsMeant }
{}

/// Each line of the source was then executed as often as the meaning was at its statements together. `costs_by_line` gives such
/// costs of lines.
pub fn lines_are_meant()
    ensures { LinesAreMeant }
{}
