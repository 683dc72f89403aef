//! Laws of the charges.
ghost use Rattle.lab_profile.specs.Charges.{EachSumIsItsCount};
ghost use Rattle.lab_profile.specs.Lines.{LinesFollowStatements};

/// The fetches, the cycles, also by what causes them, and the squashes that are charged to all places, the handler's among
/// them, are those that the run counts.
pub fn sums_are_counts()
    ensures { EachSumIsItsCount }
{}

/// What is known of how often each statement was executed tells how often each line was.
pub fn lines_follow_statements()
    ensures { LinesFollowStatements }
{}
