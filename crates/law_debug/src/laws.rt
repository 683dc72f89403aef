//! Laws over the definitions.
ghost use Rattle.law_debug.specs.Laws.{StopsAreVisits};

/// A source that is linked without copies, on the pipelined machine, whatever interrupts come, and stopped at the address of
/// a leader: its j-th stop shows the registers, MD and each data word of the meaning as that comes to the leader for the
/// j-th time, and the console up to there is the meaning's; and a stop comes within the bound of cycles for the statements
/// of its visit and 64 more.
pub fn stops_are_visits()
    ensures { StopsAreVisits }
{}
