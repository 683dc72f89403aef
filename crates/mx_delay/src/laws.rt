//! What holds of every run.
ghost use Rattle.mx_delay.specs.Laws.{CleanForFewer, ConsoleGrows, HaltStays, StepsAdd, WatchedIsDelay};

/// Some steps and then more are as many steps as both.
pub fn steps_add()
    ensures { StepsAdd }
{}

/// No byte that was sent is taken back.
pub fn console_grows()
    ensures { ConsoleGrows }
{}

/// After a halt nothing changes.
pub fn halt_stays()
    ensures { HaltStays }
{}

/// That the steps of a run are watched, whether each is clean, changes nothing.
pub fn watched_is_delay()
    ensures { WatchedIsDelay }
{}

/// What is clean for many steps is clean for fewer.
pub fn clean_for_fewer()
    ensures { CleanForFewer }
{}
