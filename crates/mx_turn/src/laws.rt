//! Laws over the definitions.
ghost use Rattle.mx_turn.specs.Fetches.{WindowOnFetches};
ghost use Rattle.mx_turn.specs.OneTurn.{OneUserTurn};

/// One turn of user code is one step of the machine with delay slots.
pub fn one_user_turn()
    ensures { OneUserTurn }
{}

/// The machine by its stages is the window onto the machine by the list of all its fetches.
pub fn stages_are_a_window()
    ensures { WindowOnFetches }
{}
