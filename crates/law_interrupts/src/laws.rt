//! Laws over the definitions.
ghost use Rattle.law_interrupts.specs.Laws.{RunIsDelay, RunGetsOn, UndisturbedRunIsDelay, UndisturbedRunGetsOn};
ghost use Rattle.law_interrupts.specs.Saves.{InterruptSaves};

/// Whatever interrupts come, a run of clean code has the console of the machine with delay slots after as many steps as words
/// passed; it halts exactly where that does, and then registers, MD, user data and the input bytes taken are the same, and
/// system word 0 is the number of interrupts taken.
pub fn run_is_delay()
    ensures { RunIsDelay }
{}

/// At most as many interrupts are taken as there are requests, and the words of clean code pass within 3 cycles each, 9 more,
/// and 78 for each request.
pub fn run_gets_on()
    ensures { RunGetsOn }
{}

/// Without requests a run of clean code does so whatever handler words stand below it.
pub fn undisturbed_run_is_delay()
    ensures { UndisturbedRunIsDelay }
{}

/// Without requests the words of clean code pass within 3 cycles each, and 9 more, whatever handler words stand below it.
pub fn undisturbed_run_gets_on()
    ensures { UndisturbedRunGetsOn }
{}

/// An interrupt saves the state of the machine with delay slots after as many steps as words passed by then, and 26 turns
/// later the same three fetches, registers, MD and user data are back, and system word 0 is one more.
pub fn interrupt_saves()
    ensures { InterruptSaves }
{}
