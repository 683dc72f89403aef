//! What the options of a command ask for: which files a run reads besides its program, and how far a run or a session goes.
#![tactic(auto)]

/// The names of the files that a run reads besides its program.
#[derive(Clone, Copy, Debug)]
pub struct RunFiles<'a> {
    /// The cycles in which interrupts are requested; none where no file is named.
    pub interrupts: Option<&'a str>,
    /// The bytes of the input; none where no file is named.
    pub input: Option<&'a str>,
}

/// What is asked of a run: how many cycles it may take, how many of them are traced, and which data words are printed.
#[derive(Clone, Copy, Debug, PartialEq, Eq)]
pub struct Limits {
    pub budget: u32,
    pub trace: u32,
    /// The first data word that is printed; none where no words are.
    pub dump: Option<u32>,
    /// How many data words are printed, where any are.
    pub count: u32,
}

/// What is asked of a session: after how many stops it ends, which data word is watched, and how many cycles it may take.
#[derive(Clone, Copy, Debug, PartialEq, Eq)]
pub struct SessionLimits {
    pub stops: u32,
    pub watch: u32,
    pub budget: u32,
}
