//! How a command ends.
ghost use Rattle.std.specs.Prelude.{◌≡◌};
ghost use Rattle.cmd_answer.specs.Exit.{exit_number};

/// How a command ended.
#[derive(Clone, Copy, Debug, PartialEq, Eq)]
pub enum Status {
    Halted,
    Done,
    Refused,
    Usage,
    OutOfBudget,
    ReadFault,
    WriteFault,
    Memory,
    BadImage,
    BadEvents,
    Stuck,
}

impl Status {
    /// The exit status of the program.
    pub fn number(&self) -> u8
        ensures { result ≡ exit_number self.now }
    {
        match self {
            Status::Halted => 0,
            Status::Done => 0,
            Status::Refused => 1,
            Status::Usage => 2,
            Status::OutOfBudget => 3,
            Status::ReadFault => 4,
            Status::WriteFault => 5,
            Status::Memory => 6,
            Status::BadImage => 7,
            Status::BadEvents => 8,
            Status::Stuck => 9,
        }
    }
}
