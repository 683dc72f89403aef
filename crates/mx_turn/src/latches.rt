//! What a turn shows of its stages.

/// A stage of the pipeline: empty, or with the fetch of an address, which a branch may have squashed.
#[derive(Clone, Copy, Debug, PartialEq, Eq)]
pub enum Stage {
    Empty,
    Live(u32),
    Squashed(u32),
}

/// The stages of the last completed turn, with the marks that they had as that turn began, and what the word in
/// ALU reads and makes: its operands `a` and `b`, and its result. All are empty and 0 before the first turn.
#[derive(Clone, Copy, Debug, PartialEq, Eq)]
pub struct Latches {
    pub fetch: Stage,
    pub rf: Stage,
    pub alu: Stage,
    pub mem: Stage,
    pub wb: Stage,
    pub a: u32,
    pub b: u32,
    pub result: u32,
}

impl Latches {
    ghost use Rattle.std.specs.Prelude.{◌≡◌};
    ghost use Rattle.mx_turn.specs.declared.latches.Stage.{Stage};

    /// What is shown before the first turn.
    pub fn before_turns() -> Latches
        ensures { result ≡ record { fetch = Stage.Empty; rf = Stage.Empty; alu = Stage.Empty; mem = Stage.Empty; wb = Stage.Empty; a = 0; b = 0; result = 0 } }
    {
        Latches {
            fetch: Stage::Empty,
            rf: Stage::Empty,
            alu: Stage::Empty,
            mem: Stage::Empty,
            wb: Stage::Empty,
            a: 0,
            b: 0,
            result: 0,
        }
    }
}
