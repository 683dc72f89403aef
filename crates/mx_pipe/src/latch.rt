//! Latches.
use mx_isa::Inst;
use mx_pcchain::Fetched;
use mx_turn::squash;
use std::marker::Model;

/// What passes from one stage to the next: a fetch, with its squashed mark, if there is one that was not killed; from RF to
/// MEM what its word does, None where it does nothing, and its operands, the second of which gives way in MEM to the number
/// of the register that the word writes; from ALU on the number that it makes, for a load in MEM the word that it found; and
/// the MD that it makes. In IF and in WB only the fetch is kept; nothing reads the rest.
#[derive(Clone, Copy, Debug)]
pub struct Latch {
    pub word: Option<Fetched>,
    pub inst: Option<Inst>,
    pub a: u32,
    pub b: u32,
    pub result: u32,
    pub md: u32,
}

impl Model for Latch {
    ghost use Rattle.std.specs.Prelude.{IfSome};
    ghost use Rattle.mx_turn.specs.Decoded.{ShiftFits};
    ghost use Rattle.mx_pipe.specs.Latched.{Latched};

    ghost Value = { Latched };

    ghost view = { λ l. record { word = l.word; inst = l.inst; a = l.a; b = l.b; result = l.result; md = l.md } };

    ghost inverse = { λ l. record { word = l.word; inst = l.inst; a = l.a; b = l.b; result = l.result; md = l.md } };

    ghost invariant = { λ l. IfSome l.inst ShiftFits };
}

impl Latch {
    ghost use Rattle.std.specs.Prelude.{◌≡◌, IfSome, Some, true};
    ghost use Rattle.mx_turn.specs.Decoded.{ShiftFits};
    ghost use Rattle.mx_turn.specs.Stages.{squash};
    ghost use Rattle.mx_pipe.specs.Latched.{cleared, squashed_if};

    /// The latch of a word that does nothing, or of no word.
    pub fn cleared(word: Option<Fetched>) -> Latch
        ensures { result ≡ cleared word }
    {
        Latch {
            word,
            inst: None,
            a: 0,
            b: 0,
            result: 0,
            md: 0,
        }
    }

    /// Another word comes into the latch; what belongs to a word is told later.
    pub(crate) fn hold(&mut self, word: Option<Fetched>)
        ensures { self.new ≡ record self.old { word = word } }
    {
        self.word = word;
    }

    /// The word of another latch comes into it.
    pub(crate) fn follow(&mut self, latch: &Latch)
        ensures { self.new ≡ record self.old { word = latch.now.word } }
    {
        self.word = latch.word;
    }

    /// A branch may squash the word: it then does nothing.
    pub fn squash(&mut self, cancels: bool)
        ensures { self.new ≡ squashed_if cancels self.old }
    {
        if cancels {
            *self = Latch::cleared(squash(true, self.word));
        }
    }
}
