//! What the fields of a pipeline are.
ghost use Rattle.std.specs.Prelude.{Bool, List};
ghost use Rattle.mx_turn.specs.Program.{Program, state_after};
ghost use Rattle.mx_pipe.specs.Kept.{StandsFor};
ghost use Rattle.mx_pipe.specs.Fields.{HasFields};

use crate::Pipe;
use mx_icache::FetchCache;

impl<C: FetchCache> Pipe<C> {
    /// Where a pipeline stands for a program after some request bits, its fields are parts of the state of that program
    /// after them; the register file is one turn behind.
    pub fn fields(&self)
        ensures { (p : Program) (h : List Bool) → StandsFor C.holds self.now p h → HasFields C.holds self.now p (state_after p h) }
    {}
}
