//! How the meaning of a source stands.
ghost use Rattle.std.specs.Prelude.{◌≤◌, length, IfOk};
ghost use Rattle.lab_measures.specs.Terms.{MAX_FILE_BYTES, board};
ghost use Rattle.lab_measures.specs.Standings.{IsStanding};

use cmd_meaning::{Progress, run_steps};
use mx_io::Memory;
use mx_isa::BOARD;
use mx_seq::Seq;
use mx_source::Source;
use std::alloc::Global;

/// How a meaning stands after its steps, and the index of the statement that it stands at.
#[derive(Clone, Copy)]
pub struct Standing {
    pub progress: Progress,
    pub index: u32,
}

/// How the meaning of a source stands after at most so many steps, with the bytes of its input, at the place of the board.
pub fn stand(alloc: Global, source: &Source, input: &[u8], steps: u32) -> Result<Standing, Memory>
    requires { length input.now ≤ MAX_FILE_BYTES }
    ensures { IfOk result (IsStanding source.now input.now steps) }
{
    let _lines = source.lines();
    let mut seq = Seq::new(alloc, source, BOARD, input)?;
    let mut console = Vec::new(alloc);
    let Ok(progress) = run_steps(&mut seq, &mut console, steps) else {
        return Err(Memory);
    };
    Ok(Standing {
        progress,
        index: seq.index(),
    })
}
