//! The pipeline, watched.
ghost use Rattle.std.specs.Prelude.{[], IfOk};
ghost use Rattle.mx_board.specs.Contents.{IsInput};
ghost use Rattle.mx_turn.specs.Program.{image_program};
ghost use Rattle.mx_pipe.specs.Kept.{StandsFor};
ghost use Rattle.lab_watch.specs.Within.{within};

use crate::watched::{Watched, Watcher};
use mx_code::Image;
use mx_icache::FetchCache;
use mx_io::Memory;
use mx_pipe::Pipe;
use std::alloc::Global;

/// The pipeline before its first cycle, as `Pipe::new` gives it, with a watcher.
pub fn watched_pipe<C: FetchCache, W: Watcher>(
    alloc: Global,
    image: &Image,
    input: Option<&[u8]>,
    cache: C,
    watcher: W,
) -> Result<Watched<Pipe<C>, W>, Memory>
    requires bytes { IsInput input }
    requires empty { C.holds cache [] }
    ensures { IfOk result (λ t. StandsFor C.holds (within t) (image_program image.now input.entry) []) }
{
    let pipe = Pipe::new(alloc, image, input, cache)?;
    Ok(Watched::new(pipe, watcher))
}
