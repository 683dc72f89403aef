//! The profile of an image on the pipeline.
ghost use Rattle.std.specs.Prelude.{IfOk, vec_len};
ghost use Rattle.mx_board.specs.Contents.{IsInput};
ghost use Rattle.mx_turn.specs.Program.{image_program};
ghost use Rattle.lab_profile.specs.Tallies.{IsProfile};

use crate::running::profile;
use crate::tally::Profile;
use lab_watch::{Watcher, watched_pipe};
use mx_board::Requests;
use mx_code::Image;
use mx_icache::LineCache;
use mx_io::Memory;
use std::alloc::Global;

/// The profile of the run of an image, under the shipped handler. A watcher is told how far the run has come. The machine is
/// made here, so that no other caller in a program shares its cycle, which is then no call of its own.
pub fn profile_of<W: Watcher>(
    alloc: Global,
    image: &Image,
    input: Option<&[u8]>,
    requests: &Requests,
    budget: u32,
    watcher: W,
) -> Result<Profile, Memory>
    requires { IsInput input }
    ensures { IfOk result (IsProfile (image_program image.now input.entry) requests.now (vec_len image.now.code) budget) }
{
    let mut machine = watched_pipe(alloc, image, input, LineCache::new(), watcher)?;
    let profile = profile(alloc, &mut machine, image.code.len(), requests, budget)?;
    Ok(profile)
}
