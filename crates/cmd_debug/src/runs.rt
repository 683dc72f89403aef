//! A session with an image, with the files that its options name.
ghost use Rattle.std.specs.Prelude.{◌≡◌, ◌≤◌, ◌<◌, ◌^◌, IfOk, List, ℕ};
ghost use Rattle.std.specs.Option.{option_copied};
ghost use Rattle.mx_io.specs.declared.limits.TheConstants.{MAX_FILE_BYTES};
ghost use Rattle.mx_board.specs.Contents.{bytes_in};
ghost use Rattle.cmd_answer.specs.Protocol.{Performed};
ghost use Rattle.cmd_answer.specs.Replies.{reply_answer, OnAnswer};
ghost use Rattle.cmd_options.specs.Options.{seen_files, IsAsked};
ghost use Rattle.cmd_debug.specs.Sessions.{image_answer, session_protocol};

use crate::texts::{ended, session_text};
use cmd_answer::{Failure, Reply};
use cmd_options::{RunFiles, SessionLimits};
use cmd_simulate::{if_asked, read_run_files};
use mx_board::Requests;
use mx_code::Image;
use mx_debug::stops;
use mx_icache::LineCache;
use mx_io::{Memory, Shelf};
use mx_pipe::Pipe;
use std::alloc::Global;

// Runs an image with an input or none, under the shipped handler and with these requests, and tells its stops at an address.
fn debug(
    alloc: Global,
    image: &Image,
    input: Option<&[u8]>,
    requests: &Requests,
    address: u32,
    limits: &SessionLimits,
) -> Result<Reply, Memory>
    requires input { bytes_in (option_copied input) ≤ MAX_FILE_BYTES }
    requires address { address < 2 ^ 31 }
    requires asked { IsAsked limits.now }
    ensures { IfOk result
        (λ r. reply_answer r ≡ image_answer image.now.code.items image.now.user_data.items (option_copied input.entry) requests.now address limits.now) }
{
    let mut machine = Pipe::new(alloc, image, input, LineCache::new())?;
    let stopped = stops(
        alloc,
        &mut machine,
        address,
        limits.stops,
        limits.watch,
        requests,
        limits.budget,
    )?;
    let Ok(output) = session_text(alloc, limits.watch, &stopped) else {
        return Err(Memory);
    };
    let status = ended(stopped.ending).0;
    Ok(Reply::Prints { status, output })
}

/// Reads the interrupt file and the input file, runs the image and tells its stops at an address. The image is given the input
/// where it `asks` for one. A file that is named is read also where it is of no use.
pub fn debug_image<S: Shelf>(
    alloc: Global,
    shelf: &mut S,
    image: &Image,
    asks: bool,
    address: u32,
    files: &RunFiles,
    limits: &SessionLimits,
) -> Result<Reply, Failure>
    requires address { address < 2 ^ 31 }
    requires asked { IsAsked limits.now }
    ensures performed { OnAnswer result (Performed (S.told shelf.old)
        (session_protocol (seen_files files.now) limits.now image.now.code.items image.now.user_data.items asks address)
        (S.counts shelf.old) (S.counts shelf.new)) }
    ensures told_stays { S.told shelf.new ≡ S.told shelf.old }
    ensures writes_stay { S.write_faults shelf.new ≡ S.write_faults shelf.old }
{
    let inputs = read_run_files(alloc, shelf, files)?;
    let input = if_asked(asks, inputs.input.as_slice());
    let reply = debug(alloc, image, input, &inputs.requests, address, limits)?;
    Ok(reply)
}
