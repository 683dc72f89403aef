//! A run of an image, with the files that its options name.
ghost use Rattle.std.specs.Prelude.{◌≡◌, List, ℕ};
ghost use Rattle.std.specs.Option.{option_copied};
ghost use Rattle.cmd_answer.specs.Protocol.{Performed};
ghost use Rattle.cmd_answer.specs.Replies.{OnAnswer};
ghost use Rattle.cmd_options.specs.Options.{seen_files};
ghost use Rattle.cmd_simulate.specs.Machines.{machine_protocol, if_asked};

use crate::files::read_run_files;
use crate::simulate;
use cmd_answer::{Failure, Reply};
use cmd_options::{Limits, RunFiles};
use mx_code::Image;
use mx_io::Shelf;
use std::alloc::Global;

/// The input that a program is given, if it asks for one.
pub fn if_asked(asks: bool, bytes: &[u8]) -> Option<&[u8]>
    ensures { option_copied result ≡ if_asked asks bytes.entry.now }
{
    if asks { Some(bytes) } else { None }
}

/// Reads the interrupt file and the input file, runs the image and reports the run. The image is given the input where it
/// `asks` for one. A file that is named is read also where it is of no use.
pub fn run_image<S: Shelf>(
    alloc: Global,
    shelf: &mut S,
    image: &Image,
    asks: bool,
    files: &RunFiles,
    limits: &Limits,
) -> Result<Reply, Failure>
    ensures performed { OnAnswer result (Performed (S.told shelf.old)
        (machine_protocol (seen_files files.now) limits.now image.now.code.items image.now.user_data.items asks)
        (S.counts shelf.old) (S.counts shelf.new)) }
    ensures told_stays { S.told shelf.new ≡ S.told shelf.old }
    ensures writes_stay { S.write_faults shelf.new ≡ S.write_faults shelf.old }
{
    let inputs = read_run_files(alloc, shelf, files)?;
    let input = if_asked(asks, inputs.input.as_slice());
    let reply = simulate(alloc, image, input, &inputs.requests, limits)?;
    Ok(reply)
}
