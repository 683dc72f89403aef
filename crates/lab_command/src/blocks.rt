//! The reply of `blocks`.
use cmd_answer::{Reply, Status};
use lab_blocks::{blocks_dot, blocks_json, blocks_text};
use lab_failure::LabFailure;
use lab_options::{Form, RunOptions};
use lab_runs::{RanBlocks, or_memory, printed, ran_blocks};
use lab_watch::Watcher;
use mx_io::{Memory, Shelf};
use std::alloc::Global;

// The blocks in the form that the options ask for.
fn text_of(alloc: Global, options: &RunOptions, ran: &RanBlocks) -> Result<Vec<u8>, Memory> {
    let blocks = ran.blocks.as_slice();
    match options.form {
        Form::Json => blocks_json(alloc, options.source, blocks, ran.halted),
        Form::Dot => or_memory(blocks_dot(alloc, blocks, ran.halted)),
        _ => or_memory(blocks_text(alloc, blocks, ran.halted)),
    }
}

/// The reply to `blocks SOURCE`.
pub fn blocks_reply<'w, S: Shelf, W: Watcher>(
    alloc: Global,
    options: &RunOptions<'w>,
    shelf: &mut S,
    watcher: W,
) -> Result<Reply, LabFailure<'w>> {
    let ran = ran_blocks(alloc, options, shelf, watcher)?;
    printed(Status::Done, text_of(alloc, options, &ran))
}
