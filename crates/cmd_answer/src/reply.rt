//! How a command ends, before anything is put out or written.
ghost use Rattle.std.specs.Prelude.{◌≡◌, ◌++◌, IfOk};
ghost use Rattle.cmd_answer.specs.Answer.{prints, text_line};
ghost use Rattle.cmd_answer.specs.Replies.{reply_answer};

use crate::Status;
use mx_io::Memory;
use std::alloc::{AllocError, Global};

/// What a command answers: it prints a text and ends with a status, or it writes a file and is done.
#[derive(Drop)]
pub enum Reply {
    Prints { status: Status, output: Vec<u8> },
    Writes { name: String, bytes: Vec<u8> },
}

/// A status and one line, which is ended by LF.
pub fn line_reply(alloc: Global, status: Status, text: &str) -> Result<Reply, Memory>
    ensures { IfOk result (λ r. reply_answer r ≡ prints status (text_line text.now)) }
{
    match line_of(alloc, text) {
        Ok(output) => Ok(Reply::Prints { status, output }),
        Err(_) => Err(Memory),
    }
}

// The text as a line.
fn line_of(alloc: Global, text: &str) -> Result<Vec<u8>, AllocError>
    ensures { IfOk result (λ v. v.items ≡ text_line text.now) }
{
    let mut line = Vec::new(alloc);
    line.extend_from_slice(text.as_bytes())?;
    line.push(b'\n')?;
    Ok(line)
}
