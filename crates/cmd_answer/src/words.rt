//! The words of the command line.
ghost use Rattle.std.specs.Prelude.{◌≡◌, ◌⊎◌, IfErr};
ghost use Rattle.cmd_answer.specs.Exit.{exit_number};
ghost use Rattle.cmd_answer.specs.declared.words.TheConstants.{NOT_TEXT};

use crate::Status;
use std::io::ErrorKind;
use std::{env, io};

/// The exit status where a word is not UTF-8.
pub const NOT_TEXT: u8 = 10;

// The exit status where the words cannot be had.
fn number_without(error: &io::Error) -> u8
    ensures { (result ≡ exit_number Status.Memory) ⊎ (result ≡ NOT_TEXT) }
{
    match error.kind() {
        ErrorKind::OutOfMemory => Status::Memory.number(),
        _ => NOT_TEXT,
    }
}

/// The words behind the program's name; or the exit status of a program that cannot have them, since one of them is not UTF-8
/// or memory ran out.
pub fn command_words(rt: &HostRuntime) -> Result<Vec<String>, u8>
    ensures { IfErr result (λ number. (number ≡ exit_number Status.Memory) ⊎ (number ≡ NOT_TEXT)) }
{
    let args = match env::args(rt) {
        Ok(args) => args,
        Err(error) => return Err(number_without(&error)),
    };
    let mut words = Vec::new(rt.alloc());
    // the first is the program's name
    for word in args.skip(1) {
        if words.push(word).is_err() {
            return Err(Status::Memory.number());
        }
    }
    Ok(words)
}
