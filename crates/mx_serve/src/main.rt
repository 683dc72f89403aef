//! Answers one request of the workbench: its command is the word of the command line, its body is standard input, and the bytes
//! of its answer go to standard output.
#![tactic(auto)]

mod asked;
mod programs;
mod serving;

use crate::asked::command_of;
use crate::serving::serve;
use cmd_answer::{Status, command_words};
use mx_io::{RealShelf, RealSink};
use std::process::ExitCode;

fn main(rt: HostRuntime) -> ExitCode {
    let words = match command_words(&rt) {
        Ok(words) => words,
        Err(number) => return ExitCode::from(number),
    };
    match command_of(words.as_slice()) {
        Some(command) => {
            let mut shelf = RealShelf::new(&rt);
            let mut out = RealSink::new(&rt);
            let served = serve(rt.alloc(), command, &mut shelf, &mut out);
            ExitCode::from(served.number())
        }
        None => ExitCode::from(Status::Usage.number()),
    }
}
