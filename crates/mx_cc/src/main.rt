//! Translates the files that the words of its command line name, or executes them after the word `meaning`, over the system's files
//! and its standard output.
#![tactic(auto)]

use cc_command::cc;
use cc_runs::execute_files;
use cmd_answer::command_words;
use mx_io::{RealShelf, RealSink};
use std::io::Write;
use std::process::ExitCode;

/// Executes the files that these words name.
fn execute(rt: &HostRuntime, words: &[String]) -> ExitCode {
    let mut shelf = RealShelf::new(rt);
    let mut out = RealSink::new(rt);
    let ended = execute_files(rt.alloc(), words, &mut shelf, &mut out);
    // where standard error takes nothing, the exit status says it
    let _ = rt.stderr().write_all(&ended.errors);
    ExitCode::from(ended.status)
}

/// Translates the files that these words name.
fn translate(rt: &HostRuntime, words: &[String]) -> ExitCode {
    let mut shelf = RealShelf::new(rt);
    let mut out = RealSink::new(rt);
    let status = cc(rt.alloc(), words, &mut shelf, &mut out);
    ExitCode::from(status.number())
}

fn main(rt: HostRuntime) -> ExitCode {
    let words = match command_words(&rt) {
        Ok(words) => words,
        Err(number) => return ExitCode::from(number),
    };
    match words.as_slice() {
        [first, rest @ ..] if first.as_str() == "meaning" => execute(&rt, rest),
        all => translate(&rt, all),
    }
}
