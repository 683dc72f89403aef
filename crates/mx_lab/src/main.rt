//! Runs the command for people that the words of its command line ask for, on the system's files and its standard output.
#![tactic(auto)]

use cmd_answer::command_words;
use lab_command::{Cause, Causes, lab};
use lab_watch::OnTerminal;
use mx_io::{RealShelf, RealSink};
use std::alloc::Global;
use std::io::{ErrorKind, Read, Write};
use std::process::ExitCode;
use std::{env, fs};

/// The variable of the environment that says by which name the commands are called, and that name where it is not set.
const CALLER: &str = "MX_NAME";

const IN_REPOSITORY: &str = "./mx";

// The files of the system, and the name that the commands are called by.
#[derive(Clone, Copy)]
struct OnSystem<'a> {
    rt: &'a HostRuntime,
    caller: &'a str,
}

impl Causes for OnSystem<'_> {
    fn cause(&self, _alloc: Global, name: &str) -> Option<Cause> {
        let mut byte = [0u8; 1];
        let read = match fs::open(self.rt, name) {
            Ok(mut file) => file.read(&mut byte),
            Err(error) => Err(error),
        };
        match read {
            Ok(_) => None,
            Err(error) => Some(match error.kind() {
                ErrorKind::NotFound => Cause::Missing,
                ErrorKind::PermissionDenied => Cause::Denied,
                ErrorKind::IsADirectory => Cause::Folder,
                _ => Cause::Other,
            }),
        }
    }

    fn is_kept(&self, name: &str) -> bool {
        match fs::metadata(self.rt, name) {
            Ok(metadata) => metadata.is_file(),
            Err(_) => false,
        }
    }

    fn caller(&self) -> &str {
        self.caller
    }
}

fn main(rt: HostRuntime) -> ExitCode {
    let words = match command_words(&rt) {
        Ok(words) => words,
        Err(number) => return ExitCode::from(number),
    };
    let named = env::var(&rt, CALLER);
    let caller = match &named {
        Ok(name) => name.as_str(),
        Err(_) => IN_REPOSITORY,
    };
    let ended = lab(
        rt.alloc(),
        words.as_slice(),
        &mut RealShelf::new(&rt),
        &mut RealSink::new(&rt),
        OnTerminal::new(&rt),
        OnSystem { rt: &rt, caller },
    );
    // where standard error takes nothing, the exit status says it
    let _ = rt.stderr().write_all(&ended.errors);
    ExitCode::from(ended.status.number())
}
