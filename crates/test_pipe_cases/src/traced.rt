//! Traces of images on both machines.
ghost use Rattle.std.specs.Prelude.{◌≡◌};

use anyhow::{Result, bail};
use mx_board::Requests;
use mx_code::Image;
use mx_icache::LineCache;
use mx_image::read_image;
use mx_pipe::Pipe;
use mx_report::{Dump, drive, report};
use mx_turn::{Machine, Turns};
use std::alloc::Global;
use std::fs;
use test_case_files::{halves, number};

/// What is asked of a run.
#[derive(Clone, Copy)]
struct Asked {
    budget: u32,
    trace: u32,
    dump: Option<Dump>,
}

// The numbers of a dump: AT COUNT.
fn dump_of(numbers: &str) -> Result<Dump> {
    let (at, count) = halves(numbers, " ")?;
    Ok(Dump {
        at: number(at)?,
        count: number(count)?,
    })
}

// The numbers of a case: BUDGET TRACE, or BUDGET TRACE AT COUNT.
fn asked_of(numbers: &str) -> Result<Asked> {
    let (budget, rest) = halves(numbers, " ")?;
    let (trace, dump) = match rest.split_once(" ") {
        Some((trace, dump)) => (trace, Some(dump_of(dump)?)),
        None => (rest, None),
    };
    Ok(Asked {
        budget: number(budget)?,
        trace: number(trace)?,
        dump,
    })
}

// An image and the interrupts of its run, and what is printed of it.
#[derive(Drop)]
struct Run {
    image: Image,
    requests: Requests,
    wanted: Vec<u8>,
}

impl Run {
    // The files of this name.
    fn stored(rt: &HostRuntime, name: &str) -> Result<Run> {
        Ok(Run {
            image: image_of(rt, name)?,
            requests: requests_of(rt, name)?,
            wanted: file_of(rt, name, "wanted")?,
        })
    }

    // Whether a machine at its start prints what is wanted.
    fn is_printed<M: Machine>(&self, alloc: Global, machine: &mut M, asked: Asked) -> Result<bool>
        requires { M.cycles machine.old ≡ 0 }
    {
        let Ok(driven) = drive(alloc, machine, &self.requests, asked.budget, asked.trace) else {
            bail!("out of memory")
        };
        let Ok(text) = report(alloc, &driven, machine, &self.image, asked.dump) else {
            bail!("out of memory")
        };
        Ok(text.as_slice() == self.wanted.as_slice())
    }

    // Whether the turn machine prints it.
    fn is_by_turns(&self, alloc: Global, asked: Asked) -> Result<bool> {
        let Ok(mut machine) = Turns::new(alloc, &self.image, None, LineCache::new()) else {
            bail!("out of memory")
        };
        self.is_printed(alloc, &mut machine, asked)
    }

    // Whether the pipeline prints it.
    fn is_by_pipe(&self, alloc: Global, asked: Asked) -> Result<bool> {
        let Ok(mut machine) = Pipe::new(alloc, &self.image, None, LineCache::new()) else {
            bail!("out of memory")
        };
        self.is_printed(alloc, &mut machine, asked)
    }
}

fn file_of(rt: &HostRuntime, name: &str, ending: &str) -> Result<Vec<u8>> {
    let bytes = fs::read(rt, format!(in rt.alloc(); "traces/{name}.{ending}")?)?;
    Ok(bytes)
}

fn image_of(rt: &HostRuntime, name: &str) -> Result<Image> {
    let bytes = file_of(rt, name, "image")?;
    let image = read_image(rt.alloc(), bytes.as_slice())?;
    Ok(image)
}

fn requests_of(rt: &HostRuntime, name: &str) -> Result<Requests> {
    let bytes = file_of(rt, name, "interrupts")?;
    if bytes.len() > 1_048_576 {
        bail!("too many bytes")
    }
    Ok(Requests::parse(rt.alloc(), bytes.as_slice())?)
}

// What the machines print otherwise: by turns, and by the pipe.
fn notes(rt: &HostRuntime, name: &str, asked: Asked) -> Result<(&'static str, &'static str)> {
    let run = Run::stored(rt, name)?;
    let turns = if run.is_by_turns(rt.alloc(), asked)? {
        ""
    } else {
        ", not by turns"
    };
    let pipe = if run.is_by_pipe(rt.alloc(), asked)? {
        ""
    } else {
        ", not by the pipe"
    };
    Ok((turns, pipe))
}

/// Whether both machines print what stands in `traces/NAME.wanted`, on the image and the interrupts beside it, for the case
/// `NAME: BUDGET TRACE` or `NAME: BUDGET TRACE AT COUNT`.
pub fn traced(rt: &HostRuntime, line: &str) -> Result<String> {
    let (name, numbers) = halves(line, ": ")?;
    let (turns, pipe) = notes(rt, name, asked_of(numbers)?)?;
    Ok(format!(in rt.alloc(); "{line}{turns}{pipe}")?)
}
