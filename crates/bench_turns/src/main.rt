//! Drives both machines on a nested counting loop, for as many cycles as the first word says, and prints their counts; with
//! a second word, `turns` or `pipe`, the one of this name alone; with a third, so many interrupt requests come at even distances.
#![tactic(auto)]

use anyhow::{Context, Result, bail};
use mx_board::Requests;
use mx_code::Image;
use mx_icache::LineCache;
use mx_io::Memory;
use mx_pipe::Pipe;
use mx_report::{Driven, drive};
use mx_turn::{Counts, Turns};
use std::alloc::Global;
use std::env;

/// An outer loop round an inner one of 1,000 times, for ever, as the linker lays it out. Its source:
/// `again: addi r0,#1000,r1 / inner: addi r1,#-1,r1 / bne r1,r0,inner / add r2,r3,r2 / addi r4,#1,r4 / b again`
const LOOPS: [u32; 8] = [
    0xc002_03e8,
    0xc043_ffff,
    0x0841_0000,
    0xc043_ffff,
    0x4000_0000,
    0x0000_fffb,
    0x4086_2000,
    0xc108_0001,
];

fn image(alloc: Global) -> Result<Image> {
    let code = Vec::from_slice(alloc, &LOOPS)?;
    match Image::new(code, Vec::new(alloc)) {
        Some(image) => Ok(image),
        None => bail!("the image is too long"),
    }
}

// Prints what a machine counted.
fn show<R: Print + AllocGlobal>(rt: &R, counts: &Counts) -> Result<()> {
    println!(rt; "cycles {}", counts.cycles)?;
    println!(rt; "fetches {}", counts.fetches)?;
    println!(rt; "misses {}", counts.misses)?;
    println!(rt; "interrupts {}", counts.interrupts)?;
    Ok(())
}

// So many requests at even distances, the first in cycle 0.
fn requests(alloc: Global, cycles: u32, count: u32) -> Result<Requests> {
    let mut text = String::new(alloc);
    for number in 0..count {
        let cycle = u64::from(number) * u64::from(cycles / count);
        text.push_str(&format!(in alloc; "{cycle}\n")?)?;
    }
    if text.len() > 1_048_576 {
        bail!("too many requests")
    }
    match Requests::parse(alloc, text.as_bytes()) {
        Ok(requests) => Ok(requests),
        Err(_) => bail!("too many requests"),
    }
}

// What either machine counts, where memory sufficed.
fn counted(driven: std::result::Result<Driven, Memory>) -> Result<Counts> {
    match driven {
        Ok(driven) => Ok(driven.counts),
        Err(_) => bail!("out of memory"),
    }
}

// Drives the turn machine.
fn turns(alloc: Global, image: &Image, requests: &Requests, cycles: u32) -> Result<Counts> {
    let Ok(mut machine) = Turns::new(alloc, image, None, LineCache::new()) else {
        bail!("out of memory")
    };
    counted(drive(alloc, &mut machine, requests, cycles, 0))
}

// Drives the pipeline.
fn pipe(alloc: Global, image: &Image, requests: &Requests, cycles: u32) -> Result<Counts> {
    let Ok(mut machine) = Pipe::new(alloc, image, None, LineCache::new()) else {
        bail!("out of memory")
    };
    counted(drive(alloc, &mut machine, requests, cycles, 0))
}

fn main(rt: HostRuntime) -> Result<()> {
    let mut words = env::args(&rt)?;
    let _ = words.next();
    let Some(word) = words.next() else {
        bail!("how many cycles?")
    };
    let cycles = word.parse::<u32>().context("how many cycles?")?;
    let name = words.next();
    let count = match words.next() {
        Some(word) => word.parse::<u32>().context("how many requests?")?,
        None => 0,
    };
    let image = image(rt.alloc())?;
    let requests = requests(rt.alloc(), cycles, count)?;
    if name.as_deref() != Some("pipe") {
        show(&rt, &turns(rt.alloc(), &image, &requests, cycles)?)?;
    }
    if name.as_deref() != Some("turns") {
        show(&rt, &pipe(rt.alloc(), &image, &requests, cycles)?)?;
    }
    Ok(())
}
