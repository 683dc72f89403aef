//! The pipeline, taken apart.
use anyhow::{Context, Result, bail};
use mx_code::Image;
use mx_icache::LineCache;
use mx_isa::Reg;
use mx_pcchain::Fetched;
use mx_pipe::{Latch, Pipe};
use mx_turn::Machine;
use std::alloc::{AllocError, Global};
use test_case_files::{before, number};

/// `addi r0,#72,r1 / st 255[r0],r1 / halt`
const HELLO: [u32; 3] = [0xc002_0048, 0x8802_00ff, 0xe000_0000];

// The fetch of a latch, whose fields are these and no other.
fn word_of(latch: &Latch) -> Option<Fetched> {
    let Latch {
        word,
        inst: _,
        a: _,
        b: _,
        result: _,
        md: _,
    } = *latch;
    word
}

// Appends a blank and the address of a latch's fetch.
fn push_address(text: &mut String, latch: &Latch) -> Result<(), AllocError> {
    match word_of(latch) {
        Some(fetched) => write!(text, " {:x}", fetched.address),
        None => text.push_str(" -"),
    }
}

// Register 1 in the file, and the addresses of the five latches. The fields of a pipeline are these and no other.
fn told<C>(alloc: Global, pipe: &Pipe<C>) -> Result<String, AllocError> {
    let Pipe {
        fetch,
        rf,
        alu,
        mem,
        wb,
        file,
        md: _,
        next: _,
        wait: _,
        asked: _,
        halted: _,
        psw: _,
        chain: _,
        counts: _,
        shown: _,
        board: _,
        cache: _,
        code: _,
        handler: _,
        decoded: _,
    } = pipe;
    let [_, first, ..] = *file;
    let mut text = format!(in alloc; "{first:x}")?;
    for latch in [fetch, rf, alu, mem, wb] {
        push_address(&mut text, latch)?;
    }
    Ok(text)
}

// The image of the first worked run.
fn hello(alloc: Global) -> Result<Image> {
    let code = Vec::from_slice(alloc, &HELLO)?;
    Image::new(code, Vec::new(alloc)).context("too many words")
}

// Runs the cycles up to this one.
fn run_to(pipe: &mut Pipe<LineCache>, last: u32) -> Result<()> {
    for _ in 0..=last {
        if pipe.counts().cycles > 1_000 {
            bail!("too many cycles")
        }
        pipe.cycle(false);
    }
    Ok(())
}

// What a pipeline tells, and register 1 as the machine tells it.
fn told_with_register(alloc: Global, pipe: &Pipe<LineCache>) -> Result<String> {
    let register = pipe.register(Reg::new(1).context("no register")?);
    let told = told(alloc, pipe)?;
    Ok(format!(in alloc; "{told}, {register:x}")?)
}

// The first worked run after a cycle.
fn told_after(alloc: Global, cycle: u32) -> Result<String> {
    let image = hello(alloc)?;
    let Ok(mut pipe) = Pipe::new(alloc, &image, None, LineCache::new()) else {
        bail!("out of memory")
    };
    run_to(&mut pipe, cycle)?;
    told_with_register(alloc, &pipe)
}

/// The first worked run after a cycle: register 1 of the file, the addresses in the five latches, and register 1 as the
/// machine tells it, all in hexadecimal, for the case `CYCLE: FILE FETCH RF ALU MEM WB, REGISTER`.
pub fn fields(alloc: Global, line: &str) -> Result<String> {
    let cycle = before(line, ": ")?;
    let told = told_after(alloc, number(cycle)?)?;
    Ok(format!(in alloc; "{cycle}: {told}")?)
}
