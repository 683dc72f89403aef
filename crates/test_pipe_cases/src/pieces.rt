//! Cycles of the pipeline many at once, against the same cycles one by one.
use crate::drawn::{Asked, Draw, DrawnProgram, asked_of, drawn_program, told_of_images};
use crate::sides::{MOST_CYCLES, tell_alike};
use anyhow::{Result, bail};
use mx_icache::{LineCache, Set};
use mx_pipe::Pipe;
use mx_turn::Machine;
use std::alloc::Global;
use test_case_files::before;

/// The longest piece that is tried from each place where it may begin.
const MOST_SHIFTED: u32 = 16;

/// How a run is cut: its first piece, and the others, which are of one length.
#[derive(Clone, Copy)]
struct Cut {
    first: u32,
    length: u32,
}

impl Cut {
    // The end of the piece that a cycle is in.
    fn end(&self, cycle: u32) -> u32 {
        let behind = match cycle.checked_sub(self.first) {
            Some(behind) => behind,
            None => return self.first,
        };
        let pieces = behind.checked_div(self.length).unwrap_or(0);
        self.first
            .saturating_add(pieces.saturating_add(1).saturating_mul(self.length))
    }
}

/// A pipeline, and what it has sent.
#[derive(Drop)]
struct Sender {
    pipe: Pipe<LineCache>,
    console: Vec<u8>,
}

impl Sender {
    fn new(alloc: Global, program: &DrawnProgram) -> Result<Sender> {
        if program.handler.len() > 4_096 {
            bail!("the handler is too long")
        }
        let input = Some(b"input".as_slice());
        let (image, handler) = (&program.image, program.handler.as_slice());
        match Pipe::with(alloc, image, handler, input, LineCache::new()) {
            Ok(pipe) => Ok(Sender {
                pipe,
                console: Vec::new(alloc),
            }),
            Err(_) => bail!("out of memory"),
        }
    }

    // One cycle.
    fn step(&mut self, request: bool) -> Result<()> {
        if self.pipe.counts().cycles > MOST_CYCLES {
            bail!("too many cycles")
        }
        if let Some(byte) = self.pipe.cycle(request).byte {
            self.console.push(byte)?;
        }
        Ok(())
    }

    // Cycles at once, at most so many, and one where it does none at once; answers how many.
    fn leap(&mut self, most: u32) -> Result<u32> {
        if self.pipe.counts().cycles > MOST_CYCLES {
            bail!("too many cycles")
        }
        let done = self.pipe.advance(u64::from(most), &mut self.console)?;
        if done == 0 {
            self.step(false)?;
            return Ok(1);
        }
        Ok(u32::try_from(done)?)
    }

    // Cycles at once, at most so many, or the one of a request; answers how many.
    fn go(&mut self, most: u32, request: bool) -> Result<u32> {
        if most > 0 {
            return self.leap(most);
        }
        self.step(request)?;
        Ok(1)
    }
}

// Whether two sets of a cache hold the same: the tag of a way without valid words is no line's.
fn set_alike(one: &Set, other: &Set) -> bool {
    if one.masks != other.masks || one.next != other.next {
        return false;
    }
    let ways = one.tags.iter().zip(other.tags.iter()).zip(one.masks.iter());
    for ((tag, twin), mask) in ways {
        if *mask != 0 && tag != twin {
            return false;
        }
    }
    true
}

// Whether the latches hold the same fetches: what stages show of them is compared by `tell_alike`.
fn latched_alike(one: &Pipe<LineCache>, other: &Pipe<LineCache>) -> bool {
    one.fetch.word == other.fetch.word
        && one.rf.word == other.rf.word
        && one.alu.word == other.alu.word
        && one.mem.word == other.mem.word
        && one.wb.word == other.wb.word
}

// Whether the caches are the same.
fn cached_alike(one: &LineCache, other: &LineCache) -> bool {
    let pairs = one.sets.iter().zip(other.sets.iter());
    for (one, other) in pairs {
        if !set_alike(one, other) {
            return false;
        }
    }
    true
}

// Whether two pipelines are in the same state, and have sent the same.
fn alike_now(one: &Sender, other: &Sender) -> bool {
    let (pipe, twin) = (&one.pipe, &other.pipe);
    tell_alike(pipe, twin)
        && latched_alike(pipe, twin)
        && cached_alike(&pipe.cache, &twin.cache)
        && pipe.file == twin.file
        && (pipe.next, pipe.wait, pipe.asked, pipe.halted)
            == (twin.next, twin.wait, twin.asked, twin.halted)
        && (pipe.psw, pipe.chain) == (twin.psw, twin.chain)
        && one.console == other.console
}

// The cycle of the first request that has not come, or the last cycle.
fn next_request(requests: &[u32], cycle: u32, cycles: u32) -> u32 {
    match requests.iter().find(|request| **request >= cycle) {
        Some(request) => *request,
        None => cycles,
    }
}

// The first cycle after which a pipeline that leaps differs from one that goes by single cycles.
fn first_difference(
    leaps: &mut Sender,
    steps: &mut Sender,
    requests: &[u32],
    cut: Cut,
    cycles: u32,
) -> Result<Option<u32>> {
    let mut cycle = 0u32;
    for _ in 0..cycles {
        if cycle >= cycles {
            break;
        }
        let request = next_request(requests, cycle, cycles);
        let end = cut.end(cycle).min(request).min(cycles);
        let most = end.saturating_sub(cycle);
        let done = leaps.go(most, request == cycle)?;
        for _ in 0..done {
            steps.step(most == 0 && request == cycle)?;
        }
        if !alike_now(leaps, steps) {
            return Ok(Some(cycle));
        }
        cycle = cycle.saturating_add(done);
    }
    Ok(None)
}

// The first cycle after which a run that is cut differs from the same run by single cycles.
fn cut_difference(
    alloc: Global,
    program: &DrawnProgram,
    cut: Cut,
    cycles: u32,
) -> Result<Option<u32>> {
    let mut leaps = Sender::new(alloc, program)?;
    let mut steps = Sender::new(alloc, program)?;
    let requests = program.requests.as_slice();
    first_difference(&mut leaps, &mut steps, requests, cut, cycles)
}

// How the runs of a program in pieces of each length compare with those by single cycles.
fn piece_difference(alloc: Global, program: &DrawnProgram, cycles: u32) -> Result<Option<u32>> {
    for length in 1..=cycles {
        let shifts = if length > MOST_SHIFTED { 1 } else { length };
        for first in 0..shifts {
            let cut = Cut { first, length };
            let difference = cut_difference(alloc, program, cut, cycles)?;
            if difference.is_some() {
                return Ok(difference);
            }
        }
    }
    Ok(None)
}

// How cycles many at once compare with single ones on the next image, which has no requests where its number is odd.
fn next_difference(
    alloc: Global,
    draw: &mut Draw,
    asked: Asked,
    number: u32,
) -> Result<Option<u32>> {
    let mut program = drawn_program(alloc, draw, asked.sort, asked.cycles)?;
    if number % 2 == 1 {
        program.requests = Vec::new(alloc);
    }
    piece_difference(alloc, &program, asked.cycles)
}

// The number of the first image on which they differ, and the cycle.
fn difference_of_images(alloc: Global, asked: Asked) -> Result<Option<(u32, u32)>> {
    let mut draw = Draw::new(asked.state);
    for number in 0..asked.count {
        if let Some(cycle) = next_difference(alloc, &mut draw, asked, number)? {
            return Ok(Some((number, cycle)));
        }
    }
    Ok(None)
}

/// How cycles many at once compare with single ones, on so many drawn images, of which each second one has no requests, for
/// the case `SORT SEED COUNT CYCLES: ANSWER`. Each run is cut into pieces of each length up to its cycles, those of at most
/// 16 from each place where they may begin.
pub fn alike(alloc: Global, line: &str) -> Result<String> {
    let case = before(line, ": ")?;
    let difference = difference_of_images(alloc, asked_of(case)?)?;
    Ok(told_of_images(alloc, case, difference)?)
}
