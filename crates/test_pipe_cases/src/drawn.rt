//! Images of drawn words.
ghost use Rattle.std.specs.Prelude.{◌<◌};

use crate::sides::{Program, differ};
use anyhow::{Context, Result, bail};
use mx_code::Image;
use mx_turn::SHIPPED;
use std::alloc::{AllocError, Global};
use test_case_files::{before, halves, number};

/// Numbers that look like any, the same for the same seed.
#[derive(Drop)]
pub struct Draw {
    state: u32,
}

/// How the words of an image are drawn.
#[derive(Clone, Copy)]
pub enum Sort {
    /// Any words, under the shipped handler.
    Noise,
    /// Instructions over four registers, so that nearly each reads what one before it writes.
    Hazards,
    /// The same, in the handler too, which returns at its end.
    Handlers,
}

/// How images are drawn and run.
#[derive(Clone, Copy)]
pub struct Asked {
    pub sort: Sort,
    /// The seed.
    pub state: u32,
    /// How many images there are.
    pub count: u32,
    pub cycles: u32,
}

/// A drawn image with its handler, and the cycles in which a request comes.
#[derive(Drop)]
pub struct DrawnProgram {
    pub image: Image,
    pub handler: Vec<u32>,
    pub requests: Vec<u32>,
}

impl Draw {
    /// The numbers of a seed.
    pub fn new(state: u32) -> Draw {
        Draw { state }
    }

    fn next(&mut self) -> u32 {
        let mut x = self.state;
        x ^= x << 13;
        x ^= x >> 17;
        x ^= x << 5;
        self.state = x;
        x
    }

    // A number below this one.
    fn below(&mut self, n: u32) -> u32
        requires { 0 < n }
        ensures { result < n }
    {
        self.next() % n
    }

    // The type and opcode of a word, and two registers.
    fn front(&mut self, kind: u32, op: u32) -> u32 {
        let first = self.below(4);
        let second = self.below(4);
        kind << 30 | op << 27 | first << 22 | second << 17
    }

    // A word that reaches near the console, seldom by a register.
    fn access(&mut self, op: u32) -> u32 {
        let front = match self.below(4) {
            0 => self.front(2, op),
            _ => 2 << 30 | op << 27 | self.below(4) << 17,
        };
        front | 250 + self.below(12)
    }

    // An instruction, or near one.
    fn instruction(&mut self) -> u32 {
        match self.below(24) {
            0..=3 => self.access(0),
            4..=6 => self.access(1),
            7..=10 => {
                let op = self.below(6);
                let front = self.front(0, op);
                front | self.below(2) << 16 | (65_532 + self.below(12)) % 65_536
            }
            11..=13 => self.front(1, 0) | self.below(4) << 12 | self.below(12),
            14 => self.front(1, 1) | self.below(4) << 12 | self.below(32) + 256 * self.below(2),
            15..=16 => 1 << 30 | 2 << 27 | self.below(4) << 12 | self.below(4),
            17 => 1 << 30 | 3 << 27 | self.below(4) << 22 | self.below(4),
            18..=21 => self.front(3, 0) | (131_068 + self.below(16)) % 131_072,
            22 => self.front(3, 1) | 4_096 + self.below(48),
            _ => self.seldom(),
        }
    }

    // A return, a halt, or any word.
    fn seldom(&mut self) -> u32 {
        match self.below(4) {
            0 => 0xd000_0000,
            1 => 0xd800_0000,
            2 => 0xe000_0000,
            _ => self.next(),
        }
    }

    fn word(&mut self, sort: Sort) -> u32 {
        match sort {
            Sort::Noise => self.next(),
            Sort::Hazards | Sort::Handlers => self.instruction(),
        }
    }

    fn words(&mut self, alloc: Global, sort: Sort, count: u32) -> Result<Vec<u32>> {
        let mut words = Vec::new(alloc);
        for _ in 0..count {
            words.push(self.word(sort))?;
        }
        Ok(words)
    }

    // The cycles in which a request comes: each, or one in 2 to 64.
    fn requests(&mut self, alloc: Global, cycles: u32) -> Result<Vec<u32>> {
        let one_in = 1 << self.below(7);
        let mut requests = Vec::new(alloc);
        for cycle in 0..cycles {
            if self.next() % one_in == 0 {
                requests.push(cycle)?;
            }
        }
        Ok(requests)
    }
}

// The words of a handler of this sort.
fn handler(alloc: Global, draw: &mut Draw, sort: Sort) -> Result<Vec<u32>> {
    match sort {
        Sort::Noise | Sort::Hazards => Ok(Vec::from_slice(alloc, &SHIPPED)?),
        Sort::Handlers => {
            let mut words = draw.words(alloc, sort, 12)?;
            words.extend_from_slice([0xd000_0000, 0xd000_0000, 0xd800_0000].as_slice())?;
            Ok(words)
        }
    }
}

// An image of the next words.
fn drawn_image(alloc: Global, draw: &mut Draw, sort: Sort) -> Result<Image> {
    let code = draw.words(alloc, sort, 40)?;
    let user_data = draw.words(alloc, Sort::Noise, 8)?;
    Image::new(code, user_data).context("too many words")
}

/// The next image.
pub fn drawn_program(
    alloc: Global,
    draw: &mut Draw,
    sort: Sort,
    cycles: u32,
) -> Result<DrawnProgram> {
    Ok(DrawnProgram {
        image: drawn_image(alloc, draw, sort)?,
        handler: handler(alloc, draw, sort)?,
        requests: draw.requests(alloc, cycles)?,
    })
}

// How the machines compare on the next image.
fn compared(alloc: Global, draw: &mut Draw, sort: Sort, cycles: u32) -> Result<Option<u32>> {
    let drawn = drawn_program(alloc, draw, sort, cycles)?;
    let program = Program {
        image: &drawn.image,
        handler: drawn.handler.as_slice(),
        requests: drawn.requests.as_slice(),
    };
    differ(alloc, &program, Some(b"input".as_slice()), cycles)
}

// The sort of this name.
fn sort_of(name: &str) -> Result<Sort> {
    match name {
        "noise" => Ok(Sort::Noise),
        "hazards" => Ok(Sort::Hazards),
        "handlers" => Ok(Sort::Handlers),
        _ => bail!("no such sort"),
    }
}

/// What is asked for by `SORT SEED COUNT CYCLES`.
pub fn asked_of(case: &str) -> Result<Asked> {
    let (sort, rest) = halves(case, " ")?;
    let (state, rest) = halves(rest, " ")?;
    let (count, cycles) = halves(rest, " ")?;
    Ok(Asked {
        sort: sort_of(sort)?,
        state: number(state)?,
        count: number(count)?,
        cycles: number(cycles)?,
    })
}

// The number of the first image on which the machines differ, and the cycle.
fn first_difference(alloc: Global, asked: Asked) -> Result<Option<(u32, u32)>> {
    let mut draw = Draw::new(asked.state);
    for number in 0..asked.count {
        if let Some(cycle) = compared(alloc, &mut draw, asked.sort, asked.cycles)? {
            return Ok(Some((number, cycle)));
        }
    }
    Ok(None)
}

/// How a comparison on drawn images ends.
pub fn told_of_images(
    alloc: Global,
    case: &str,
    difference: Option<(u32, u32)>,
) -> Result<String, AllocError> {
    match difference {
        Some((number, cycle)) => {
            format!(in alloc; "{case}: image {number}, differ in cycle {cycle}")
        }
        None => format!(in alloc; "{case}: alike"),
    }
}

/// How the machines compare on so many drawn images, for the case `SORT SEED COUNT CYCLES: ANSWER`.
pub fn alike(alloc: Global, line: &str) -> Result<String> {
    let case = before(line, ": ")?;
    let difference = first_difference(alloc, asked_of(case)?)?;
    Ok(told_of_images(alloc, case, difference)?)
}
