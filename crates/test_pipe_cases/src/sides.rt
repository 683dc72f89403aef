//! Both machines side by side.
ghost use Rattle.std.specs.Prelude.{◌≤◌};

use anyhow::{Context, Result, bail};
use mx_code::Image;
use mx_icache::LineCache;
use mx_isa::Reg;
use mx_pipe::Pipe;
use mx_turn::{Machine, SHIPPED, Turns};
use std::alloc::Global;
use test_case_files::{before, halves, number};

/// No case has more cycles.
pub const MOST_CYCLES: u64 = 1_000_000;

/// The data words that are compared, the system's and the first of the user's.
const WORDS: u32 = 512;

/// What both machines run.
#[derive(Clone, Copy)]
pub struct Program<'a> {
    pub image: &'a Image,
    pub handler: &'a [u32],
    /// The cycles in which a request comes.
    pub requests: &'a [u32],
}

/// Whether two machines tell the same.
pub fn tell_alike<A: Machine, B: Machine>(one: &A, other: &B) -> bool {
    for number in 0..32 {
        if let Some(r) = Reg::new(number) {
            if one.register(r) != other.register(r) {
                return false;
            }
        }
    }
    one.latches() == other.latches()
        && one.counts() == other.counts()
        && one.md() == other.md()
        && one.inputs() == other.inputs()
}

// Whether they hold the same data words.
fn hold_alike<A: Machine, B: Machine>(one: &A, other: &B) -> bool {
    for address in 0..WORDS {
        if one.user_data(address) != other.user_data(address) {
            return false;
        }
    }
    true
}

// The first cycle in which they differ.
fn first_difference<A: Machine, B: Machine>(
    one: &mut A,
    other: &mut B,
    requests: &[u32],
    cycles: u32,
) -> Option<u32> {
    for cycle in 0..cycles {
        if one.counts().cycles > MOST_CYCLES || other.counts().cycles > MOST_CYCLES {
            return Some(cycle);
        }
        let request = requests.contains(&cycle);
        let answer = one.cycle(request);
        if other.cycle(request) != answer || !tell_alike(one, other) {
            return Some(cycle);
        }
    }
    if hold_alike(one, other) {
        None
    } else {
        Some(cycles)
    }
}

/// The first cycle in which the two machines differ on a program, None where they do not; the number of cycles where their
/// data words do.
pub fn differ(
    alloc: Global,
    program: &Program,
    input: Option<&[u8]>,
    cycles: u32,
) -> Result<Option<u32>> {
    let Program {
        image,
        handler,
        requests,
    } = *program;
    if handler.len() > 4_096 {
        bail!("the handler is too long")
    }
    let input = match input {
        Some(bytes) if bytes.len() > 1_048_576 => bail!("the input is too long"),
        input => input,
    };
    let Ok(mut turns) = Turns::with(alloc, image, handler, input, LineCache::new()) else {
        bail!("out of memory")
    };
    let Ok(mut pipe) = Pipe::with(alloc, image, handler, input, LineCache::new()) else {
        bail!("out of memory")
    };
    Ok(first_difference(&mut turns, &mut pipe, requests, cycles))
}

// The numbers of a text.
fn numbers(alloc: Global, text: &str, radix: u32) -> Result<Vec<u32>>
    requires within { 2 ≤ radix × (radix ≤ 36) }
{
    let mut list = Vec::new(alloc);
    for word in text.split_whitespace() {
        list.push(u32::from_str_radix(word, radix)?)?;
    }
    Ok(list)
}

// The image of words of code and data, in hexadecimal.
fn image_of(alloc: Global, code: &str, user_data: &str) -> Result<Image> {
    let code = numbers(alloc, code, 16)?;
    let user_data = numbers(alloc, user_data, 16)?;
    Image::new(code, user_data).context("too many words")
}

// The first cycle in which the machines differ on an image under the shipped handler.
fn image_difference(
    alloc: Global,
    image: &Image,
    requests: &str,
    cycles: u32,
) -> Result<Option<u32>> {
    let requests = numbers(alloc, requests, 10)?;
    let program = Program {
        image,
        handler: SHIPPED.as_slice(),
        requests: requests.as_slice(),
    };
    differ(alloc, &program, None, cycles)
}

// The first cycle in which they differ on `CODE / DATA / CYCLES OF REQUESTS / CYCLES`.
fn worked_difference(alloc: Global, case: &str) -> Result<Option<u32>> {
    let (code, rest) = halves(case, " / ")?;
    let (user_data, rest) = halves(rest, " / ")?;
    let (requests, cycles) = halves(rest, " / ")?;
    let cycles = number(cycles)?;
    let image = image_of(alloc, code, user_data)?;
    image_difference(alloc, &image, requests, cycles)
}

/// How the machines compare on words of code and data, in hexadecimal, for the case
/// `CODE / DATA / CYCLES OF REQUESTS / CYCLES: ANSWER`.
pub fn worked(alloc: Global, line: &str) -> Result<String> {
    let case = before(line, ": ")?;
    match worked_difference(alloc, case)? {
        Some(cycle) => Ok(format!(in alloc; "{case}: differ in cycle {cycle}")?),
        None => Ok(format!(in alloc; "{case}: alike")?),
    }
}
