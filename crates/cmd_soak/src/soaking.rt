//! Runs of generated sources.
ghost use Rattle.std.specs.Prelude.{◌≡◌, ◌≤◌, ◌<◌, ◌+◌, ◌*◌, ◌^◌, None, List, IfOk, length};
ghost use Rattle.cmd_soak.specs.Terms.{SourceValue, AllNear, Site, from_target, IsLinked, IsGreedy, shipped, program_of, run_of, board, IsScheduler, multiples};
ghost use Rattle.cmd_soak.specs.Terms.{steps_within, soak_text};

use crate::told::text_of;
use cmd_meaning::run_steps;
use mx_board::Requests;
use mx_code::Image;
use mx_gen::generate;
use mx_icache::LineCache;
use mx_io::Memory;
use mx_isa::BOARD;
use mx_link::{LinkError, Linked, link};
use mx_pipe::Pipe;
use mx_reorg::ListProposer;
use mx_report::{Driven, drive};
use mx_seq::Seq;
use mx_source::Source;
use std::alloc::Global;

/// The most instructions in which a generated source halts.
const MOST_STEPS: u32 = 40_009;

/// The cycles between requests, and how many requests there are.
const INTERVAL: u32 = 97;

const REQUESTS: u32 = 1_000;

/// The instructions of a source, at most so many, that go or halt.
#[tactic(auto, unfolding(crate::specs::Soak::steps_within))]
fn count_steps(alloc: Global, source: &Source, most: u32) -> Result<u32, Memory>
    ensures exact { IfOk result (λ steps. steps ≡ steps_within source.now most) }
    ensures few { IfOk result (λ steps. steps ≤ most) }
{
    let _words = source.user_data();
    let mut seq = Seq::new(alloc, source, BOARD, b"")?;
    let mut console = Vec::new(alloc);
    match run_steps(&mut seq, &mut console, most) {
        Ok(progress) => Ok(progress.steps),
        Err(_) => Err(Memory),
    }
}

/// Links a source of near branches by the list scheduler.
fn link_greedily(alloc: Global, source: &Source) -> Result<Linked, Memory>
    requires few { length source.now.statements ≤ 16009 }
    requires near { AllNear source.now.statements }
    ensures { IfOk result (IsLinked IsGreedy from_target source.now board) }
{
    match link(alloc, source, BOARD, &mut ListProposer) {
        Ok(linked) => Ok(linked),
        Err(LinkError::Memory) => Err(Memory),
        Err(LinkError::Displacement { .. }) => unreachable!(),
    }
}

/// Requests at the first multiples of a number.
fn requests_at(alloc: Global, interval: u32, count: u32) -> Result<Requests, Memory>
    requires apart { 0 < interval }
    requires few { count ≤ 65536 }
    requires small { interval * count < 2 ^ 32 }
    ensures { IfOk result (λ requests. requests ≡ multiples interval count) }
{
    let mut cycles = Vec::new(alloc);
    for i in 0..count {
        let Ok(()) = cycles.push(interval * (i + 1)) else {
            return Err(Memory);
        };
    }
    Requests::of(alloc, cycles.as_slice())
}

/// Runs an image under the shipped handler, without input.
fn run_image(
    alloc: Global,
    image: &Image,
    requests: &Requests,
    budget: u32,
) -> Result<Driven, Memory>
    ensures counts { IfOk result
        (λ d. d.counts ≡ (run_of (program_of shipped image.now.code.items image.now.user_data.items None) requests.now budget).counts) }
    ensures console { IfOk result
        (λ d. d.console.items ≡ (run_of (program_of shipped image.now.code.items image.now.user_data.items None) requests.now budget).console) }
{
    let mut machine = Pipe::new(alloc, image, None, LineCache::new())?;
    drive(alloc, &mut machine, requests, budget, 0)
}

/// Generates a source, runs its meaning to the halt and counts its steps, links it with the list scheduler, and runs the
/// linked program with an interrupt request in every 97th cycle, a thousand in all. The text has the counts of that run.
///
/// # Errors
///
/// `Memory` where there is no room.
pub fn soak(alloc: Global, seed: u32, count: u32) -> Result<Vec<u8>, Memory>
    requires { count ≤ 4000 }
    ensures { (layout_of : SourceValue → List Site) → IsScheduler layout_of → IfOk result (λ text. text.items ≡ soak_text layout_of seed count) }
{
    let source = generate(alloc, seed, count)?;
    let steps = count_steps(alloc, &source, MOST_STEPS)?;
    let linked = link_greedily(alloc, &source)?;
    let requests = requests_at(alloc, INTERVAL, REQUESTS)?;
    let budget = 9 * steps + 96 * REQUESTS + 16;
    let driven = run_image(alloc, &linked.image, &requests, budget)?;
    text_of(alloc, steps, &driven, &linked)
}
