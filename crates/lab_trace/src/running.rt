//! A run as a trace.
ghost use Rattle.std.specs.Prelude.{◌≡◌};

use super::committing::committed_in;
use super::turn::{Member, end_members, turn_members, write_line};
use lab_json::Document;
use mx_board::Requests;
use mx_code::Image;
use mx_io::Memory;
use mx_turn::{Machine, SHIPPED};
use std::alloc::Global;

/// A trace: its lines, and whether the run has halted.
#[derive(Drop)]
pub struct Traced {
    pub text: Vec<u8>,
    pub halted: bool,
}

/// What a run is given.
#[derive(Clone, Copy)]
pub struct Given<'a> {
    /// The name of the source.
    pub source: &'a str,
    pub image: &'a Image,
    pub input: Option<&'a [u8]>,
    pub requests: &'a Requests,
    pub budget: u32,
}

// Writes the lines of the turns until the machine halts, the budget is spent or memory runs out; answers whether it halted.
fn write_turns<M: Machine>(lines: &mut Document, machine: &mut M, given: &Given) -> bool
    requires { M.cycles machine.old ≡ 0 }
{
    let mut stalls = 0u32;
    let mut before = machine.latches();
    for cycle in 0..given.budget {
        let cycled = machine.cycle(given.requests.wants(cycle));
        if cycled.stalled {
            stalls = stalls.saturating_add(1);
            continue;
        }
        let shown = machine.latches();
        let does = committed_in(given.image.code.as_slice(), shown.mem);
        let members = turn_members(machine, &cycled, does, &before, cycle, stalls);
        write_line(lines, &members);
        before = shown;
        stalls = 0;
        if cycled.halted || lines.has_failed() {
            return cycled.halted;
        }
    }
    false
}

// The input, if there is one.
fn input_of<'a>(input: Option<&'a [u8]>) -> Member<'a> {
    match input {
        Some(bytes) => Member::Bytes(bytes),
        None => Member::Absent,
    }
}

// Writes the first line: what a run is given.
fn write_begin(lines: &mut Document, given: &Given) {
    let members = [
        ("source", Member::Text(given.source)),
        ("code", Member::Words(given.image.code.as_slice())),
        ("user_data", Member::Words(given.image.user_data.as_slice())),
        ("handler", Member::Words(SHIPPED.as_slice())),
        ("input", input_of(given.input)),
        ("requests", Member::Words(given.requests.list())),
    ];
    write_line(lines, &members);
}

/// The trace of the run of a machine from its start, until it halts or the budget is spent: what it is given, a line for each
/// turn, and how it ends.
pub fn trace_of<M: Machine>(alloc: Global, machine: &mut M, given: &Given) -> Result<Traced, Memory>
    requires { M.cycles machine.old ≡ 0 }
{
    let mut lines = Document::of_lines(alloc);
    write_begin(&mut lines, given);
    let halted = write_turns(&mut lines, machine, given);
    write_line(
        &mut lines,
        &end_members(halted, machine.counts(), machine.md()),
    );
    let text = lines.into_bytes()?;
    Ok(Traced { text, halted })
}
