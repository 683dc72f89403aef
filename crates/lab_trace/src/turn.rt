//! The lines of a trace.
use lab_json::{Document, Value};
use lab_terms::Committed;
use mx_isa::Reg;
use mx_turn::{Counts, Cycled, Latches, Machine, Stage};

/// What a member of a line is. What is absent is not written.
#[derive(Clone, Copy)]
pub(crate) enum Member<'a> {
    Absent,
    Flag(bool),
    Number(u64),
    Text(&'a str),
    Words(&'a [u32]),
    Bytes(&'a [u8]),
    /// A fetch: its address, and whether it is squashed.
    Fetch(u32, bool),
    /// A number that is written to a place: the place and the number.
    Write(u32, u32),
}

// Writes a member that is a list of numbers.
fn write_list<T: Copy + Into<u64>>(lines: &mut Document, name: &str, numbers: &[T]) {
    lines.push_key(name);
    lines.begin_list();
    for number in numbers {
        lines.push(Value::Number((*number).into()));
    }
    lines.end_list();
}

// Writes a member that is a fetch.
fn write_fetch(lines: &mut Document, name: &str, address: u32, squashed: bool) {
    lines.push_key(name);
    lines.push_record(&[
        ("address", Value::Number(u64::from(address))),
        ("squashed", Value::Flag(squashed)),
    ]);
}

// Writes a member, unless it is absent.
fn write_member(lines: &mut Document, name: &str, member: Member) {
    match member {
        Member::Absent => {}
        Member::Flag(flag) => lines.push_member(name, Value::Flag(flag)),
        Member::Number(number) => lines.push_member(name, Value::Number(number)),
        Member::Text(text) => lines.push_member(name, Value::Text(text)),
        Member::Words(words) => write_list(lines, name, words),
        Member::Bytes(bytes) => write_list(lines, name, bytes),
        Member::Fetch(address, squashed) => write_fetch(lines, name, address, squashed),
        Member::Write(to, value) => {
            let numbers = [("to", u64::from(to)), ("value", u64::from(value))];
            lines.push_object(name, &numbers);
        }
    }
}

/// Writes a line: an object of these members.
pub(crate) fn write_line(lines: &mut Document, members: &[(&'static str, Member)]) {
    lines.begin_object();
    for (name, member) in members {
        write_member(lines, *name, *member);
    }
    lines.end_object();
    lines.end_line();
}

/// The last line: how the run ends.
pub(crate) fn end_members(
    halted: bool,
    counts: Counts,
    md: u32,
) -> [(&'static str, Member<'static>); 7] {
    [
        ("halted", Member::Flag(halted)),
        ("cycles", Member::Number(counts.cycles)),
        ("fetches", Member::Number(counts.fetches)),
        ("misses", Member::Number(counts.misses)),
        ("squashes", Member::Number(counts.squashes)),
        ("interrupts", Member::Number(counts.interrupts)),
        ("md", Member::Number(u64::from(md))),
    ]
}

// The address of a stage; 0 where it is empty, which a fetch never is.
fn address_of(stage: Stage) -> u32 {
    match stage {
        Stage::Empty => 0,
        Stage::Live(address) | Stage::Squashed(address) => address,
    }
}

// The fetch in a stage, if there is one.
fn fetch_of(stage: Stage) -> Member<'static> {
    match stage {
        Stage::Empty => Member::Absent,
        Stage::Live(address) => Member::Fetch(address, false),
        Stage::Squashed(address) => Member::Fetch(address, true),
    }
}

// The register that is written, if one is.
fn register_of<M: Machine>(machine: &M, register: Option<Reg>) -> Member<'static> {
    match register {
        Some(register) => Member::Write(u32::from(register.number()), machine.register(register)),
        None => Member::Absent,
    }
}

// MD, if it is written.
fn md_of<M: Machine>(machine: &M, is_written: bool) -> Member<'static> {
    if is_written {
        Member::Number(u64::from(machine.md()))
    } else {
        Member::Absent
    }
}

// What a store had in ALU, if one commits: its address and the word that it stores.
fn store_of(before: &Latches, is_store: bool) -> Member<'static> {
    if is_store {
        Member::Write(before.result, before.b)
    } else {
        Member::Absent
    }
}

// A byte that is sent, if one is.
fn byte_of(byte: Option<u8>) -> Member<'static> {
    match byte {
        Some(byte) => Member::Number(u64::from(byte)),
        None => Member::Absent,
    }
}

/// The line of a turn that a machine has just done, in this cycle, the first being 0, and behind so many stalled ones. The
/// latches of the turn before tell what a store had in ALU.
pub(crate) fn turn_members<M: Machine>(
    machine: &M,
    cycled: &Cycled,
    committed: Committed,
    before: &Latches,
    cycle: u32,
    stalls: u32,
) -> [(&'static str, Member<'static>); 9] {
    let shown = machine.latches();
    [
        ("cycle", Member::Number(u64::from(cycle))),
        ("stalls", Member::Number(u64::from(stalls))),
        ("fetch", Member::Number(u64::from(address_of(shown.fetch)))),
        ("commit", fetch_of(shown.mem)),
        ("register", register_of(machine, committed.register)),
        ("md", md_of(machine, committed.md)),
        ("store", store_of(before, committed.store)),
        ("byte", byte_of(cycled.byte)),
        ("interrupt", Member::Flag(cycled.taken)),
    ]
}
