//! A drawing as a value change dump, by IEEE 1364, which GTKWave reads.
use crate::subject::Subject;
use lab_draw::Frame;
use lab_writer::Writer;
use mx_turn::Stage;
use std::alloc::{AllocError, Global};

/// The signals: their names, their widths and their letters. Each stage has its address and two marks.
static SIGNALS: [(&str, u32, &str); 25] = [
    ("fetch", 32, "a"),
    ("fetch_live", 1, "b"),
    ("fetch_squashed", 1, "c"),
    ("rf", 32, "d"),
    ("rf_live", 1, "e"),
    ("rf_squashed", 1, "f"),
    ("alu", 32, "g"),
    ("alu_live", 1, "h"),
    ("alu_squashed", 1, "i"),
    ("mem", 32, "j"),
    ("mem_live", 1, "k"),
    ("mem_squashed", 1, "l"),
    ("wb", 32, "m"),
    ("wb_live", 1, "n"),
    ("wb_squashed", 1, "o"),
    ("a", 32, "p"),
    ("b", 32, "q"),
    ("result", 32, "r"),
    ("stall", 1, "s"),
    ("request", 1, "t"),
    ("taken", 1, "u"),
    ("halted", 1, "v"),
    ("sends", 1, "w"),
    ("console", 8, "x"),
    ("md", 32, "y"),
];

// The address and the two marks of a stage.
fn stage_values(stage: Stage) -> [u32; 3] {
    match stage {
        Stage::Empty => [0, 0, 0],
        Stage::Live(address) => [address, 1, 0],
        Stage::Squashed(address) => [address, 0, 1],
    }
}

// The values of the signals, in their order.
fn values_of(frame: &Frame) -> [u32; 25] {
    let fetch = stage_values(frame.shown.fetch);
    let rf = stage_values(frame.shown.rf);
    let alu = stage_values(frame.shown.alu);
    let mem = stage_values(frame.shown.mem);
    let wb = stage_values(frame.shown.wb);
    [
        fetch[0],
        fetch[1],
        fetch[2],
        rf[0],
        rf[1],
        rf[2],
        alu[0],
        alu[1],
        alu[2],
        mem[0],
        mem[1],
        mem[2],
        wb[0],
        wb[1],
        wb[2],
        frame.shown.a,
        frame.shown.b,
        frame.shown.result,
        u32::from(frame.cycled.stalled),
        u32::from(frame.requested),
        u32::from(frame.cycled.taken),
        u32::from(frame.cycled.halted),
        u32::from(frame.cycled.byte.is_some()),
        u32::from(frame.cycled.byte.unwrap_or(0)),
        frame.md,
    ]
}

// Whether a value differs from the one that stood at its place before, or none did.
fn differs(before: &[u32], place: usize, value: u32) -> bool {
    match before.get(place) {
        Some(old) => *old != value,
        None => true,
    }
}

// Appends the value of a signal.
fn push_value(text: &mut Writer, width: u32, value: u32, letter: &str) {
    if width == 1 {
        write!(text, "{value}{letter}\n");
    } else {
        write!(text, "b{value:b} {letter}\n");
    }
}

// Appends the signals that differ from what they were, or all of them where nothing was before.
fn push_changes(text: &mut Writer, before: &[u32], now: &[u32; 25]) {
    for k in 0..25usize {
        if differs(before, k, now[k]) {
            let (_, width, letter) = SIGNALS[k];
            push_value(text, width, now[k], letter);
        }
    }
}

// Appends the value of a register.
fn push_register(text: &mut Writer, n: usize, value: u32) {
    write!(text, "b{value:b} R{n}\n");
}

// Appends the registers that differ from what they were, or all of them where nothing was before. r0 is none of them.
fn push_registers(text: &mut Writer, before: &[u32], now: &[u32; 32]) {
    for n in 1..32usize {
        if differs(before, n, now[n]) {
            push_register(text, n, now[n]);
        }
    }
}

// Appends what a frame shows that differs from the one before it, or all of it where there is none.
fn push_frame(text: &mut Writer, before: Option<&Frame>, frame: &Frame) {
    let now = values_of(frame);
    match before {
        Some(before) => {
            push_changes(text, &values_of(before), &now);
            push_registers(text, &before.registers, &frame.registers);
        }
        None => {
            push_changes(text, &[], &now);
            push_registers(text, &[], &frame.registers);
        }
    }
}

// Appends the declarations of the signals.
fn push_signals(text: &mut Writer) {
    for k in 0..25usize {
        let (name, width, letter) = SIGNALS[k];
        text.push_numbers(
            &["$var wire ", " ", letter, " ", name, " $end\n"],
            &[u64::from(width)],
        );
    }
}

// Appends the head, which declares the signals and the registers.
fn push_head(text: &mut Writer) {
    text.push_str(
        "$comment a run of MIPS-X, a time unit a cycle $end\n$timescale 1 ns $end\n$scope module mx $end\n",
    );
    push_signals(text);
    for n in 1..32u64 {
        text.push_numbers(&["$var wire 32 R", " r", " $end\n"], &[n, n]);
    }
    text.push_str("$upscope $end\n$enddefinitions $end\n");
}

// Appends a time.
fn push_time(text: &mut Writer, cycle: u64) {
    text.push_numbers(&["#", "\n"], &[cycle]);
}

// Appends the frames, each behind its time, and the time of the end.
fn push_frames(text: &mut Writer, subject: &Subject) {
    let mut before = None;
    let mut cycle = u64::from(subject.from);
    for frame in subject.drawing.frames.iter() {
        push_time(text, cycle);
        push_frame(text, before, frame);
        before = Some(frame);
        cycle = cycle.saturating_add(1);
    }
    push_time(text, cycle);
}

/// A drawing as a value change dump. The time is the cycle.
///
/// # Errors
///
/// `AllocError` where there is no room for it.
pub fn vcd(alloc: Global, subject: &Subject) -> Result<Vec<u8>, AllocError> {
    let mut text = Writer::new(alloc);
    push_head(&mut text);
    push_frames(&mut text, subject);
    text.into_bytes()
}
