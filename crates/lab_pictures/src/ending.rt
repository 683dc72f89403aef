//! How a run ends, in words.
use crate::subject::Subject;
use lab_writer::Writer;

// The words for one of something, or for another number of them.
fn by_count(count: u64, one: &'static str, more: &'static str) -> &'static str {
    if count == 1 { one } else { more }
}

// Appends that the run has not halted after so many cycles.
fn push_budget(text: &mut Writer, budget: u64) {
    text.push_numbers(&["the run has not halted after its budget of "], &[budget]);
    text.push_str(by_count(budget, " cycle", " cycles"));
}

// Appends where the run halts.
fn push_halt(text: &mut Writer, subject: &Subject) {
    match subject.drawing.end {
        Some(cycles) => text.push_numbers(
            &["the run halts in cycle "],
            &[u64::from(cycles.saturating_sub(1))],
        ),
        None => push_budget(text, u64::from(subject.budget)),
    }
}

// Appends which cycles are drawn: so many, from one on.
fn push_drawn(text: &mut Writer, from: u64, count: u64) {
    let last = from.saturating_add(count.saturating_sub(1));
    match count {
        0 => text.push_str("; no cycle is drawn"),
        1 => text.push_numbers(&["; cycle ", " is drawn"], &[from]),
        _ => text.push_numbers(&["; cycles ", " to ", " are drawn"], &[from, last]),
    }
}

// Appends how many cycles are left out on one side of the drawn ones, of which there are so many, where any are.
fn push_left_out(text: &mut Writer, count: u64, side: &str, drawn: u64) {
    if count == 0 {
        return;
    }
    text.push_numbers(&["; "], &[count]);
    if drawn > 0 {
        text.push_str(side);
        text.push_str(by_count(drawn, " it", " them"));
    }
    text.push_str(by_count(count, " is left out", " are left out"));
}

/// Appends where the run ends, which cycles are drawn, and how many are left out.
pub fn push_ending(text: &mut Writer, subject: &Subject) {
    let from = u64::from(subject.from);
    let drawn = subject.drawing.frames.len() as u64;
    let end = from.saturating_add(drawn);
    let all = u64::from(subject.drawing.end.unwrap_or(subject.budget));
    push_halt(text, subject);
    push_drawn(text, from, drawn);
    push_left_out(text, from.min(all), " before", drawn);
    push_left_out(text, all.saturating_sub(end), " behind", drawn);
}
