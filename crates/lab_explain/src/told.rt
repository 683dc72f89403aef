//! A run and a meaning, in words.
use super::advice::{advice_of, name_of, reason_of};
use lab_json::{Document, Value};
use lab_measures::{Ran, Standing};
use lab_terms::{Verdict, enough_budget, verdict_of};
use lab_writer::Writer;
use mx_source::Why;
use std::alloc::{AllocError, Global};

/// What is promised of a run that halts.
const AS_MEANT: &str =
    "console, registers, MD, data and input are those of the meaning, whatever the caches and the interrupts do";

/// What is promised of a run that is cut off.
const BEGINNING: &str = "what the run has sent is the beginning of what the meaning sends";

/// The premises, and those that hold of each source that is run.
const PREMISES: &str =
    "premises of the main theorem of `run`:\n  holds: the text has no fault\n  holds: each branch reaches its target\n";

/// How a source stands: its file, its meaning after so many steps at most, the run of its linked program within a budget,
/// how many interrupts are requested, and, where the meaning is stuck, the number of the line and the line; 0 past the
/// last statement.
#[derive(Clone, Copy)]
pub struct Explained<'a> {
    pub file: &'a str,
    pub standing: Standing,
    pub steps: u32,
    pub ran: Ran,
    pub budget: u32,
    pub requests: u32,
    pub line: u32,
    pub text: &'a [u8],
}

impl Explained<'_> {
    // How the run stands beside the meaning.
    fn verdict(&self) -> Verdict {
        verdict_of(self.standing.progress.ending, self.ran.halted)
    }

    // Why the meaning is stuck, if it is.
    fn why(&self) -> Option<Why> {
        match self.verdict() {
            Verdict::Stuck(why) => Some(why),
            _ => None,
        }
    }

    // The budget that is enough, where the meaning halts.
    fn bound(&self) -> Option<u64> {
        match self.verdict() {
            Verdict::AsMeant | Verdict::BudgetShort => {
                Some(enough_budget(self.standing.progress.steps, self.requests))
            }
            _ => None,
        }
    }
}

// Appends so many of something: `1 statement`.
fn push_counted(text: &mut Writer, count: u64, name: &str) {
    let plural = if count == 1 { "" } else { "s" };
    text.push_number(count);
    text.push_parts(&[" ", name, plural]);
}

// Appends so many statements.
fn push_statements(text: &mut Writer, count: u32) {
    push_counted(text, u64::from(count), "statement");
}

// Appends how the run of the machine ended.
fn push_run(text: &mut Writer, ran: Ran) {
    let (end, rest) = if ran.halted {
        ("halts", "")
    } else {
        ("has not halted", ", its budget")
    };
    text.push_parts(&["the machine's run ", end, " after "]);
    push_counted(text, ran.cycles, "cycle");
    text.push_str(rest);
}

// Appends where a meaning is stuck.
fn push_place(text: &mut Writer, file: &str, line: u32) {
    text.push_str(file);
    if line == 0 {
        text.push_str(": stuck past the last instruction after ");
    } else {
        text.push_numbers(&[":", ": stuck after "], &[u64::from(line)]);
    }
}

// Appends the line at which a meaning is stuck, if there is one.
fn push_line(text: &mut Writer, explained: &Explained) {
    if explained.line > 0 {
        text.push_str("    ");
        text.push_lossy(explained.text);
        text.push('\n');
    }
}

// Appends what is said of a source whose meaning is stuck.
fn push_stuck(text: &mut Writer, explained: &Explained, why: Why) {
    push_place(text, explained.file, explained.line);
    push_statements(text, explained.standing.progress.steps);
    text.push_parts(&[": ", name_of(why), ": ", reason_of(why), "\n"]);
    push_line(text, explained);
    text.push_parts(&["what to do: ", advice_of(why), "\n"]);
    push_run(text, explained.ran);
    text.push_str("; nothing is guaranteed about it, since the meaning is stuck\n");
}

// Appends the budget that is enough under so many interrupt requests.
fn push_enough(text: &mut Writer, steps: u32, requests: u32) {
    text.push_numbers(
        &["; a budget of ", " is enough with "],
        &[enough_budget(steps, requests)],
    );
    push_counted(text, u64::from(requests), "interrupt request");
}

// Appends the first line of what is said: the file, how its run stands, and how many statements its meaning has.
fn push_first(text: &mut Writer, file: &str, told: &str, steps: u32) {
    text.push_parts(&[file, ": ", told, " after "]);
    push_statements(text, steps);
    text.push('\n');
}

// Appends what is said of a source whose meaning halts.
fn push_halted(text: &mut Writer, explained: &Explained) {
    let steps = explained.standing.progress.steps;
    let (told, promise) = if explained.ran.halted {
        ("halts as meant,", AS_MEANT)
    } else {
        ("out of budget; the meaning halts", BEGINNING)
    };
    push_first(text, explained.file, told, steps);
    push_run(text, explained.ran);
    push_enough(text, steps, explained.requests);
    text.push_parts(&["\n", promise, "\n"]);
}

// Appends what is said of a source whose meaning has not ended.
fn push_unended(text: &mut Writer, explained: &Explained) {
    let told = "out of budget; the meaning has not ended";
    push_first(text, explained.file, told, explained.steps);
    push_run(text, explained.ran);
    text.push_parts(&["\n", BEGINNING, "; --budget N lets both go on\n"]);
}

// Appends whether the premise holds that is told behind it.
fn push_mark(text: &mut Writer, holds: bool) {
    text.push_str(if holds {
        "  holds: "
    } else {
        "  does not hold: "
    });
}

// Appends the premise that the meaning is not stuck.
fn push_stuck_premise(text: &mut Writer, steps: u32, holds: bool) {
    push_mark(text, holds);
    text.push_numbers(
        &[
            "the meaning is not stuck within ",
            " statements, 64 more than the budget has cycles\n",
        ],
        &[u64::from(steps)],
    );
}

// Appends the premise that the budget is enough.
fn push_budget_premise(text: &mut Writer, budget: u32, bound: u64) {
    let budget = u64::from(budget);
    push_mark(text, budget >= bound);
    text.push_numbers(
        &[
            "the budget, ",
            ", is at least ",
            ", so that the run has to halt\n",
        ],
        &[budget, bound],
    );
}

// Appends the premises of the main theorem of `run`. The first two hold of each source that is run.
fn push_premises(text: &mut Writer, explained: &Explained) {
    text.push_str(PREMISES);
    push_stuck_premise(text, explained.steps, explained.why().is_none());
    if let Some(bound) = explained.bound() {
        push_budget_premise(text, explained.budget, bound);
    }
}

/// How a source stands, in words.
pub fn explained_text(alloc: Global, explained: &Explained) -> Result<Vec<u8>, AllocError> {
    let mut text = Writer::new(alloc);
    match explained.verdict() {
        Verdict::Stuck(why) => push_stuck(&mut text, explained, why),
        Verdict::Unended => push_unended(&mut text, explained),
        Verdict::AsMeant | Verdict::BudgetShort => push_halted(&mut text, explained),
    }
    push_premises(&mut text, explained);
    text.into_bytes()
}

// The word of a verdict.
fn verdict_word(verdict: Verdict) -> &'static str {
    match verdict {
        Verdict::AsMeant => "as meant",
        Verdict::BudgetShort | Verdict::Unended => "out of budget",
        Verdict::Stuck(_) => "stuck",
    }
}

// Writes how the run stands.
fn write_standing(document: &mut Document, explained: &Explained) {
    document.push_member("file", Value::Text(explained.file));
    document.push_member("verdict", Value::Text(verdict_word(explained.verdict())));
    document.push_numbers(&[
        ("statements", u64::from(explained.standing.progress.steps)),
        ("cycles", explained.ran.cycles),
    ]);
    document.push_member("halted", Value::Flag(explained.ran.halted));
    document.push_numbers(&[
        ("budget", u64::from(explained.budget)),
        ("requests", u64::from(explained.requests)),
    ]);
    document.push_member("enough", Value::number(explained.bound()));
}

// Writes the line of a statement, or null where there is none.
fn write_line(document: &mut Document, line: u32) {
    let value = match line {
        0 => Value::Null,
        _ => Value::Number(u64::from(line)),
    };
    document.push_member("line", value);
}

// Writes where and why a meaning is stuck; where it is not, each member is null.
fn write_stuck(document: &mut Document, line: u32, why: Option<Why>) {
    match why {
        Some(why) => {
            write_line(document, line);
            document.push_member("why", Value::Text(name_of(why)));
            document.push_member("message", Value::Text(reason_of(why)));
            document.push_member("hint", Value::Text(advice_of(why)));
        }
        None => document.push_members(&[
            ("line", Value::Null),
            ("why", Value::Null),
            ("message", Value::Null),
            ("hint", Value::Null),
        ]),
    }
}

/// The same as an object of JSON, on a line.
pub fn explained_json(alloc: Global, explained: &Explained) -> Result<Vec<u8>, AllocError> {
    let mut document = Document::of_lines(alloc);
    document.begin_object();
    write_standing(&mut document, explained);
    write_stuck(&mut document, explained.line, explained.why());
    document.end_object();
    document.end_line();
    match document.into_bytes() {
        Ok(text) => Ok(text),
        Err(_) => Err(AllocError),
    }
}
