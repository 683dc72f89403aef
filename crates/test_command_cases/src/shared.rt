//! Cases of two programs that share the machine: each prints what its own meaning does, as far as it comes.
use crate::case::{Case, needed};
use anyhow::Result;
use std::alloc::Global;
use test_case_files::{answered, before, behind, halves, number};

/// What two programs print.
#[derive(Drop)]
struct Consoles {
    first: String,
    second: String,
}

impl Consoles {
    /// Each is the front of the other one's.
    fn begin(&self, whole: &Consoles) -> bool {
        whole.first.as_bytes().starts_with(self.first.as_bytes())
            && whole.second.as_bytes().starts_with(self.second.as_bytes())
    }

    /// Which of the two programs prints anything.
    fn who_prints(&self) -> &'static str {
        match (self.first.is_empty(), self.second.is_empty()) {
            (false, false) => "both",
            (false, true) => "first",
            (true, false) => "second",
            (true, true) => "none",
        }
    }
}

/// The line behind the one that begins so.
fn console(alloc: Global, text: &str, name: &str) -> Result<String> {
    let line = before(behind(behind(text, name)?, "\n")?, "\n")?;
    let line = String::from_str(alloc, line)?;
    Ok(line)
}

/// What the meaning of a source prints in more steps than a run has cycles.
fn meaning(rt: &HostRuntime, source: &str) -> Result<String> {
    let alloc = rt.alloc();
    let mut case = Case::stored_between(rt, "meaning", source, "--steps 20064")?;
    console(alloc, case.run_for_text(alloc)?, "\nconsole ")
}

/// What the meanings of the sources `FIRST SECOND` print.
fn meanings(rt: &HostRuntime, sources: &str) -> Result<Consoles> {
    let (first, second) = halves(sources, " ")?;
    Ok(Consoles {
        first: meaning(rt, first)?,
        second: meaning(rt, second)?,
    })
}

/// What they print when they share the machine, with these requests.
fn shared_run(rt: &HostRuntime, sources: &str, requests: Vec<u8>) -> Result<Consoles> {
    let alloc = rt.alloc();
    let options = "--budget 20000 --interrupts requests";
    let mut case = Case::stored_between(rt, "share", sources, options)?;
    case.add(alloc, "requests", requests)?;
    both_consoles(alloc, case.run_for_text(alloc)?)
}

fn both_consoles(alloc: Global, text: &str) -> Result<Consoles> {
    Ok(Consoles {
        first: console(alloc, text, "\nfirst ")?,
        second: console(alloc, text, "\nsecond ")?,
    })
}

/// Which of two programs prints anything when they share the machine, where each prints only what its meaning prints
/// first, for the case `REQUESTS: FIRST SECOND -> WHO`.
pub fn shared(rt: &HostRuntime, line: &str) -> Result<String> {
    let case = before(line, " -> ")?;
    let (requests, sources) = halves(case, ": ")?;
    answered(rt.alloc(), case, who_under(rt, requests, sources)?)
}

fn who_under(rt: &HostRuntime, requests: &str, sources: &str) -> Result<&'static str> {
    let run = shared_run(rt, sources, needed(rt, requests)?)?;
    let meant = meanings(rt, sources)?;
    if run.begin(&meant) {
        Ok(run.who_prints())
    } else {
        Ok("otherwise")
    }
}

/// How many requests, one alone in each of the cycles from 0 on, leave each console the front of that of its meaning, for
/// the case `COUNT: FIRST SECOND`.
pub fn at_each(rt: &HostRuntime, line: &str) -> Result<String> {
    let (cycles, sources) = halves(line, ": ")?;
    let count = begin_at_each(rt, sources, number(cycles)?)?;
    Ok(format!(in rt.alloc(); "{count}: {sources}")?)
}

fn begin_at_each(rt: &HostRuntime, sources: &str, cycles: u32) -> Result<u64> {
    let meant = meanings(rt, sources)?;
    let mut count = 0u64;
    for cycle in 0..cycles {
        if begin_at(rt, sources, cycle, &meant)? {
            count = count.saturating_add(1);
        }
    }
    Ok(count)
}

/// Whether the consoles are fronts of those that are meant, with a request in this cycle alone.
fn begin_at(rt: &HostRuntime, sources: &str, cycle: u32, meant: &Consoles) -> Result<bool> {
    let request = format!(in rt.alloc(); "{cycle}")?;
    let run = shared_run(rt, sources, request.into_bytes())?;
    Ok(run.begin(meant))
}
