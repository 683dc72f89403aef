//! What is made of the words of each command, once they are read.
ghost use Rattle.std.specs.Prelude.{◌≡◌, ◌≤◌, IfSome, option_map};
ghost use Rattle.cmd_line.specs.Read.{seen};
ghost use Rattle.cmd_table.specs.Asked.{limits_of, run_of, meaning_of, build_of, exec_of, list_of, gen_of, soak_of, migrate_of, share_of, session_limits_of, debug_of, best_of, join_of};
ghost use Rattle.cmd_options.specs.Options.{IsAsked, seen_files};
ghost use Rattle.cmd_table.specs.Commands;
ghost use Rattle.cmd_table.specs.Seen.{seen_command, IsAllowed};

use crate::command::{Command, FEWEST_MODULES, MOST_MODULES};
use crate::numbers::{number, number_or, optional};
use cmd_line::Read;
use cmd_options::{Limits, RunFiles, SessionLimits};

/// The most cycles of a run, and those of one whose budget is not given.
const MOST_BUDGET: u32 = 100_000_000;

const USUAL_BUDGET: u32 = 1_000_000;

/// The most statements that `meaning` executes: those of each run within the most cycles, and the words of the pipeline behind them.
const MOST_STEPS: u32 = 100_000_064;

/// The most cycles of a trace.
const MOST_TRACED: u32 = 10_000;

/// The first data word, and the last one.
const FIRST_WORD: u32 = 256;

const LAST_WORD: u32 = 65_535;

/// The most data words that are printed.
const MOST_WORDS: u32 = 65_536;

/// The most stops of a session.
const MOST_STOPS: u32 = 1_000;

/// The most statements of a generated source.
const MOST_GENERATED: u32 = 4_000;

// The limits that four options give; None where a number is faulty.
fn limits_of(
    budget: Option<&str>,
    trace: Option<&str>,
    dump: Option<&str>,
    count: Option<&str>,
) -> Option<Limits>
    ensures { result ≡ limits_of (option_map (λ s. s.now) budget.entry) (option_map (λ s. s.now) trace.entry) (option_map (λ s. s.now) dump.entry)
        (option_map (λ s. s.now) count.entry) }
{
    let budget = number_or(budget, USUAL_BUDGET, 0, MOST_BUDGET)?;
    let trace = number_or(trace, 0, 0, MOST_TRACED)?;
    let dump = optional(dump, 0, LAST_WORD)?;
    let count = number_or(count, 1, 1, MOST_WORDS)?;
    Some(Limits {
        budget,
        trace,
        dump,
        count,
    })
}

// What `run` and `exec` are told: the file of the program, those beside it, and the limits.
#[derive(Clone, Copy)]
struct Started<'a> {
    program: &'a str,
    files: RunFiles<'a>,
    limits: Limits,
}

// What was read of `run` or `exec`.
fn read_started<'a>(read: &Read<'a>) -> Option<Started<'a>>
    ensures run { option_map (λ s. Commands.Run s.program.now (seen_files s.files) s.limits) result ≡ run_of (seen read.entry.now) }
    ensures exec { option_map (λ s. Commands.Exec s.program.now (seen_files s.files) s.limits) result ≡ exec_of (seen read.entry.now) }
{
    match (read.names.as_slice(), read.values.as_slice()) {
        ([program], [budget, trace, dump, count, interrupts, input]) => {
            let limits = limits_of(*budget, *trace, *dump, *count)?;
            let files = RunFiles {
                interrupts: *interrupts,
                input: *input,
            };
            Some(Started {
                program: *program,
                files,
                limits,
            })
        }
        _ => None,
    }
}

/// What was read of `run`.
pub fn run_read<'a>(read: &Read<'a>) -> Option<Command<'a>>
    ensures command { option_map seen_command result ≡ run_of (seen read.entry.now) }
    ensures allowed { IfSome result IsAllowed }
{
    let asked = read_started(read)?;
    Some(Command::Run {
        source: asked.program,
        files: asked.files,
        limits: asked.limits,
    })
}

/// What was read of `meaning`.
pub fn meaning_read<'a>(read: &Read<'a>) -> Option<Command<'a>>
    ensures command { option_map seen_command result ≡ meaning_of (seen read.entry.now) }
    ensures allowed { IfSome result IsAllowed }
{
    match (read.names.as_slice(), read.values.as_slice()) {
        ([source], [steps, input]) => {
            let steps = number_or(*steps, USUAL_BUDGET, 0, MOST_STEPS)?;
            Some(Command::Meaning {
                source: *source,
                steps,
                input: *input,
            })
        }
        _ => None,
    }
}

/// What was read of `build`.
pub fn build_read<'a>(read: &Read<'a>) -> Option<Command<'a>>
    ensures command { option_map seen_command result ≡ build_of (seen read.entry.now) }
    ensures allowed { IfSome result IsAllowed }
{
    match (read.names.as_slice(), read.values.as_slice()) {
        ([source, target], []) => Some(Command::Build {
            source: *source,
            target: *target,
        }),
        _ => None,
    }
}

/// What was read of `exec`.
pub fn exec_read<'a>(read: &Read<'a>) -> Option<Command<'a>>
    ensures command { option_map seen_command result ≡ exec_of (seen read.entry.now) }
    ensures allowed { IfSome result IsAllowed }
{
    let asked = read_started(read)?;
    Some(Command::Exec {
        image: asked.program,
        files: asked.files,
        limits: asked.limits,
    })
}

/// What was read of `list`.
pub fn list_read<'a>(read: &Read<'a>) -> Option<Command<'a>>
    ensures command { option_map seen_command result ≡ list_of (seen read.entry.now) }
    ensures allowed { IfSome result IsAllowed }
{
    match (read.names.as_slice(), read.values.as_slice()) {
        ([source], []) => Some(Command::Listing { source: *source }),
        _ => None,
    }
}

/// What was read of `best`.
pub fn best_read<'a>(read: &Read<'a>) -> Option<Command<'a>>
    ensures command { option_map seen_command result ≡ best_of (seen read.entry.now) }
    ensures allowed { IfSome result IsAllowed }
{
    match (read.names.as_slice(), read.values.as_slice()) {
        ([source], []) => Some(Command::Best { source: *source }),
        _ => None,
    }
}

// What `gen` and `soak` are told: the seed, and how many items are generated.
#[derive(Clone, Copy)]
struct Seeded {
    seed: u32,
    count: u32,
}

// What was read of `gen` or `soak`.
fn read_seeded(read: &Read) -> Option<Seeded>
    ensures generated { option_map (λ s. Commands.Gen s.seed s.count) result ≡ gen_of (seen read.entry.now) }
    ensures soaked { option_map (λ s. Commands.Soak s.seed s.count) result ≡ soak_of (seen read.entry.now) }
    ensures allowed { IfSome result (λ s. s.count ≤ 4000) }
{
    match (read.names.as_slice(), read.values.as_slice()) {
        ([seed, count], []) => {
            let seed = number(seed, 0, u32::MAX)?;
            let count = number(count, 0, MOST_GENERATED)?;
            Some(Seeded { seed, count })
        }
        _ => None,
    }
}

/// What was read of `gen`.
pub fn gen_read<'a>(read: &Read<'a>) -> Option<Command<'a>>
    ensures command { option_map seen_command result ≡ gen_of (seen read.entry.now) }
    ensures allowed { IfSome result IsAllowed }
{
    let Seeded { seed, count } = read_seeded(read)?;
    Some(Command::Gen { seed, count })
}

/// What was read of `soak`.
pub fn soak_read<'a>(read: &Read<'a>) -> Option<Command<'a>>
    ensures command { option_map seen_command result ≡ soak_of (seen read.entry.now) }
    ensures allowed { IfSome result IsAllowed }
{
    let Seeded { seed, count } = read_seeded(read)?;
    Some(Command::Soak { seed, count })
}

/// What was read of `migrate`.
pub fn migrate_read<'a>(read: &Read<'a>) -> Option<Command<'a>>
    ensures command { option_map seen_command result ≡ migrate_of (seen read.entry.now) }
    ensures allowed { IfSome result IsAllowed }
{
    match (read.names.as_slice(), read.values.as_slice()) {
        ([image, target], []) => Some(Command::Migrate {
            image: *image,
            target: *target,
        }),
        _ => None,
    }
}

/// What was read of `share`.
pub fn share_read<'a>(read: &Read<'a>) -> Option<Command<'a>>
    ensures command { option_map seen_command result ≡ share_of (seen read.entry.now) }
    ensures allowed { IfSome result IsAllowed }
{
    match (read.names.as_slice(), read.values.as_slice()) {
        ([first, second], [budget, interrupts]) => {
            let budget = number_or(*budget, USUAL_BUDGET, 0, MOST_BUDGET)?;
            Some(Command::Share {
                first: *first,
                second: *second,
                interrupts: *interrupts,
                budget,
            })
        }
        _ => None,
    }
}

// The limits of a session that three options give; None where a number is faulty.
fn session_limits_of(
    stops: Option<&str>,
    watch: Option<&str>,
    budget: Option<&str>,
) -> Option<SessionLimits>
    ensures limits { result
        ≡ session_limits_of (option_map (λ s. s.now) stops.entry) (option_map (λ s. s.now) watch.entry) (option_map (λ s. s.now) budget.entry) }
    ensures asked { IfSome result IsAsked }
{
    let stops = number_or(stops, 1, 1, MOST_STOPS)?;
    let watch = number_or(watch, FIRST_WORD, FIRST_WORD, LAST_WORD)?;
    let budget = number_or(budget, USUAL_BUDGET, 0, MOST_BUDGET)?;
    Some(SessionLimits {
        stops,
        watch,
        budget,
    })
}

/// What was read of `debug`.
pub fn debug_read<'a>(read: &Read<'a>) -> Option<Command<'a>>
    ensures command { option_map seen_command result ≡ debug_of (seen read.entry.now) }
    ensures allowed { IfSome result IsAllowed }
{
    match (read.names.as_slice(), read.values.as_slice()) {
        ([source, label], [stops, watch, budget, interrupts, input]) => {
            let limits = session_limits_of(*stops, *watch, *budget)?;
            let files = RunFiles {
                interrupts: *interrupts,
                input: *input,
            };
            Some(Command::Debug {
                source: *source,
                label: *label,
                files,
                limits,
            })
        }
        _ => None,
    }
}

/// What was read of `join`.
pub fn join_read<'a>(read: Read<'a>) -> Option<Command<'a>>
    ensures command { option_map seen_command result ≡ join_of (seen read.entry) }
    ensures allowed { IfSome result IsAllowed }
{
    let count = read.names.len();
    if FEWEST_MODULES <= count && count <= MOST_MODULES {
        Some(Command::Join { names: read.names })
    } else {
        None
    }
}
