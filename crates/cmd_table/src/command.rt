//! The command that words ask for.
ghost use Rattle.std.specs.Prelude.{◌≡◌, IfOk, IfSome, IsTrue, not, find, map, option_map, string_bytes};
ghost use Rattle.std.specs.Str.{bytes_eq};
ghost use Rattle.cmd_table.specs.Terms.{names_id, texts, is_known, seen, row_of, command_of, seen_row, reads_of, seen_command, IsAllowed};

use crate::readers::{
    best_read, build_read, debug_read, exec_read, gen_read, join_read, list_read, meaning_read,
    migrate_read, run_read, share_read, soak_read,
};
use cmd_line::{Read, Shape, read_words};
use cmd_options::{Limits, RunFiles, SessionLimits};
use mx_io::Memory;
use std::alloc::Global;

/// What a command line asks for.
#[derive(Drop)]
pub enum Command<'a> {
    Run {
        source: &'a str,
        files: RunFiles<'a>,
        limits: Limits,
    },
    Meaning {
        source: &'a str,
        steps: u32,
        input: Option<&'a str>,
    },
    Build {
        source: &'a str,
        target: &'a str,
    },
    Exec {
        image: &'a str,
        files: RunFiles<'a>,
        limits: Limits,
    },
    Listing {
        source: &'a str,
    },
    Best {
        source: &'a str,
    },
    Gen {
        seed: u32,
        count: u32,
    },
    Soak {
        seed: u32,
        count: u32,
    },
    Migrate {
        image: &'a str,
        target: &'a str,
    },
    Share {
        first: &'a str,
        second: &'a str,
        interrupts: Option<&'a str>,
        budget: u32,
    },
    Debug {
        source: &'a str,
        label: &'a str,
        files: RunFiles<'a>,
        limits: SessionLimits,
    },
    Join {
        names: Vec<&'a str>,
    },
}

const MEANING_OPTIONS: [&str; 2] = ["steps", "input"];

const SHARE_OPTIONS: [&str; 2] = ["budget", "interrupts"];

const RUN_OPTIONS: [&str; 6] = ["budget", "trace", "dump", "count", "interrupts", "input"];

const DEBUG_OPTIONS: [&str; 5] = ["stops", "watch", "budget", "interrupts", "input"];

/// How few modules are joined.
pub const FEWEST_MODULES: usize = 2;

/// How many modules are joined.
pub const MOST_MODULES: usize = 16;

/// Which function reads what stands after the first word.
#[derive(Clone, Copy)]
enum Form {
    Run,
    Meaning,
    Build,
    Exec,
    List,
    Best,
    Gen,
    Soak,
    Migrate,
    Share,
    Debug,
    Join,
}

/// A row of the table of commands.
#[derive(Clone, Copy)]
struct Row {
    /// The first word, spelled exactly.
    word: &'static str,
    /// The names of the options.
    options: &'static [&'static str],
    /// How few names there may be.
    fewest: usize,
    /// How many names there may be.
    most: usize,
    /// What is made of them.
    form: Form,
}

/// The table of commands. It is the same as `rows` of specs/Asked.antt.
#[rattlefmt::skip]
const ROWS: &[Row] = &[
    Row { word: "run", options: &RUN_OPTIONS, fewest: 1, most: 1, form: Form::Run },
    Row { word: "meaning", options: &MEANING_OPTIONS, fewest: 1, most: 1, form: Form::Meaning },
    Row { word: "build", options: &[], fewest: 2, most: 2, form: Form::Build },
    Row { word: "exec", options: &RUN_OPTIONS, fewest: 1, most: 1, form: Form::Exec },
    Row { word: "list", options: &[], fewest: 1, most: 1, form: Form::List },
    Row { word: "best", options: &[], fewest: 1, most: 1, form: Form::Best },
    Row { word: "gen", options: &[], fewest: 2, most: 2, form: Form::Gen },
    Row { word: "soak", options: &[], fewest: 2, most: 2, form: Form::Soak },
    Row { word: "migrate", options: &[], fewest: 2, most: 2, form: Form::Migrate },
    Row { word: "share", options: &SHARE_OPTIONS, fewest: 2, most: 2, form: Form::Share },
    Row { word: "debug", options: &DEBUG_OPTIONS, fewest: 2, most: 2, form: Form::Debug },
    Row { word: "join", options: &[], fewest: FEWEST_MODULES, most: MOST_MODULES, form: Form::Join },
];

// The row of a first word in a table, if there is one.
fn find_row<'a>(rows: &'a [Row], first: &str) -> Option<&'a Row>
    ensures { option_map (λ r. seen_row r.now) result ≡ find (λ r. bytes_eq r.word first.now) (map seen_row rows.entry.now) }
{
    for row in rows {
        if row.word == first {
            return Some(row);
        }
    }
    None
}

// The row of a first word, if it is a command's.
fn row_of(first: &str) -> Option<&'static Row>
    ensures row { option_map (λ r. seen_row r.now) result ≡ row_of first.now }
    ensures apart { IfSome result (λ r. IsTrue (not (is_known (texts r.now.options.now) names_id))) }
{
    find_row(ROWS, first)
}

// The command that was read in a form.
fn command_in<'a>(form: Form, read: Read<'a>) -> Option<Command<'a>>
    ensures command { option_map seen_command result ≡ reads_of form (seen read.entry) }
    ensures allowed { IfSome result IsAllowed }
{
    match form {
        Form::Run => run_read(&read),
        Form::Meaning => meaning_read(&read),
        Form::Build => build_read(&read),
        Form::Exec => exec_read(&read),
        Form::List => list_read(&read),
        Form::Best => best_read(&read),
        Form::Gen => gen_read(&read),
        Form::Soak => soak_read(&read),
        Form::Migrate => migrate_read(&read),
        Form::Share => share_read(&read),
        Form::Debug => debug_read(&read),
        Form::Join => join_read(read),
    }
}

/// The command that the words after the program's name ask for; None where they ask for none. The first word names the
/// command, spelled exactly. Options may stand before or after names, as `--name value` or `--name=value`, each at most
/// once; after the first `--` all words are names.
pub fn read_command<'a>(alloc: Global, words: &'a [String]) -> Result<Option<Command<'a>>, Memory>
    ensures command { IfOk result (λ r. option_map seen_command r ≡ command_of (map string_bytes words.entry.now)) }
    ensures allowed { IfOk result (λ r. IfSome r IsAllowed) }
{
    let [first, rest @ ..] = words else {
        return Ok(None);
    };
    let Some(row) = row_of(first.as_str()) else {
        return Ok(None);
    };
    let shape = Shape {
        options: row.options,
        fewest: row.fewest,
        most: row.most,
    };
    match read_words(alloc, &shape, rest)? {
        Some(read) => Ok(command_in(row.form, read)),
        None => Ok(None),
    }
}
