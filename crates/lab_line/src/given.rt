//! The values of options and arguments.
use crate::table::ArgumentName;
use clap::ArgMatches;
use clap::parser::ValueSource;
use lab_options::{Form, Part, Scheduler, Sort, WordRow, meant_by};

// The forms beside text.
static FORMS: [WordRow<Form>; 8] = [
    WordRow {
        word: "json",
        means: Form::Json,
    },
    WordRow {
        word: "csv",
        means: Form::Csv,
    },
    WordRow {
        word: "svg",
        means: Form::Svg,
    },
    WordRow {
        word: "html",
        means: Form::Html,
    },
    WordRow {
        word: "kanata",
        means: Form::Kanata,
    },
    WordRow {
        word: "vcd",
        means: Form::Vcd,
    },
    WordRow {
        word: "callgrind",
        means: Form::Callgrind,
    },
    WordRow {
        word: "dot",
        means: Form::Dot,
    },
];

// The schedulers beside that of `run`.
static SCHEDULERS: [WordRow<Scheduler>; 3] = [
    WordRow {
        word: "padded",
        means: Scheduler::Padded,
    },
    WordRow {
        word: "list",
        means: Scheduler::List,
    },
    WordRow {
        word: "best",
        means: Scheduler::Best,
    },
];

// The parts beside lines.
static PARTS: [WordRow<Part>; 3] = [
    WordRow {
        word: "label",
        means: Part::Label,
    },
    WordRow {
        word: "function",
        means: Part::Function,
    },
    WordRow {
        word: "c",
        means: Part::C,
    },
];

// The columns beside the order of the source.
static SORTS: [WordRow<Sort>; 8] = [
    WordRow {
        word: "count",
        means: Sort::Count,
    },
    WordRow {
        word: "cycles",
        means: Sort::Cycles,
    },
    WordRow {
        word: "caused",
        means: Sort::Caused,
    },
    WordRow {
        word: "cpi",
        means: Sort::Cpi,
    },
    WordRow {
        word: "stalls",
        means: Sort::Stalls,
    },
    WordRow {
        word: "noops",
        means: Sort::Noops,
    },
    WordRow {
        word: "squashed",
        means: Sort::Squashed,
    },
    WordRow {
        word: "killed",
        means: Sort::Killed,
    },
];

/// The word of an argument; empty where it has none, which is the name of no file.
pub(crate) fn word_of<'w>(matches: &ArgMatches<'w>, argument: ArgumentName) -> &'w str {
    matches.get_str(argument.name()).unwrap_or("")
}

/// The file of an option, if it is given.
pub(crate) fn file_of<'w>(matches: &ArgMatches<'w>, option: ArgumentName) -> Option<&'w str> {
    matches.get_str(option.name())
}

/// The words of an argument that may have several; none where it is not given.
pub(crate) fn words_of<'m, 'w>(
    matches: &'m ArgMatches<'w>,
    argument: ArgumentName,
) -> Option<&'m [&'w str]> {
    matches.get_strs(argument.name())
}

/// Whether an option without a value is given.
pub(crate) fn flag_of(matches: &ArgMatches, option: ArgumentName) -> bool {
    matches.get_flag(option.name())
}

/// Whether an option is among the arguments, and has not its default alone.
pub(crate) fn is_given(matches: &ArgMatches, option: ArgumentName) -> bool {
    matches!(
        matches.value_source(option.name()),
        Some(ValueSource::CommandLine)
    )
}

/// The number of an option, if it has one.
pub(crate) fn number_if_any(matches: &ArgMatches, option: ArgumentName) -> Option<u32> {
    matches.get_one::<u32>(option.name())
}

/// The number of an option that has a default.
pub(crate) fn number_of(matches: &ArgMatches, option: ArgumentName) -> u32 {
    number_if_any(matches, option).unwrap_or(default_of(option))
}

// The default of an option; 0 where it has none.
fn default_of(option: ArgumentName) -> u32 {
    match option.row().default {
        Some(text) => text.parse::<u32>().unwrap_or(0),
        None => 0,
    }
}

/// The form of what is printed.
pub(crate) fn form_of(matches: &ArgMatches, option: ArgumentName) -> Form {
    meant_by(&FORMS, word_of(matches, option), Form::Text)
}

/// The scheduler that is named.
pub(crate) fn scheduler_of(matches: &ArgMatches) -> Scheduler {
    meant_by(
        &SCHEDULERS,
        word_of(matches, ArgumentName::Scheduler),
        Scheduler::Copies,
    )
}

/// The parts of a profile that are named.
pub(crate) fn part_of(matches: &ArgMatches) -> Part {
    meant_by(&PARTS, word_of(matches, ArgumentName::By), Part::Line)
}

/// The column of a profile that is named.
pub(crate) fn sort_of(matches: &ArgMatches) -> Sort {
    meant_by(&SORTS, word_of(matches, ArgumentName::Sort), Sort::Line)
}
