//! The table of commands: their names, and their arguments.
use crate::choices::Choice;
use lab_options::{WordRow, meaning_in};

/// The most cycles of a run.
const MOST_BUDGET: i64 = 100_000_000;

/// The most cycles of a drawing.
const MOST_DRAWN: i64 = 100_000;

/// The most words of a line of a cache, and the greatest cost of a miss.
const MOST_WORDS: i64 = 64;

const MOST_PENALTY: i64 = 1000;

/// The most stops of a session.
const MOST_STOPS: i64 = 1000;

/// The first and the last word of the data.
const FIRST_DATA: i64 = 256;

const LAST_DATA: i64 = 65_535;

/// The name of the plan file of `plans`, and of the option that asks for one.
pub(crate) const FILE_NAME: &str = "FILE";

pub(crate) const PRINT_NAME: &str = "print";

/// The name of a command.
#[derive(Clone, Copy)]
pub(crate) enum CommandName {
    Blocks,
    Build,
    Caches,
    Certify,
    Check,
    Compare,
    Debug,
    Disassemble,
    Draw,
    Explain,
    Interrupts,
    Plans,
    Profile,
    Trace,
    Verify,
}

/// What an argument is: positional, or an option and what follows its name.
#[derive(Clone, Copy)]
pub(crate) enum Takes {
    /// It is positional, and one file or label.
    Positional {
        is_required: bool,
    },
    /// It is positional, and one file or more.
    Positionals,
    Nothing,
    File,
    /// A file. The option has to be there.
    NeededFile,
    /// A name and a file. It may come several times.
    NamedFile,
    /// A number of a range.
    Number {
        least: i64,
        most: i64,
    },
    /// One of some words, and what it is called in help.
    Word {
        called: &'static str,
        choice: Choice,
    },
}

impl Takes {
    /// It is no option.
    pub fn is_positional(self) -> bool {
        matches!(self, Takes::Positional { .. } | Takes::Positionals)
    }
}

/// What is known of an argument: its name, without the two hyphens of an option, what it is, the text that is taken where it is
/// left out, if there is one, and what help says.
#[derive(Clone, Copy)]
pub(crate) struct ArgumentRow {
    pub name: &'static str,
    pub takes: Takes,
    pub default: Option<&'static str>,
    pub help: &'static str,
}

/// The arguments. Those of one name differ in what they take, or in what help says.
#[derive(Clone, Copy)]
pub(crate) enum ArgumentName {
    Source,
    Sources,
    File,
    PlansFile,
    Image,
    WrittenImage,
    Certificate,
    Label,
    Budget,
    SessionBudget,
    Interrupts,
    Input,
    Scheduler,
    PlanFile,
    LinkedPlans,
    NamedPlans,
    DrawForm,
    FirstDrawn,
    Cycles,
    All,
    CheckForm,
    Colour,
    ExplainForm,
    By,
    Sort,
    ProfileForm,
    CompareForm,
    BlocksForm,
    DisassembleForm,
    CachesForm,
    Line,
    Brings,
    Penalty,
    From,
    To,
    Step,
    Pairs,
    Rows,
    SweepForm,
    TraceForm,
    Stops,
    Watch,
    Output,
    PrintFlag,
}

// What is known of the arguments, in the order of their names above.
static ARGUMENTS: [ArgumentRow; 44] = [
    ArgumentRow {
        name: "SOURCE",
        takes: Takes::Positional { is_required: true },
        default: None,
        help: "the source, in assembly language; - is standard input",
    },
    ArgumentRow {
        name: "SOURCE",
        takes: Takes::Positionals,
        default: None,
        help: "the source, in assembly language; - is standard input",
    },
    ArgumentRow {
        name: "FILE",
        takes: Takes::Positional { is_required: true },
        default: None,
        help: "the source, in assembly language, or the image file",
    },
    // It is required unless one is printed.
    ArgumentRow {
        name: FILE_NAME,
        takes: Takes::Positional { is_required: false },
        default: None,
        help: "the plans, a line for each block",
    },
    ArgumentRow {
        name: "IMAGE",
        takes: Takes::Positional { is_required: true },
        default: None,
        help: "the image file",
    },
    ArgumentRow {
        name: "IMAGE",
        takes: Takes::Positional { is_required: true },
        default: None,
        help: "the image file that is written",
    },
    ArgumentRow {
        name: "CERTIFICATE",
        takes: Takes::Positional { is_required: true },
        default: None,
        help: "the certificate",
    },
    ArgumentRow {
        name: "LABEL",
        takes: Takes::Positional { is_required: true },
        default: None,
        help: "the label of an instruction",
    },
    ArgumentRow {
        name: "budget",
        takes: Takes::Number {
            least: 1,
            most: MOST_BUDGET,
        },
        default: Some("1000000"),
        help: "the most cycles that the run may take",
    },
    // The numbers of a session are those of the toolchain's command, which links without a plan file.
    ArgumentRow {
        name: "budget",
        takes: Takes::Number {
            least: 0,
            most: MOST_BUDGET,
        },
        default: Some("1000000"),
        help: "the most cycles that the run may take",
    },
    ArgumentRow {
        name: "interrupts",
        takes: Takes::File,
        default: None,
        help: "the cycles in which an interrupt is requested",
    },
    ArgumentRow {
        name: "input",
        takes: Takes::File,
        default: None,
        help: "the bytes of the input",
    },
    ArgumentRow {
        name: "scheduler",
        takes: Takes::Word {
            called: "NAME",
            choice: Choice::Scheduler,
        },
        default: Some("copies"),
        help: "the scheduler whose plans are run, as compare names it",
    },
    ArgumentRow {
        name: "plans",
        takes: Takes::File,
        default: None,
        help: "a plan file, whose plans are run in place of a scheduler's",
    },
    // Without this option the toolchain answers the command.
    ArgumentRow {
        name: "plans",
        takes: Takes::NeededFile,
        default: None,
        help: "a plan file, by whose plans the source is linked",
    },
    ArgumentRow {
        name: "plans",
        takes: Takes::NamedFile,
        default: None,
        help: "a column for the plans of a file, by a name; may come several times",
    },
    ArgumentRow {
        name: "as",
        takes: Takes::Word {
            called: "FORM",
            choice: Choice::DrawForm,
        },
        default: Some("text"),
        help: "the form of the picture",
    },
    ArgumentRow {
        name: "from",
        takes: Takes::Number {
            least: 0,
            most: MOST_BUDGET,
        },
        default: Some("0"),
        help: "the first cycle that is drawn",
    },
    ArgumentRow {
        name: "cycles",
        takes: Takes::Number {
            least: 1,
            most: MOST_DRAWN,
        },
        default: Some("64"),
        help: "how many cycles are drawn",
    },
    ArgumentRow {
        name: "all",
        takes: Takes::Nothing,
        default: None,
        help: "shows more than the first twenty",
    },
    ArgumentRow {
        name: "as",
        takes: Takes::Word {
            called: "FORM",
            choice: Choice::TextOrJson,
        },
        default: Some("text"),
        help: "the form of what is found",
    },
    ArgumentRow {
        name: "colour",
        takes: Takes::Word {
            called: "WHEN",
            choice: Choice::Colour,
        },
        default: Some("never"),
        help: "whether the text is in the colours of a terminal",
    },
    ArgumentRow {
        name: "as",
        takes: Takes::Word {
            called: "FORM",
            choice: Choice::TextOrJson,
        },
        default: Some("text"),
        help: "the form of the output",
    },
    ArgumentRow {
        name: "by",
        takes: Takes::Word {
            called: "PART",
            choice: Choice::Part,
        },
        default: Some("line"),
        help: "the parts of the profile: lines, labels, functions, or lines of C",
    },
    ArgumentRow {
        name: "sort",
        takes: Takes::Word {
            called: "COLUMN",
            choice: Choice::Sort,
        },
        default: Some("line"),
        help: "the column whose greatest number comes first; line is the order of the source",
    },
    ArgumentRow {
        name: "as",
        takes: Takes::Word {
            called: "FORM",
            choice: Choice::ProfileForm,
        },
        default: Some("text"),
        help: "the form of the profile",
    },
    ArgumentRow {
        name: "as",
        takes: Takes::Word {
            called: "FORM",
            choice: Choice::TextJsonOrCsv,
        },
        default: Some("text"),
        help: "the form of the comparison",
    },
    ArgumentRow {
        name: "as",
        takes: Takes::Word {
            called: "FORM",
            choice: Choice::BlocksForm,
        },
        default: Some("text"),
        help: "the form of the blocks",
    },
    ArgumentRow {
        name: "as",
        takes: Takes::Word {
            called: "FORM",
            choice: Choice::TextOrJson,
        },
        default: Some("text"),
        help: "the form of the listing",
    },
    ArgumentRow {
        name: "as",
        takes: Takes::Word {
            called: "FORM",
            choice: Choice::CachesForm,
        },
        default: Some("text"),
        help: "the form of the table",
    },
    ArgumentRow {
        name: "line",
        takes: Takes::Number {
            least: 1,
            most: MOST_WORDS,
        },
        default: Some("16"),
        help: "the words of a line",
    },
    ArgumentRow {
        name: "brings",
        takes: Takes::Number {
            least: 1,
            most: MOST_WORDS,
        },
        default: Some("2"),
        help: "the words that a miss brings, at most those of a line",
    },
    ArgumentRow {
        name: "penalty",
        takes: Takes::Number {
            least: 0,
            most: MOST_PENALTY,
        },
        default: Some("2"),
        help: "the cycles that a miss costs",
    },
    ArgumentRow {
        name: "from",
        takes: Takes::Number {
            least: 0,
            most: MOST_BUDGET,
        },
        default: Some("0"),
        help: "the first cycle in which a request comes",
    },
    ArgumentRow {
        name: "to",
        takes: Takes::Number {
            least: 0,
            most: MOST_BUDGET,
        },
        default: None,
        help: "the last cycle in which a request comes; that of the undisturbed run without it",
    },
    ArgumentRow {
        name: "step",
        takes: Takes::Number {
            least: 1,
            most: MOST_BUDGET,
        },
        default: Some("1"),
        help: "how many cycles the requests of two runs are apart",
    },
    ArgumentRow {
        name: "pairs",
        takes: Takes::Nothing,
        default: None,
        help: "runs with a request in each two of the cycles",
    },
    ArgumentRow {
        name: "rows",
        takes: Takes::Nothing,
        default: None,
        help: "prints each run as well",
    },
    ArgumentRow {
        name: "as",
        takes: Takes::Word {
            called: "FORM",
            choice: Choice::TextJsonOrCsv,
        },
        default: Some("text"),
        help: "the form of the output",
    },
    ArgumentRow {
        name: "as",
        takes: Takes::Word {
            called: "FORM",
            choice: Choice::TraceForm,
        },
        default: Some("jsonl"),
        help: "the form of the trace: a JSON text a line",
    },
    ArgumentRow {
        name: "stops",
        takes: Takes::Number {
            least: 1,
            most: MOST_STOPS,
        },
        default: Some("1"),
        help: "how many stops are shown",
    },
    ArgumentRow {
        name: "watch",
        takes: Takes::Number {
            least: FIRST_DATA,
            most: LAST_DATA,
        },
        default: Some("256"),
        help: "the data word that each stop shows",
    },
    ArgumentRow {
        name: "output",
        takes: Takes::File,
        default: None,
        help: "writes what is printed to a file",
    },
    ArgumentRow {
        name: PRINT_NAME,
        takes: Takes::Nothing,
        default: None,
        help: "prints the plans of the list scheduler",
    },
];

impl ArgumentName {
    /// What is known of it.
    pub fn row(self) -> &'static ArgumentRow {
        &ARGUMENTS[self as usize]
    }

    /// Its name, without the two hyphens of an option.
    pub fn name(self) -> &'static str {
        self.row().name
    }

    /// What it is.
    pub fn takes(self) -> Takes {
        self.row().takes
    }
}

static DRAW: [ArgumentName; 10] = [
    ArgumentName::Source,
    ArgumentName::DrawForm,
    ArgumentName::FirstDrawn,
    ArgumentName::Cycles,
    ArgumentName::Scheduler,
    ArgumentName::PlanFile,
    ArgumentName::Budget,
    ArgumentName::Interrupts,
    ArgumentName::Input,
    ArgumentName::Output,
];

static CHECK: [ArgumentName; 5] = [
    ArgumentName::Sources,
    ArgumentName::All,
    ArgumentName::CheckForm,
    ArgumentName::Colour,
    ArgumentName::Output,
];

static EXPLAIN: [ArgumentName; 6] = [
    ArgumentName::Source,
    ArgumentName::ExplainForm,
    ArgumentName::Budget,
    ArgumentName::Interrupts,
    ArgumentName::Input,
    ArgumentName::Output,
];

static PROFILE: [ArgumentName; 10] = [
    ArgumentName::Source,
    ArgumentName::By,
    ArgumentName::Sort,
    ArgumentName::ProfileForm,
    ArgumentName::Scheduler,
    ArgumentName::PlanFile,
    ArgumentName::Budget,
    ArgumentName::Interrupts,
    ArgumentName::Input,
    ArgumentName::Output,
];

static COMPARE: [ArgumentName; 7] = [
    ArgumentName::Sources,
    ArgumentName::CompareForm,
    ArgumentName::NamedPlans,
    ArgumentName::Budget,
    ArgumentName::Interrupts,
    ArgumentName::Input,
    ArgumentName::Output,
];

static DISASSEMBLE: [ArgumentName; 3] = [
    ArgumentName::File,
    ArgumentName::DisassembleForm,
    ArgumentName::Output,
];

static BLOCKS: [ArgumentName; 6] = [
    ArgumentName::Source,
    ArgumentName::BlocksForm,
    ArgumentName::Budget,
    ArgumentName::Interrupts,
    ArgumentName::Input,
    ArgumentName::Output,
];

static CACHES: [ArgumentName; 9] = [
    ArgumentName::Source,
    ArgumentName::CachesForm,
    ArgumentName::Line,
    ArgumentName::Brings,
    ArgumentName::Penalty,
    ArgumentName::PlanFile,
    ArgumentName::Budget,
    ArgumentName::Input,
    ArgumentName::Output,
];

static INTERRUPTS: [ArgumentName; 11] = [
    ArgumentName::Source,
    ArgumentName::From,
    ArgumentName::To,
    ArgumentName::Step,
    ArgumentName::Pairs,
    ArgumentName::Rows,
    ArgumentName::SweepForm,
    ArgumentName::PlanFile,
    ArgumentName::Budget,
    ArgumentName::Input,
    ArgumentName::Output,
];

static TRACE: [ArgumentName; 8] = [
    ArgumentName::Source,
    ArgumentName::TraceForm,
    ArgumentName::Scheduler,
    ArgumentName::PlanFile,
    ArgumentName::Budget,
    ArgumentName::Interrupts,
    ArgumentName::Input,
    ArgumentName::Output,
];

static PLANS: [ArgumentName; 7] = [
    ArgumentName::Source,
    ArgumentName::PlansFile,
    ArgumentName::PrintFlag,
    ArgumentName::Budget,
    ArgumentName::Interrupts,
    ArgumentName::Input,
    ArgumentName::Output,
];

static BUILD: [ArgumentName; 3] = [
    ArgumentName::Source,
    ArgumentName::WrittenImage,
    ArgumentName::LinkedPlans,
];

static DEBUG: [ArgumentName; 9] = [
    ArgumentName::Source,
    ArgumentName::Label,
    ArgumentName::LinkedPlans,
    ArgumentName::Stops,
    ArgumentName::Watch,
    ArgumentName::SessionBudget,
    ArgumentName::Interrupts,
    ArgumentName::Input,
    ArgumentName::Output,
];

static CERTIFY: [ArgumentName; 2] = [ArgumentName::Source, ArgumentName::Output];

static VERIFY: [ArgumentName; 4] = [
    ArgumentName::Source,
    ArgumentName::Image,
    ArgumentName::Certificate,
    ArgumentName::Output,
];

impl CommandName {
    /// Its arguments, in the order in which help lists them: the positional ones come first.
    pub fn arguments(self) -> &'static [ArgumentName] {
        match self {
            CommandName::Draw => &DRAW,
            CommandName::Check => &CHECK,
            CommandName::Explain => &EXPLAIN,
            CommandName::Profile => &PROFILE,
            CommandName::Compare => &COMPARE,
            CommandName::Disassemble => &DISASSEMBLE,
            CommandName::Blocks => &BLOCKS,
            CommandName::Caches => &CACHES,
            CommandName::Interrupts => &INTERRUPTS,
            CommandName::Trace => &TRACE,
            CommandName::Plans => &PLANS,
            CommandName::Build => &BUILD,
            CommandName::Debug => &DEBUG,
            CommandName::Certify => &CERTIFY,
            CommandName::Verify => &VERIFY,
        }
    }

    /// What help says of it.
    pub fn about(self) -> &'static str {
        ABOUT[self as usize]
    }
}

// What help says of the commands, in the order of their names above.
static ABOUT: [&str; 15] = [
    "shows the blocks of a source, their dependences and the lengths of their plans",
    "writes a source that is linked by plans from a file as an image file",
    "measures a run with other caches",
    "prints what shows that the image of a source means it",
    "shows every faulty line of a source, or of several modules, and what is wrong with it",
    "compares what four schedulers make of a source, or of several",
    "stops a source that is linked by plans from a file each time that it comes to a label",
    "lists the words of a source or an image file in assembly language",
    "draws the instructions of a run by its cycles",
    "compares a run with the sequential semantics",
    "measures what an interrupt costs in each cycle of a run",
    "runs a source by plans from a file",
    "measures what each part of a source costs in a run",
    "prints each turn of a run, for programs that replay it",
    "checks by a certificate that an image means a source",
];

// The commands, in the order in which help lists them. Another one is added here, in `options.rt` of `lab_options`, in
// `reading.rt`, and where it is answered, in `top.rt` of `lab_command`.
static COMMANDS: [WordRow<CommandName>; 15] = [
    WordRow {
        word: "draw",
        means: CommandName::Draw,
    },
    WordRow {
        word: "check",
        means: CommandName::Check,
    },
    WordRow {
        word: "explain",
        means: CommandName::Explain,
    },
    WordRow {
        word: "profile",
        means: CommandName::Profile,
    },
    WordRow {
        word: "compare",
        means: CommandName::Compare,
    },
    WordRow {
        word: "disassemble",
        means: CommandName::Disassemble,
    },
    WordRow {
        word: "blocks",
        means: CommandName::Blocks,
    },
    WordRow {
        word: "caches",
        means: CommandName::Caches,
    },
    WordRow {
        word: "interrupts",
        means: CommandName::Interrupts,
    },
    WordRow {
        word: "trace",
        means: CommandName::Trace,
    },
    WordRow {
        word: "plans",
        means: CommandName::Plans,
    },
    WordRow {
        word: "build",
        means: CommandName::Build,
    },
    WordRow {
        word: "debug",
        means: CommandName::Debug,
    },
    WordRow {
        word: "certify",
        means: CommandName::Certify,
    },
    WordRow {
        word: "verify",
        means: CommandName::Verify,
    },
];

/// The commands, in the order in which help lists them.
pub(crate) fn commands() -> &'static [WordRow<CommandName>] {
    &COMMANDS
}

/// The command of this name, if there is one.
pub(crate) fn command_named(name: &str) -> Option<CommandName> {
    meaning_in(commands(), name)
}
