//! The commands that a request may ask for.
ghost use Rattle.std.specs.Prelude.{◌≡◌, map, find};
ghost use Rattle.std.specs.Str.{bytes_eq};
ghost use Rattle.lab_request.specs.Fields.{command_name, command_named, fields_of};
ghost use Rattle.lab_request.specs.Requests.{last_words};
ghost use Rattle.lab_request.specs.Documents.{is_check};

use crate::Field;

/// A command. All but `run` are the laboratory's.
#[derive(Clone, Copy)]
pub enum WorkbenchCommand {
    Check,
    Run,
    Explain,
    Draw,
    Profile,
    Compare,
    Disassemble,
    Blocks,
    /// `plans`, which runs a plan file or prints one.
    Planned,
    Caches,
    /// `interrupts`, a run for each cycle of a request.
    Sweep,
}

static COMMANDS: [WorkbenchCommand; 11] = [
    WorkbenchCommand::Check,
    WorkbenchCommand::Run,
    WorkbenchCommand::Explain,
    WorkbenchCommand::Draw,
    WorkbenchCommand::Profile,
    WorkbenchCommand::Compare,
    WorkbenchCommand::Disassemble,
    WorkbenchCommand::Blocks,
    WorkbenchCommand::Planned,
    WorkbenchCommand::Caches,
    WorkbenchCommand::Sweep,
];

static SOURCE_ALONE: [Field; 2] = [Field::Source, Field::Name];

static OF_A_RUN: [Field; 5] = [
    Field::Source,
    Field::Name,
    Field::Interrupts,
    Field::Input,
    Field::Budget,
];

static OF_RUN: [Field; 8] = [
    Field::Source,
    Field::Name,
    Field::Interrupts,
    Field::Input,
    Field::Budget,
    Field::Trace,
    Field::Dump,
    Field::Count,
];

static OF_DRAW: [Field; 10] = [
    Field::Source,
    Field::Name,
    Field::Interrupts,
    Field::Input,
    Field::Budget,
    Field::From,
    Field::Cycles,
    Field::Form,
    Field::Scheduler,
    Field::Plans,
];

static OF_PROFILE: [Field; 6] = [
    Field::Source,
    Field::Name,
    Field::Interrupts,
    Field::Input,
    Field::Budget,
    Field::Plans,
];

static OF_PLANS: [Field; 6] = [
    Field::Source,
    Field::Name,
    Field::PlanFile,
    Field::Interrupts,
    Field::Input,
    Field::Budget,
];

static OF_CACHES: [Field; 8] = [
    Field::Source,
    Field::Name,
    Field::Input,
    Field::Budget,
    Field::Line,
    Field::Brings,
    Field::Penalty,
    Field::Plans,
];

static OF_SWEEP: [Field; 8] = [
    Field::Source,
    Field::Name,
    Field::Input,
    Field::Budget,
    Field::From,
    Field::To,
    Field::Step,
    Field::Plans,
];

static JSON: [&str; 2] = ["--as", "json"];

static ALL_JSON: [&str; 3] = ["--as", "json", "--all"];

// The first of some commands that has this name.
fn first_named(commands: &[WorkbenchCommand], word: &str) -> Option<WorkbenchCommand>
    ensures { result ≡ find (λ c. bytes_eq (command_name c) word.now) commands.now }
{
    for command in commands {
        if command.name() == word {
            return Some(*command);
        }
    }
    None
}

impl WorkbenchCommand {
    /// The command of this name.
    pub fn named(word: &str) -> Option<WorkbenchCommand>
        ensures { result ≡ command_named word.now }
    {
        first_named(&COMMANDS, word)
    }

    /// Its name.
    pub fn name(self) -> &'static str
        ensures { result.now ≡ command_name self }
    {
        match self {
            WorkbenchCommand::Check => "check",
            WorkbenchCommand::Run => "run",
            WorkbenchCommand::Explain => "explain",
            WorkbenchCommand::Draw => "draw",
            WorkbenchCommand::Profile => "profile",
            WorkbenchCommand::Compare => "compare",
            WorkbenchCommand::Disassemble => "disassemble",
            WorkbenchCommand::Blocks => "blocks",
            WorkbenchCommand::Planned => "plans",
            WorkbenchCommand::Caches => "caches",
            WorkbenchCommand::Sweep => "interrupts",
        }
    }

    /// The fields that its body may have, in their order.
    pub fn fields(self) -> &'static [Field]
        ensures { result.now ≡ fields_of self }
    {
        match self {
            WorkbenchCommand::Check | WorkbenchCommand::Disassemble | WorkbenchCommand::Blocks =>
                &SOURCE_ALONE,
            WorkbenchCommand::Run => &OF_RUN,
            WorkbenchCommand::Draw => &OF_DRAW,
            WorkbenchCommand::Explain | WorkbenchCommand::Compare => &OF_A_RUN,
            WorkbenchCommand::Profile => &OF_PROFILE,
            WorkbenchCommand::Planned => &OF_PLANS,
            WorkbenchCommand::Caches => &OF_CACHES,
            WorkbenchCommand::Sweep => &OF_SWEEP,
        }
    }

    /// The words behind its options.
    pub fn last_words(self) -> &'static [&'static str]
        ensures { map (λ w. w.now) result.now ≡ last_words self }
    {
        match self {
            WorkbenchCommand::Check => &ALL_JSON,
            WorkbenchCommand::Run | WorkbenchCommand::Draw | WorkbenchCommand::Planned => &[],
            WorkbenchCommand::Explain
            | WorkbenchCommand::Profile
            | WorkbenchCommand::Compare
            | WorkbenchCommand::Disassemble
            | WorkbenchCommand::Blocks
            | WorkbenchCommand::Caches
            | WorkbenchCommand::Sweep => &JSON,
        }
    }

    /// Whether it is `check`, which prints a JSON text a line.
    pub fn is_check(self) -> bool
        ensures { result ≡ is_check self }
    {
        match self {
            WorkbenchCommand::Check => true,
            WorkbenchCommand::Run
            | WorkbenchCommand::Explain
            | WorkbenchCommand::Draw
            | WorkbenchCommand::Profile
            | WorkbenchCommand::Compare
            | WorkbenchCommand::Disassemble
            | WorkbenchCommand::Blocks
            | WorkbenchCommand::Planned
            | WorkbenchCommand::Caches
            | WorkbenchCommand::Sweep => false,
        }
    }
}
