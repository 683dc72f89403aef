//! What the arguments of each command say.
ghost use Rattle.std.specs.Prelude.{◌≡◌};
ghost use Rattle.lab_options.specs.Planned.{IsInPlaceOf};

/// A form of what is printed.
#[derive(Clone, Copy)]
pub enum Form {
    Text,
    Json,
    Csv,
    Svg,
    Html,
    Kanata,
    Vcd,
    Callgrind,
    Dot,
}

/// A scheduler, as `compare` names it.
#[derive(Clone, Copy)]
pub enum Scheduler {
    /// Padded plans.
    Padded,
    /// Greedy plans, without copies in the slots.
    List,
    /// Greedy plans, with copies: what `run` runs.
    Copies,
    /// Shortest plans of small blocks and greedy plans of others, with copies.
    Best,
}

impl Scheduler {
    /// Its name.
    pub fn name(self) -> &'static str {
        match self {
            Scheduler::Padded => "padded",
            Scheduler::List => "list",
            Scheduler::Copies => "copies",
            Scheduler::Best => "best",
        }
    }
}

/// By whose plans a source is linked: by those of a scheduler, or of the file of this name.
#[derive(Clone, Copy)]
pub enum PlansOf<'w> {
    Scheduler(Scheduler),
    File(&'w str),
}

impl<'w> PlansOf<'w> {
    /// The plans of a file, or of a scheduler where no file is named.
    pub fn file_or(file: Option<&'w str>, scheduler: Scheduler) -> PlansOf<'w>
        ensures { IsInPlaceOf scheduler result }
    {
        match file {
            Some(name) => PlansOf::File(name),
            None => PlansOf::Scheduler(scheduler),
        }
    }
}

/// The names of the files that come to a run from outside: its interrupt requests and its input.
#[derive(Clone, Copy)]
pub struct StimulusNames<'w> {
    pub interrupts: Option<&'w str>,
    pub input: Option<&'w str>,
}

/// The run of a source, of at most so many cycles, and the form in which it is shown.
#[derive(Clone, Copy)]
pub struct RunOptions<'w> {
    pub source: &'w str,
    pub plans: PlansOf<'w>,
    pub stimulus: StimulusNames<'w>,
    pub budget: u32,
    pub form: Form,
}

impl<'w> RunOptions<'w> {
    /// The run of a source as `run` links it.
    pub fn copied(
        source: &'w str,
        stimulus: StimulusNames<'w>,
        budget: u32,
        form: Form,
    ) -> RunOptions<'w>
        ensures { result.plans ≡ PlansOf.Scheduler Scheduler.Copies }
    {
        RunOptions {
            source,
            plans: PlansOf::Scheduler(Scheduler::Copies),
            stimulus,
            budget,
            form,
        }
    }
}

/// The cycles of a run that are drawn: the first one, and how many.
#[derive(Clone, Copy)]
pub struct DrawOptions<'w> {
    pub run: RunOptions<'w>,
    pub from: u32,
    pub cycles: u32,
}

/// The parts of a profile.
#[derive(Clone, Copy)]
pub enum Part {
    Line,
    Label,
    Function,
    C,
}

/// What the parts of a profile are sorted by: the order of the source, or a column, the greatest number first.
#[derive(Clone, Copy)]
pub enum Sort {
    Line,
    Count,
    Cycles,
    Caused,
    Cpi,
    Stalls,
    Noops,
    Squashed,
    Killed,
}

#[derive(Clone, Copy)]
pub struct ProfileOptions<'w> {
    pub run: RunOptions<'w>,
    pub by: Part,
    pub sort: Sort,
}

/// A cache's words of a line, the words that a miss brings, and the cycles that it costs.
#[derive(Clone, Copy)]
pub struct CachesOptions<'w> {
    pub run: RunOptions<'w>,
    pub line: u32,
    pub brings: u32,
    pub penalty: u32,
}

/// The cycles in which requests come: from the first to the last one, in steps; the last cycle of the undisturbed run where none
/// is given. A request comes in each of them, or in each two of them.
#[derive(Clone, Copy)]
pub struct SweepOptions<'w> {
    pub run: RunOptions<'w>,
    pub from: u32,
    pub to: Option<u32>,
    pub step: u32,
    pub is_pairs: bool,
    pub has_rows: bool,
}

/// Sources that are compared, and columns for plan files, each as `NAME=FILE`; none where there are none.
#[derive(Clone, Copy)]
pub struct CompareOptions<'m, 'w> {
    pub sources: Option<&'m [&'w str]>,
    pub columns: Option<&'m [&'w str]>,
    pub stimulus: StimulusNames<'w>,
    pub budget: u32,
    pub form: Form,
}

/// A form of what is found in a source.
#[derive(Clone, Copy)]
pub enum CheckForm {
    Text,
    Coloured,
    Json,
}

/// The source that is checked, or the modules of a program, and whether all faulty lines are shown.
#[derive(Clone, Copy)]
pub struct CheckOptions<'m, 'w> {
    pub sources: Option<&'m [&'w str]>,
    pub is_all: bool,
    pub form: CheckForm,
}

#[derive(Clone, Copy)]
pub struct DisassembleOptions<'w> {
    pub file: &'w str,
    pub form: Form,
}

/// A source, and the plan file by which it is run; where there is none, the plans of the list scheduler are printed.
#[derive(Clone, Copy)]
pub struct PlansOptions<'w> {
    pub source: &'w str,
    pub plans: Option<&'w str>,
    pub stimulus: StimulusNames<'w>,
    pub budget: u32,
}

#[derive(Clone, Copy)]
pub struct BuildOptions<'w> {
    pub source: &'w str,
    pub image: &'w str,
    pub plans: &'w str,
}

/// A session: the label, how many stops are shown, the data word that each shows, and the most cycles.
#[derive(Clone, Copy)]
pub struct DebugOptions<'w> {
    pub source: &'w str,
    pub label: &'w str,
    pub plans: &'w str,
    pub stimulus: StimulusNames<'w>,
    pub stops: u32,
    pub watch: u32,
    pub budget: u32,
}

#[derive(Clone, Copy)]
pub struct VerifyOptions<'w> {
    pub source: &'w str,
    pub image: &'w str,
    pub certificate: &'w str,
}

/// A command with what its arguments say.
#[derive(Clone, Copy)]
pub enum LabCommand<'m, 'w> {
    Blocks(RunOptions<'w>),
    Build(BuildOptions<'w>),
    Caches(CachesOptions<'w>),
    /// The certificate of the source of this name.
    Certify(&'w str),
    Check(CheckOptions<'m, 'w>),
    Compare(CompareOptions<'m, 'w>),
    Debug(DebugOptions<'w>),
    Disassemble(DisassembleOptions<'w>),
    Draw(DrawOptions<'w>),
    Explain(RunOptions<'w>),
    Interrupts(SweepOptions<'w>),
    Plans(PlansOptions<'w>),
    Profile(ProfileOptions<'w>),
    Trace(RunOptions<'w>),
    Verify(VerifyOptions<'w>),
}
