//! From matches to what the arguments of a command say.
ghost use Rattle.std.specs.Prelude.{◌≡◌, IfOk, IfSome};
ghost use Rattle.lab_options.specs.Planned.{IsInPlaceOf, RunsAsLinked};

use crate::given::{
    file_of, flag_of, form_of, is_given, number_if_any, number_of, part_of, scheduler_of, sort_of,
    word_of, words_of,
};
use crate::table::{ArgumentName, CommandName, command_named};
use clap::ArgMatches;
use lab_options::{
    ArgumentFault, BuildOptions, CachesOptions, CheckForm, CheckOptions, CompareOptions,
    DebugOptions, DisassembleOptions, DrawOptions, LabCommand, PlansOf, PlansOptions,
    ProfileOptions, RunOptions, Scheduler, StimulusNames, SweepOptions, VerifyOptions,
};

// The name of the source.
fn source_of<'w>(matches: &ArgMatches<'w>) -> &'w str {
    word_of(matches, ArgumentName::Source)
}

// The most cycles.
fn budget_of(matches: &ArgMatches) -> u32 {
    number_of(matches, ArgumentName::Budget)
}

// The files that come to a run from outside.
fn stimulus_of<'w>(matches: &ArgMatches<'w>) -> StimulusNames<'w> {
    StimulusNames {
        interrupts: file_of(matches, ArgumentName::Interrupts),
        input: file_of(matches, ArgumentName::Input),
    }
}

// The run of a source as `run` links it.
fn run_copied<'w>(matches: &ArgMatches<'w>, form: ArgumentName) -> RunOptions<'w>
    ensures { result.plans ≡ PlansOf.Scheduler Scheduler.Copies }
{
    RunOptions::copied(
        source_of(matches),
        stimulus_of(matches),
        budget_of(matches),
        form_of(matches, form),
    )
}

// The run of a source by the plans of a file, or of a scheduler where no file is given.
fn run_planned<'w>(
    matches: &ArgMatches<'w>,
    scheduler: Scheduler,
    form: ArgumentName,
) -> RunOptions<'w>
    ensures { IsInPlaceOf scheduler result.plans }
{
    RunOptions {
        source: source_of(matches),
        plans: PlansOf::file_or(file_of(matches, ArgumentName::PlanFile), scheduler),
        stimulus: stimulus_of(matches),
        budget: budget_of(matches),
        form: form_of(matches, form),
    }
}

// The run of a source by the plans of a file or of a scheduler.
fn run_chosen<'w>(matches: &ArgMatches<'w>, form: ArgumentName) -> RunOptions<'w> {
    run_planned(matches, scheduler_of(matches), form)
}

fn draw_options<'w>(matches: &ArgMatches<'w>) -> DrawOptions<'w> {
    DrawOptions {
        run: run_chosen(matches, ArgumentName::DrawForm),
        from: number_of(matches, ArgumentName::FirstDrawn),
        cycles: number_of(matches, ArgumentName::Cycles),
    }
}

fn profile_options<'w>(matches: &ArgMatches<'w>) -> ProfileOptions<'w> {
    ProfileOptions {
        run: run_chosen(matches, ArgumentName::ProfileForm),
        by: part_of(matches),
        sort: sort_of(matches),
    }
}

fn caches_options<'w>(matches: &ArgMatches<'w>) -> CachesOptions<'w>
    ensures { IsInPlaceOf Scheduler.Copies result.run.plans }
{
    CachesOptions {
        run: run_planned(matches, Scheduler::Copies, ArgumentName::CachesForm),
        line: number_of(matches, ArgumentName::Line),
        brings: number_of(matches, ArgumentName::Brings),
        penalty: number_of(matches, ArgumentName::Penalty),
    }
}

fn sweep_options<'w>(matches: &ArgMatches<'w>) -> SweepOptions<'w>
    ensures { IsInPlaceOf Scheduler.Copies result.run.plans }
{
    SweepOptions {
        run: run_planned(matches, Scheduler::Copies, ArgumentName::SweepForm),
        from: number_of(matches, ArgumentName::From),
        to: number_if_any(matches, ArgumentName::To),
        step: number_of(matches, ArgumentName::Step),
        is_pairs: flag_of(matches, ArgumentName::Pairs),
        has_rows: flag_of(matches, ArgumentName::Rows),
    }
}

fn compare_options<'m, 'w>(matches: &'m ArgMatches<'w>) -> CompareOptions<'m, 'w> {
    CompareOptions {
        sources: words_of(matches, ArgumentName::Sources),
        columns: words_of(matches, ArgumentName::NamedPlans),
        stimulus: stimulus_of(matches),
        budget: budget_of(matches),
        form: form_of(matches, ArgumentName::CompareForm),
    }
}

// The form of what `check` finds.
fn check_form(matches: &ArgMatches) -> CheckForm {
    if word_of(matches, ArgumentName::CheckForm) == "json" {
        CheckForm::Json
    } else if word_of(matches, ArgumentName::Colour) == "always" {
        CheckForm::Coloured
    } else {
        CheckForm::Text
    }
}

fn check_options<'m, 'w>(matches: &'m ArgMatches<'w>) -> CheckOptions<'m, 'w> {
    CheckOptions {
        sources: words_of(matches, ArgumentName::Sources),
        is_all: flag_of(matches, ArgumentName::All),
        form: check_form(matches),
    }
}

fn disassemble_options<'w>(matches: &ArgMatches<'w>) -> DisassembleOptions<'w> {
    DisassembleOptions {
        file: word_of(matches, ArgumentName::File),
        form: form_of(matches, ArgumentName::DisassembleForm),
    }
}

// The plan file that `plans` runs, unless it prints one.
fn plans_run<'w>(matches: &ArgMatches<'w>) -> Option<&'w str> {
    if flag_of(matches, ArgumentName::PrintFlag) {
        None
    } else {
        Some(word_of(matches, ArgumentName::PlansFile))
    }
}

fn plans_options<'w>(matches: &ArgMatches<'w>) -> PlansOptions<'w> {
    PlansOptions {
        source: source_of(matches),
        plans: plans_run(matches),
        stimulus: stimulus_of(matches),
        budget: budget_of(matches),
    }
}

fn build_options<'w>(matches: &ArgMatches<'w>) -> BuildOptions<'w> {
    BuildOptions {
        source: source_of(matches),
        image: word_of(matches, ArgumentName::WrittenImage),
        plans: word_of(matches, ArgumentName::LinkedPlans),
    }
}

fn debug_options<'w>(matches: &ArgMatches<'w>) -> DebugOptions<'w> {
    DebugOptions {
        source: source_of(matches),
        label: word_of(matches, ArgumentName::Label),
        plans: word_of(matches, ArgumentName::LinkedPlans),
        stimulus: stimulus_of(matches),
        stops: number_of(matches, ArgumentName::Stops),
        watch: number_of(matches, ArgumentName::Watch),
        budget: number_of(matches, ArgumentName::SessionBudget),
    }
}

fn verify_options<'w>(matches: &ArgMatches<'w>) -> VerifyOptions<'w> {
    VerifyOptions {
        source: source_of(matches),
        image: word_of(matches, ArgumentName::Image),
        certificate: word_of(matches, ArgumentName::Certificate),
    }
}

// The command of this name with what its arguments say.
fn command_of<'m, 'w>(name: CommandName, matches: &'m ArgMatches<'w>) -> LabCommand<'m, 'w>
    ensures { RunsAsLinked result }
{
    match name {
        CommandName::Blocks => LabCommand::Blocks(run_copied(matches, ArgumentName::BlocksForm)),
        CommandName::Build => LabCommand::Build(build_options(matches)),
        CommandName::Caches => LabCommand::Caches(caches_options(matches)),
        CommandName::Certify => LabCommand::Certify(source_of(matches)),
        CommandName::Check => LabCommand::Check(check_options(matches)),
        CommandName::Compare => LabCommand::Compare(compare_options(matches)),
        CommandName::Debug => LabCommand::Debug(debug_options(matches)),
        CommandName::Disassemble => LabCommand::Disassemble(disassemble_options(matches)),
        CommandName::Draw => LabCommand::Draw(draw_options(matches)),
        CommandName::Explain => LabCommand::Explain(run_copied(matches, ArgumentName::ExplainForm)),
        CommandName::Interrupts => LabCommand::Interrupts(sweep_options(matches)),
        CommandName::Plans => LabCommand::Plans(plans_options(matches)),
        CommandName::Profile => LabCommand::Profile(profile_options(matches)),
        CommandName::Trace => LabCommand::Trace(run_chosen(matches, ArgumentName::TraceForm)),
        CommandName::Verify => LabCommand::Verify(verify_options(matches)),
    }
}

// A scheduler and a plan file are given.
fn has_both(matches: &ArgMatches) -> bool {
    is_given(matches, ArgumentName::Scheduler) && is_given(matches, ArgumentName::PlanFile)
}

// A miss brings more words than a line has.
fn brings_more(matches: &ArgMatches) -> bool {
    number_of(matches, ArgumentName::Brings) > number_of(matches, ArgumentName::Line)
}

// Why a command cannot use its arguments, if that is so.
fn fault_of<'w>(name: CommandName, matches: &ArgMatches) -> Option<ArgumentFault<'w>> {
    match name {
        CommandName::Draw | CommandName::Profile | CommandName::Trace if has_both(matches) => {
            Some(ArgumentFault::SchedulerAndPlans)
        }
        CommandName::Caches if brings_more(matches) => Some(ArgumentFault::MoreThanLine),
        _ => None,
    }
}

/// A command, and the file that its output goes to, where one is named.
#[derive(Clone, Copy)]
pub struct CommandLine<'m, 'w> {
    pub command: LabCommand<'m, 'w>,
    pub output: Option<&'w str>,
}

// A command of this name with its matches.
fn line_of<'m, 'w>(name: CommandName, matches: &'m ArgMatches<'w>) -> CommandLine<'m, 'w>
    ensures { RunsAsLinked result.command }
{
    CommandLine {
        command: command_of(name, matches),
        output: file_of(matches, ArgumentName::Output),
    }
}

/// The command that the arguments ask for, or why it cannot use them; none where they name no command.
pub fn command_line<'m, 'w>(
    matches: &'m ArgMatches<'w>,
) -> Option<Result<CommandLine<'m, 'w>, ArgumentFault<'w>>>
    ensures { IfSome result (λ asked. IfOk asked (λ line. RunsAsLinked line.command)) }
{
    let (word, found) = matches.subcommand()?;
    let name = command_named(word)?;
    Some(match fault_of(name, found) {
        Some(fault) => Err(fault),
        None => Ok(line_of(name, found)),
    })
}
