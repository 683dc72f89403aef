//! The fields of a body.

/// A field.
#[derive(Clone, Copy)]
pub enum Field {
    Source,
    Name,
    Interrupts,
    Input,
    Budget,
    From,
    Cycles,
    Trace,
    Dump,
    Count,
    Form,
    Scheduler,
    /// A plan file, as an option.
    Plans,
    /// A plan file, as an argument by itself.
    PlanFile,
    To,
    Step,
    Line,
    Brings,
    Penalty,
}

impl Field {
    ghost use Rattle.std.specs.Prelude.{◌≡◌};
    ghost use Rattle.lab_request.specs.Fields.{field_name};

    /// Its name in a body, and as an option.
    pub fn name(self) -> &'static str
        ensures { result.now ≡ field_name self }
    {
        match self {
            Field::Source => "source",
            Field::Name => "name",
            Field::Interrupts => "interrupts",
            Field::Input => "input",
            Field::Budget => "budget",
            Field::From => "from",
            Field::Cycles => "cycles",
            Field::Trace => "trace",
            Field::Dump => "dump",
            Field::Count => "count",
            Field::Form => "as",
            Field::Scheduler => "scheduler",
            Field::Plans | Field::PlanFile => "plans",
            Field::To => "to",
            Field::Step => "step",
            Field::Line => "line",
            Field::Brings => "brings",
            Field::Penalty => "penalty",
        }
    }
}
