//! The words that options of the analysis commands take.

/// The words that an option takes.
#[derive(Clone, Copy)]
pub(crate) enum Choice {
    TextOrJson,
    TextJsonOrCsv,
    DrawForm,
    ProfileForm,
    BlocksForm,
    CachesForm,
    TraceForm,
    Scheduler,
    Colour,
    Part,
    Sort,
}

static TEXT_OR_JSON: [&str; 2] = ["text", "json"];

static TEXT_JSON_OR_CSV: [&str; 3] = ["text", "json", "csv"];

static DRAW_FORMS: [&str; 6] = ["text", "svg", "html", "json", "kanata", "vcd"];

static PROFILE_FORMS: [&str; 3] = ["text", "json", "callgrind"];

static BLOCKS_FORMS: [&str; 3] = ["text", "json", "dot"];

static CACHES_FORMS: [&str; 3] = ["text", "json", "svg"];

static TRACE_FORMS: [&str; 1] = ["jsonl"];

static SCHEDULERS: [&str; 4] = ["padded", "list", "copies", "best"];

static COLOURS: [&str; 2] = ["always", "never"];

static PARTS: [&str; 4] = ["line", "label", "function", "c"];

static SORTS: [&str; 9] = [
    "line", "count", "cycles", "caused", "cpi", "stalls", "noops", "squashed", "killed",
];

impl Choice {
    /// The words.
    pub fn words(self) -> &'static [&'static str] {
        match self {
            Choice::TextOrJson => &TEXT_OR_JSON,
            Choice::TextJsonOrCsv => &TEXT_JSON_OR_CSV,
            Choice::DrawForm => &DRAW_FORMS,
            Choice::ProfileForm => &PROFILE_FORMS,
            Choice::BlocksForm => &BLOCKS_FORMS,
            Choice::CachesForm => &CACHES_FORMS,
            Choice::TraceForm => &TRACE_FORMS,
            Choice::Scheduler => &SCHEDULERS,
            Choice::Colour => &COLOURS,
            Choice::Part => &PARTS,
            Choice::Sort => &SORTS,
        }
    }
}
