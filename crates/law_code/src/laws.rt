//! Laws over the definitions.
ghost use Rattle.std.specs.Prelude.{◌≡◌, ◌≤◌, ◌++◌, ℕ, Bool, true, None, List, map, All};
ghost use Rattle.std.specs.List.{list_all};
ghost use Rattle.mx_isa.specs.declared.place.Place.{Place};
ghost use Rattle.mx_isa.specs.Effect.{Core, Bus};
ghost use Rattle.mx_source.specs.SourceValue.{SourceValue};
ghost use Rattle.mx_source.specs.Meaning.{State, program};
ghost use Rattle.mx_lines.specs.declared.labels.TheConstants.{PAST_END};
ghost use Rattle.mx_asm.specs.Texts.{ReadsAs};
ghost use Rattle.cc_program.specs.declared.program.Program.{Program};
ghost use Rattle.cc_emit.specs.declared.line.Line.{Line};
ghost use Rattle.cc_emit.specs.declared.line.Line.TheVariants as Lines;
ghost use Rattle.cc_emit.specs.declared.line.Plain.{Plain};
ghost use Rattle.cc_emit.specs.declared.output.Output.{Output};
ghost use Rattle.cc_emit.specs.Lines.{lines_text};
ghost use Rattle.cc_emit.specs.Sources.{source_text};
ghost use Rattle.law_emit.specs.Reading.{LineFits};
ghost use Rattle.law_emit.specs.Lines.{DataFits};
ghost use Rattle.law_operations.specs.Runs.{ran, ran_lines};
ghost use Rattle.law_code.specs.Code.{is_alone, Knows, IsAt, NumberHeld, HoldWords, ComesTo, Runs};

/// In the source of a translation all its lines are at their places: its labels and statements are those of the lines (`source_reads_back`,
/// `labels_are_found` of `law_emit`).
pub fn code_is_placed()
    ensures { (p : Program) (out : Output) (behind end : ℕ) (before code after : List Line) → All (LineFits p) (before ++ (code ++ after))
        → lines_text p out.lines.items ≡ lines_text p (before ++ (code ++ after)) → DataFits p out behind end → (address limit : ℕ) → address ≤ PAST_END
        → (source : SourceValue) → ReadsAs address limit (source_text p out behind end) source → IsAt p source before code after }
{}

/// Where the statements of a source are lines that work on registers alone, a run of the source does with them what the lines do
/// (`ran_lines`), if each register that a line reads holds a word there, but for what a line copies (`Knows`), and numbers that are too
/// long for an instruction are in the data.
pub fn code_runs()
    ensures { (p : Program) (source : SourceValue) (before code after : List Line) → IsAt p source before code after → list_all is_alone code ≡ true
        → (place : Place) (bytes : List ℕ) (words last : ℕ → Bool) → Knows None words code last → (s : State) → ComesTo before s → HoldWords words s
        → All (NumberHeld source place s.mem) code → (bus : Bus) → Runs (program source place bytes) code last bus s }
{}

/// Lines that are instructions do what the instructions do.
pub fn instructions_run()
    ensures { (bus : Bus) (plains : List Plain) (s : Core) → ran_lines bus (map Lines.Plain plains) s ≡ ran bus plains s }
{}
