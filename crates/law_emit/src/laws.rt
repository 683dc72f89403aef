//! Laws over the definitions.
ghost use Rattle.std.specs.Prelude.{◌≡◌, ◌∷◌, ◌++◌, ◌≤◌, ℕ, List, [], All, count_by, Some, Ok};
ghost use Rattle.mx_source.specs.SourceValue.{SourceValue};
ghost use Rattle.mx_source.specs.declared.statement.Label.TheVariants.{Code};
ghost use Rattle.mx_lines.specs.Instructions.{Labels};
ghost use Rattle.mx_lines.specs.Operands.{label_named};
ghost use Rattle.mx_lines.specs.declared.labels.TheConstants.{PAST_END};
ghost use Rattle.mx_asm.specs.Texts.{ReadsAs};
ghost use Rattle.cc_program.specs.declared.program.Program.{Program};
ghost use Rattle.cc_emit.specs.declared.line.Line.{Line};
ghost use Rattle.cc_emit.specs.declared.line.Routine.{Routine};
ghost use Rattle.cc_emit.specs.declared.output.Output.{Output};
ghost use Rattle.cc_emit.specs.Lines.{is_statement, lines_text};
ghost use Rattle.cc_emit.specs.Routines.{routines_text};
ghost use Rattle.cc_emit.specs.Sources.{code_text, source_text};
ghost use Rattle.cc_fits.specs.Translations.{IsTranslation};
ghost use Rattle.law_emit.specs.Reading.{LineFits, LineReads, line_names};
ghost use Rattle.law_emit.specs.Lines.{DataFits, IsSourceOf, resolve};
ghost use Rattle.law_emit.specs.Routines.{routine_lines};

/// The text of a line, of whatever kind, is one line, which the assembler reads as the statement and the labels that the line is, whatever
/// the labels of the whole text are; a name that is no such label has the same fault for both. A comment is no statement, and has no line
/// if its file has no name or a long one. A line of a routine (`Written`) is a text already: it is the statement or the label that the
/// assembler reads, and has to begin with one.
pub fn line_reads_back()
    ensures { (p : Program) (line : Line) → LineFits p line → (labels : Labels) → LineReads labels p line }
{}

/// A source whose text begins with the code of a translation has the labels of its lines, and the statements that the lines are by all
/// labels, before those of the rest.
pub fn code_reads_back()
    ensures { (p : Program) (lines : List Line) → All (LineFits p) lines → (address end : ℕ) → address ≤ PAST_END → (rest : List ℕ)
        → (source : SourceValue) → ReadsAs address end (code_text p lines ++ rest) source → IsSourceOf p lines address rest source }
{}

/// In a source that begins with the code of a translation, the label of a line names the statement after it.
pub fn labels_are_found()
    ensures { (p : Program) (before after : List Line) (line : Line) → All (LineFits p) (before ++ line ∷ after) → (address end : ℕ) → address ≤ PAST_END
        → (rest : List ℕ) → (source : SourceValue) → ReadsAs address end (code_text p (before ++ line ∷ after) ++ rest) source
        → (name : List ℕ) → line_names p line ≡ name ∷ [] → label_named source.labels name ≡ Some (Code (count_by is_statement before)) }
{}

/// The text of the routines that are called is that of lines that fit.
pub fn routines_fit()
    ensures fit { (p : Program) (called : List Routine) → All (LineFits p) (routine_lines called) }
    ensures text { (p : Program) (called : List Routine) → lines_text p (routine_lines called) ≡ routines_text called p }
{}

/// The source of a translation has the statements that its lines are by its labels. Lines with the same text may take the place of its
/// own, as those of its routines do (`routines_fit`). Bytes, numbers and the names of data have to fit (`DataFits`).
pub fn source_reads_back()
    ensures { (p : Program) (out : Output) (behind end : ℕ) (lines : List Line) → All (LineFits p) lines
        → lines_text p out.lines.items ≡ lines_text p lines → DataFits p out behind end
        → (address limit : ℕ) → address ≤ PAST_END → (source : SourceValue) → ReadsAs address limit (source_text p out behind end) source
        → resolve source.labels p lines ≡ Ok source.statements }
{}

/// The source of a translation has the statements that its lines are by its labels, those of its routines after the others. There is no
/// other premise: lines and data are checked before they are printed (`check_lines`, `check_data` of `cc_fits`).
pub fn translation_reads_back()
    ensures { (text : List ℕ) (translation : IsTranslation text) (address limit : ℕ) → address ≤ PAST_END → (source : SourceValue)
        → ReadsAs address limit text source
        → resolve source.labels translation.program (translation.lines.lines ++ routine_lines translation.lines.called) ≡ Ok source.statements }
{}
