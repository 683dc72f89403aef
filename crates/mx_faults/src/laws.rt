//! Laws of the faults.
ghost use Rattle.std.specs.Prelude.{◌≡◌, ◌≤◌, ℕ, List, None};
ghost use Rattle.mx_isa.specs.declared.board.TheConstants.{DATA_BASE, DATA_END};
ghost use Rattle.mx_lines.specs.declared.labels.TheConstants.{PAST_END};
ghost use Rattle.mx_asm.specs.Printable.{IsPrintable, ReadsBack};
ghost use Rattle.mx_asm.specs.Texts.{source_of, text_fault};
ghost use Rattle.mx_faults.specs.Sayable.{HasShortNames, IsSayable};
ghost use Rattle.mx_faults.specs.Holding.{LineInText, least_of};
ghost use Rattle.mx_faults.specs.Found.{IsLeast, assembled_fault, faults_in, first, text_line};

/// The least fault of a line holds of it, and no lesser one does; there is none exactly where none holds.
pub fn least_is_least()
    ensures { (l : LineInText) → IsLeast l (least_of l) }
{}

/// The fault that the assembler's definition gives a line, of whatever text and also behind its first faulty line, is
/// the least of those that hold of it.
pub fn assembled_fault_is_least()
    ensures { (low end : ℕ) (text : List ℕ) (place : ℕ) → low ≤ PAST_END → end ≤ DATA_END
        → IsLeast (text_line low end text place) (assembled_fault low end text place) }
{}

/// A text is refused by the first of its faulty lines, with its least fault.
pub fn first_faulty_line()
    ensures { (low end : ℕ) (text : List ℕ) → low ≤ PAST_END → end ≤ DATA_END → text_fault low end text ≡ first (faults_in low end text) }
{}

/// What a text without faults reads as has registers 0 to 31, data words below 2^32, and labels with names of the
/// language that differ from each other and do not begin with `.`.
pub fn faultless_is_sayable()
    ensures { (low end : ℕ) (text : List ℕ) → DATA_BASE ≤ low → low ≤ end → end ≤ DATA_END → text_fault low end text ≡ None → IsSayable (source_of low text) }
{}

/// What a text without faults reads as is printable where its labels have names of at most 200 bytes.
pub fn faultless_is_printable()
    ensures { (text : List ℕ) → text_fault DATA_BASE DATA_END text ≡ None → HasShortNames (source_of DATA_BASE text) → IsPrintable (source_of DATA_BASE text) }
{}

/// Its canonical text has no fault then, and reads as the same program.
pub fn faultless_reads_back()
    ensures { (text : List ℕ) → text_fault DATA_BASE DATA_END text ≡ None → HasShortNames (source_of DATA_BASE text) → ReadsBack (source_of DATA_BASE text) }
{}
