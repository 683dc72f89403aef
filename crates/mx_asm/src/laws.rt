//! Laws of the assembler.
ghost use Rattle.std.specs.Prelude.{◌≡◌, ◌≤◌, ℕ, List, None};
ghost use Rattle.mx_isa.specs.declared.board.TheConstants.{DATA_BASE, DATA_END};
ghost use Rattle.mx_source.specs.SourceValue.{SourceValue, IsSource};
ghost use Rattle.mx_asm.specs.Printable.{IsPrintable, ReadsBack};
ghost use Rattle.mx_asm.specs.Texts.{source_of, text_fault};

/// The canonical text of a printable source has no fault, and reads as the same program.
pub fn printed_reads_back()
    ensures { (s : SourceValue) → IsPrintable s → ReadsBack s }
{}

/// What a text without faults reads as keeps to what each source does.
pub fn faultless_is_source()
    ensures { (low end : ℕ) (text : List ℕ) → DATA_BASE ≤ low → low ≤ end → end ≤ DATA_END → text_fault low end text ≡ None → IsSource (source_of low text) }
{}
