//! What words and instructions are to each other.
ghost use Rattle.std.specs.Prelude.{◌≡◌, ◌↔◌, ℕ, Some};
ghost use Rattle.mx_isa.specs.declared.inst.Inst.{Inst};
ghost use Rattle.mx_isa.specs.Fields.{InstFits};
ghost use Rattle.mx_code.specs.Codes.{Codes, HasRegisters, word_of_row};
ghost use Rattle.mx_code.specs.Decoding.{inst_of};

/// The word of an instruction is read back as that instruction, and a word codes exactly the instruction that its fields
/// spell. So `decode` of what `encode` gives is `Some` of what `encode` was given.
pub fn words_are_read_back()
    ensures back { (i : Inst) → InstFits i → HasRegisters i → inst_of (word_of_row i) ≡ Some i }
    ensures codes { (i : Inst) (w : ℕ) → Codes i w ↔ (inst_of w ≡ Some i) }
{}
