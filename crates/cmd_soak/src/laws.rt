//! What the steps of a run are.
ghost use Rattle.std.specs.Prelude.{◌≡◌, ◌≤◌, ℕ, []};
ghost use Rattle.mx_source.specs.SourceValue.{SourceValue};
ghost use Rattle.mx_source.specs.Meaning.{HaltsIn};
ghost use Rattle.mx_isa.specs.Board.{board};
ghost use Rattle.cmd_soak.specs.Soak.{steps_of};

/// Where a source halts in at most 40,009 instructions, as each generated one does, the steps that are told are those to its
/// halt.
pub fn steps_lead_to_the_halt()
    ensures { (source : SourceValue) (n : ℕ) → HaltsIn source board [] n → n ≤ 40009 → steps_of source ≡ n }
{}
