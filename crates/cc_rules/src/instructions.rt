//! What is asked of an instruction.
ghost use Rattle.std.specs.Prelude.{◌≡◌};
ghost use Rattle.cc_rules.specs.Views;

use cc_lines::{Instruction, Operation, Special};

/// Whether an operation compares.
pub fn is_comparison(op: Operation) -> bool
    ensures { result ≡ Views.is_comparison op }
{
    matches!(op, Operation::Less | Operation::Lower)
}

/// Whether nothing behind an instruction follows on it.
pub fn is_last(instruction: &Instruction) -> bool
    ensures { result ≡ Views.is_last instruction.now }
{
    matches!(instruction, Instruction::Jump(_) | Instruction::Break(_))
}

/// Whether an instruction has a delay slot.
pub fn has_slot(instruction: &Instruction) -> bool
    ensures { result ≡ Views.has_slot instruction.now }
{
    matches!(
        instruction,
        Instruction::Branch { .. } | Instruction::Jump(_) | Instruction::Call(_)
    )
}

/// The registers that stand for LO and HI.
const LO_REGISTER: u8 = 24;

const HI_REGISTER: u8 = 25;

/// The register of a special one.
pub fn special_register(special: Special) -> u8
    ensures { result ≡ Views.register_of special }
{
    match special {
        Special::Lo => LO_REGISTER,
        Special::Hi => HI_REGISTER,
    }
}
