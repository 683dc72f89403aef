//! Laws over the definitions.
ghost use Rattle.std.specs.Prelude.{◌≡◌, ◌≢◌, ◌<◌, ◌+◌, ◌^◌, ℕ, Bool, false, Option, Some, Ok};
ghost use Rattle.mx_isa.specs.Words.{reg};
ghost use Rattle.mx_isa.specs.Effect.{Core, Bus};
ghost use Rattle.cc_lines.specs.declared.instruction.Operation.{Operation};
ghost use Rattle.cc_lines.specs.declared.instruction.Shift.{Shift};
ghost use Rattle.cc_lines.specs.declared.instruction.Register.{Register};
ghost use Rattle.cc_lines.specs.declared.instruction.Source.{Source};
ghost use Rattle.cc_lines.specs.declared.instruction.Condition.{Condition};
ghost use Rattle.cc_lines.specs.declared.instruction.Condition.TheVariants.{Equal, NotEqual, Less};
ghost use Rattle.cc_rules.specs.Views.{is_comparison};
ghost use Rattle.cc_emit.specs.declared.line.Computed.{Computed};
ghost use Rattle.cc_plan.specs.declared.plan.Comparison.{Comparison};
ghost use Rattle.cc_plan.specs.Comparisons.{value_of};
ghost use Rattle.cc_meaning.specs.declared.value.Value.{Value};
ghost use Rattle.cc_meaning.specs.declared.value.Value.TheVariants.{Number};
ghost use Rattle.cc_meaning.specs.Arithmetic.{computed, shifted, compared, truth, word};
ghost use Rattle.cc_operations.specs.declared.between.TheConstants.{FIRST, SECOND};
ghost use Rattle.cc_operations.specs.Operations;
ghost use Rattle.cc_operations.specs.Comparisons;
ghost use Rattle.cc_operations.specs.Computing;
ghost use Rattle.cc_operations.specs.Numbers;
ghost use Rattle.law_operations.specs.Runs.{ran, ran_lines, HoldsWords, HoldsFirst, ShowsValue, Gives, Leaves, IsNamed, IsOperand};

/// The instructions of an operation on two registers give its value, where that is defined of what the registers show.
pub fn operation_gives()
    ensures { (o : Operation) → is_comparison o ≡ false → (rd rs rt : ℕ) (a b v : Value) (bus : Bus) (s : Core) → HoldsWords s.regs
        → ShowsValue a (reg s.regs rs) → ShowsValue b (reg s.regs rt) → computed o a b ≡ Ok v → Gives rd v s (ran bus (Operations.operated o rd rs rt) s) }
{}

/// The instructions of a shift by a number give its value.
pub fn shift_gives()
    ensures { (o : Shift) (rd rs count : ℕ) (a v : Value) (bus : Bus) (s : Core) → HoldsWords s.regs
        → ShowsValue a (reg s.regs rs) → shifted o a (Number count) ≡ Ok v → Gives rd v s (ran bus (Operations.shifted o rd rs count) s) }
{}

/// The instructions of a comparison with 0 give 1 where it holds, else 0.
pub fn comparison_with_zero_holds()
    ensures negative { (rd rs : ℕ) (a : Value) (t : Bool) (bus : Bus) (s : Core) → HoldsWords s.regs
        → ShowsValue a (reg s.regs rs) → compared Less a (Number 0) ≡ Ok t → Gives rd (Number (truth t)) s (ran bus (Comparisons.negative rs rd) s) }
    ensures zero { (rd rs : ℕ) (a : Value) (t : Bool) (bus : Bus) (s : Core) → HoldsWords s.regs → rs ≢ SECOND
        → ShowsValue a (reg s.regs rs) → compared Equal a (Number 0) ≡ Ok t → Gives rd (Number (truth t)) s (ran bus (Comparisons.zero rs rd) s) }
    ensures not_zero { (rd rs : ℕ) (a : Value) (t : Bool) (bus : Bus) (s : Core) → HoldsWords s.regs → rs ≢ SECOND
        → ShowsValue a (reg s.regs rs) → compared NotEqual a (Number 0) ≡ Ok t → Gives rd (Number (truth t)) s (ran bus (Comparisons.not_zero rs rd) s) }
{}

/// The instructions of `<` with a number, with signs or without, give 1 where it holds, else 0.
pub fn comparison_holds()
    ensures { (condition : Condition) (signs : Computed) (rd rs n : ℕ) (a : Value) (t : Bool) (bus : Bus) (s : Core) → HoldsWords s.regs → rs ≢ SECOND
        → n < 2 ^ 32 → Comparisons.signs_of condition n ≡ Some signs → ShowsValue a (reg s.regs rs) → compared condition a (Number n) ≡ Ok t
        → Gives rd (Number (truth t)) s (ran bus (Comparisons.below signs rs n rd) s) }
{}

/// A number that is put into a register is in it.
pub fn constant_leaves()
    ensures { (first : Option ℕ) (value rd : ℕ) (bus : Bus) (s : Core) → HoldsWords s.regs → HoldsFirst first s.regs → value < 2 ^ 32
        → Leaves rd (Number value) (Numbers.constant first value rd).first s (ran_lines bus (Numbers.constant first value rd).lines s) }
{}

/// The sum of a register and a number. A long number may be put into r1 first, so r1 is not the register.
pub fn added_leaves()
    ensures { (first : Option ℕ) (rs value rd : ℕ) (bus : Bus) (s : Core) → HoldsWords s.regs → HoldsFirst first s.regs → value < 2 ^ 32 → rs ≢ FIRST
        → Leaves rd (Number (word (reg s.regs rs + value))) (Numbers.added first rs value rd).first s
        (ran_lines bus (Numbers.added first rs value rd).lines s) }
{}

/// 1 or 0 by a branch gives the answer of a comparison of two registers, with any condition. r26 may take it first.
pub fn branch_gives()
    ensures { (place : ℕ) (condition : Condition) (rs rt rd : ℕ) (a b : Value) (t : Bool) (bus : Bus) (s : Core) → HoldsWords s.regs
        → rs ≢ SECOND → rt ≢ SECOND → ShowsValue a (reg s.regs rs) → ShowsValue b (reg s.regs rt) → compared condition a b ≡ Ok t
        → Gives rd (Number (truth t)) s (ran_lines bus (Computing.branched place condition rs rt rd) s) }
{}

/// The lines of a comparison leave its answer. A number may be put into r1, and r26 may take the answer first, so neither is an operand.
pub fn comparison_leaves()
    ensures { (place : ℕ) (first : Option ℕ) (rd : ℕ) (found : Comparison) (a b : Value) (t : Bool) (bus : Bus) (s : Core)
        → HoldsWords s.regs → HoldsFirst first s.regs → rd ≢ FIRST → IsNamed found.rs.0 → IsOperand found.second
        → ShowsValue a (reg s.regs found.rs.0) → ShowsValue b (value_of (reg s.regs) found.second) → compared found.condition a b ≡ Ok t
        → Leaves rd (Number (truth t)) (Computing.set place first rd found).first s (ran_lines bus (Computing.set place first rd found).lines s) }
{}

/// The lines of any operation on a register and a second operand leave its value, where that is defined of what they show.
pub fn computed_leaves()
    ensures { (o : Operation) (place : ℕ) (first : Option ℕ) (rd : ℕ) (rs : Register) (second : Source) (a b v : Value) (bus : Bus) (s : Core)
        → HoldsWords s.regs → HoldsFirst first s.regs → rd ≢ FIRST → IsNamed rs.0 → IsOperand second
        → ShowsValue a (reg s.regs rs.0) → ShowsValue b (value_of (reg s.regs) second) → computed o a b ≡ Ok v
        → Leaves rd v (Computing.computed place first o rd rs second).first s
        (ran_lines bus (Computing.computed place first o rd rs second).lines s) }
{}
