//! Laws over the definitions.
ghost use Rattle.std.specs.Prelude.{◌≡◌, ◌≢◌, ◌≤◌, ◌/◌, ◌%◌, ℕ, Bool, List, [], ◌∷◌, ◌++◌, Option, Ok, true, false};
ghost use Rattle.mx_isa.specs.Words.{put, reg};
ghost use Rattle.mx_isa.specs.Effect.{Core, Bus};
ghost use Rattle.mx_isa.specs.declared.board.TheConstants.{DATA_BASE, DATA_END};
ghost use Rattle.mx_isa.specs.declared.place.Place.{Place as Area};
ghost use Rattle.mx_isa.specs.UserBus.{user_bus};
ghost use Rattle.mx_board.specs.Data.{board};
ghost use Rattle.cc_lines.specs.declared.instruction.Width.TheVariants.{Byte, Half, Word, Left, Right};
ghost use Rattle.cc_emit.specs.declared.line.Line.TheVariants.{Transfer};
ghost use Rattle.cc_emit.specs.declared.line.Transfer.TheVariants.{CallReg, JumpReg};
ghost use Rattle.cc_emit.specs.declared.line.Mask.TheVariants.{LoadLeft, LoadRight, StoreLeft, StoreRight};
ghost use Rattle.cc_emit.specs.declared.line.Word.{Word as Added};
ghost use Rattle.cc_plan.specs.declared.plan.Place.{Place};
ghost use Rattle.cc_plan.specs.declared.plan.Place.TheVariants.{Far};
ghost use Rattle.cc_meaning.specs.declared.value.Value.{Value};
ghost use Rattle.cc_meaning.specs.declared.value.Value.TheVariants.{Number};
ghost use Rattle.cc_meaning.specs.declared.layout.Layout.{Layout};
ghost use Rattle.cc_meaning.specs.States.{State, memory_word, with_word};
ghost use Rattle.cc_meaning.specs.Memory.{loaded, stored};
ghost use Rattle.cc_meaning.specs.Instructions.{pointed};
ghost use Rattle.cc_operations.specs.declared.between.TheConstants.{FIRST, SECOND, THIRD};
ghost use Rattle.cc_accesses.specs.Accesses.{called_at, jumped_at};
ghost use Rattle.cc_accesses.specs.Places.{word_base, addressed};
ghost use Rattle.cc_accesses.specs.Loads;
ghost use Rattle.cc_accesses.specs.Stores;
ghost use Rattle.cc_accesses.specs.Unaligned;
ghost use Rattle.law_operations.specs.Runs.{ran_lines, Leaves, IsNamed};
ghost use Rattle.law_accesses.specs.Masks.{ran_taking, HasTable, LeavesMasked, StoredMasked};
ghost use Rattle.law_accesses.specs.Memories.{KeepsData, Access, is_shown, ShowsData, Stored, known_after_byte};
ghost use Rattle.law_accesses.specs.Pointers.{Pointer, ShowsCode};

/// A board keeps the data of user code, and so does each place that has all of them.
pub fn board_keeps_data()
    ensures board { (input : Option (List ℕ)) → KeepsData (board true input) }
    ensures place { (p : Area) (input : Option (List ℕ)) → p.user_data ≤ DATA_BASE → DATA_END ≤ p.end → KeepsData (user_bus p input) }
{}

/// The lines of a load of a word leave that word of the assembly's memory, where it is no code address.
pub fn word_load_leaves()
    ensures { (first : Option ℕ) (place : Place) (rd address : ℕ) (l : Layout) (a : State) (old v : Value) (bus : Bus) (s : Core)
        → Access bus first place address l a s → rd ≢ FIRST
        → loaded Word (address % 4) (memory_word a address) old ≡ Ok v → is_shown v ≡ true
        → Leaves rd v (Loads.word_loaded first place rd false).first s (ran_lines bus (Loads.word_loaded first place rd false).lines s) }
{}

/// A load and a store of a word move it as it is, whatever it shows: so does the word that stands for a code address.
pub fn words_move()
    ensures load { (first : Option ℕ) (place : Place) (rd address : ℕ) (l : Layout) (a : State) (bus : Bus) (s : Core)
        → Access bus first place address l a s → rd ≢ FIRST
        → Leaves rd (Number (s.mem (address / 4))) (Loads.word_loaded first place rd false).first s
        (ran_lines bus (Loads.word_loaded first place rd false).lines s) }
    ensures store { (first : Option ℕ) (place : Place) (rs address : ℕ) (l : Layout) (a : State) (bus : Bus) (s : Core)
        → Access bus first place address l a s → IsNamed rs
        → (ran_lines bus (Stores.word_stored first place rs).lines s).mem ≡ put s.mem (address / 4) (reg s.regs rs) }
{}

/// The load of the link that a function saved takes it from its word, which is cleared: data show the assembly's memory after it, as
/// the word is a code address there.
pub fn link_load_takes()
    ensures { (first : Option ℕ) (place : Place) (rd address : ℕ) (l : Layout) (a : State) (bus : Bus) (s : Core)
        → Access bus first place address l a s → rd ≢ FIRST → rd ≢ word_base place → is_shown (memory_word a address) ≡ false
        → let after = ran_lines bus (Loads.word_loaded first place rd true).lines s in
        Stored l a (address / 4) rd (Loads.word_loaded first place rd true).first s after
        × (rd ≢ 0 → reg after.regs rd ≡ s.mem (address / 4)) }
{}

/// The lines of a load of a byte leave that byte of the assembly's memory, with its sign or without.
pub fn byte_load_leaves()
    ensures { (first : Option ℕ) (place : Place) (rd address : ℕ) (signed : Bool) (l : Layout) (a : State) (old v : Value) (bus : Bus) (s : Core)
        → Access bus first place address l a s → rd ≢ FIRST → loaded (Byte signed) (address % 4) (memory_word a address) old ≡ Ok v
        → Leaves rd v (Loads.part_loaded first place rd signed 24).first s
        (ran_lines bus (Loads.part_loaded first place rd signed 24).lines s) }
{}

/// The lines of a load of a half leave that half of the assembly's memory, with its sign or without.
pub fn half_load_leaves()
    ensures { (first : Option ℕ) (place : Place) (rd address : ℕ) (signed : Bool) (l : Layout) (a : State) (old v : Value) (bus : Bus) (s : Core)
        → Access bus first place address l a s → rd ≢ FIRST → loaded (Half signed) (address % 4) (memory_word a address) old ≡ Ok v
        → Leaves rd v (Loads.part_loaded first place rd signed 16).first s
        (ran_lines bus (Loads.part_loaded first place rd signed 16).lines s) }
{}

/// The lines of a store of a word leave data that show the assembly's memory after it.
pub fn word_store_stores()
    ensures { (first : Option ℕ) (place : Place) (rs address : ℕ) (l : Layout) (a : State) (r v : Value) (bus : Bus) (s : Core)
        → Access bus first place address l a s → IsNamed rs → ShowsData r (reg s.regs rs)
        → stored Word (address % 4) (memory_word a address) r ≡ Ok v
        → Stored l (with_word a address v) (address / 4) SECOND (Stores.word_stored first place rs).first s
        (ran_lines bus (Stores.word_stored first place rs).lines s) }
{}

/// The lines of a store of a byte replace that byte of the assembly's memory.
pub fn byte_store_stores()
    ensures { (first : Option ℕ) (place : Place) (rs address : ℕ) (signed : Bool) (l : Layout) (a : State) (r v : Value) (bus : Bus) (s : Core)
        → Access bus first place address l a s → IsNamed rs → rs ≢ Stores.word_register (word_base place) → ShowsData r (reg s.regs rs)
        → stored (Byte signed) (address % 4) (memory_word a address) r ≡ Ok v
        → Stored l (with_word a address v) (address / 4) (Stores.word_register (word_base place)) (known_after_byte first place) s
        (ran_lines bus (Stores.part_stored first place rs 8).lines s) }
{}

/// The lines of a store of a half replace that half of the assembly's memory.
pub fn half_store_stores()
    ensures { (first : Option ℕ) (place : Place) (rs address : ℕ) (signed : Bool) (l : Layout) (a : State) (r v : Value) (bus : Bus) (s : Core)
        → Access bus first place address l a s → IsNamed rs → rs ≢ Stores.word_register (word_base place) → ShowsData r (reg s.regs rs)
        → stored (Half signed) (address % 4) (memory_word a address) r ≡ Ok v
        → Stored l (with_word a address v) (address / 4) (Stores.word_register (word_base place)) (Stores.part_stored first place rs 16).first s
        (ran_lines bus (Stores.part_stored first place rs 16).lines s) }
{}

/// The lines of `lwl` leave the bytes of a word of the assembly's memory from a byte on, and then the last ones of the register. Places of
/// `lwl` and the three like it are far ones, whose address r1 takes.
pub fn left_load_leaves()
    ensures { (first : Option ℕ) (base bytes rd address : ℕ) (held : Added → ℕ) (l : Layout) (a : State) (old v : Value) (bus : Bus) (s : Core)
        → Access bus first (Far base bytes) address l a s → IsNamed rd → rd ≢ THIRD → HasTable held LoadLeft s.mem → ShowsData old (reg s.regs rd)
        → loaded Left (address % 4) (memory_word a address) old ≡ Ok v
        → LeavesMasked rd v (addressed first (Far base bytes)).first s
        (ran_taking held bus (Unaligned.loaded first (Far base bytes) rd LoadLeft) s) }
{}

/// The lines of `lwr` leave the first bytes of the register, and then those of a word of the assembly's memory up to a byte.
pub fn right_load_leaves()
    ensures { (first : Option ℕ) (base bytes rd address : ℕ) (held : Added → ℕ) (l : Layout) (a : State) (old v : Value) (bus : Bus) (s : Core)
        → Access bus first (Far base bytes) address l a s → IsNamed rd → rd ≢ THIRD → HasTable held LoadRight s.mem → ShowsData old (reg s.regs rd)
        → loaded Right (address % 4) (memory_word a address) old ≡ Ok v
        → LeavesMasked rd v (addressed first (Far base bytes)).first s
        (ran_taking held bus (Unaligned.loaded first (Far base bytes) rd LoadRight) s) }
{}

/// The lines of `swl` replace the bytes of a word of the assembly's memory from a byte on by the first ones of the register.
pub fn left_store_stores()
    ensures { (first : Option ℕ) (base bytes rs address : ℕ) (held : Added → ℕ) (l : Layout) (a : State) (r v : Value) (bus : Bus) (s : Core)
        → Access bus first (Far base bytes) address l a s → IsNamed rs → HasTable held StoreLeft s.mem → ShowsData r (reg s.regs rs)
        → stored Left (address % 4) (memory_word a address) r ≡ Ok v
        → StoredMasked l (with_word a address v) (address / 4) s
        (ran_taking held bus (Unaligned.stored first (Far base bytes) rs StoreLeft) s) }
{}

/// The lines of `swr` replace the bytes of a word of the assembly's memory up to a byte by the last ones of the register.
pub fn right_store_stores()
    ensures { (first : Option ℕ) (base bytes rs address : ℕ) (held : Added → ℕ) (l : Layout) (a : State) (r v : Value) (bus : Bus) (s : Core)
        → Access bus first (Far base bytes) address l a s → IsNamed rs → HasTable held StoreRight s.mem → ShowsData r (reg s.regs rs)
        → stored Right (address % 4) (memory_word a address) r ≡ Ok v
        → StoredMasked l (with_word a address v) (address / 4) s
        (ran_taking held bus (Unaligned.stored first (Far base bytes) rs StoreRight) s) }
{}

/// Before a call by a pointer, r26 takes the code address of the item that the semantics of the assembly calls, and the call goes by r26.
pub fn call_leaves_target()
    ensures { (first : Option ℕ) (place : Place) (address item : ℕ) (codes : ℕ → ℕ) (a : State) (bus : Bus) (s : Core)
        → Pointer bus first place address s → ShowsCode codes a address s.mem → pointed a address ≡ Ok item
        → let before = (Loads.word_loaded first place SECOND false).lines in
        ((called_at first place).lines ≡ before ++ Transfer (CallReg SECOND 31) ∷ [])
        × Leaves SECOND (Number (codes item)) (called_at first place).first s (ran_lines bus before s) }
{}

/// Before a jump by a pointer, r26 takes the code address of the item that the semantics of the assembly goes to, and the jump goes by r26.
pub fn jump_leaves_target()
    ensures { (first : Option ℕ) (place : Place) (address item : ℕ) (codes : ℕ → ℕ) (a : State) (bus : Bus) (s : Core)
        → Pointer bus first place address s → ShowsCode codes a address s.mem → pointed a address ≡ Ok item
        → let before = (Loads.word_loaded first place SECOND false).lines in
        ((jumped_at first place).lines ≡ before ++ Transfer (JumpReg SECOND) ∷ [])
        × Leaves SECOND (Number (codes item)) (jumped_at first place).first s (ran_lines bus before s) }
{}
