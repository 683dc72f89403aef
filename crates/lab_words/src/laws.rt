//! Laws of the texts of words.
ghost use Rattle.std.specs.Prelude.{◌≡◌, ◌<◌, ◌^◌, ◌+◌, ◌++◌, ◌∷◌, [], ℕ, ℤ, pos, List, Option, true, false, Some, codes};
ghost use Rattle.lab_words.specs.Terms.{Cond, Inst, Statement, Labels, inst_of, IsPlain, statement_text, place_name, is_name, register, spelled};
ghost use Rattle.lab_words.specs.Naming.{Naming, names_of, aimed};
ghost use Rattle.lab_words.specs.Texts.{instruction_text, target, is_zero, name_text, behind_text};
ghost use Rattle.lab_words.specs.Assembling.{AreLabels, HasLine, AssemblesTo, is_numbered};

/// The text of an instruction that is a statement as it is, and has no label in it, is the canonical text of that statement. So is that
/// of `halt`, of `jr` and `callr`, and of a branch that cancels nothing and of a call where they lead to the first label of a statement.
pub fn texts_are_canonical()
    ensures plain { (names : Naming) (labels : Labels) (aim : Option ℕ) (address : ℕ) (i : Inst) → IsPlain i → is_numbered names aim i ≡ true →
        instruction_text names aim address i ≡ statement_text labels (Statement.Plain i) }
    ensures branch { (names : Naming) (labels : Labels) (aim : Option ℕ) (address a b target_index : ℕ) (c : Cond) (by : ℤ) →
        is_name (place_name labels target_index) ≡ true → (aimed aim names).code (target address by) ≡ Some (place_name labels target_index) →
        instruction_text names aim address (Inst.Branch a b c false by) ≡ statement_text labels (Statement.Branch a b c target_index) }
    ensures call { (names : Naming) (labels : Labels) (aim : Option ℕ) (address dest target_index : ℕ) (imm : ℤ) → is_zero imm ≡ false →
        is_name (place_name labels target_index) ≡ true → (aimed aim names).code (target 0 imm) ≡ Some (place_name labels target_index) →
        instruction_text names aim address (Inst.Jspci 0 dest imm) ≡ statement_text labels (Statement.Call dest target_index) }
    ensures call_register { (names : Naming) (labels : Labels) (aim : Option ℕ) (address a dest : ℕ) → 0 < dest →
        instruction_text names aim address (Inst.Jspci a dest (pos 0)) ≡ statement_text labels (Statement.CallReg a dest) }
    ensures jump { (names : Naming) (labels : Labels) (aim : Option ℕ) (address a : ℕ) →
        instruction_text names aim address (Inst.Jspci a 0 (pos 0)) ≡ statement_text labels (Statement.JumpReg a) }
    ensures halt { (names : Naming) (labels : Labels) (aim : Option ℕ) (address : ℕ) →
        instruction_text names aim address Inst.Halt ≡ statement_text labels Statement.Halt }
{}

/// The text of a call whose aim has a name, and which goes to the aim or to one of the two words behind it, is that name and how far behind it
/// goes, whatever else has a name there.
pub fn calls_name_their_aim()
    ensures { (names : Naming) (address dest at behind : ℕ) (name : List ℕ) → names.code at ≡ Some name → 0 < at → at + behind < 2 ^ 32 → behind < 3 →
        instruction_text names (Some at) address (Inst.Jspci 0 dest (pos (at + behind)))
        ≡ spelled (codes "call") ((name_text name ++ behind_text behind) ∷ register dest ∷ []) }
{}

/// The text of a word is assembled to that word again, where a line of a source may ask for the word: in a text with the labels of a
/// linked source the line is read as a statement, and the word of that statement, where blocks begin as the link map says, is this one.
pub fn words_assemble_again()
    ensures { (labels : Labels) (count words data_words : ℕ) (link : ℕ → ℕ) (address word : ℕ) (i : Inst) (aim : Option ℕ) →
        AreLabels count labels → ((index : ℕ) → link index < 2 ^ 31) → address < 2 ^ 31 →
        inst_of word ≡ Some i → HasLine (aimed aim (names_of labels link words data_words)) address i →
        AssemblesTo labels link address (instruction_text (names_of labels link words data_words) aim address i) word }
{}
