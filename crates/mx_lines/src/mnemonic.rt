//! The mnemonics.
ghost use Rattle.std.specs.Prelude.{◌≡◌, true, map, IfSome};
ghost use Rattle.std.specs.List.{list_all};
ghost use Rattle.mx_lines.specs.Fitting.{is_regular};
ghost use Rattle.std.specs.Str.{str_eq_ignore_ascii_case};
ghost use Rattle.mx_lines.specs.Mnemonics;

use mx_isa::{Cond, Op};

/// What a mnemonic stands for.
#[derive(Clone, Copy)]
pub enum Mnemonic {
    /// `add` and its like, of three registers.
    Compute(Op),
    Not,
    Mstart,
    Asr,
    Sh,
    Addi,
    Mov,
    Nop,
    MoveFrom,
    MoveTo,
    Load,
    Store,
    LoadAddress,
    Branch(Cond),
    /// A branch that compares its registers the other way round.
    SwappedBranch(Cond),
    Goto,
    Call,
    CallReg,
    JumpReg,
    Halt,
    /// An instruction that only the system may use.
    System,
}

/// Each mnemonic, and what it stands for.
pub const MNEMONICS: [(&str, Mnemonic); 39] = [
    ("add", Mnemonic::Compute(Op::Add)),
    ("sub", Mnemonic::Compute(Op::Sub)),
    ("subnc", Mnemonic::Compute(Op::Subnc)),
    ("and", Mnemonic::Compute(Op::And)),
    ("or", Mnemonic::Compute(Op::Or)),
    ("xor", Mnemonic::Compute(Op::Xor)),
    ("bic", Mnemonic::Compute(Op::Bic)),
    ("rotlb", Mnemonic::Compute(Op::Rotlb)),
    ("mstep", Mnemonic::Compute(Op::Mstep)),
    ("dstep", Mnemonic::Compute(Op::Dstep)),
    ("not", Mnemonic::Not),
    ("mstart", Mnemonic::Mstart),
    ("asr", Mnemonic::Asr),
    ("sh", Mnemonic::Sh),
    ("addi", Mnemonic::Addi),
    ("mov", Mnemonic::Mov),
    ("nop", Mnemonic::Nop),
    ("movfrs", Mnemonic::MoveFrom),
    ("movtos", Mnemonic::MoveTo),
    ("ld", Mnemonic::Load),
    ("st", Mnemonic::Store),
    ("la", Mnemonic::LoadAddress),
    ("beq", Mnemonic::Branch(Cond::Eq)),
    ("bne", Mnemonic::Branch(Cond::Ne)),
    ("blt", Mnemonic::Branch(Cond::Lt)),
    ("bge", Mnemonic::Branch(Cond::Ge)),
    ("blo", Mnemonic::Branch(Cond::Lo)),
    ("bhs", Mnemonic::Branch(Cond::Hs)),
    ("bgt", Mnemonic::SwappedBranch(Cond::Lt)),
    ("ble", Mnemonic::SwappedBranch(Cond::Ge)),
    ("bhi", Mnemonic::SwappedBranch(Cond::Lo)),
    ("blos", Mnemonic::SwappedBranch(Cond::Hs)),
    ("b", Mnemonic::Goto),
    ("call", Mnemonic::Call),
    ("callr", Mnemonic::CallReg),
    ("jr", Mnemonic::JumpReg),
    ("halt", Mnemonic::Halt),
    ("jpc", Mnemonic::System),
    ("jpcrs", Mnemonic::System),
];

/// The mnemonic that a name spells, in either case.
#[tactic(auto, unfolding(crate::specs::Mnemonics::mnemonic_named, crate::specs::Mnemonics::mnemonics))]
pub fn mnemonic_named(name: &[u8]) -> Option<Mnemonic>
    ensures mnemonic { result ≡ Mnemonics.mnemonic_named name.now }
    ensures regular { IfSome result (λ m. is_regular m ≡ true) }
{
    spelled(&MNEMONICS, name)
}

/// The mnemonic among these that a name spells, in either case.
fn spelled(rows: &[(&str, Mnemonic)], name: &[u8]) -> Option<Mnemonic>
    requires { list_all (λ r. is_regular r.1) rows.now ≡ true }
    ensures mnemonic { result ≡ Mnemonics.spelled (map Mnemonics.row rows.now) name.now }
    ensures regular { IfSome result (λ m. is_regular m ≡ true) }
{
    for (spelling, mnemonic) in rows {
        if spells(name, spelling) {
            return Some(*mnemonic);
        }
    }
    None
}

/// The name is this word, in either case.
pub fn spells(name: &[u8], word: &str) -> bool
    ensures { result ≡ str_eq_ignore_ascii_case name.now word.now }
{
    name.eq_ignore_ascii_case(word.as_bytes())
}
