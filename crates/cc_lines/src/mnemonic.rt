//! The mnemonics.

use crate::instruction::{Condition, Long, Operation, Shift, Special, Width};
use crate::refusal::Refusal;
use crate::table::{is_among, meaning_of};

/// What a mnemonic means.
#[derive(Clone, Copy)]
pub(crate) enum Mnemonic {
    Compute(Operation),
    /// The same, whose number has 16 bits.
    Immediate(Operation),
    Shift(Shift),
    Move,
    Negate,
    Not,
    Number,
    Upper,
    Address,
    Load(Width),
    Store(Width),
    Long(Long),
    /// A product or a quotient that goes to a register: what is computed, and where it is then.
    Result(Long, Special),
    FromSpecial(Special),
    ToSpecial(Special),
    Absolute,
    /// 1 where a condition holds, else 0.
    Set(Condition),
    /// A rotation to the right.
    RotateRight,
    LoadAnywhere,
    StoreAnywhere,
    Branch(Condition),
    /// A branch that compares with 0.
    BranchZero(Condition),
    Goto,
    Jump,
    Call,
    Break,
    Nop,
}

/// The mnemonics of each meaning, but for branches on a condition.
const MNEMONICS: [(&[&str], Mnemonic); 64] = [
    (&["lw"], Mnemonic::Load(Width::Word)),
    (&["lb"], Mnemonic::Load(Width::Byte { signed: true })),
    (&["lbu"], Mnemonic::Load(Width::Byte { signed: false })),
    (&["lh"], Mnemonic::Load(Width::Half { signed: true })),
    (&["lhu"], Mnemonic::Load(Width::Half { signed: false })),
    (&["lwl"], Mnemonic::Load(Width::Left)),
    (&["lwr"], Mnemonic::Load(Width::Right)),
    (&["sw"], Mnemonic::Store(Width::Word)),
    (&["sb"], Mnemonic::Store(Width::Byte { signed: false })),
    (&["sh"], Mnemonic::Store(Width::Half { signed: false })),
    (&["swl"], Mnemonic::Store(Width::Left)),
    (&["swr"], Mnemonic::Store(Width::Right)),
    (&["addu", "add"], Mnemonic::Compute(Operation::Add)),
    (&["addiu", "addi"], Mnemonic::Immediate(Operation::Add)),
    (&["subu", "sub"], Mnemonic::Compute(Operation::Sub)),
    (&["and"], Mnemonic::Compute(Operation::And)),
    (&["andi"], Mnemonic::Immediate(Operation::And)),
    (&["or"], Mnemonic::Compute(Operation::Or)),
    (&["ori"], Mnemonic::Immediate(Operation::Or)),
    (&["xor"], Mnemonic::Compute(Operation::Xor)),
    (&["xori"], Mnemonic::Immediate(Operation::Xor)),
    (&["nor"], Mnemonic::Compute(Operation::Nor)),
    (&["slt"], Mnemonic::Compute(Operation::Less)),
    (&["slti"], Mnemonic::Immediate(Operation::Less)),
    (&["sltu"], Mnemonic::Compute(Operation::Lower)),
    (&["sltiu"], Mnemonic::Immediate(Operation::Lower)),
    (&["move"], Mnemonic::Move),
    (&["negu", "neg"], Mnemonic::Negate),
    (&["not"], Mnemonic::Not),
    (&["sll", "sllv"], Mnemonic::Shift(Shift::Left)),
    (&["srl", "srlv"], Mnemonic::Shift(Shift::Right)),
    (&["sra", "srav"], Mnemonic::Shift(Shift::Arithmetic)),
    (&["rol"], Mnemonic::Shift(Shift::Rotate)),
    (&["ror"], Mnemonic::RotateRight),
    (&["abs"], Mnemonic::Absolute),
    (&["seq"], Mnemonic::Set(Condition::Equal)),
    (&["sne"], Mnemonic::Set(Condition::NotEqual)),
    (&["sge"], Mnemonic::Set(Condition::NotLess)),
    (&["sgeu"], Mnemonic::Set(Condition::NotLower)),
    (&["sgt"], Mnemonic::Set(Condition::Greater)),
    (&["sgtu"], Mnemonic::Set(Condition::Higher)),
    (&["sle"], Mnemonic::Set(Condition::NotGreater)),
    (&["sleu"], Mnemonic::Set(Condition::NotHigher)),
    (&["ulw"], Mnemonic::LoadAnywhere),
    (&["usw"], Mnemonic::StoreAnywhere),
    (
        &["mul", "mulu"],
        Mnemonic::Result(Long::Product { signed: true }, Special::Lo),
    ),
    (
        &["rem"],
        Mnemonic::Result(Long::Quotient { signed: true }, Special::Hi),
    ),
    (
        &["remu"],
        Mnemonic::Result(Long::Quotient { signed: false }, Special::Hi),
    ),
    (&["li"], Mnemonic::Number),
    (&["lui"], Mnemonic::Upper),
    (&["la"], Mnemonic::Address),
    (&["mflo"], Mnemonic::FromSpecial(Special::Lo)),
    (&["mfhi"], Mnemonic::FromSpecial(Special::Hi)),
    (&["mtlo"], Mnemonic::ToSpecial(Special::Lo)),
    (&["mthi"], Mnemonic::ToSpecial(Special::Hi)),
    (&["mult"], Mnemonic::Long(Long::Product { signed: true })),
    (&["multu"], Mnemonic::Long(Long::Product { signed: false })),
    (&["div"], Mnemonic::Long(Long::Quotient { signed: true })),
    (&["divu"], Mnemonic::Long(Long::Quotient { signed: false })),
    (&["b"], Mnemonic::Goto),
    (&["j", "jr"], Mnemonic::Jump),
    (&["jal", "jalr", "bal"], Mnemonic::Call),
    (&["break"], Mnemonic::Break),
    (&["nop"], Mnemonic::Nop),
];

/// After the `b` of a branch on an order: the condition, and that of the same order without signs, which a `u` asks for.
const ORDERS: [(&str, Condition, Condition); 4] = [
    ("lt", Condition::Less, Condition::Lower),
    ("ge", Condition::NotLess, Condition::NotLower),
    ("gt", Condition::Greater, Condition::Higher),
    ("le", Condition::NotGreater, Condition::NotHigher),
];

/// Instructions of the system.
const SYSTEM: [&str; 10] = [
    "syscall", "rfe", "eret", "mfc0", "mtc0", "tlbr", "tlbwi", "tlbwr", "tlbp", "cache",
];

/// Instructions with floating-point registers that have no dot in their name.
const FLOATING: [&str; 10] = [
    "lwc1", "swc1", "ldc1", "sdc1", "mfc1", "mtc1", "cfc1", "ctc1", "bc1t", "bc1f",
];

/// The condition that a branch names, without signs or with them.
fn condition_named(name: &[u8], signed: bool) -> Option<Condition> {
    for (spelling, with_signs, without) in &ORDERS {
        if name == spelling.as_bytes() {
            return Some(if signed { *with_signs } else { *without });
        }
    }
    match name {
        b"eq" if signed => Some(Condition::Equal),
        b"ne" if signed => Some(Condition::NotEqual),
        _ => None,
    }
}

/// The branch on a condition that a name spells: `b`, the condition, and `u` for one without signs, or `z` for one with 0.
fn branch_named(name: &[u8]) -> Option<Mnemonic> {
    match name {
        [b'b', condition @ .., b'u'] => condition_named(condition, false).map(Mnemonic::Branch),
        [b'b', condition @ .., b'z'] => condition_named(condition, true).map(Mnemonic::BranchZero),
        [b'b', condition @ ..] => condition_named(condition, true).map(Mnemonic::Branch),
        _ => None,
    }
}

/// The mnemonic that a name spells.
pub(crate) fn mnemonic_named(name: &[u8]) -> Result<Mnemonic, Refusal> {
    if let Some(mnemonic) = meaning_of(&MNEMONICS, name) {
        return Ok(mnemonic);
    }
    if let Some(mnemonic) = branch_named(name) {
        return Ok(mnemonic);
    }
    if is_among(&SYSTEM, name) {
        return Err(Refusal::System);
    }
    if is_among(&FLOATING, name) || name.contains(&b'.') {
        return Err(Refusal::FloatingPoint);
    }
    Err(Refusal::UnknownMnemonic)
}
