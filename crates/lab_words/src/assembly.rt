//! Instructions in assembly language.
ghost use Rattle.std.specs.Prelude.{◌≡◌, ◌++◌, ◌∷◌, [], ℕ, OnOk, codes, decimal, string_bytes};
ghost use Rattle.std.specs.Option.{option_map};
ghost use Rattle.mx_source.specs.Printed.{register, immediate, count, spelled, compute_text, condition_text};
ghost use Rattle.lab_words.specs.Naming.{naming, aimed, lent_name};
ghost use Rattle.lab_words.specs.Texts.{special_text, name_text, or_number, place_text, data_label, made_label, memory_text, squash_text, sum_text, register_jump_text, jump_text, instruction_text, target};

use crate::names::PlaceNames;
use mx_isa::{Cond, Inst, Op, Reg, Special};
use mx_source::{branch_name, operation_name};
use std::alloc::AllocError;

/// Appends a special word.
fn push_special(text: &mut String, special: Special) -> Result<(), AllocError>
    ensures { OnOk result (string_bytes text.new ≡ string_bytes text.old ++ special_text special) }
{
    match special {
        Special::Md => text.push_str("md"),
        Special::Pc1 => text.push_str("pc1"),
        Special::Pc2 => text.push_str("pc2"),
        Special::Pc3 => text.push_str("pc3"),
    }
}

/// What marks a branch that cancels the two words after it where it does not hold.
fn squash_word(squash: bool) -> &'static str
    ensures { result.now ≡ squash_text squash }
{
    if squash { "sq" } else { "" }
}

/// Appends a mnemonic with two registers.
fn push_two(text: &mut String, word: &str, a: Reg, dest: Reg) -> Result<(), AllocError>
    ensures { OnOk result (string_bytes text.new ≡ string_bytes text.old ++ spelled word.now (register a ∷ register dest ∷ [])) }
{
    let (a, dest) = (a.number(), dest.number());
    write!(text, "{word} r{a},r{dest}")
}

/// Appends a mnemonic with three registers.
fn push_three(text: &mut String, word: &str, a: Reg, b: Reg, dest: Reg) -> Result<(), AllocError>
    ensures { OnOk result (string_bytes text.new ≡ string_bytes text.old ++ spelled word.now (register a ∷ register b ∷ register dest ∷ [])) }
{
    let (a, b, dest) = (a.number(), b.number(), dest.number());
    write!(text, "{word} r{a},r{b},r{dest}")
}

/// Appends a shift by a count.
fn push_count(text: &mut String, word: &str, a: Reg, n: u8, dest: Reg) -> Result<(), AllocError>
    ensures { OnOk result (string_bytes text.new ≡ string_bytes text.old ++ spelled word.now (register a ∷ count n ∷ register dest ∷ [])) }
{
    let (a, dest) = (a.number(), dest.number());
    write!(text, "{word} r{a},#{n},r{dest}")
}

/// Appends a shift of two registers by a count.
fn push_two_and_count(
    text: &mut String,
    word: &str,
    registers: (Reg, Reg),
    n: u8,
    dest: Reg,
) -> Result<(), AllocError>
    ensures { OnOk result
        (string_bytes text.new ≡ string_bytes text.old ++ spelled word.now (register registers.0 ∷ register registers.1 ∷ count n ∷ register dest ∷ [])) }
{
    let (a, b, dest) = (registers.0.number(), registers.1.number(), dest.number());
    write!(text, "{word} r{a},r{b},#{n},r{dest}")
}

/// Appends a compute instruction.
fn push_compute(text: &mut String, op: Op, a: Reg, b: Reg, dest: Reg) -> Result<(), AllocError>
    ensures { OnOk result (string_bytes text.new ≡ string_bytes text.old ++ compute_text op a b dest) }
{
    let word = operation_name(op);
    match op {
        Op::Not => push_two(text, word, a, dest),
        Op::Mstart => push_two(text, word, b, dest),
        Op::Asr(n) => push_count(text, word, a, n, dest),
        Op::Sh(n) => push_two_and_count(text, word, (a, b), n, dest),
        _ => push_three(text, word, a, b, dest),
    }
}

/// Appends a name, each byte as a character.
fn push_name(text: &mut String, name: &[u8]) -> Result<(), AllocError>
    ensures { OnOk result (string_bytes text.new ≡ string_bytes text.old ++ name_text name.now) }
{
    for byte in name {
        text.push(char::from(*byte))?;
    }
    Ok(())
}

/// Appends a name, or a number where there is none.
fn push_name_or(text: &mut String, name: Option<&[u8]>, number: i32) -> Result<(), AllocError>
    ensures { OnOk result (string_bytes text.new ≡ string_bytes text.old ++ or_number (lent_name name.entry) number) }
{
    match name {
        Some(name) => push_name(text, name),
        None => write!(text, "{number}"),
    }
}

/// The first label of a code word, where the word is the aim or no aim is known.
fn aimed_name<'a>(names: &'a PlaceNames, aim: Option<u32>, address: u32) -> Option<&'a [u8]>
    ensures { lent_name result ≡ (aimed aim (naming names.now)).code address }
{
    match aim {
        Some(at) if at != address => None,
        _ => names.code_name(address),
    }
}

/// Appends the place where a transfer leads.
fn push_place(
    text: &mut String,
    names: &PlaceNames,
    aim: Option<u32>,
    target: u32,
) -> Result<(), AllocError>
    ensures { OnOk result (string_bytes text.new ≡ string_bytes text.old ++ place_text (aimed aim (naming names.now)) target) }
{
    if let Some(name) = aimed_name(names, aim, target) {
        return push_name(text, name);
    }
    if let Some(name) = aimed_name(names, aim, target.saturating_sub(1)) {
        push_name(text, name)?;
        return text.push_str("+1");
    }
    if let Some(name) = aimed_name(names, aim, target.saturating_sub(2)) {
        push_name(text, name)?;
        return text.push_str("+2");
    }
    write!(text, "0x{target:x}")
}

/// Appends a branch.
fn push_branch(
    text: &mut String,
    names: &PlaceNames,
    aim: Option<u32>,
    inst: (Cond, bool, Reg, Reg),
    target: u32,
) -> Result<(), AllocError>
    ensures { OnOk result (string_bytes text.new ≡ string_bytes text.old
        ++ spelled (condition_text inst.0 ++ squash_text inst.1)
        (register inst.2 ∷ register inst.3 ∷ place_text (aimed aim (naming names.now)) target ∷ [])) }
{
    let (cond, squash, a, b) = inst;
    let (word, mark) = (branch_name(cond), squash_word(squash));
    let (a, b) = (a.number(), b.number());
    write!(text, "{word}{mark} r{a},r{b},")?;
    push_place(text, names, aim, target)
}

/// The label of the data word at an offset from 0.
fn data_label<'a>(names: &'a PlaceNames, offset: i32) -> Option<&'a [u8]>
    ensures { lent_name result ≡ data_label (naming names.now) offset }
{
    match u32::try_from(offset) {
        Ok(address) => names.data_name(address),
        Err(_) => None,
    }
}

/// The label of the place whose address a sum with r0 makes, where that is the aim.
fn made_label<'a>(names: &'a PlaceNames, aim: Option<u32>, a: Reg, imm: i32) -> Option<&'a [u8]>
    ensures { lent_name result ≡ made_label (naming names.now) aim a imm }
{
    let at = aim?;
    if a == Reg::ZERO && at == 0u32.wrapping_add_signed(imm) {
        names.code_name(at)
    } else {
        None
    }
}

/// Appends a load or a store: its offset, which may be the label of a data word, its base and its other register.
fn push_memory(
    text: &mut String,
    names: &PlaceNames,
    word: &str,
    offset: i32,
    registers: (Reg, Reg),
) -> Result<(), AllocError>
    ensures { OnOk result (string_bytes text.new ≡ string_bytes text.old
        ++ spelled word.now (memory_text (naming names.now) offset registers.0 ∷ register registers.1 ∷ [])) }
{
    write!(text, "{word} ")?;
    push_name_or(text, data_label(names, offset), offset)?;
    let (base, other) = (registers.0.number(), registers.1.number());
    write!(text, "[r{base}],r{other}")
}

/// Appends an instruction with a register, an immediate and a destination.
fn push_immediate(
    text: &mut String,
    word: &str,
    a: Reg,
    imm: i32,
    dest: Reg,
) -> Result<(), AllocError>
    ensures { OnOk result (string_bytes text.new ≡ string_bytes text.old ++ spelled word.now (register a ∷ immediate imm ∷ register dest ∷ [])) }
{
    let (a, dest) = (a.number(), dest.number());
    write!(text, "{word} r{a},#{imm},r{dest}")
}

/// Appends a sum with an immediate, or the place whose address it makes.
fn push_sum(
    text: &mut String,
    name: Option<&[u8]>,
    a: Reg,
    imm: i32,
    dest: Reg,
) -> Result<(), AllocError>
    ensures { OnOk result (string_bytes text.new ≡ string_bytes text.old ++ sum_text (lent_name name.entry) a dest imm) }
{
    match name {
        Some(name) => {
            let dest = dest.number();
            text.push_str("la ")?;
            push_name(text, name)?;
            write!(text, ",r{dest}")
        }
        None => push_immediate(text, "addi", a, imm, dest),
    }
}

/// Appends a jump to the address in a register.
fn push_register_jump(text: &mut String, a: Reg, dest: Reg) -> Result<(), AllocError>
    ensures { OnOk result (string_bytes text.new ≡ string_bytes text.old ++ register_jump_text a dest) }
{
    if dest == Reg::ZERO {
        let a = a.number();
        write!(text, "jr r{a}")
    } else {
        push_two(text, "callr", a, dest)
    }
}

/// Appends a jump to an address.
fn push_call(
    text: &mut String,
    names: &PlaceNames,
    aim: Option<u32>,
    target: u32,
    dest: Reg,
) -> Result<(), AllocError>
    ensures { OnOk result (string_bytes text.new ≡ string_bytes text.old
        ++ spelled (codes "call") (place_text (aimed aim (naming names.now)) target ∷ register dest ∷ [])) }
{
    let dest = dest.number();
    text.push_str("call ")?;
    push_place(text, names, aim, target)?;
    write!(text, ",r{dest}")
}

/// Appends a jump, which leaves an address in a register.
fn push_jump(
    text: &mut String,
    names: &PlaceNames,
    aim: Option<u32>,
    registers: (Reg, Reg),
    imm: i32,
) -> Result<(), AllocError>
    ensures { OnOk result (string_bytes text.new ≡ string_bytes text.old
        ++ jump_text (aimed aim (naming names.now)) registers.0 registers.1 imm) }
{
    let (a, dest) = registers;
    if imm == 0 {
        push_register_jump(text, a, dest)
    } else if a == Reg::ZERO {
        push_call(text, names, aim, 0u32.wrapping_add_signed(imm), dest)
    } else {
        push_immediate(text, "jspci", a, imm, dest)
    }
}

/// Appends a move from a special word.
fn push_move_from(text: &mut String, special: Special, dest: Reg) -> Result<(), AllocError>
    ensures { OnOk result (string_bytes text.new ≡ string_bytes text.old ++ spelled (codes "movfrs") (special_text special ∷ register dest ∷ [])) }
{
    let dest = dest.number();
    text.push_str("movfrs ")?;
    push_special(text, special)?;
    write!(text, ",r{dest}")
}

/// Appends a move to a special word.
fn push_move_to(text: &mut String, a: Reg, special: Special) -> Result<(), AllocError>
    ensures { OnOk result (string_bytes text.new ≡ string_bytes text.old ++ spelled (codes "movtos") (register a ∷ special_text special ∷ [])) }
{
    let a = a.number();
    write!(text, "movtos r{a},")?;
    push_special(text, special)
}

/// Appends an instruction that stands at an address, in assembly language, with the aim of the statement that it comes from where that is known.
///
/// # Errors
///
/// Where memory runs out, with a part of it appended.
pub fn push_instruction(
    text: &mut String,
    names: &PlaceNames,
    aim: Option<u32>,
    address: u32,
    inst: &Inst,
) -> Result<(), AllocError>
    ensures { OnOk result (string_bytes text.new ≡ string_bytes text.old ++ instruction_text (naming names.now) aim address inst.now) }
{
    match *inst {
        Inst::Load { base, dest, offset } => push_memory(text, names, "ld", offset, (base, dest)),
        Inst::Store {
            base,
            value,
            offset,
        } => push_memory(text, names, "st", offset, (base, value)),
        Inst::Branch {
            a,
            b,
            cond,
            squash,
            by,
        } => {
            let target = address.wrapping_add_signed(by);
            push_branch(text, names, aim, (cond, squash, a, b), target)
        }
        Inst::Compute { a, dest, b, op } => push_compute(text, op, a, b, dest),
        Inst::Addi { a, dest, imm } => {
            push_sum(text, made_label(names, aim, a, imm), a, imm, dest)
        }
        Inst::Jspci { a, dest, imm } => push_jump(text, names, aim, (a, dest), imm),
        Inst::MoveFrom { dest, special } => push_move_from(text, special, dest),
        Inst::MoveTo { a, special } => push_move_to(text, a, special),
        Inst::Jpc => text.push_str("jpc"),
        Inst::Jpcrs => text.push_str("jpcrs"),
        Inst::Halt => text.push_str("halt"),
    }
}
