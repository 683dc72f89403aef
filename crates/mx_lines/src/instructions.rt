//! The statements that instructions spell.
ghost use Rattle.std.specs.Prelude.{◌≡◌, ℕ, true, map};
ghost use Rattle.mx_isa.specs.Fields.{OpFits};
ghost use Rattle.mx_lines.specs.Fitting.{FitsAlone, FitsBy, is_regular, uses_both};
ghost use Rattle.mx_lines.specs.Shapes.{word};
ghost use Rattle.mx_lines.specs.Instructions;

use crate::fault::Fault;
use crate::labels::Labels;
use crate::mnemonic::{Mnemonic, mnemonic_named};
use crate::operands::{count, immediate, register, special};
use crate::resolve::{any_label, code_label, offset};
use crate::shapes::{
    memory, name_number_name, names_number_name, nothing, one_name, three_names, two_names,
};
use crate::word::Word;
use mx_isa::{Cond, Inst, Op, Reg, Special};
use mx_source::{Label, Statement};

/// `add R,R,R` and its like, of two sources that are both used.
#[tactic(auto, unfolding(crate::specs::Instructions::compute), using(crate::proofs::Fits::fits_both))]
fn compute(op: Op, words: &[Word]) -> Result<Statement, Fault>
    requires { uses_both op ≡ true }
    ensures statement { result ≡ Instructions.compute op (map word words.now) }
    ensures fits { FitsAlone result }
{
    let (a, b, dest) = three_names(words)?;
    let a = register(a)?;
    let b = register(b)?;
    let dest = register(dest)?;
    Ok(Statement::Plain(Inst::Compute { a, dest, b, op }))
}

/// `not R,R` and `mov R,R`.
#[tactic(auto, unfolding(crate::specs::Instructions::of_one))]
fn of_one(op: Op, words: &[Word]) -> Result<Statement, Fault>
    requires { (a : ℕ) → OpFits op a 0 }
    ensures statement { result ≡ Instructions.of_one op (map word words.now) }
    ensures fits { FitsAlone result }
{
    let (a, dest) = two_names(words)?;
    let a = register(a)?;
    let dest = register(dest)?;
    Ok(Statement::Plain(Inst::Compute {
        a,
        dest,
        b: Reg::ZERO,
        op,
    }))
}

/// `mstart R,R`
#[tactic(auto, unfolding(crate::specs::Instructions::mstart))]
fn mstart(words: &[Word]) -> Result<Statement, Fault>
    ensures statement { result ≡ Instructions.mstart (map word words.now) }
    ensures fits { FitsAlone result }
{
    let (b, dest) = two_names(words)?;
    let b = register(b)?;
    let dest = register(dest)?;
    Ok(Statement::Plain(Inst::Compute {
        a: Reg::ZERO,
        dest,
        b,
        op: Op::Mstart,
    }))
}

/// `asr R,#N,R`
#[tactic(auto, unfolding(crate::specs::Instructions::asr))]
fn asr(words: &[Word]) -> Result<Statement, Fault>
    ensures statement { result ≡ Instructions.asr (map word words.now) }
    ensures fits { FitsAlone result }
{
    let operands = name_number_name(words)?;
    let a = register(operands.source)?;
    let dest = register(operands.dest)?;
    let count = count(operands.negative, operands.value)?;
    Ok(Statement::Plain(Inst::Compute {
        a,
        dest,
        b: Reg::ZERO,
        op: Op::Asr(count),
    }))
}

/// `sh R,R,#N,R`
#[tactic(auto, unfolding(crate::specs::Instructions::sh))]
fn sh(words: &[Word]) -> Result<Statement, Fault>
    ensures statement { result ≡ Instructions.sh (map word words.now) }
    ensures fits { FitsAlone result }
{
    let operands = names_number_name(words)?;
    let a = register(operands.first)?;
    let b = register(operands.second)?;
    let dest = register(operands.dest)?;
    let count = count(operands.negative, operands.value)?;
    Ok(Statement::Plain(Inst::Compute {
        a,
        dest,
        b,
        op: Op::Sh(count),
    }))
}

/// `addi R,#I,R`
#[tactic(auto, unfolding(crate::specs::Instructions::addi))]
fn addi(words: &[Word]) -> Result<Statement, Fault>
    ensures statement { result ≡ Instructions.addi (map word words.now) }
    ensures fits { FitsAlone result }
{
    let operands = name_number_name(words)?;
    let a = register(operands.source)?;
    let dest = register(operands.dest)?;
    let imm = immediate(operands.negative, operands.value)?;
    Ok(Statement::Plain(Inst::Addi { a, dest, imm }))
}

/// `nop`
#[tactic(auto, unfolding(crate::specs::Instructions::nop))]
fn nop(words: &[Word]) -> Result<Statement, Fault>
    ensures statement { result ≡ Instructions.nop (map word words.now) }
    ensures fits { FitsAlone result }
{
    nothing(words)?;
    Ok(Statement::Plain(Inst::Compute {
        a: Reg::ZERO,
        dest: Reg::ZERO,
        b: Reg::ZERO,
        op: Op::Add,
    }))
}

/// `halt`
#[tactic(auto, unfolding(crate::specs::Instructions::halt))]
fn halt(words: &[Word]) -> Result<Statement, Fault>
    ensures statement { result ≡ Instructions.halt (map word words.now) }
    ensures fits { FitsAlone result }
{
    nothing(words)?;
    Ok(Statement::Halt)
}

/// `movfrs S,R`
#[tactic(auto, unfolding(crate::specs::Instructions::move_from))]
fn move_from(words: &[Word]) -> Result<Statement, Fault>
    ensures statement { result ≡ Instructions.move_from (map word words.now) }
    ensures fits { FitsAlone result }
{
    let (special_name, dest) = two_names(words)?;
    let special = special(special_name)?;
    let dest = register(dest)?;
    match special {
        Special::Md => Ok(Statement::Plain(Inst::MoveFrom { dest, special })),
        _ => Err(Fault::SystemInstruction),
    }
}

/// `movtos R,S`
#[tactic(auto, unfolding(crate::specs::Instructions::move_to))]
fn move_to(words: &[Word]) -> Result<Statement, Fault>
    ensures statement { result ≡ Instructions.move_to (map word words.now) }
    ensures fits { FitsAlone result }
{
    let (a, special_name) = two_names(words)?;
    let a = register(a)?;
    let special = special(special_name)?;
    match special {
        Special::Md => Ok(Statement::Plain(Inst::MoveTo { a, special })),
        _ => Err(Fault::SystemInstruction),
    }
}

/// `ld O[R],R`
#[tactic(auto, unfolding(crate::specs::Instructions::load))]
fn load(labels: &Labels, words: &[Word]) -> Result<Statement, Fault>
    ensures statement { result ≡ Instructions.load labels.now (map word words.now) }
    ensures fits { FitsBy labels.now result }
{
    let operands = memory(words)?;
    let base = register(operands.base)?;
    let dest = register(operands.register)?;
    let offset = offset(labels, &operands.offset)?;
    Ok(Statement::Plain(Inst::Load { base, dest, offset }))
}

/// `st O[R],R`
#[tactic(auto, unfolding(crate::specs::Instructions::store))]
fn store(labels: &Labels, words: &[Word]) -> Result<Statement, Fault>
    ensures statement { result ≡ Instructions.store labels.now (map word words.now) }
    ensures fits { FitsBy labels.now result }
{
    let operands = memory(words)?;
    let base = register(operands.base)?;
    let value = register(operands.register)?;
    let offset = offset(labels, &operands.offset)?;
    Ok(Statement::Plain(Inst::Store {
        base,
        value,
        offset,
    }))
}

/// `la A,R`
#[tactic(auto, unfolding(crate::specs::Instructions::load_address))]
fn load_address(labels: &Labels, words: &[Word]) -> Result<Statement, Fault>
    ensures statement { result ≡ Instructions.load_address labels.now (map word words.now) }
    ensures fits { FitsBy labels.now result }
{
    let (name, dest) = two_names(words)?;
    let dest = register(dest)?;
    match any_label(labels, name)? {
        Label::Code(target) => Ok(Statement::LaCode { dest, target }),
        Label::Data(address) => Ok(Statement::Plain(Inst::Addi {
            a: Reg::ZERO,
            dest,
            imm: address as i32,
        })),
    }
}

/// `beq R,R,L` and its like.
#[tactic(auto, unfolding(crate::specs::Instructions::branch))]
fn branch(labels: &Labels, cond: Cond, words: &[Word]) -> Result<Statement, Fault>
    ensures statement { result ≡ Instructions.branch labels.now cond (map word words.now) }
    ensures fits { FitsBy labels.now result }
{
    let (a, b, label) = three_names(words)?;
    let a = register(a)?;
    let b = register(b)?;
    let target = code_label(labels, label)?;
    Ok(Statement::Branch { a, b, cond, target })
}

/// `bgt R,R,L` and its like, which are branches with the registers swapped.
#[tactic(auto, unfolding(crate::specs::Instructions::swapped_branch))]
fn swapped_branch(labels: &Labels, cond: Cond, words: &[Word]) -> Result<Statement, Fault>
    ensures statement { result ≡ Instructions.swapped_branch labels.now cond (map word words.now) }
    ensures fits { FitsBy labels.now result }
{
    let (a, b, label) = three_names(words)?;
    let a = register(a)?;
    let b = register(b)?;
    let target = code_label(labels, label)?;
    Ok(Statement::Branch {
        a: b,
        b: a,
        cond,
        target,
    })
}

/// `b L`
#[tactic(auto, unfolding(crate::specs::Instructions::goto))]
fn goto(labels: &Labels, words: &[Word]) -> Result<Statement, Fault>
    ensures statement { result ≡ Instructions.goto labels.now (map word words.now) }
    ensures fits { FitsBy labels.now result }
{
    let label = one_name(words)?;
    let target = code_label(labels, label)?;
    Ok(Statement::Branch {
        a: Reg::ZERO,
        b: Reg::ZERO,
        cond: Cond::Eq,
        target,
    })
}

/// `call L,R`
#[tactic(auto, unfolding(crate::specs::Instructions::call))]
fn call(labels: &Labels, words: &[Word]) -> Result<Statement, Fault>
    ensures statement { result ≡ Instructions.call labels.now (map word words.now) }
    ensures fits { FitsBy labels.now result }
{
    let (label, dest) = two_names(words)?;
    let dest = register(dest)?;
    let target = code_label(labels, label)?;
    Ok(Statement::Call { dest, target })
}

/// `callr R,R`
#[tactic(auto, unfolding(crate::specs::Instructions::call_register))]
fn call_register(words: &[Word]) -> Result<Statement, Fault>
    ensures statement { result ≡ Instructions.call_register (map word words.now) }
    ensures fits { FitsAlone result }
{
    let (a, dest) = two_names(words)?;
    let a = register(a)?;
    let dest = register(dest)?;
    Ok(Statement::CallReg { a, dest })
}

/// `jr R`
#[tactic(auto, unfolding(crate::specs::Instructions::jump))]
fn jump(words: &[Word]) -> Result<Statement, Fault>
    ensures statement { result ≡ Instructions.jump (map word words.now) }
    ensures fits { FitsAlone result }
{
    let a = one_name(words)?;
    let a = register(a)?;
    Ok(Statement::JumpReg { a })
}

/// `jpc` and `jpcrs`, which only the system may use.
#[tactic(auto, unfolding(crate::specs::Instructions::system))]
fn system(words: &[Word]) -> Result<Statement, Fault>
    ensures statement { result ≡ Instructions.system (map word words.now) }
    ensures fits { FitsAlone result }
{
    nothing(words)?;
    Err(Fault::SystemInstruction)
}

/// The statement of a mnemonic and the words behind it.
#[tactic(auto, unfolding(crate::specs::Instructions::spelled_by))]
fn spelled_by(labels: &Labels, mnemonic: &Mnemonic, words: &[Word]) -> Result<Statement, Fault>
    requires { is_regular mnemonic.now ≡ true }
    ensures statement { result ≡ Instructions.spelled_by labels.now mnemonic.now (map word words.now) }
    ensures fits { FitsBy labels.now result }
{
    match mnemonic {
        Mnemonic::Compute(op) => compute(*op, words),
        Mnemonic::Not => of_one(Op::Not, words),
        Mnemonic::Mstart => mstart(words),
        Mnemonic::Asr => asr(words),
        Mnemonic::Sh => sh(words),
        Mnemonic::Addi => addi(words),
        Mnemonic::Mov => of_one(Op::Add, words),
        Mnemonic::Nop => nop(words),
        Mnemonic::MoveFrom => move_from(words),
        Mnemonic::MoveTo => move_to(words),
        Mnemonic::Load => load(labels, words),
        Mnemonic::Store => store(labels, words),
        Mnemonic::LoadAddress => load_address(labels, words),
        Mnemonic::Branch(cond) => branch(labels, *cond, words),
        Mnemonic::SwappedBranch(cond) => swapped_branch(labels, *cond, words),
        Mnemonic::Goto => goto(labels, words),
        Mnemonic::Call => call(labels, words),
        Mnemonic::CallReg => call_register(words),
        Mnemonic::JumpReg => jump(words),
        Mnemonic::Halt => halt(words),
        Mnemonic::System => system(words),
    }
}

/// The statement that a name and the words behind it spell.
#[tactic(auto, unfolding(crate::specs::Instructions::instruction))]
pub fn instruction(labels: &Labels, name: &[u8], words: &[Word]) -> Result<Statement, Fault>
    ensures statement { result ≡ Instructions.instruction labels.now name.now (map word words.now) }
    ensures fits { FitsBy labels.now result }
{
    match mnemonic_named(name) {
        Some(mnemonic) => spelled_by(labels, &mnemonic, words),
        None => Err(Fault::UnknownMnemonic),
    }
}
