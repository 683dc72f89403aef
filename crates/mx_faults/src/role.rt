//! What may stand in the places behind a mnemonic or a directive.
ghost use Rattle.std.specs.Prelude.{◌≡◌, map, option_map, IfOk};
ghost use Rattle.mx_lines.specs.Shapes.{word};
ghost use Rattle.mx_lines.specs.Mnemonics.{mnemonic_named};
ghost use Rattle.mx_asm.specs.Directives.{directive_named};
ghost use Rattle.mx_faults.specs.Forms;
ghost use Rattle.mx_faults.specs.Showing;
ghost use Rattle.mx_faults.specs.Roles.{role};

use crate::role::Role::{
    AnyName, Close, CodeName, Comma, Hash, Immediate, Offset, Open, Register, ShiftCount,
    SpecialName,
};
use mx_asm::is_dotted;
use mx_lines::{Mnemonic, Word, mnemonic_named, spells};
use std::alloc::{AllocError, Global};

/// What may stand in a place.
#[derive(Clone, Copy)]
pub enum Role {
    Register,
    /// `md`, `pc1`, `pc2` or `pc3`.
    SpecialName,
    Immediate,
    ShiftCount,
    /// A number, or the name of a data label.
    Offset,
    CodeName,
    /// The name of any label.
    AnyName,
    /// A number, or the name of any label.
    DataValue,
    WordCount,
    Comma,
    Open,
    Close,
    Hash,
}

const NOTHING: [Role; 0] = [];

const REGISTER: [Role; 1] = [Register];

const TWO_REGISTERS: [Role; 3] = [Register, Comma, Register];

const THREE_REGISTERS: [Role; 5] = [Register, Comma, Register, Comma, Register];

const COUNTED: [Role; 6] = [Register, Comma, Hash, ShiftCount, Comma, Register];

const COUNTED_PAIR: [Role; 8] = [
    Register, Comma, Register, Comma, Hash, ShiftCount, Comma, Register,
];

const ADDED: [Role; 6] = [Register, Comma, Hash, Immediate, Comma, Register];

const FROM_SPECIAL: [Role; 3] = [SpecialName, Comma, Register];

const TO_SPECIAL: [Role; 3] = [Register, Comma, SpecialName];

const ACCESS: [Role; 6] = [Offset, Open, Register, Close, Comma, Register];

const ADDRESS: [Role; 3] = [AnyName, Comma, Register];

const BRANCH: [Role; 5] = [Register, Comma, Register, Comma, CodeName];

const TARGET: [Role; 1] = [CodeName];

const TARGET_AND_LINK: [Role; 3] = [CodeName, Comma, Register];

/// What stands in the places behind a mnemonic.
fn shape(mnemonic: Mnemonic) -> &'static [Role]
    ensures { map role result.now ≡ Forms.shape mnemonic }
{
    match mnemonic {
        Mnemonic::Compute(_) => &THREE_REGISTERS,
        Mnemonic::Not | Mnemonic::Mstart | Mnemonic::Mov | Mnemonic::CallReg => &TWO_REGISTERS,
        Mnemonic::Asr => &COUNTED,
        Mnemonic::Sh => &COUNTED_PAIR,
        Mnemonic::Addi => &ADDED,
        Mnemonic::Nop | Mnemonic::Halt | Mnemonic::System => &NOTHING,
        Mnemonic::MoveFrom => &FROM_SPECIAL,
        Mnemonic::MoveTo => &TO_SPECIAL,
        Mnemonic::Load | Mnemonic::Store => &ACCESS,
        Mnemonic::LoadAddress => &ADDRESS,
        Mnemonic::Branch(_) | Mnemonic::SwappedBranch(_) => &BRANCH,
        Mnemonic::Goto => &TARGET,
        Mnemonic::Call => &TARGET_AND_LINK,
        Mnemonic::JumpReg => &REGISTER,
    }
}

/// What stands in the places behind a name that is a mnemonic, as a list of its own.
fn instruction_places(alloc: Global, name: &[u8]) -> Result<Option<Vec<Role>>, AllocError>
    ensures { IfOk result (λ o. option_map (λ v. map role v.items) o ≡ option_map Forms.shape (mnemonic_named name.now)) }
{
    match mnemonic_named(name) {
        Some(mnemonic) => Ok(Some(Vec::from_slice(alloc, shape(mnemonic))?)),
        None => Ok(None),
    }
}

/// What stands in the places behind `.word`, as many as so many words may be.
fn values(alloc: Global, words: &[Word]) -> Result<Vec<Role>, AllocError>
    ensures { IfOk result (λ v. map role v.items ≡ Forms.values (map word words.now)) }
{
    let mut roles = Vec::new(alloc);
    let mut rest = words;
    while let [_, _, tail @ ..] = rest {
        roles.push(Role::DataValue)?;
        roles.push(Role::Comma)?;
        rest = tail;
    }
    roles.push(Role::DataValue)?;
    Ok(roles)
}

/// What stands in the places behind a directive.
#[tactic(auto, unfolding(mx_asm::specs::Directives::directive_named))]
fn directive_places(
    alloc: Global,
    name: &[u8],
    words: &[Word],
) -> Result<Option<Vec<Role>>, AllocError>
    ensures { IfOk result
        (λ o. option_map (λ v. map role v.items) o ≡ option_map (λ d. Forms.directive_shape d (map word words.now)) (directive_named name.now)) }
{
    if spells(name, ".code") || spells(name, ".data") || spells(name, ".input") {
        Ok(Some(Vec::new(alloc)))
    } else if spells(name, ".word") {
        Ok(Some(values(alloc, words)?))
    } else if spells(name, ".space") {
        Ok(Some(Vec::from_slice(alloc, &[Role::WordCount])?))
    } else {
        Ok(None)
    }
}

/// What stands in the places behind the name of a statement, if that is known.
pub fn places(alloc: Global, statement: &[Word]) -> Result<Option<Vec<Role>>, AllocError>
    ensures { IfOk result (λ o. option_map (λ v. map role v.items) o ≡ Showing.places (Forms.form (map word statement.now))) }
{
    match statement {
        [Word::Name(name), words @ ..] => {
            if is_dotted(name) {
                directive_places(alloc, name, words)
            } else {
                instruction_places(alloc, name)
            }
        }
        _ => Ok(None),
    }
}
