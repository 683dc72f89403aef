//! Words in assembly language.
ghost use Rattle.std.specs.Prelude.{IfOk, IfSome, string_bytes, ◌≡◌};
ghost use Rattle.mx_code.specs.Decoding.{inst_of};
ghost use Rattle.lab_words.specs.Naming.{Naming, NameAlike, naming};
ghost use Rattle.lab_words.specs.Texts.{instruction_text};

use crate::assembly::push_instruction;
use crate::names::PlaceNames;
use mx_code::decode;
use std::alloc::{AllocError, Global};

/// The word at an address in assembly language, with names that are like those of the places, and with the aim of the
/// statement that it comes from where that is known; `.word` and its number where it spells no
/// instruction.
#[tactic(auto, using(crate::proofs::Alike::text_alike))]
pub fn word_text(
    alloc: Global,
    names: &PlaceNames,
    aim: Option<u32>,
    address: u32,
    word: u32,
) -> Result<String, AllocError>
    ensures { (n : Naming) → NameAlike (naming names.now) n →
        IfOk result (λ text. IfSome (inst_of word) (λ i. string_bytes text ≡ instruction_text n aim address i)) }
{
    match decode(word) {
        Some(inst) => {
            let mut text = String::new(alloc);
            push_instruction(&mut text, names, aim, address, &inst)?;
            Ok(text)
        }
        None => format!(in alloc; ".word 0x{word:08x}"),
    }
}
