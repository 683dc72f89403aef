//! Linking two sources into one image.
ghost use Rattle.std.specs.Prelude.{◌≡◌, ◌≤◌, ◌++◌, ◌-◌, ℕ, IfOk, IfErr, OnOk, length, replicate};
ghost use Rattle.mx_layout.specs.declared.LinkError.TheVariants.{Displacement as LinkDisplacement, Memory as LinkMemory};
ghost use Rattle.mx_link.specs.Parts.{HaveRegisters};
ghost use Rattle.mx_tasks.specs.Images.{beside, shared_code, shared_data};
ghost use Rattle.mx_tasks.specs.Shared.{IsShared, IsShareRefusal};
ghost use Rattle.mx_tasks.specs.declared.sharing.ShareError.TheVariants.{Displacement as ShareDisplacement, Memory as ShareMemory};

use mx_blocks::Plan;
use mx_code::{Image, NO_OP};
use mx_isa::Place;
use mx_link::{LinkError, link};
use mx_source::Source;
use mx_validate::Proposer;
use std::alloc::{AllocError, Global};
use thiserror::Error;

/// The place of the first program: code from 4096, user data from 256 to 32767.
pub const LOWER: Place = Place {
    code: 4096,
    user_data: 256,
    end: 32_768,
    console: 255,
    input: 254,
};

/// The place of the second program: code from 34096, user data from 32768 to 65535.
pub const UPPER: Place = Place {
    code: 34_096,
    user_data: 32_768,
    end: 65_536,
    console: 255,
    input: 254,
};

/// How many code words, and data words, the first program's place has.
const LOWER_CODE: usize = 30_000;

const LOWER_DATA: usize = 32_512;

/// Two linked programs in one image, the first at `LOWER` and the second at `UPPER`: for each, the addresses of its
/// statements and of the end of its code, and the plan that was proposed for each of its blocks.
#[derive(Drop)]
pub struct Shared {
    pub image: Image,
    pub first_links: Vec<u32>,
    pub second_links: Vec<u32>,
    pub first_proposals: Vec<Plan>,
    pub second_proposals: Vec<Plan>,
}

/// Why two sources are not linked.
#[derive(Clone, Copy, Debug, PartialEq, Eq, Error)]
pub enum ShareError {
    /// A branch of program 1 or 2 on this line, at the address `from`, does not reach its target at `to`.
    #[error("program {program} line {line}: no displacement reaches from {from} to {to}")]
    Displacement {
        program: u32,
        line: u32,
        from: u32,
        to: u32,
    },
    /// Memory ran out.
    #[error("out of memory")]
    Memory,
}

// Appends a word so many times.
fn push_times(words: &mut Vec<u32>, times: usize, word: u32) -> Result<(), AllocError>
    ensures { OnOk result (words.new.items ≡ words.old.items ++ replicate times word) }
{
    for _done in 0..times {
        words.push(word)?;
    }
    Ok(())
}

// Words, and others that begin `start` words later, if there are any; a word stands between them.
fn joined(
    first: Vec<u32>,
    second: &[u32],
    start: usize,
    between: u32,
) -> Result<Vec<u32>, AllocError>
    ensures { IfOk result (λ all. all.items ≡ beside start between first.items second.now) }
{
    let mut all = first;
    if !second.is_empty() {
        let missing = start.saturating_sub(all.len());
        push_times(&mut all, missing, between)?;
        all.extend_from_slice(second)?;
    }
    Ok(all)
}

// The refusal of a program.
fn refusal(program: u32, error: LinkError) -> ShareError
    ensures displaced { (line from to : ℕ) → error ≡ LinkDisplacement line from to → result ≡ ShareDisplacement program line from to }
    ensures memory { error ≡ LinkMemory → result ≡ ShareMemory }
{
    match error {
        LinkError::Displacement { line, from, to } => ShareError::Displacement {
            program,
            line,
            from,
            to,
        },
        LinkError::Memory => ShareError::Memory,
    }
}

// The two programs in one image.
fn image_of(first: Image, second: &Image) -> Result<Image, AllocError>
    requires first_code { length first.code.items ≤ 30000 }
    requires second_code { length second.now.code.items ≤ 30000 }
    requires first_data { length first.user_data.items ≤ 32512 }
    requires second_data { length second.now.user_data.items ≤ 32768 }
    ensures code { IfOk result (λ image. image.code.items ≡ shared_code first.code.items second.now.code.items) }
    ensures user_data { IfOk result (λ image. image.user_data.items ≡ shared_data first.user_data.items second.now.user_data.items) }
{
    let Image { code, user_data } = first;
    let code = joined(code, &second.code, LOWER_CODE, NO_OP)?;
    let user_data = joined(user_data, &second.user_data, LOWER_DATA, 0)?;
    Ok(Image { code, user_data })
}

/// Links two sources into one image, each at its place as `link` does. Behind the first program's code stand no-ops up to the
/// second's, and behind its data zeros, where the second has any.
///
/// # Errors
///
/// `Displacement` exactly where some branch of a program would not reach its target, had each block its padded plan: the first
/// one in source order, of the first program before the second. `Memory` where there is no room.
pub fn share<P: Proposer>(
    alloc: Global,
    first: &Source,
    second: &Source,
    proposer: &mut P,
) -> Result<Shared, ShareError>
    requires first_few { length first.now.statements ≤ 10000 }
    requires second_few { length second.now.statements ≤ 10000 }
    requires first_data { length first.now.user_data ≤ 32512 }
    requires second_data { length second.now.user_data ≤ 32768 }
    ensures shared { IfOk result (IsShared P.proposes first.now second.now) }
    ensures registers { OnOk result (HaveRegisters first.now.statements × HaveRegisters second.now.statements) }
    ensures refused { IfErr result (IsShareRefusal P.proposes first.now second.now) }
{
    let lower = match link(alloc, first, LOWER, proposer) {
        Ok(linked) => linked,
        Err(error) => return Err(refusal(1, error)),
    };
    let upper = match link(alloc, second, UPPER, proposer) {
        Ok(linked) => linked,
        Err(error) => return Err(refusal(2, error)),
    };
    let Ok(image) = image_of(lower.image, &upper.image) else {
        return Err(ShareError::Memory);
    };
    Ok(Shared {
        image,
        first_links: lower.links,
        second_links: upper.links,
        first_proposals: lower.proposals,
        second_proposals: upper.proposals,
    })
}
