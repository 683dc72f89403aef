//! What all lines do.
ghost use Rattle.std.specs.Prelude.{◌≡◌, [], None, OnOk};
ghost use Rattle.mx_asm.specs.Effects;
ghost use Rattle.mx_asm.specs.Effects.{Adds};

use crate::effect::Effect;
use mx_source::{Statement, Value};
use std::alloc::{AllocError, Global};

/// The statements with their lines, the data words, and the line of the first `.input`.
#[derive(Drop)]
pub struct Listing {
    pub statements: Vec<Statement>,
    pub lines: Vec<u32>,
    pub user_data: Vec<Value>,
    pub input: Option<u32>,
}

impl Listing {
    /// Nothing yet.
    pub fn new(alloc: Global) -> Listing
        ensures statements { result.statements.items ≡ [] }
        ensures lines { result.lines.items ≡ [] }
        ensures user_data { result.user_data.items ≡ [] }
        ensures input { result.input ≡ None }
    {
        Listing {
            statements: Vec::new(alloc),
            lines: Vec::new(alloc),
            user_data: Vec::new(alloc),
            input: None,
        }
    }
}

/// Adds what a line does.
pub fn add(listing: &mut Listing, number: u32, effect: Effect) -> Result<(), AllocError>
    ensures { OnOk result (Adds listing.old listing.new number (Effects.effect effect)) }
{
    match effect {
        Effect::Nothing => {}
        Effect::Instruction(statement) => {
            listing.statements.push(statement)?;
            listing.lines.push(number)?;
        }
        Effect::Data(values) => listing.user_data.extend_from_slice(&values)?,
        Effect::Input => {
            if listing.input.is_none() {
                listing.input = Some(number);
            }
        }
    }
    Ok(())
}
