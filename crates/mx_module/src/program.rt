//! What the lines of all modules do.
ghost use Rattle.std.specs.Prelude.{◌≡◌, ◌≤◌, ◌<◌, ◌++◌, [], length, IfOk, IfErr, OnOk};
ghost use Rattle.mx_asm.specs.Effects.{first_input};
ghost use Rattle.mx_module.specs.Terms.{first_fault, IsListingOf};
ghost use Rattle.mx_module.specs.Joined;
ghost use Rattle.mx_module.specs.Joined.{IsJoinRefusal, JoinsModules, fault_in_lines, line_of, program_fault};
ghost use Rattle.mx_module.specs.ModuleView.{IsProgram, IsListingOfAll, line_refusal};

use crate::error::{JoinError, JoinFault};
use crate::imports::seen_in;
use crate::link_faults::fault_in_modules;
use crate::module::Module;
use crate::names::names_of;
use mx_asm::{Listing, listed_source};
use mx_lines::AsmError;
use mx_source::Source;
use std::alloc::{AllocError, Global};

/// Adds what the lines of one more module do.
fn append(listing: &mut Listing, more: &Listing) -> Result<(), AllocError>
    ensures statements { OnOk result (listing.new.statements.items ≡ listing.old.statements.items ++ more.now.statements.items) }
    ensures lines { OnOk result (listing.new.lines.items ≡ listing.old.lines.items ++ more.now.lines.items) }
    ensures user_data { OnOk result (listing.new.user_data.items ≡ listing.old.user_data.items ++ more.now.user_data.items) }
    ensures input { OnOk result (listing.new.input ≡ first_input listing.old.input more.now.input) }
{
    listing.statements.extend_from_slice(&more.statements)?;
    listing.lines.extend_from_slice(&more.lines)?;
    listing.user_data.extend_from_slice(&more.user_data)?;
    if listing.input.is_none() {
        listing.input = more.input;
    }
    Ok(())
}

/// The refusal of a program by the fault of a line of the module at this place.
fn refusal(place: usize, error: AsmError) -> JoinError
    requires { place < 16 }
    ensures { result ≡ line_refusal place error }
{
    match error {
        AsmError::Refused { line, fault } => JoinError::Refused {
            module: place as u32 + 1,
            line,
            fault: JoinFault::Line(fault),
        },
        AsmError::Memory => JoinError::Memory,
    }
}

/// What the lines of the module at this place do, or the first faulty line.
fn read_module(
    alloc: Global,
    modules: &[Module],
    place: usize,
    own: &Module,
) -> Result<Listing, JoinError>
    requires few { place < 16 }
    requires within { place < length modules.now }
    requires room { own.now.start.index ≤ 20000 }
    requires order { own.now.start.address ≤ 65536 }
    ensures read { IfOk result (IsListingOf (Joined.seen_in modules.now place own.now) 65536 own.now.start own.now.lines) }
    ensures refused { IfErr result (IsJoinRefusal
        (line_of place (first_fault (Joined.seen_in modules.now place own.now) 65536 own.now.start [] 1 own.now.lines))) }
{
    let seen = seen_in(alloc, modules, place, own)?;
    match own.read_lines(alloc, &seen) {
        Ok(listing) => Ok(listing),
        Err(error) => Err(refusal(place, error)),
    }
}

/// What the lines of all modules do, or the first faulty line.
fn read_program(alloc: Global, modules: &[Module]) -> Result<Listing, JoinError>
    requires program { IsProgram modules.now }
    ensures read { IfOk result (IsListingOfAll modules.now) }
    ensures refused { IfErr result (IsJoinRefusal (fault_in_lines modules.now 0 modules.now)) }
{
    let mut listing = Listing::new(alloc);
    let mut place = 0usize;
    for module in modules {
        let more = read_module(alloc, modules, place, module)?;
        append(&mut listing, &more)?;
        place += 1;
    }
    Ok(listing)
}

/// The source of a program, or its first fault.
pub fn joined_source(alloc: Global, modules: &[Module]) -> Result<Source, JoinError>
    requires { IsProgram modules.now }
    ensures source { IfOk result (JoinsModules modules.now) }
    ensures refused { IfErr result (IsJoinRefusal (program_fault modules.now)) }
{
    if let Some((module, line, fault)) = fault_in_modules(modules) {
        return Err(JoinError::Refused {
            module,
            line,
            fault,
        });
    }
    let listing = read_program(alloc, modules)?;
    let named = names_of(alloc, modules)?;
    Ok(listed_source(listing, named))
}
