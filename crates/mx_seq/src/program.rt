//! What a `Seq` executes.
ghost use Rattle.std.specs.Prelude.{◌≡◌, ◌≤◌, ◌<◌, ◌==◌, length, IfOk, OnSome, IfSome, false};
ghost use Rattle.std.specs.Bool.{OnTrue};
ghost use Rattle.std.specs.Option.{option_copied};
ghost use Rattle.std.specs.List.{slice_get};
ghost use Rattle.mx_io.specs.declared.limits.TheConstants.{MAX_FILE_BYTES};
ghost use Rattle.mx_isa.specs.declared.board.TheConstants.{MAX_STATEMENTS};
ghost use Rattle.mx_isa.specs.UserBus.{is_user};
ghost use Rattle.mx_source.specs.Meaning.{program, given};
ghost use Rattle.mx_seq.specs.Programs.{Fits, bytes_in, byte_of, is_input};

use mx_source::{Memory, Place, Source, Statement};
use std::alloc::{AllocError, Global};
use std::marker::Model;

/// The statements, where the program stands, and the bytes of its input, if it has input.
#[derive(Drop)]
pub(crate) struct Program {
    statements: Vec<Statement>,
    place: Place,
    input: Option<Vec<u8>>,
}

impl Model for Program {
    ghost use Rattle.mx_source.specs.Meaning.{Program as Meant};
    ghost use Rattle.mx_seq.specs.ProgramView.{program_value};
    ghost use Rattle.mx_seq.specs.Programs.{IsProgram};

    ghost Value = { Meant };

    ghost view = { program_value };

    ghost invariant = { λ p. IsProgram (program_value p) };
}

impl Program {
    /// A source at a place, with the bytes of its input.
    pub(crate) fn new(
        alloc: Global,
        source: &Source,
        place: Place,
        input: &[u8],
    ) -> Result<Program, Memory>
        requires { length input.now ≤ MAX_FILE_BYTES }
        ensures { IfOk result (λ p. p ≡ program source.now place input.now) }
    {
        let Ok(statements) = Vec::from_slice(alloc, source.statements()) else {
            return Err(Memory);
        };
        let Ok(input) = kept(alloc, source.input(), input) else {
            return Err(Memory);
        };
        Ok(Program {
            statements,
            place,
            input,
        })
    }

    /// The statement at an index.
    pub(crate) fn statement(&self, index: u32) -> Option<&Statement>
        ensures value { option_copied result ≡ slice_get self.now.statements index }
        ensures inside { OnSome result (index < MAX_STATEMENTS) }
        ensures fits { IfSome result (λ s. Fits s.now) }
    {
        self.statements.get(index as usize)
    }

    /// Whether the address is one of user data.
    pub(crate) fn is_user(&self, address: u32) -> bool
        ensures { result ≡ is_user self.now.place address }
    {
        self.place.user_data <= address && address < self.place.end
    }

    /// Whether the address is that of the console.
    pub(crate) fn is_console(&self, address: u32) -> bool
        ensures value { result ≡ (address == self.now.place.console) }
        ensures outside { OnTrue result (is_user self.now.place address ≡ false) }
    {
        address == self.place.console
    }

    /// Whether a load from the address takes a byte of the input.
    pub(crate) fn is_input(&self, address: u32) -> bool
        ensures { result ≡ is_input self.now address }
    {
        self.input.is_some() && address == self.place.input
    }

    /// The byte of the input after so many.
    pub(crate) fn byte(&self, taken: u32) -> Option<u8>
        ensures value { result ≡ byte_of self.now.input taken }
        ensures inside { OnSome result (taken < MAX_FILE_BYTES) }
    {
        match &self.input {
            Some(bytes) => bytes.get(taken as usize).copied(),
            None => None,
        }
    }
}

/// The bytes, where the source has input.
fn kept(alloc: Global, line: Option<u32>, input: &[u8]) -> Result<Option<Vec<u8>>, AllocError>
    ensures { IfOk result (λ o. bytes_in o ≡ given line input.now) }
{
    match line {
        Some(_) => Ok(Some(Vec::from_slice(alloc, input)?)),
        None => Ok(None),
    }
}
