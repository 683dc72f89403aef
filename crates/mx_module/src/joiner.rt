//! Texts to be joined.
ghost use Rattle.std.specs.Prelude.{◌≡◌};
ghost use Rattle.mx_io.specs.declared.limits.TheConstants.{MAX_SOURCE_BYTES};

use crate::error::JoinError;
use crate::module::modules_of;
use crate::program::joined_source;
use mx_io::Memory;
use mx_source::Source;
use std::alloc::Global;
use std::marker::Model;

/// The texts of a program, at most 16 of at most 4,194,304 bytes.
#[derive(Drop)]
pub struct Joiner {
    alloc: Global,
    texts: Vec<Vec<u8>>,
}

impl Model for Joiner {
    ghost use Rattle.std.specs.Prelude.{ℕ, List, ◌≤◌, All, length, map};
    ghost use Rattle.mx_module.specs.ModuleView.{text_bytes, IsShort};

    ghost Value = { List (List ℕ) };

    ghost view = { λ j. map text_bytes j.texts.items };

    ghost invariant = { λ j. (length j.texts.items ≤ 16) × All IsShort j.texts.items };
}

impl Joiner {
    ghost use Rattle.std.specs.Prelude.{◌≡◌, ◌≤◌, ◌<◌, ◌++◌, ◌∷◌, [], length, IfOk, IfErr, OnOk, OnErr};
    ghost use Rattle.mx_module.specs.Joined.{Joins, IsJoinRefusal, join_fault};

    /// No texts.
    pub fn new(alloc: Global) -> Joiner
        ensures { result ≡ [] }
    {
        Joiner {
            alloc,
            texts: Vec::new(alloc),
        }
    }

    /// Adds a text.
    ///
    /// # Errors
    ///
    /// `Memory` where there is no room for it: all stays as it was.
    pub fn add(&mut self, text: &[u8]) -> Result<(), Memory>
        requires room { length self.old < 16 }
        requires short { length text.now ≤ MAX_SOURCE_BYTES }
        ensures added { OnOk result (self.new ≡ self.old ++ text.now ∷ []) }
        ensures kept { OnErr result (self.new ≡ self.old) }
    {
        let Ok(text) = Vec::from_slice(self.alloc, text) else {
            return Err(Memory);
        };
        if self.texts.push(text).is_err() {
            return Err(Memory);
        }
        Ok(())
    }

    /// The source that the texts join as.
    ///
    /// # Errors
    ///
    /// `Refused` with the first faulty import or export line, else with the first other faulty line,
    /// and its least fault, exactly where there is one. `Memory` where there is no room.
    pub fn join(&self, alloc: Global) -> Result<Source, JoinError>
        requires some { 1 ≤ length self.now }
        ensures source { IfOk result (Joins self.now) }
        ensures refused { IfErr result (IsJoinRefusal (join_fault self.now)) }
    {
        let blanks = vec![in alloc; b' '; 256]?;
        let modules = modules_of(alloc, &self.texts, &blanks)?;
        joined_source(alloc, &modules)
    }
}
