//! A program as it was read.
ghost use Rattle.std.specs.Prelude.{◌≡◌, IfOk, slice_get};
ghost use Rattle.cc_program.specs.Programs;

use crate::item::{Function, Item, Object, Startup};
use crate::symbols::{Meaning, Symbols};
use cc_rules::LIMIT;
use indexmap::IndexMap;
use std::alloc::{AllocError, Global};

/// A program: its symbols, its functions and their items, its data, and the names of source files in quotes.
#[derive(Drop)]
pub struct Program<'a> {
    pub symbols: Symbols<'a>,
    pub items: Vec<Item>,
    pub functions: Vec<Function>,
    pub objects: Vec<Object>,
    /// The functions that run before `main`, and after it.
    pub calls: Vec<Startup>,
    /// The datum that holds the lowest address that the stack may take, if there is one.
    pub stack_limit: Option<u32>,
    pub files: IndexMap<u64, &'a [u8]>,
}

impl<'a> Program<'a> {
    /// A program with nothing in it.
    pub fn new(alloc: Global) -> Result<Program<'a>, AllocError>
        ensures { IfOk result (λ program. Programs.IsEmpty program) }
    {
        Ok(Program {
            symbols: Symbols::new(alloc)?,
            items: Vec::new(alloc),
            functions: Vec::new(alloc),
            objects: Vec::new(alloc),
            calls: Vec::new(alloc),
            stack_limit: None,
            files: IndexMap::new(alloc),
        })
    }

    /// The function with a number.
    pub fn function(&self, number: u32) -> Option<Function>
        ensures { result ≡ slice_get self.now.functions.items number }
    {
        self.functions.get(number as usize).copied()
    }

    /// The items of a function.
    pub fn items_of(&self, function: &Function) -> &[Item]
        ensures { result.now ≡ Programs.items_of self.now.items.items function.now }
    {
        self.items
            .as_slice()
            .get(function.first..function.end)
            .unwrap_or(&[])
    }

    /// The address of a symbol: of a function, or of a label in one, that of the word that holds its place. 0 where it has none.
    pub fn address(&self, symbol: u32) -> u32
        ensures { result ≡ Programs.address_of self.now symbol }
    {
        let object = match self.symbols.meaning(symbol) {
            Meaning::Object(object) => Some(object),
            Meaning::Function(function) => match self.function(function) {
                Some(function) => self.descriptor(function.symbol),
                None => None,
            },
            Meaning::Place { .. } => self.descriptor(self.symbols.resolved(symbol)),
            Meaning::Limit => return LIMIT,
            _ => None,
        };
        match object {
            Some(object) => match self.objects.get(object as usize) {
                Some(object) => object.standing.address,
                None => 0,
            },
            None => 0,
        }
    }

    /// The datum that holds the place of a symbol.
    fn descriptor(&self, symbol: u32) -> Option<u32>
        ensures { result ≡ Programs.descriptor_of self.now.symbols.list.items symbol }
    {
        match self.symbols.at(symbol) {
            Some(symbol) => symbol.descriptor,
            None => None,
        }
    }
}
