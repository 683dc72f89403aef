//! What names mean.
ghost use Rattle.std.specs.Prelude.{◌≡◌, ◌<◌, ◌↔◌, ◌++◌, ◌∷◌, [], IfOk, OnOk, OnErr, length, slice_get};
ghost use Rattle.cc_program.specs.Changes;
ghost use Rattle.cc_program.specs.Programs;
ghost use Rattle.cc_rules.specs.Names;

use crate::item::number_behind;
use cc_lines::{LineError, Refusal};
use cc_rules::{LONGEST_NAME, spelled_len};
use indexmap::IndexMap;
use std::alloc::{AllocError, Global};

/// What a symbol means.
#[derive(Clone, Copy)]
pub enum Meaning {
    Unknown,
    /// The function with this number.
    Function(u32),
    /// The item with this number, of this function.
    Place { item: usize, function: u32 },
    /// The datum with this number.
    Object(u32),
    /// What another symbol means.
    Alias(u32),
    /// The first byte after all data.
    End,
    /// The first byte after the memory.
    Limit,
}

/// A symbol.
#[derive(Clone, Copy)]
pub struct Symbol<'a> {
    pub name: &'a [u8],
    /// The text that it belongs to, counted from 1, or 0 where texts share it. Of a label that is a number, its own number among all
    /// such labels.
    pub owner: u32,
    pub meaning: Meaning,
    /// It may be defined again, or nowhere.
    pub weak: bool,
    /// Something names it.
    pub used: bool,
    /// The datum that holds its place.
    pub descriptor: Option<u32>,
}

impl<'a> Symbol<'a> {
    /// Whether it is defined nowhere so far.
    fn is_unknown(&self) -> bool
        ensures { result ≡ Changes.is_unknown self.now.meaning }
    {
        matches!(self.meaning, Meaning::Unknown)
    }
}

/// All symbols, by number and by name.
#[derive(Drop)]
pub struct Symbols<'a> {
    /// Each symbol at its number.
    pub list: Vec<Symbol<'a>>,
    shared: IndexMap<&'a [u8], u32>,
    own: IndexMap<&'a [u8], u32>,
}

/// How many aliases follow one another at most.
const MOST_ALIASES: u32 = 16;

impl<'a> Symbols<'a> {
    /// The names that the translation defines, alone.
    pub fn new(alloc: Global) -> Result<Symbols<'a>, AllocError> {
        let mut symbols = Symbols {
            list: Vec::new(alloc),
            shared: IndexMap::new(alloc),
            own: IndexMap::new(alloc),
        };
        let end = symbols.number(b"_end")?;
        let _defined = symbols.define(end, Meaning::End, true);
        let limit = symbols.number(b"_limit")?;
        let _defined = symbols.define(limit, Meaning::Limit, true);
        Ok(symbols)
    }

    /// Begins a text, which has no names of its own yet.
    pub fn begin_unit(&mut self)
        ensures list { self.new.list.items ≡ self.old.list.items }
        ensures own { Changes.HasNoOwnNames self.new }
    {
        self.own.clear();
    }

    /// Adds a name that nothing defines so far.
    pub fn push(&mut self, name: &'a [u8], owner: u32) -> Result<u32, AllocError>
        ensures number { IfOk result (λ number. number ≡ length self.old.list.items) }
        ensures kept { Changes.Extends self.old.list.items self.new.list.items }
        ensures pushed { OnOk result (self.new.list.items ≡ self.old.list.items ++ Changes.fresh name.entry owner ∷ []) }
        ensures failed { OnErr result (self.new.list.items ≡ self.old.list.items) }
    {
        let number = number_behind(self.list.len())?;
        self.list.push(Symbol {
            name,
            owner,
            meaning: Meaning::Unknown,
            weak: false,
            used: false,
            descriptor: None,
        })?;
        Ok(number)
    }

    /// Makes a name one of the text with this number, counted from 1.
    pub fn make_own(&mut self, name: &'a [u8], owner: u32) -> Result<(), AllocError>
        ensures kept { Changes.Extends self.old.list.items self.new.list.items }
        ensures gained { Changes.MayGain (Changes.fresh name.entry owner) self.old.list.items self.new.list.items }
    {
        if self.own.get(name).is_none() {
            let number = self.push(name, owner)?;
            self.own.insert(name, number)?;
        }
        Ok(())
    }

    /// The number of a name in the current text.
    pub fn number(&mut self, name: &'a [u8]) -> Result<u32, AllocError>
        ensures kept { Changes.Extends self.old.list.items self.new.list.items }
        ensures gained { Changes.MayGain (Changes.fresh name.entry 0) self.old.list.items self.new.list.items }
    {
        if let Some(number) = self.own.get(name) {
            return Ok(*number);
        }
        if let Some(number) = self.shared.get(name) {
            return Ok(*number);
        }
        let number = self.push(name, 0)?;
        self.shared.insert(name, number)?;
        Ok(number)
    }

    /// The number of a name in the current text, if lines of a source have room for it.
    pub fn number_if_short(&mut self, name: &'a [u8]) -> Result<u32, LineError>
        ensures { result ≡ Err (LineError.Refused Refusal.LongName) ↔ LONGEST_NAME < Names.spelled_len name.now }
    {
        if spelled_len(name) > LONGEST_NAME {
            return Err(LineError::Refused(Refusal::LongName));
        }
        match self.number(name) {
            Ok(number) => Ok(number),
            Err(_) => Err(LineError::Memory),
        }
    }

    /// The symbol with a number.
    pub fn at(&self, number: u32) -> Option<Symbol<'a>>
        ensures { result ≡ slice_get self.now.list.items number }
    {
        self.list.get(number as usize).copied()
    }

    /// What a symbol was defined as, which may be an alias.
    fn own_meaning(&self, number: u32) -> Meaning
        ensures { result ≡ Programs.own_meaning self.now.list.items number }
    {
        match self.list.get(number as usize) {
            Some(symbol) => symbol.meaning,
            None => Meaning::Unknown,
        }
    }

    /// The number of the symbol that a symbol is an alias of, or its own.
    pub fn resolved(&self, number: u32) -> u32
        ensures { result ≡ Programs.resolved self.now.list.items number }
    {
        let mut at = number;
        for _ in 0..MOST_ALIASES {
            match self.own_meaning(at) {
                Meaning::Alias(other) => at = other,
                _ => return at,
            }
        }
        at
    }

    /// What a symbol means, aliases followed.
    pub fn meaning(&self, number: u32) -> Meaning
        ensures { result ≡ Programs.meaning_of self.now.list.items number }
    {
        self.own_meaning(self.resolved(number))
    }

    /// Defines a symbol. Answers false where it is defined already, and neither is weak, or where there is none.
    pub fn define(&mut self, number: u32, meaning: Meaning, weak: bool) -> bool
        ensures answer { result ≡ Changes.may_define self.old.list.items number weak }
        ensures list { self.new.list.items ≡ Changes.changed (Changes.defined meaning weak) number self.old.list.items }
    {
        match self.list.get_mut(number as usize) {
            Some(symbol) => {
                if symbol.is_unknown() || (symbol.weak && !weak) {
                    symbol.meaning = meaning;
                    symbol.weak = weak;
                    true
                } else {
                    weak
                }
            }
            None => false,
        }
    }

    /// Lets a symbol that is defined nowhere be one that need not be.
    pub fn weaken(&mut self, number: u32)
        ensures { self.new.list.items ≡ Changes.changed Changes.weakened number self.old.list.items }
    {
        if let Some(symbol) = self.list.get_mut(number as usize) {
            if symbol.is_unknown() {
                symbol.weak = true;
            }
        }
    }

    /// Marks a symbol as named.
    pub fn use_it(&mut self, number: u32)
        ensures { self.new.list.items ≡ Changes.changed Changes.marked (Programs.resolved self.old.list.items number) self.old.list.items }
    {
        let resolved = self.resolved(number) as usize;
        if let Some(symbol) = self.list.get_mut(resolved) {
            symbol.used = true;
        }
    }

    /// Whether a symbol is marked as named.
    pub fn is_used(&self, number: u32) -> bool
        ensures { result ≡ Programs.is_used self.now.list.items number }
    {
        match self.list.get(number as usize) {
            Some(symbol) => symbol.used,
            None => false,
        }
    }

    /// Lets a datum hold the place of a symbol.
    pub fn describe(&mut self, number: u32, object: u32)
        ensures { self.new.list.items ≡ Changes.changed (Changes.described object) number self.old.list.items }
    {
        if let Some(symbol) = self.list.get_mut(number as usize) {
            symbol.descriptor = Some(object);
        }
    }
}
