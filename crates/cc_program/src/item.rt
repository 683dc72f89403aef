//! What functions and data are made of.
ghost use Rattle.std.specs.Prelude.{◌≡◌, ◌≤◌, ◌^◌, false, None, [], IfOk, OnErr};

use cc_lines::Instruction;
use std::alloc::{AllocError, Global};

/// The number of what follows so many others, if 32 bits hold it.
pub fn number_behind(count: usize) -> Result<u32, AllocError>
    ensures ok { IfOk result (λ number. number ≡ count) }
    ensures err { OnErr result (2 ^ 32 ≤ count) }
{
    match u32::try_from(count) {
        Ok(number) => Ok(number),
        Err(_) => Err(AllocError),
    }
}

/// A line of a function that matters: a label, a statement, or where the next statements come from.
#[derive(Clone, Copy)]
pub enum Item {
    /// A label, by the number of its symbol.
    Label(u32),
    /// An instruction, the number of the symbol that it names, and its line.
    Code {
        instruction: Instruction,
        symbol: Option<u32>,
        line: u32,
    },
    Location {
        file: u32,
        line: u32,
    },
}

/// A function: its items are those from `first` to before `end`.
#[derive(Clone, Copy)]
pub struct Function {
    pub symbol: u32,
    pub unit: u32,
    pub first: usize,
    pub end: usize,
    /// Whether register 30 is its frame pointer.
    pub points: bool,
    pub frame: u32,
    /// Where register 31 is saved, from the stack pointer on, as `.mask` says.
    pub masked_link: Option<u32>,
    /// Where a statement of the function saves it: the one that `.mask` speaks of, or the first.
    pub saved_link: Option<u32>,
    /// Whether it calls.
    pub calls: bool,
    /// Whether the addresses of some of its labels are values, or it jumps to such addresses of others.
    pub computes: bool,
    pub kept: bool,
}

impl Function {
    /// A function without items, which would begin with this one.
    pub fn new(symbol: u32, unit: u32, first: usize) -> Function
        ensures { result ≡ record { symbol = symbol; unit = unit; first = first; end = first; points = false; frame = 0; masked_link = None; saved_link = None; calls = false; computes = false; kept = false } }
    {
        Function {
            symbol,
            unit,
            first,
            end: first,
            points: false,
            frame: 0,
            masked_link: None,
            saved_link: None,
            calls: false,
            computes: false,
            kept: false,
        }
    }
}

/// A word of data that is a symbol and an addend, less the symbol `from`, if there is one.
#[derive(Clone, Copy)]
pub struct Reference {
    pub at: u32,
    pub symbol: u32,
    pub addend: u32,
    pub from: Option<u32>,
    pub line: u32,
}

/// A function that runs before `main`, or after it, those with the least order first.
#[derive(Clone, Copy)]
pub struct Startup {
    pub symbol: u32,
    pub after: bool,
    pub order: u32,
    pub unit: u32,
    pub line: u32,
}

/// What a datum is made of: `size` bytes, of which those that are not held are 0.
#[derive(Drop)]
pub struct Content {
    pub size: u32,
    pub bytes: Vec<u8>,
    pub references: Vec<Reference>,
}

/// Where a datum is: at a multiple of so many bytes.
#[derive(Clone, Copy)]
pub struct Standing {
    pub align: u32,
    pub address: u32,
}

/// A place so many bytes after a symbol, and the line that names it.
#[derive(Clone, Copy)]
pub struct Within {
    pub symbol: u32,
    pub addend: u32,
    pub line: u32,
}

/// A datum from one label to the next.
#[derive(Drop)]
pub struct Object {
    pub symbol: u32,
    pub unit: u32,
    pub content: Content,
    pub standing: Standing,
    /// The datum of the same section that it follows, if there is one: where it is empty, it is at the end of that.
    pub after: Option<u32>,
    /// What it is a place in, if it is one.
    pub within: Option<Within>,
    pub kept: bool,
}

impl Object {
    /// A datum of zeros that nothing was found to need.
    pub fn new(alloc: Global, symbol: u32, unit: u32, size: u32, align: u32) -> Object
        ensures names { (result.symbol ≡ symbol) × (result.unit ≡ unit) }
        ensures zeros { (result.content.size ≡ size) × (result.content.bytes.items ≡ []) × (result.content.references.items ≡ []) }
        ensures standing { result.standing ≡ record { align = align; address = 0 } }
        ensures unkept { (result.after ≡ None) × (result.within ≡ None) × (result.kept ≡ false) }
    {
        Object {
            symbol,
            unit,
            content: Content {
                size,
                bytes: Vec::new(alloc),
                references: Vec::new(alloc),
            },
            standing: Standing { align, address: 0 },
            after: None,
            within: None,
            kept: false,
        }
    }
}
