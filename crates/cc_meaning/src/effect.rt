//! What each instruction does.
ghost use Rattle.std.specs.Prelude.{◌≡◌};
ghost use Rattle.cc_meaning.specs.Instructions;
ghost use Rattle.cc_meaning.specs.Machines.{state_of};
ghost use Rattle.cc_meaning.specs.Steps;

use crate::arithmetic::{compared, computed, multiplied, shifted};
use crate::layout::Layout;
use crate::machine::Machine;
use crate::parts::{loaded, stored};
use crate::symbols::{item_named, symbol_value};
use crate::value::{Value, Why};
use cc_lines::{Condition, Instruction, LinkFrom, Long, Register, Source, Special, Width};
use cc_program::{Item, Program};

/// A load of a word from this address takes a byte of the input.
pub const INPUT: u32 = 1016;

/// A word that is stored at this address is sent to the console.
pub const CONSOLE: u32 = 1020;

/// The code of the trap by which the library ends a program, with its status in register 2.
pub const BREAK_END: u32 = 1023;

/// The codes of a compiler's traps for an overflow and for a quotient by 0.
pub const BREAK_OVERFLOW: u32 = 6;

pub const BREAK_ZERO: u32 = 7;

/// The status that Linux gives a program that these traps end, 128 and the number of the signal.
pub const STATUS_ZERO: u8 = 136;

/// The same for all other traps.
pub const STATUS_TRAP: u8 = 133;

/// What an item does to a state. All but `Goes`, `GoesBy`, `Calls` and `Halts` go on with the next item.
#[derive(Clone, Copy)]
pub enum Effect {
    Follows,
    /// A value goes to a register.
    Puts(Register, Value),
    /// A value goes to LO or HI.
    PutsSpecial(Special, Value),
    /// Numbers go to LO and HI.
    PutsPair(u32, u32),
    /// A value goes to the word of memory that a byte is in.
    Writes(u32, Value),
    /// A byte goes to the console.
    Sends(u8),
    /// The next byte of the input goes to a register.
    Takes(Register),
    Goes(usize),
    /// Goes to an item by a register, whose value is not specified any more.
    GoesBy(Register, usize),
    /// Goes to an item, and register 31 takes the code address of the next one.
    Calls(usize),
    /// The program ends with a status.
    Halts(u8),
}

/// Whether a load or a store moves a word.
fn is_word(width: Width) -> bool
    ensures { result ≡ Instructions.is_word width }
{
    matches!(width, Width::Word)
}

/// A value goes to a register, if there is one.
fn puts(rd: Register, value: Result<Value, Why>) -> Result<Effect, Why>
    ensures { result ≡ Instructions.puts rd value }
{
    match value {
        Ok(value) => Ok(Effect::Puts(rd, value)),
        Err(why) => Err(why),
    }
}

/// A number as a value, if there is one.
fn number(number: Result<u32, Why>) -> Result<Value, Why>
    ensures { result ≡ Instructions.number number }
{
    Ok(Value::Number(number?))
}

/// The item that a symbol names.
fn target(program: &Program<'_>, symbol: Option<u32>) -> Result<usize, Why>
    ensures { result ≡ Instructions.target program.now symbol }
{
    let Some(symbol) = symbol else {
        return Err(Why::NotCode);
    };
    match item_named(program, symbol) {
        Some(item) => Ok(item),
        None => Err(Why::NotCode),
    }
}

/// A branch to a symbol.
fn branches(program: &Program<'_>, symbol: Option<u32>, taken: bool) -> Result<Effect, Why>
    ensures { result ≡ Instructions.branches program.now symbol taken }
{
    if taken {
        Ok(Effect::Goes(target(program, symbol)?))
    } else {
        Ok(Effect::Follows)
    }
}

/// Where the first function returns to: past all items.
pub(crate) fn caller(program: &Program<'_>) -> usize
    ensures { result ≡ Instructions.caller program.now }
{
    program.items.len() + 1
}

impl Machine {
    /// The value of a second operand.
    fn source_value(&self, source: Source) -> Value
        ensures { result ≡ Instructions.source_value (state_of self.now) source }
    {
        match source {
            Source::Register(register) => self.register(register),
            Source::Number(number) => Value::Number(number),
        }
    }

    /// A symbol's address, a number and what a register holds, added.
    fn address(&self, symbol: Value, base: Register, offset: u32) -> Result<u32, Why>
        ensures { result ≡ Instructions.address symbol (state_of self.now) base offset }
    {
        let from = self.register(base).number()?;
        Ok(symbol.number()?.wrapping_add(from.wrapping_add(offset)))
    }

    /// A load from an address.
    fn load_at(
        &self,
        layout: &Layout,
        width: Width,
        rd: Register,
        address: u32,
    ) -> Result<Effect, Why>
        ensures { result ≡ Instructions.load_at layout.now width (state_of self.now) rd address }
    {
        if layout.is_memory(address) {
            let word = self.memory_word(address);
            puts(rd, loaded(width, address % 4, word, self.register(rd)))
        } else if is_word(width) && address == INPUT {
            Ok(Effect::Takes(rd))
        } else {
            Err(Why::Outside)
        }
    }

    /// A store to an address.
    fn store_at(
        &self,
        layout: &Layout,
        width: Width,
        rs: Register,
        address: u32,
    ) -> Result<Effect, Why>
        ensures { result ≡ Instructions.store_at layout.now width (state_of self.now) rs address }
    {
        if layout.is_memory(address) {
            let word = self.memory_word(address);
            let value = stored(width, address % 4, word, self.register(rs))?;
            Ok(Effect::Writes(address, value))
        } else if is_word(width) && address == CONSOLE {
            let number = self.register(rs).number()?;
            Ok(Effect::Sends((number % 256) as u8))
        } else {
            Err(Why::Outside)
        }
    }

    /// A load.
    fn load(
        &self,
        layout: &Layout,
        symbol: Value,
        width: Width,
        rd: Register,
        base: Register,
        offset: u32,
    ) -> Result<Effect, Why>
        ensures { result ≡ Instructions.loads layout.now symbol (state_of self.now) width rd base offset }
    {
        let address = self.address(symbol, base, offset)?;
        self.load_at(layout, width, rd, address)
    }

    /// A store.
    fn store(
        &self,
        layout: &Layout,
        symbol: Value,
        width: Width,
        rs: Register,
        base: Register,
        offset: u32,
    ) -> Result<Effect, Why>
        ensures { result ≡ Instructions.stores layout.now symbol (state_of self.now) width rs base offset }
    {
        let address = self.address(symbol, base, offset)?;
        self.store_at(layout, width, rs, address)
    }

    /// A product or a quotient.
    fn multiplies(&self, op: Long, rs: Register, rt: Register) -> Result<Effect, Why>
        ensures { result ≡ Instructions.multiplies (state_of self.now) op rs rt }
    {
        let a = self.register(rs).number()?;
        let b = self.register(rt).number()?;
        let (low, high) = multiplied(op, a, b)?;
        Ok(Effect::PutsPair(low, high))
    }

    /// The code address in the word at an address.
    fn pointed(&self, address: u32) -> Result<usize, Why>
        ensures { result ≡ Instructions.pointed (state_of self.now) address }
    {
        if address % 4 == 0 {
            self.memory_word(address).code()
        } else {
            Err(Why::NotCode)
        }
    }

    /// The code address in the word that a value points to.
    fn pointed_by(&self, value: Value) -> Result<usize, Why>
        ensures { result ≡ Instructions.pointed_by (state_of self.now) value }
    {
        self.pointed(value.number()?)
    }

    /// The program ends, with its status in register 2.
    fn ends(&self) -> Result<Effect, Why>
        ensures { result ≡ Instructions.ends (state_of self.now) }
    {
        let status = self.register(Register(2)).number()?;
        Ok(Effect::Halts((status % 256) as u8))
    }

    /// A jump to an item, or to where the first function returns.
    fn goes(&self, program: &Program<'_>, item: usize) -> Result<Effect, Why>
        ensures { result ≡ Instructions.goes program.now (state_of self.now) item }
    {
        if item == caller(program) {
            self.ends()
        } else {
            Ok(Effect::Goes(item))
        }
    }

    /// A jump by a register that holds the code address of an item.
    fn goes_by(&self, program: &Program<'_>, register: Register, item: usize) -> Result<Effect, Why>
        ensures { result ≡ Instructions.goes_by program.now (state_of self.now) register item }
    {
        if item == caller(program) {
            self.ends()
        } else if register.0 == 31 {
            Ok(Effect::Goes(item))
        } else {
            Ok(Effect::GoesBy(register, item))
        }
    }

    /// A jump by a register that holds a value.
    fn jumps_by(
        &self,
        program: &Program<'_>,
        register: Register,
        value: Value,
    ) -> Result<Effect, Why>
        ensures { result ≡ Instructions.jumps_by program.now (state_of self.now) register value }
    {
        match value {
            Value::Code(item) => self.goes_by(program, register, item),
            _ if register.0 == 31 => Err(Why::NotCode),
            _ => self.goes(program, self.pointed_by(value)?),
        }
    }

    /// A jump.
    fn jumps(&self, program: &Program<'_>, symbol: Option<u32>, to: LinkFrom) -> Result<Effect, Why>
        ensures { result ≡ Instructions.jumps program.now symbol (state_of self.now) to }
    {
        match to {
            LinkFrom::Symbol => self.goes(program, target(program, symbol)?),
            LinkFrom::Register(register) => {
                self.jumps_by(program, register, self.register(register))
            }
        }
    }

    /// The item that a call goes to.
    fn called(&self, program: &Program<'_>, symbol: Option<u32>, to: LinkFrom) -> Result<usize, Why>
        ensures { result ≡ Instructions.called program.now symbol (state_of self.now) to }
    {
        match to {
            LinkFrom::Symbol => target(program, symbol),
            LinkFrom::Register(register) => self.pointed_by(self.register(register)),
        }
    }

    /// A call.
    fn calls(&self, program: &Program<'_>, symbol: Option<u32>, to: LinkFrom) -> Result<Effect, Why>
        ensures { result ≡ Instructions.calls program.now symbol (state_of self.now) to }
    {
        Ok(Effect::Calls(self.called(program, symbol, to)?))
    }

    /// A branch.
    fn compares(
        &self,
        program: &Program<'_>,
        symbol: Option<u32>,
        condition: Condition,
        rs: Register,
        second: Source,
    ) -> Result<Effect, Why>
        ensures { result ≡ Instructions.compares program.now symbol (state_of self.now) condition rs second }
    {
        let taken = compared(condition, self.register(rs), self.source_value(second))?;
        branches(program, symbol, taken)
    }

    /// A trap.
    fn breaks(&self, code: u32) -> Result<Effect, Why>
        ensures { result ≡ Instructions.breaks (state_of self.now) code }
    {
        match code {
            BREAK_END => self.ends(),
            BREAK_OVERFLOW | BREAK_ZERO => Ok(Effect::Halts(STATUS_ZERO)),
            _ => Ok(Effect::Halts(STATUS_TRAP)),
        }
    }

    /// What an instruction does that names a symbol, if it does.
    fn effect(
        &self,
        program: &Program<'_>,
        layout: &Layout,
        symbol: Option<u32>,
        instruction: &Instruction,
    ) -> Result<Effect, Why>
        ensures { result ≡ Instructions.effect program.now layout.now symbol (state_of self.now) instruction.now }
    {
        match *instruction {
            Instruction::Compute { op, rd, rs, second } => {
                puts(
                    rd,
                    computed(op, self.register(rs), self.source_value(second)),
                )
            }
            Instruction::Shift { op, rd, rs, by } => {
                puts(rd, shifted(op, self.register(rs), self.source_value(by)))
            }
            Instruction::Move { rd, rs } => Ok(Effect::Puts(rd, self.register(rs))),
            Instruction::Number { rd, value } => Ok(Effect::Puts(rd, Value::Number(value))),
            Instruction::Address { rd, base, offset } => {
                let symbol = symbol_value(program, layout, symbol);
                puts(rd, number(self.address(symbol, base, offset)))
            }
            Instruction::Load {
                width,
                rd,
                base,
                offset,
            } => {
                let symbol = symbol_value(program, layout, symbol);
                self.load(layout, symbol, width, rd, base, offset)
            }
            Instruction::Store {
                width,
                rs,
                base,
                offset,
            } => {
                let symbol = symbol_value(program, layout, symbol);
                self.store(layout, symbol, width, rs, base, offset)
            }
            Instruction::Long { op, rs, rt } => self.multiplies(op, rs, rt),
            Instruction::FromSpecial { special, rd } => {
                Ok(Effect::Puts(rd, self.special(special)))
            }
            Instruction::ToSpecial { special, rs } => {
                Ok(Effect::PutsSpecial(special, self.register(rs)))
            }
            Instruction::Branch {
                condition,
                rs,
                second,
            } => self.compares(program, symbol, condition, rs, second),
            Instruction::Jump(to) => self.jumps(program, symbol, to),
            Instruction::Call(to) => self.calls(program, symbol, to),
            Instruction::Break(code) => self.breaks(code),
            Instruction::Nop => Ok(Effect::Follows),
        }
    }

    /// What an item does.
    pub(crate) fn item_effect(
        &self,
        program: &Program<'_>,
        layout: &Layout,
        item: &Item,
    ) -> Result<Effect, Why>
        ensures { result ≡ Steps.item_effect program.now layout.now (state_of self.now) (Some item.now) }
    {
        match item {
            Item::Code {
                instruction,
                symbol,
                ..
            } => self.effect(program, layout, *symbol, instruction),
            Item::Label(_) | Item::Location { .. } => Ok(Effect::Follows),
        }
    }
}
