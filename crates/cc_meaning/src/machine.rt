//! A machine that executes a program one item at a time.
ghost use Rattle.std.specs.Prelude.{◌≡◌, suc, IfOk, slice_get, slice_index_or, slice_set};
ghost use Rattle.cc_meaning.specs.Machines.{state_of, Does};
ghost use Rattle.cc_meaning.specs.Start;
ghost use Rattle.cc_meaning.specs.States;
ghost use Rattle.cc_meaning.specs.Steps;
ghost use Rattle.cc_meaning.specs.Values.{unspecified};

use crate::data::start_memory;
use crate::effect::{Effect, caller};
use crate::layout::Layout;
use crate::symbols::item_named;
use crate::value::{UNSPECIFIED, Value, Why};
use cc_lines::{Register, Special};
use cc_program::Program;
use std::alloc::{AllocError, Global};

/// What a step did.
#[derive(Clone, Copy, Debug, PartialEq, Eq)]
pub enum Stepped {
    /// The program goes on, and sent this byte to the console, if any.
    Went(Option<u8>),
    /// The program ends with this status.
    Halted(u8),
    /// The program cannot go on.
    Stuck(Why),
}

/// The state of a program.
#[derive(Drop)]
pub struct Machine {
    pub(crate) next: usize,
    pub(crate) registers: Vec<Value>,
    pub(crate) low: Value,
    pub(crate) high: Value,
    pub(crate) memory: Vec<Value>,
    pub(crate) taken: usize,
}

/// The byte address after the stack, at which the stack pointer starts.
pub const STACK_TOP: u32 = 262_080;

/// The value with a number in a list, if it has so many.
pub(crate) fn value_in(values: &[Value], number: usize) -> Value
    ensures { result ≡ slice_index_or values.now number unspecified }
{
    match values.get(number) {
        Some(value) => *value,
        None => UNSPECIFIED,
    }
}

/// Puts a value into a list, if it has so many.
#[tactic(auto, using(crate::proofs::Walks::set_outside))]
pub(crate) fn put_value(values: &mut Vec<Value>, number: usize, value: Value)
    ensures { values.new.items ≡ slice_set values.old.items number value }
{
    if number < values.len() {
        values[number] = value;
    }
}

/// The registers at the start.
fn start_registers(alloc: Global, link: usize) -> Result<Vec<Value>, AllocError>
    ensures { IfOk result (λ r. r.items ≡ Start.start_registers link) }
{
    let mut registers = vec![in alloc; UNSPECIFIED; 32]?;
    put_value(&mut registers, 29, Value::Number(STACK_TOP));
    put_value(&mut registers, 31, Value::Code(link));
    Ok(registers)
}

impl Machine {
    /// A program at its start, where `symbol` is its first function.
    ///
    /// # Errors
    ///
    /// Where there is no memory for its registers and its data.
    pub fn new(
        alloc: Global,
        program: &Program<'_>,
        layout: &Layout,
        symbol: u32,
    ) -> Result<Machine, AllocError>
        ensures { IfOk result (λ machine. state_of machine ≡ Start.start program.now layout.now symbol) }
    {
        let registers = start_registers(alloc, caller(program))?;
        let memory = start_memory(alloc, program, layout)?;
        Ok(Machine {
            next: item_named(program, symbol).unwrap_or(program.items.len()),
            registers,
            low: UNSPECIFIED,
            high: UNSPECIFIED,
            memory,
            taken: 0,
        })
    }

    /// The number of the item that comes next.
    pub fn next(&self) -> usize
        ensures { result ≡ (state_of self.now).next }
    {
        self.next
    }

    /// What a register holds.
    pub fn register(&self, register: Register) -> Value
        ensures { result ≡ States.register (state_of self.now) register }
    {
        if register.0 == 0 {
            Value::Number(0)
        } else {
            value_in(&self.registers, usize::from(register.0))
        }
    }

    /// What LO or HI holds.
    pub fn special(&self, special: Special) -> Value
        ensures { result ≡ States.special (state_of self.now) special }
    {
        match special {
            Special::Lo => self.low,
            Special::Hi => self.high,
        }
    }

    /// The word of memory that a byte is in.
    pub fn memory_word(&self, address: u32) -> Value
        ensures { result ≡ States.memory_word (state_of self.now) address }
    {
        value_in(&self.memory, (address / 4) as usize)
    }

    /// Puts a value into a register.
    fn put(&mut self, register: Register, value: Value)
        ensures { state_of self.new ≡ States.with_register (state_of self.old) register value }
    {
        if register.0 != 0 {
            put_value(&mut self.registers, usize::from(register.0), value);
        }
    }

    /// Puts a value into LO or HI.
    fn put_special(&mut self, special: Special, value: Value)
        ensures { state_of self.new ≡ States.with_special (state_of self.old) special value }
    {
        match special {
            Special::Lo => self.low = value,
            Special::Hi => self.high = value,
        }
    }

    /// Puts numbers into LO and HI.
    fn put_pair(&mut self, low: u32, high: u32)
        ensures { state_of self.new ≡ record (state_of self.old) { low = Value.Number low; high = Value.Number high } }
    {
        self.low = Value::Number(low);
        self.high = Value::Number(high);
    }

    /// Puts a value into the word of memory that a byte is in.
    fn put_word(&mut self, address: u32, value: Value)
        ensures { state_of self.new ≡ States.with_word (state_of self.old) address value }
    {
        put_value(&mut self.memory, (address / 4) as usize, value);
    }

    /// Puts the next byte of the input into a register, or all bits set where there is none left.
    fn take(&mut self, input: &[u8], register: Register)
        ensures { state_of self.new ≡ States.with_input (slice_get input.now self.old.taken) register (state_of self.old) }
    {
        match input.get(self.taken) {
            Some(byte) => {
                self.taken += 1;
                self.put(register, Value::Number(u32::from(*byte)));
            }
            None => self.put(register, Value::Number(u32::MAX)),
        }
    }

    /// Changes the state as an effect says, but for the item that comes next; another one follows this one.
    fn change(&mut self, input: &[u8], effect: &Effect, following: usize)
        requires { following ≡ suc self.old.next }
        ensures { state_of self.new ≡ States.changed input.now effect.now (state_of self.old) }
    {
        match *effect {
            Effect::Puts(register, value) => self.put(register, value),
            Effect::PutsSpecial(special, value) => self.put_special(special, value),
            Effect::PutsPair(low, high) => self.put_pair(low, high),
            Effect::Writes(address, value) => self.put_word(address, value),
            Effect::Takes(register) => self.take(input, register),
            Effect::GoesBy(register, _) => self.put(register, UNSPECIFIED),
            Effect::Calls(_) => self.put(Register::LINK, Value::Code(following)),
            Effect::Follows | Effect::Sends(_) | Effect::Goes(_) | Effect::Halts(_) => {}
        }
    }

    /// Goes on by an effect.
    fn go(&mut self, input: &[u8], effect: &Effect, following: usize)
        requires { following ≡ suc self.old.next }
        ensures { state_of self.new ≡ States.goes_to (States.next_item effect.now following) (States.changed input.now effect.now (state_of self.old)) }
    {
        self.change(input, effect, following);
        self.next = next_item(effect, following);
    }

    /// Goes on by an effect, or the program ends.
    fn apply(&mut self, input: &[u8], effect: &Effect, following: usize) -> Stepped
        requires { following ≡ suc self.old.next }
        ensures { Does (States.applied input.now effect.now (state_of self.old)) self.old self.new result }
    {
        if let Effect::Halts(status) = *effect {
            return Stepped::Halted(status);
        }
        self.go(input, effect, following);
        Stepped::Went(sent(effect))
    }

    /// Executes the item that comes next, with this input. Where the program ends or cannot go on, nothing changes.
    pub fn step(&mut self, program: &Program<'_>, layout: &Layout, input: &[u8]) -> Stepped
        ensures { Does (Steps.step program.now layout.now input.now (state_of self.old)) self.old self.new result }
    {
        let Some(item) = program.items.get(self.next) else {
            return Stepped::Stuck(Why::NoItem);
        };
        match self.item_effect(program, layout, item) {
            Ok(effect) => self.apply(input, &effect, self.next + 1),
            Err(why) => Stepped::Stuck(why),
        }
    }
}

/// The item that comes next, where another one follows this one.
fn next_item(effect: &Effect, following: usize) -> usize
    ensures { result ≡ States.next_item effect.now following }
{
    match *effect {
        Effect::Goes(item) | Effect::GoesBy(_, item) | Effect::Calls(item) => item,
        _ => following,
    }
}

/// The byte that an effect sends.
fn sent(effect: &Effect) -> Option<u8>
    ensures { result ≡ States.sent effect.now }
{
    match *effect {
        Effect::Sends(byte) => Some(byte),
        _ => None,
    }
}
