//! A program that is executed one statement at a time.
ghost use Rattle.std.specs.Prelude.{◌≡◌, ◌+◌, ◌≤◌, length, IfOk, IsTrue, true};
ghost use Rattle.mx_io.specs.declared.limits.TheConstants.{MAX_FILE_BYTES};
ghost use Rattle.mx_isa.specs.UserBus.{is_user};

use crate::execution::{Execution, Mark, Stepped};
use crate::program::Program;
use crate::registers::Registers;
use crate::user_data::UserData;
use mx_isa::Reg;
use mx_source::{Memory, Place, Source, Value, Why};
use std::alloc::Global;

/// A program and the state in which it is: what the source means after the steps so far.
#[derive(Drop)]
pub struct Seq {
    program: Program,
    execution: Execution,
    ghost room: { length execution.user_data ≡ program.place.end },
}

impl Seq {
    ghost use Rattle.mx_source.specs.Values.{value_in};
    ghost use Rattle.mx_source.specs.Meaning.{program, start, step};
    ghost use Rattle.mx_seq.specs.Answers.{answer_of};
    ghost use Rattle.mx_seq.specs.Seqs.{program_of, state_of};

    /// A source at its start at this place, with the bytes of its input, which matter only where
    /// the source has input.
    ///
    /// # Errors
    ///
    /// `Memory` where there is no room for its statements, data words and input.
    pub fn new(alloc: Global, source: &Source, place: Place, input: &[u8]) -> Result<Seq, Memory>
        requires room { place.user_data + length source.now.user_data ≤ place.end }
        requires few { length input.now ≤ MAX_FILE_BYTES }
        ensures program { IfOk result (λ seq. program_of seq ≡ program source.now place input.now) }
        ensures state { IfOk result (λ seq. state_of seq ≡ start source.now place) }
    {
        let program = Program::new(alloc, source, place, input)?;
        let user_data = UserData::new(alloc, place, source.user_data())?;
        let execution = Execution {
            index: 0,
            registers: Registers::new(),
            md: 0,
            user_data,
            taken: 0,
            mark: Mark::Going,
        };
        Ok(Seq { program, execution })
    }

    /// Executes one statement. After `Halted` or `Stuck` nothing changes, and the same answer
    /// comes again.
    pub fn step(&mut self) -> Stepped
        ensures state { state_of self.new ≡ (step (program_of self.old) (state_of self.old)).after }
        ensures answer { result ≡ answer_of (step (program_of self.old) (state_of self.old)) }
        ensures program { program_of self.new ≡ program_of self.old }
    {
        match self.execution.mark {
            Mark::Going => {}
            Mark::Halted => return Stepped::Halted,
            Mark::Stuck(why) => return Stepped::Stuck(why),
        }
        match self.program.statement(self.execution.index) {
            Some(statement) => self.execution.execute(&self.program, statement),
            None => self.execution.stick(Why::PastEnd),
        }
    }

    /// The index of the next statement.
    pub fn index(&self) -> u32
        ensures { result ≡ (state_of self.now).index }
    {
        self.execution.index
    }

    /// What a register holds.
    pub fn register(&self, r: Reg) -> Value
        ensures { result ≡ value_in (state_of self.now).regs r }
    {
        self.execution.registers.get(r)
    }

    /// What MD holds.
    pub fn md(&self) -> u32
        ensures { result ≡ (state_of self.now).md }
    {
        self.execution.md
    }

    /// What an address of user data holds.
    pub fn user_data(&self, address: u32) -> Value
        requires { is_user (program_of self.now).place address ≡ true }
        ensures { result ≡ (state_of self.now).mem address }
    {
        self.execution.user_data.get(address)
    }

    /// The number of input bytes taken.
    pub fn taken(&self) -> u32
        ensures { result ≡ (state_of self.now).taken }
    {
        self.execution.taken
    }
}
