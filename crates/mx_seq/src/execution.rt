//! A state of a program, and what statements do to it.
ghost use Rattle.std.specs.Prelude.{◌≡◌, ◌<◌, suc, length, is_some, true};
ghost use Rattle.mx_seq.specs.Terms.{MAX_STATEMENTS, CountFits};

use crate::program::Program;
use crate::registers::Registers;
use crate::user_data::UserData;
use mx_isa::{Cond, Inst, Op, Reg, Special, compute, holds};
use mx_source::{Statement, Value, Why};

/// What a step did.
#[derive(Clone, Copy, Debug, PartialEq, Eq)]
pub enum Stepped {
    /// It went on, and sent this byte to the console, if any.
    Went(Option<u8>),
    /// The program has halted.
    Halted,
    /// The program cannot go on.
    Stuck(Why),
}

/// How a run stands.
#[derive(Clone, Copy)]
pub(crate) enum Mark {
    Going,
    Halted,
    Stuck(Why),
}

/// A state of a program.
#[derive(Drop)]
pub(crate) struct Execution {
    pub(crate) index: u32,
    pub(crate) registers: Registers,
    pub(crate) md: u32,
    pub(crate) user_data: UserData,
    pub(crate) taken: u32,
    pub(crate) mark: Mark,
}

impl Execution {
    ghost use Rattle.mx_seq.specs.Terms.{from_input, goes, stuck, perform, jumps, branches, execute, silent, Halted, InstFits, IsPlain, value_in};
    ghost use Rattle.mx_seq.specs.Programs.{Fits};
    ghost use Rattle.mx_seq.specs.Lists.{values_of};
    ghost use Rattle.mx_seq.specs.Executions.{Does, execution_state, sum_from, takes};

    /// The run is stuck.
    pub(crate) fn stick(&mut self, why: Why) -> Stepped
        ensures { Does (stuck why (execution_state self.old)) self.old self.new result }
    {
        self.mark = Mark::Stuck(why);
        Stepped::Stuck(why)
    }

    /// Goes to an index, and puts a value into a register.
    fn go(&mut self, target: u32, dest: Reg, value: Value) -> Stepped
        requires { self.old.mark ≡ Mark.Going }
        ensures { Does (goes target dest value (execution_state self.old)) self.old self.new result }
    {
        self.registers.set(dest, value);
        self.index = target;
        Stepped::Went(None)
    }

    /// Goes to the place that a register holds, and puts the next place into another.
    fn jump(&mut self, a: Reg, dest: Reg) -> Stepped
        requires going { self.old.mark ≡ Mark.Going }
        requires inside { self.old.index < MAX_STATEMENTS }
        ensures { Does (jumps (value_in (values_of self.old.registers) a) dest (execution_state self.old)) self.old self.new result }
    {
        match self.registers.get(a) {
            Value::Int(_) => self.stick(Why::JumpNotCode),
            Value::Code(target) => self.go(target, dest, Value::Code(self.index + 1)),
        }
    }

    /// A branch.
    fn branch(&mut self, a: Reg, b: Reg, cond: Cond, target: u32) -> Stepped
        requires going { self.old.mark ≡ Mark.Going }
        requires inside { self.old.index < MAX_STATEMENTS }
        ensures { Does (branches a b cond target (execution_state self.old)) self.old self.new result }
    {
        let (Value::Int(x), Value::Int(y)) = (self.registers.get(a), self.registers.get(b)) else {
            return self.stick(Why::CodeOperand);
        };
        let target = if holds(cond, x, y) {
            target
        } else {
            self.index + 1
        };
        self.go(target, Reg::ZERO, Value::Int(0))
    }

    /// Puts a value into a register, and goes on.
    fn put(&mut self, dest: Reg, value: Value) -> Stepped
        requires going { self.old.mark ≡ Mark.Going }
        requires inside { self.old.index < MAX_STATEMENTS }
        ensures { Does (goes (suc self.old.index) dest value (execution_state self.old)) self.old self.new result }
    {
        self.go(self.index + 1, dest, value)
    }

    /// The word that a register holds and a number, as one word; none where it holds a place of code.
    fn sum(&self, a: Reg, imm: i32) -> Option<u32>
        ensures { result ≡ sum_from (value_in (values_of self.now.registers) a) imm }
    {
        match self.registers.get(a) {
            Value::Int(word) => Some(word.wrapping_add(imm.cast_unsigned())),
            Value::Code(_) => None,
        }
    }

    /// A load.
    fn load(&mut self, program: &Program, base: Reg, dest: Reg, offset: i32) -> Stepped
        requires going { self.old.mark ≡ Mark.Going }
        requires inside { self.old.index < MAX_STATEMENTS }
        requires room { length self.old.user_data ≡ program.now.place.end }
        ensures { Does (perform program.now (Inst.Load base dest offset) (execution_state self.old)) self.old self.new result }
    {
        match self.sum(base, offset) {
            Some(address) if program.is_user(address) => {
                let value = self.user_data.get(address);
                self.put(dest, value)
            }
            Some(address) if program.is_input(address) => self.take(program, dest),
            Some(_) => self.stick(Why::LoadOutside),
            None => self.stick(Why::CodeOperand),
        }
    }

    /// Puts the next byte of the input into a register, or all bits set where there is none left.
    fn take(&mut self, program: &Program, dest: Reg) -> Stepped
        requires going { self.old.mark ≡ Mark.Going }
        requires inside { self.old.index < MAX_STATEMENTS }
        requires input { is_some program.now.input ≡ true }
        ensures { Does (takes (from_input program.now.input self.old.taken) dest (execution_state self.old)) self.old self.new result }
    {
        match program.byte(self.taken) {
            Some(byte) => {
                self.taken += 1;
                self.put(dest, Value::Int(byte.into()))
            }
            None => self.put(dest, Value::Int(u32::MAX)),
        }
    }

    /// A store.
    fn store(&mut self, program: &Program, base: Reg, value: Reg, offset: i32) -> Stepped
        requires going { self.old.mark ≡ Mark.Going }
        requires inside { self.old.index < MAX_STATEMENTS }
        requires room { length self.old.user_data ≡ program.now.place.end }
        ensures { Does (perform program.now (Inst.Store base value offset) (execution_state self.old)) self.old self.new result }
    {
        let Some(address) = self.sum(base, offset) else {
            return self.stick(Why::CodeOperand);
        };
        let value = self.registers.get(value);
        if program.is_console(address) {
            match value {
                Value::Int(word) => {
                    self.index += 1;
                    Stepped::Went(Some((word % 256) as u8))
                }
                Value::Code(_) => self.stick(Why::CodeToConsole),
            }
        } else if program.is_user(address) {
            self.user_data.set(address, value);
            self.index += 1;
            Stepped::Went(None)
        } else {
            self.stick(Why::StoreOutside)
        }
    }

    /// A compute instruction.
    fn compute(&mut self, program: &Program, a: Reg, dest: Reg, b: Reg, op: Op) -> Stepped
        requires going { self.old.mark ≡ Mark.Going }
        requires inside { self.old.index < MAX_STATEMENTS }
        requires fits { CountFits op }
        ensures { Does (perform program.now (Inst.Compute a dest b op) (execution_state self.old)) self.old self.new result }
    {
        let first = self.registers.get(a);
        let (Value::Int(x), Value::Int(y)) = (first, self.registers.get(b)) else {
            return if op == Op::Add && b == Reg::ZERO {
                self.put(dest, first)
            } else {
                self.stick(Why::CodeOperand)
            };
        };
        let (value, md) = compute(op, x, y, self.md);
        self.md = md;
        self.put(dest, Value::Int(value))
    }

    /// An addition of a number.
    fn add(&mut self, program: &Program, a: Reg, dest: Reg, imm: i32) -> Stepped
        requires going { self.old.mark ≡ Mark.Going }
        requires inside { self.old.index < MAX_STATEMENTS }
        ensures { Does (perform program.now (Inst.Addi a dest imm) (execution_state self.old)) self.old self.new result }
    {
        match self.sum(a, imm) {
            Some(sum) => self.put(dest, Value::Int(sum)),
            None => self.stick(Why::CodeOperand),
        }
    }

    /// A move to MD.
    fn move_to(&mut self, program: &Program, a: Reg) -> Stepped
        requires going { self.old.mark ≡ Mark.Going }
        requires inside { self.old.index < MAX_STATEMENTS }
        ensures { Does (perform program.now (Inst.MoveTo a Special.Md) (execution_state self.old)) self.old self.new result }
    {
        let Value::Int(x) = self.registers.get(a) else {
            return self.stick(Why::CodeOperand);
        };
        self.md = x;
        self.index += 1;
        Stepped::Went(None)
    }

    /// A move from MD.
    fn move_from(&mut self, program: &Program, dest: Reg) -> Stepped
        requires going { self.old.mark ≡ Mark.Going }
        requires inside { self.old.index < MAX_STATEMENTS }
        ensures { Does (perform program.now (Inst.MoveFrom dest Special.Md) (execution_state self.old)) self.old self.new result }
    {
        self.put(dest, Value::Int(self.md))
    }

    /// An instruction that is a statement as it is.
    fn perform(&mut self, program: &Program, inst: &Inst) -> Stepped
        requires going { self.old.mark ≡ Mark.Going }
        requires inside { self.old.index < MAX_STATEMENTS }
        requires room { length self.old.user_data ≡ program.now.place.end }
        requires plain { IsPlain inst.now }
        requires fits { InstFits inst.now }
        ensures { Does (perform program.now inst.now (execution_state self.old)) self.old self.new result }
    {
        match inst {
            Inst::Load { base, dest, offset } => self.load(program, *base, *dest, *offset),
            Inst::Store {
                base,
                value,
                offset,
            } => self.store(program, *base, *value, *offset),
            Inst::Compute { a, dest, b, op } => self.compute(program, *a, *dest, *b, *op),
            Inst::Addi { a, dest, imm } => self.add(program, *a, *dest, *imm),
            Inst::MoveFrom {
                dest,
                special: Special::Md,
            } => self.move_from(program, *dest),
            Inst::MoveTo {
                a,
                special: Special::Md,
            } => self.move_to(program, *a),
            _ => unreachable!(),
        }
    }

    /// A statement.
    pub(crate) fn execute(&mut self, program: &Program, statement: &Statement) -> Stepped
        requires going { self.old.mark ≡ Mark.Going }
        requires inside { self.old.index < MAX_STATEMENTS }
        requires room { length self.old.user_data ≡ program.now.place.end }
        requires fits { Fits statement.now }
        ensures { Does (execute program.now (Some statement.now) (execution_state self.old)) self.old self.new result }
    {
        match statement {
            Statement::Plain(inst) => self.perform(program, inst),
            Statement::LaCode { dest, target } => self.put(*dest, Value::Code(*target)),
            Statement::Branch { a, b, cond, target } => self.branch(*a, *b, *cond, *target),
            Statement::Call { dest, target } => {
                self.go(*target, *dest, Value::Code(self.index + 1))
            }
            Statement::CallReg { a, dest } => self.jump(*a, *dest),
            Statement::JumpReg { a } => self.jump(*a, Reg::ZERO),
            Statement::Halt => self.halt(),
        }
    }

    /// The run halts.
    fn halt(&mut self) -> Stepped
        ensures { Does (silent (record (execution_state self.old) { mark = Halted })) self.old self.new result }
    {
        self.mark = Mark::Halted;
        Stepped::Halted
    }
}
