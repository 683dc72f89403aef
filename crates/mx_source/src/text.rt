//! A text, statement by statement.
ghost use Rattle.std.specs.Prelude.{◌≡◌, ◌++◌, ◌∷◌, [], OnOk, codes};

use crate::mnemonic::operation_name;
use itoa::Buffer;
use mx_isa::{Inst, Op, Reg};
use std::alloc::{AllocError, Global};
use std::marker::Model;

/// What stands between the commas of a statement.
#[derive(Clone, Copy)]
pub(crate) enum Operand<'a> {
    Register(Reg),
    Immediate(i32),
    Count(u8),
    Memory { offset: i32, base: Reg },
    Md,
    Name(&'a [u8]),
    Word(u32),
}

/// A text that grows.
#[derive(Drop)]
pub(crate) struct Text {
    bytes: Vec<u8>,
}

impl Model for Text {
    ghost use Rattle.std.specs.Prelude.{ℕ, List};

    ghost Value = { List ℕ };

    ghost view = { λ t. t.bytes.items };
}

impl Text {
    ghost use Rattle.std.specs.Prelude.{decimal};
    ghost use Rattle.std.specs.Fmt.{signed_decimal};
    ghost use Rattle.mx_source.specs.Printed.{register, memory, spelled, compute_text, instruction_text};
    ghost use Rattle.mx_source.specs.Statements.{IsPlain};
    ghost use Rattle.mx_source.specs.Operands.{operand_text};

    /// The empty text.
    pub(crate) fn new(alloc: Global) -> Text
        ensures { result ≡ [] }
    {
        Text {
            bytes: Vec::new(alloc),
        }
    }

    /// Its bytes.
    pub(crate) fn into_bytes(self) -> Vec<u8>
        ensures { result.items ≡ self }
    {
        let Text { bytes } = self;
        bytes
    }

    /// Appends bytes.
    pub(crate) fn put(&mut self, bytes: &[u8]) -> Result<(), AllocError>
        ensures { OnOk result (self.new ≡ self.old ++ bytes.now) }
    {
        self.bytes.extend_from_slice(bytes)
    }

    /// Appends a number.
    fn number(&mut self, n: u32) -> Result<(), AllocError>
        ensures { OnOk result (self.new ≡ self.old ++ decimal n) }
    {
        self.put(Buffer::new().format(n).as_bytes())
    }

    /// Appends a number with its sign.
    fn signed(&mut self, n: i32) -> Result<(), AllocError>
        ensures { OnOk result (self.new ≡ self.old ++ signed_decimal n) }
    {
        self.put(Buffer::new().format(n).as_bytes())
    }

    /// Appends a register.
    fn register(&mut self, r: Reg) -> Result<(), AllocError>
        ensures { OnOk result (self.new ≡ self.old ++ register r) }
    {
        self.put(b"r")?;
        self.number(r.number().into())
    }

    /// Appends an operand.
    fn operand(&mut self, operand: &Operand) -> Result<(), AllocError>
        ensures { OnOk result (self.new ≡ self.old ++ operand_text operand.now) }
    {
        match operand {
            Operand::Register(r) => self.register(*r),
            Operand::Immediate(n) => {
                self.put(b"#")?;
                self.signed(*n)
            }
            Operand::Count(n) => {
                self.put(b"#")?;
                self.number((*n).into())
            }
            Operand::Memory { offset, base } => self.memory(*offset, *base),
            Operand::Md => self.put(b"md"),
            Operand::Name(name) => self.put(name),
            Operand::Word(n) => self.number(*n),
        }
    }

    /// Appends an offset and its base.
    fn memory(&mut self, offset: i32, base: Reg) -> Result<(), AllocError>
        ensures { OnOk result (self.new ≡ self.old ++ memory offset base) }
    {
        self.signed(offset)?;
        self.put(b"[")?;
        self.register(base)?;
        self.put(b"]")
    }

    /// Appends a mnemonic and an operand.
    pub(crate) fn one(&mut self, mnemonic: &[u8], a: &Operand) -> Result<(), AllocError>
        ensures { OnOk result (self.new ≡ self.old ++ spelled mnemonic.now (operand_text a.now ∷ [])) }
    {
        self.put(mnemonic)?;
        self.put(b" ")?;
        self.operand(a)
    }

    /// Appends a mnemonic and two operands.
    pub(crate) fn two(
        &mut self,
        mnemonic: &[u8],
        a: &Operand,
        b: &Operand,
    ) -> Result<(), AllocError>
        ensures { OnOk result (self.new ≡ self.old ++ spelled mnemonic.now (operand_text a.now ∷ operand_text b.now ∷ [])) }
    {
        self.one(mnemonic, a)?;
        self.put(b",")?;
        self.operand(b)
    }

    /// Appends a mnemonic and three operands.
    pub(crate) fn three(
        &mut self,
        mnemonic: &[u8],
        a: &Operand,
        b: &Operand,
        c: &Operand,
    ) -> Result<(), AllocError>
        ensures { OnOk result (self.new ≡ self.old ++ spelled mnemonic.now (operand_text a.now ∷ operand_text b.now ∷ operand_text c.now ∷ [])) }
    {
        self.two(mnemonic, a, b)?;
        self.put(b",")?;
        self.operand(c)
    }

    /// Appends a mnemonic and four operands.
    pub(crate) fn four(
        &mut self,
        mnemonic: &[u8],
        a: &Operand,
        b: &Operand,
        c: &Operand,
        d: &Operand,
    ) -> Result<(), AllocError>
        ensures { OnOk result
            (self.new ≡ self.old ++ spelled mnemonic.now (operand_text a.now ∷ operand_text b.now ∷ operand_text c.now ∷ operand_text d.now ∷ [])) }
    {
        self.three(mnemonic, a, b, c)?;
        self.put(b",")?;
        self.operand(d)
    }

    /// Appends a compute instruction.
    fn compute(&mut self, op: Op, a: Reg, b: Reg, dest: Reg) -> Result<(), AllocError>
        ensures { OnOk result (self.new ≡ self.old ++ compute_text op a b dest) }
    {
        let (first, second, last) = (
            &Operand::Register(a),
            &Operand::Register(b),
            &Operand::Register(dest),
        );
        let name = operation_name(op).as_bytes();
        match op {
            Op::Not => self.two(name, first, last),
            Op::Mstart => self.two(name, second, last),
            Op::Asr(n) => self.three(name, first, &Operand::Count(n), last),
            Op::Sh(n) => self.four(name, first, second, &Operand::Count(n), last),
            Op::Add
            | Op::Sub
            | Op::Subnc
            | Op::And
            | Op::Or
            | Op::Xor
            | Op::Bic
            | Op::Rotlb
            | Op::Mstep
            | Op::Dstep => self.three(name, first, second, last),
        }
    }

    /// Appends an instruction that is a statement as it is.
    pub(crate) fn instruction(&mut self, inst: &Inst) -> Result<(), AllocError>
        requires { IsPlain inst.now }
        ensures { OnOk result (self.new ≡ self.old ++ instruction_text inst.now) }
    {
        match inst {
            Inst::Load { base, dest, offset } => self.two(
                b"ld",
                &Operand::Memory {
                    offset: *offset,
                    base: *base,
                },
                &Operand::Register(*dest),
            ),
            Inst::Store {
                base,
                value,
                offset,
            } => self.two(
                b"st",
                &Operand::Memory {
                    offset: *offset,
                    base: *base,
                },
                &Operand::Register(*value),
            ),
            Inst::Compute { a, dest, b, op } => self.compute(*op, *a, *b, *dest),
            Inst::Addi { a, dest, imm } => self.three(
                b"addi",
                &Operand::Register(*a),
                &Operand::Immediate(*imm),
                &Operand::Register(*dest),
            ),
            Inst::MoveFrom { dest, .. } => {
                self.two(b"movfrs", &Operand::Md, &Operand::Register(*dest))
            }
            Inst::MoveTo { a, .. } => self.two(b"movtos", &Operand::Register(*a), &Operand::Md),
            _ => unreachable!(),
        }
    }
}
