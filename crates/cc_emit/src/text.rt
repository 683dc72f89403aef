//! A text, statement by statement.
ghost use Rattle.std.specs.Prelude.{◌≡◌, ◌++◌, ◌∷◌, [], drop, OnOk, codes};
ghost use Rattle.std.specs.List.{flat_map};
ghost use Rattle.cc_emit.specs.Statements.{shift_label, computed_text, condition_text};

use crate::line::{Computed, Target, Word};
use crate::operand::Operand;
use cc_lines::{Condition, Shift, is_numbered};
use cc_program::Symbols;
use itoa::Buffer;
use std::alloc::{AllocError, Global};
use std::marker::Model;

/// A text that grows.
#[derive(Drop)]
pub(crate) struct Text {
    bytes: Vec<u8>,
}

impl Model for Text {
    ghost use Rattle.std.specs.Prelude.{ℕ, List};

    ghost Value = { List ℕ };

    ghost view = { λ t. t.bytes.items };
}

impl Text {
    ghost use Rattle.std.specs.Prelude.{decimal};
    ghost use Rattle.std.specs.Fmt.{signed_decimal};
    ghost use Rattle.cc_emit.specs.declared.operand.Operand.TheVariants.{Register};
    ghost use Rattle.cc_emit.specs.Names.{letters, owned_name, owner_text, symbol_text};
    ghost use Rattle.cc_emit.specs.Statements.{word_label, target_label, register, operand_text, spelled};

    /// The empty text.
    pub(crate) fn new(alloc: Global) -> Text
        ensures { result ≡ [] }
    {
        Text {
            bytes: Vec::new(alloc),
        }
    }

    /// Its bytes.
    pub(crate) fn into_bytes(self) -> Vec<u8>
        ensures { result.items ≡ self }
    {
        let Text { bytes } = self;
        bytes
    }

    /// Adds bytes.
    pub(crate) fn put(&mut self, bytes: &[u8]) -> Result<(), AllocError>
        ensures { OnOk result (self.new ≡ self.old ++ bytes.now) }
    {
        self.bytes.extend_from_slice(bytes)
    }

    /// Adds a number.
    pub(crate) fn number(&mut self, n: u32) -> Result<(), AllocError>
        ensures { OnOk result (self.new ≡ self.old ++ decimal n) }
    {
        self.put(Buffer::new().format(n).as_bytes())
    }

    /// Adds a number with its sign.
    fn signed(&mut self, n: i32) -> Result<(), AllocError>
        ensures { OnOk result (self.new ≡ self.old ++ signed_decimal n) }
    {
        self.put(Buffer::new().format(n).as_bytes())
    }

    /// Adds the letters of a name.
    fn letters(&mut self, name: &[u8]) -> Result<(), AllocError>
        ensures { OnOk result (self.new ≡ self.old ++ letters name.now) }
    {
        for byte in name {
            if *byte == b'$' {
                self.put(b".S.")?;
            } else {
                self.put(&[*byte])?;
            }
        }
        Ok(())
    }

    /// Adds what precedes a name, its letters, and dots with the number of its text.
    fn numbered(&mut self, front: &[u8], name: &[u8], owner: u32) -> Result<(), AllocError>
        ensures { OnOk result (self.new ≡ self.old ++ (front.now ++ letters name.now ++ codes "." ++ decimal owner)) }
    {
        self.put(front)?;
        self.letters(name)?;
        self.put(b".")?;
        self.number(owner)
    }

    /// Adds the number of the text that a name belongs to, if it belongs to one.
    fn owner(&mut self, owner: u32) -> Result<(), AllocError>
        ensures { OnOk result (self.new ≡ self.old ++ owner_text owner) }
    {
        if owner == 0 {
            return Ok(());
        }
        self.put(b"..")?;
        self.number(owner)
    }

    /// Adds the name of a symbol that belongs to the text with this number, or to all where that is 0.
    fn owned_name(&mut self, name: &[u8], owner: u32) -> Result<(), AllocError>
        ensures { OnOk result (self.new ≡ self.old ++ owned_name name.now owner) }
    {
        if is_numbered(name) {
            return self.numbered(b"_.n", name, owner);
        }
        if name.starts_with(b"$") {
            return self.numbered(b"", after_first(name), owner);
        }
        self.put(b"_")?;
        self.letters(name)?;
        self.owner(owner)
    }

    /// Adds the name that a symbol has in the source.
    pub(crate) fn symbol(&mut self, symbols: &Symbols, number: u32) -> Result<(), AllocError>
        ensures { OnOk result (self.new ≡ self.old ++ symbol_text symbols.now.list.items number) }
    {
        match symbols.at(symbols.resolved(number)) {
            Some(symbol) => self.owned_name(symbol.name, symbol.owner),
            None => Ok(()),
        }
    }

    /// Adds the label of a word that the translation adds.
    pub(crate) fn word(&mut self, word: Word) -> Result<(), AllocError>
        ensures { OnOk result (self.new ≡ self.old ++ word_label word) }
    {
        match word {
            Word::Number(number) => {
                self.put(b"k.")?;
                self.number(number)
            }
            Word::End(addend) => {
                self.put(b"k.end.")?;
                self.number(addend)
            }
            Word::Stack => self.put(b"k.stack"),
            Word::Shifts(op) => self.put(shift_label(op).as_bytes()),
            Word::Mask(mask) => self.put(mask.name().as_bytes()),
        }
    }

    /// Adds the label of a place of the code.
    pub(crate) fn target(&mut self, symbols: &Symbols, target: Target) -> Result<(), AllocError>
        ensures { OnOk result (self.new ≡ self.old ++ target_label symbols.now.list.items target) }
    {
        match target {
            Target::Symbol(number) => self.symbol(symbols, number),
            Target::Routine(routine) => self.put(routine.name().as_bytes()),
            Target::Shifted { routine, count } => {
                self.put(routine.name().as_bytes())?;
                self.put(b".n")?;
                self.number(count.into())
            }
            Target::Skip(number) => {
                self.put(b"_.s")?;
                self.number(number)
            }
        }
    }

    /// Adds a register.
    fn register(&mut self, number: u8) -> Result<(), AllocError>
        ensures { OnOk result (self.new ≡ self.old ++ register number) }
    {
        self.put(b"r")?;
        self.number(number.into())
    }

    /// Adds the register of an address, in brackets.
    fn base(&mut self, base: u8) -> Result<(), AllocError>
        ensures { OnOk result (self.new ≡ self.old ++ (codes "[" ++ register base ++ codes "]")) }
    {
        self.put(b"[")?;
        self.register(base)?;
        self.put(b"]")
    }

    /// Adds an operand.
    fn operand(&mut self, symbols: &Symbols, operand: &Operand) -> Result<(), AllocError>
        ensures { OnOk result (self.new ≡ self.old ++ operand_text symbols.now.list.items operand.now) }
    {
        match operand {
            Operand::Register(r) => self.register(*r),
            Operand::Immediate(n) => {
                self.put(b"#")?;
                self.signed(*n)
            }
            Operand::Count(n) => {
                self.put(b"#")?;
                self.number((*n).into())
            }
            Operand::Memory { words, base } => {
                self.signed(*words)?;
                self.base(*base)
            }
            Operand::Held { word, base } => {
                self.word(*word)?;
                self.base(*base)
            }
            Operand::Place(target) => self.target(symbols, *target),
        }
    }

    /// Adds operands, each after a comma.
    fn operands(&mut self, symbols: &Symbols, operands: &[Operand]) -> Result<(), AllocError>
        ensures { OnOk result (self.new ≡ self.old ++ flat_map (λ one. codes "," ++ operand_text symbols.now.list.items one) operands.now) }
    {
        for one in operands {
            self.put(b",")?;
            self.operand(symbols, one)?;
        }
        Ok(())
    }

    /// Adds a statement with its operands.
    pub(crate) fn statement(
        &mut self,
        symbols: &Symbols,
        mnemonic: &str,
        first: &Operand,
        rest: &[Operand],
    ) -> Result<(), AllocError>
        ensures { OnOk result (self.new ≡ self.old ++ spelled symbols.now.list.items mnemonic.now first.now rest.now) }
    {
        self.put(b"        ")?;
        self.put(mnemonic.as_bytes())?;
        self.put(b" ")?;
        self.operand(symbols, first)?;
        self.operands(symbols, rest)?;
        self.put(b"\n")
    }

    /// Adds a statement with an operand and a register.
    pub(crate) fn two(
        &mut self,
        symbols: &Symbols,
        mnemonic: &str,
        first: &Operand,
        rd: u8,
    ) -> Result<(), AllocError>
        ensures { OnOk result (self.new ≡ self.old ++ spelled symbols.now.list.items mnemonic.now first.now (Register rd ∷ [])) }
    {
        self.statement(symbols, mnemonic, first, &[Operand::Register(rd)])
    }

    /// Adds a statement with two operands and a register.
    pub(crate) fn three(
        &mut self,
        symbols: &Symbols,
        mnemonic: &str,
        first: &Operand,
        second: Operand,
        rd: u8,
    ) -> Result<(), AllocError>
        ensures { OnOk result (self.new ≡ self.old ++ spelled symbols.now.list.items mnemonic.now first.now (second ∷ Register rd ∷ [])) }
    {
        self.statement(symbols, mnemonic, first, &[second, Operand::Register(rd)])
    }
}

/// The bytes of a name after the first one.
fn after_first(name: &[u8]) -> &[u8]
    ensures { result.now ≡ drop 1 name.now }
{
    match name {
        [_, rest @ ..] => rest,
        [] => name,
    }
}

/// The label of a shift's table.
pub(crate) fn shift_label(op: Shift) -> &'static str
    ensures { result.now ≡ shift_label op }
{
    match op {
        Shift::Left => "t.sll",
        Shift::Right => "t.srl",
        Shift::Arithmetic => "t.sra",
        Shift::Rotate => "t.rol",
    }
}

/// The mnemonic of what is computed of two registers.
pub(crate) fn computed_name(op: Computed) -> &'static str
    ensures { result.now ≡ computed_text op }
{
    match op {
        Computed::Add => "add",
        Computed::Sub => "sub",
        Computed::And => "and",
        Computed::Or => "or",
        Computed::Xor => "xor",
        Computed::Bic => "bic",
        Computed::Rotlb => "rotlb",
    }
}

/// The mnemonic of a branch.
pub(crate) fn condition_name(condition: Condition) -> &'static str
    ensures { result.now ≡ condition_text condition }
{
    match condition {
        Condition::Equal => "beq",
        Condition::NotEqual => "bne",
        Condition::Less => "blt",
        Condition::NotLess => "bge",
        Condition::Greater => "bgt",
        Condition::NotGreater => "ble",
        Condition::Lower => "blo",
        Condition::NotLower => "bhs",
        Condition::Higher => "bhi",
        Condition::NotHigher => "blos",
    }
}
