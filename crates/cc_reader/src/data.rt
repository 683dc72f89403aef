//! Reading data.

use crate::reading::Reader;
use cc_lines::{Directive, LineError, Refusal, Section, Values, Word, push_quoted};
use cc_program::{Content, Meaning, Object, Reference, Startup, Within, number_behind};
use cc_rules::aligned;

/// How many bytes a datum has at most: more than any memory.
const MOST_BYTES: u32 = 1_048_576;

/// Brings the bytes that a datum holds to its size.
fn fill(content: &mut Content) -> Result<(), LineError> {
    if content.size > MOST_BYTES {
        return Err(LineError::Refused(Refusal::BadNumber));
    }
    content.bytes.resize(content.size as usize, 0)?;
    Ok(())
}

/// Notes the size of a datum after bytes were added.
fn measure(content: &mut Content) -> Result<(), LineError> {
    match u32::try_from(content.bytes.len()) {
        Ok(size) => {
            content.size = size;
            Ok(())
        }
        Err(_) => Err(LineError::Refused(Refusal::BadNumber)),
    }
}

/// The largest number of 32 bits.
const MOST_WORD: u64 = 0xffff_ffff;

/// Whether a number modulo 2^64 is one from -(2^32 - 1) to 2^32 - 1.
fn is_word(value: u64) -> bool {
    value <= MOST_WORD || value >= 0u64.wrapping_sub(MOST_WORD)
}

/// Adds a number's low bytes, most significant first.
fn push_number(content: &mut Content, bytes: u8, value: u64) -> Result<(), LineError> {
    if bytes < 8 && !is_word(value) {
        return Err(LineError::Refused(Refusal::BadNumber));
    }
    let all = value.to_be_bytes();
    let skipped = 8usize.saturating_sub(usize::from(bytes));
    content
        .bytes
        .extend_from_slice(all.as_slice().get(skipped..).unwrap_or(&[]))?;
    measure(content)
}

/// Brings a datum to a multiple of so many bytes: all of it, and with zeros what is added next.
fn pad(object: &mut Object, align: u32) -> Result<(), LineError> {
    object.standing.align = object.standing.align.max(align);
    let size = aligned(u64::from(object.content.size), align);
    match u32::try_from(size) {
        Ok(size) => {
            object.content.size = size;
            Ok(())
        }
        Err(_) => Err(LineError::Refused(Refusal::BadNumber)),
    }
}

/// Adds a word for a symbol, or for a distance.
fn push_reference(content: &mut Content, bytes: u8, one: Reference) -> Result<(), LineError> {
    if bytes != 4 || content.size % 4 != 0 {
        return Err(LineError::Refused(Refusal::UnalignedSymbol));
    }
    content.references.push(Reference {
        at: content.size,
        symbol: one.symbol,
        addend: one.addend,
        from: one.from,
        line: one.line,
    })?;
    push_number(content, 4, 0)
}

impl<'a> Reader<'a> {
    /// Lets a symbol mean the datum with a number.
    fn define_object(&mut self, symbol: u32, number: usize, weak: bool) -> Result<(), LineError> {
        let number = number_behind(number)?;
        self.define(symbol, Meaning::Object(number), weak)
    }

    /// Adds a datum of zeros. Where it is weak, texts may share it.
    fn add_object(
        &mut self,
        symbol: u32,
        weak: bool,
        size: u32,
        align: u32,
    ) -> Result<(), LineError> {
        let number = self.program.objects.len();
        self.define_object(symbol, number, weak)?;
        let object = Object::new(self.alloc, symbol, self.position.unit, size, align);
        self.program.objects.push(object)?;
        Ok(())
    }

    /// Adds a name for what is so many bytes after another one.
    pub(crate) fn add_within(
        &mut self,
        name: &'a [u8],
        other: &'a [u8],
        addend: u32,
    ) -> Result<(), LineError> {
        let weak = self.is_weak(name);
        let symbol = self.program.symbols.number_if_short(name)?;
        let other = self.program.symbols.number_if_short(other)?;
        let number = self.program.objects.len();
        self.add_object(symbol, weak, 0, 1)?;
        self.place_within(number, other, addend);
        Ok(())
    }

    /// Lets the datum with a number be a place so many bytes after a symbol.
    fn place_within(&mut self, number: usize, symbol: u32, addend: u32) {
        let line = self.position.line;
        if let Some(object) = self.program.objects.as_mut_slice().get_mut(number) {
            object.within = Some(Within {
                symbol,
                addend,
                line,
            });
        }
    }

    /// Adds a datum that texts may share: the largest size and alignment that they name count.
    pub(crate) fn add_common(
        &mut self,
        name: &'a [u8],
        size: u32,
        align: u32,
    ) -> Result<(), LineError> {
        let symbol = self.program.symbols.number_if_short(name)?;
        if let Meaning::Object(number) = self.program.symbols.meaning(symbol) {
            if let Some(object) = self.program.objects.as_mut_slice().get_mut(number as usize) {
                object.content.size = object.content.size.max(size);
                object.standing.align = object.standing.align.max(align);
                return Ok(());
            }
        }
        self.add_object(symbol, true, size, align)
    }

    /// Whether a datum has no bytes so far.
    fn is_empty(&self, number: usize) -> bool {
        match self.program.objects.get(number) {
            Some(object) => object.content.size == 0,
            None => false,
        }
    }

    /// A label of data: of a new datum, or one more of a datum that has no bytes so far.
    pub(crate) fn begin_object(&mut self, symbol: u32, weak: bool) -> Result<(), LineError> {
        match self.position.data.object {
            Some(number) if self.is_empty(number) => self.define_object(symbol, number, weak),
            before => self.begin_next(symbol, weak, before),
        }
    }

    /// A label of a new datum, which follows another one.
    fn begin_next(
        &mut self,
        symbol: u32,
        weak: bool,
        before: Option<usize>,
    ) -> Result<(), LineError> {
        let number = self.program.objects.len();
        let align = self.position.data.align;
        self.position.data.align = 1;
        self.add_object(symbol, weak, 0, align)?;
        self.follow(number, before)?;
        self.position.data.object = Some(number);
        Ok(())
    }

    /// Lets the datum with a number follow another one.
    fn follow(&mut self, number: usize, before: Option<usize>) -> Result<(), LineError> {
        let Some(before) = before else {
            return Ok(());
        };
        let before = number_behind(before)?;
        if let Some(object) = self.program.objects.as_mut_slice().get_mut(number) {
            object.after = Some(before);
        }
        Ok(())
    }

    /// The datum that a line of data adds to.
    fn object(&mut self) -> Result<&mut Object, LineError> {
        let outside = LineError::Refused(Refusal::OutsideObject);
        if self.position.sections.now != Section::Data {
            return Err(outside);
        }
        let Some(number) = self.position.data.object else {
            return Err(outside);
        };
        match self.program.objects.as_mut_slice().get_mut(number) {
            Some(object) => Ok(object),
            None => Err(outside),
        }
    }

    /// What a line of data adds to.
    fn content(&mut self) -> Result<&mut Content, LineError> {
        Ok(&mut self.object()?.content)
    }

    /// What a line of data adds to: all its bytes are held, and what is added is at a multiple of so many bytes.
    fn filled(&mut self, align: u32) -> Result<&mut Content, LineError> {
        self.align(align)?;
        let content = self.content()?;
        fill(content)?;
        Ok(content)
    }

    /// Adds a number's low bytes.
    fn push_low(&mut self, bytes: u8, value: u64) -> Result<(), LineError> {
        push_number(self.content()?, bytes, value)
    }

    /// Adds a word for a symbol and an addend, less another symbol, if there is one.
    fn push_word(
        &mut self,
        bytes: u8,
        symbol: u32,
        addend: u32,
        from: Option<u32>,
    ) -> Result<(), LineError> {
        let one = Reference {
            at: 0,
            symbol,
            addend,
            from,
            line: self.position.line,
        };
        push_reference(self.content()?, bytes, one)
    }

    /// Adds a distance.
    fn push_distance(&mut self, bytes: u8, from: &'a [u8], to: &'a [u8]) -> Result<(), LineError> {
        let to = self.named(to)?;
        let from = self.named(from)?;
        self.push_word(bytes, to, 0, Some(from))
    }

    /// Adds one value.
    fn push_value(&mut self, bytes: u8, value: Word<'a>) -> Result<(), LineError> {
        match value {
            Word::Number(value) => self.push_low(bytes, value),
            Word::Symbol(name, addend) => {
                let symbol = self.named(name)?;
                self.push_word(bytes, symbol, addend, None)
            }
            Word::Distance { from, to } => self.push_distance(bytes, from, to),
        }
    }

    /// Adds the functions that values name to those that run before or after `main`.
    fn push_calls(&mut self, after: bool, order: u32, text: &'a [u8]) -> Result<(), LineError> {
        let mut values = Values::new(text);
        for _ in 0..values.most() {
            match values.next_value(&self.constants)? {
                Some(Word::Symbol(name, 0)) => self.push_call(after, order, name)?,
                Some(Word::Number(0)) => {}
                Some(_) => return Err(LineError::Refused(Refusal::BadOperands)),
                None => break,
            }
        }
        Ok(())
    }

    /// Adds a function to those that run before or after `main`.
    fn push_call(&mut self, after: bool, order: u32, name: &'a [u8]) -> Result<(), LineError> {
        let symbol = self.program.symbols.number_if_short(name)?;
        self.program.calls.push(Startup {
            symbol,
            after,
            order,
            unit: self.position.unit,
            line: self.position.line,
        })?;
        Ok(())
    }

    /// Adds each of some values.
    fn push_all(&mut self, bytes: u8, text: &'a [u8]) -> Result<(), LineError> {
        let mut values = Values::new(text);
        for _ in 0..values.most() {
            match values.next_value(&self.constants)? {
                Some(value) => self.push_value(bytes, value)?,
                None => break,
            }
        }
        Ok(())
    }

    /// Adds values, each at a multiple of its size where they are aligned.
    fn push_values(
        &mut self,
        bytes: u8,
        is_aligned: bool,
        text: &'a [u8],
    ) -> Result<(), LineError> {
        if let Section::Calls { after, order } = self.position.sections.now {
            return self.push_calls(after, order, text);
        }
        let _content = self.filled(if is_aligned { u32::from(bytes) } else { 1 })?;
        self.push_all(bytes, text)
    }

    /// Adds each of some floating-point numbers.
    fn push_all_floats(
        &mut self,
        bytes: u8,
        double: bool,
        text: &'a [u8],
    ) -> Result<(), LineError> {
        let mut values = Values::new(text);
        for _ in 0..values.most() {
            match values.next_float(double)? {
                Some(value) => self.push_low(bytes, value)?,
                None => break,
            }
        }
        Ok(())
    }

    /// Adds floating-point numbers.
    fn push_floats(&mut self, double: bool, text: &'a [u8]) -> Result<(), LineError> {
        let bytes = if double { 8u8 } else { 4 };
        let _content = self.filled(u32::from(bytes))?;
        self.push_all_floats(bytes, double, text)
    }

    /// Adds bytes that are 0.
    fn add_zeros(&mut self, size: u32) -> Result<(), LineError> {
        self.align(1)?;
        let content = self.content()?;
        content.size = content.size.saturating_add(size);
        Ok(())
    }

    /// Adds bytes with one value.
    fn add_space(&mut self, size: u32, byte: u8) -> Result<(), LineError> {
        if byte == 0 {
            self.add_zeros(size)
        } else {
            self.add_fill(size, 1, u32::from(byte))
        }
    }

    /// Adds a number so often, of so many bytes each.
    fn add_fill(&mut self, count: u32, bytes: u8, value: u32) -> Result<(), LineError> {
        let content = self.filled(1)?;
        if count.saturating_mul(u32::from(bytes.max(1))) > MOST_BYTES {
            return Err(LineError::Refused(Refusal::BadNumber));
        }
        for _ in 0..count {
            push_number(content, bytes, u64::from(value))?;
        }
        Ok(())
    }

    /// Adds quoted texts.
    fn push_text(&mut self, quoted: &[u8], ended: bool) -> Result<(), LineError> {
        let content = self.filled(1)?;
        push_quoted(&mut content.bytes, quoted, ended)?;
        measure(content)
    }

    /// Lets what follows be at a multiple of so many bytes: the next datum, or what is added to this one.
    fn align_next(&mut self, align: u32) {
        if self.position.sections.now == Section::Data {
            self.position.data.align = self.position.data.align.max(align);
        }
    }

    /// Lets what is added to a datum be at a multiple of so many bytes, and of what the last `.align` asked for.
    fn align(&mut self, align: u32) -> Result<(), LineError> {
        let align = align.max(self.position.data.align);
        pad(self.object()?, align)?;
        self.position.data.align = 1;
        Ok(())
    }

    /// A directive that lays down data, or says nothing that matters here.
    pub(crate) fn data_directive(
        &mut self,
        directive: Directive,
        text: &'a [u8],
    ) -> Result<(), LineError> {
        if self.position.sections.now == Section::Notes {
            return Ok(());
        }
        match directive {
            Directive::Align(align) => self.align_next(align),
            Directive::Data { bytes, aligned } => return self.push_values(bytes, aligned, text),
            Directive::Float { double } => return self.push_floats(double, text),
            Directive::Text { ended } => return self.push_text(text, ended),
            Directive::Space { size, fill } => return self.add_space(size, fill),
            Directive::Fill {
                count,
                bytes,
                value,
            } => return self.add_fill(count, bytes, value),
            _ => {}
        }
        Ok(())
    }
}
