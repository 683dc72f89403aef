//! Reading the texts.
ghost use Rattle.std.specs.Prelude.{IfOk};
ghost use Rattle.cc_program.specs.Programs;

use crate::layout::lay_out;
use crate::reach::reach;
use cc_lines::{
    Constants, Directive, DirectiveLine, Instruction, Line, LineError, Lines, MOST_LABELS, Refusal,
    Register, Section, Statement, Width, first_statement, is_numbered, label_before, line_read,
    names_numbered, without_comment,
};
use cc_program::{Function, Item, Meaning, Program, ReadError, error_at, number_behind};
use cc_rules::{file_key, has_slot};
use indexmap::IndexMap;
use std::alloc::{AllocError, Global};

/// The section of the lines, and the one before.
#[derive(Clone, Copy)]
pub(crate) struct Sections {
    pub now: Section,
    before: Section,
}

impl Sections {
    /// Goes to a section.
    fn go_to(&mut self, section: Section) {
        self.before = self.now;
        self.now = section;
    }
}

/// The datum that lines of data add to, and the next one: at a multiple of so many bytes.
#[derive(Clone, Copy)]
pub(crate) struct InData {
    pub object: Option<usize>,
    pub align: u32,
}

impl InData {
    /// In no datum, and the next one anywhere.
    fn new() -> InData {
        InData {
            object: None,
            align: 1,
        }
    }
}

/// The function of the statements.
#[derive(Clone, Copy)]
pub(crate) struct InCode {
    pub function: Option<usize>,
    /// Whether jumps have no delay slots.
    pub reorder: bool,
}

/// How far a text was read.
#[derive(Clone, Copy)]
pub(crate) struct Position {
    pub unit: u32,
    pub line: u32,
    /// The number of the statement in its line.
    pub statement: u32,
    pub sections: Sections,
    pub code: InCode,
    pub data: InData,
}

impl Position {
    /// The start of the text with this number.
    fn new(unit: u32) -> Position {
        Position {
            unit,
            line: 0,
            statement: 0,
            sections: Sections {
                now: Section::Code,
                before: Section::Code,
            },
            code: InCode {
                function: None,
                reorder: true,
            },
            data: InData::new(),
        }
    }

    /// Whether it is in a function.
    fn is_in_function(&self) -> bool {
        self.sections.now == Section::Code && self.code.function.is_some()
    }
}

/// A program that texts are read into, one after the other.
#[derive(Drop)]
pub struct Reader<'a> {
    pub(crate) alloc: Global,
    pub program: Program<'a>,
    pub(crate) position: Position,
    /// The names that the text shares with others, each with whether it is weak.
    shared: IndexMap<&'a [u8], bool>,
    /// The names that it defines.
    labels: Vec<&'a [u8]>,
    pub(crate) constants: Constants<'a>,
    /// What each `.set push` kept: whether jumps had no delay slots.
    settings: Vec<bool>,
    /// The labels of the text that are numbers.
    numbered: IndexMap<&'a [u8], Numbered>,
    /// How many such labels all texts have.
    numbered_count: u32,
}

/// The symbols of the labels that are the same number: of the last one, and of the next one, where a line names it.
#[derive(Clone, Copy)]
struct Numbered {
    last: Option<u32>,
    next: Option<u32>,
}

/// What a directive says of its name: whether it is its text's own, and if not, whether it is weak.
#[derive(Clone, Copy)]
enum Told {
    Own,
    Shared,
    Weak,
    Nothing,
}

/// What a directive says of its name.
fn told_by(directive: Directive) -> Told {
    match directive {
        Directive::Global => Told::Shared,
        Directive::Weak => Told::Weak,
        Directive::Local
        | Directive::Alias
        | Directive::Within(_)
        | Directive::Here
        | Directive::Common { local: true, .. } => Told::Own,
        _ => Told::Nothing,
    }
}

/// Whether a line without labels may say something of names.
fn may_tell(line: &[u8]) -> bool {
    line.starts_with(b".") || line.contains(&b'=')
}

/// Notes what an instruction says of its function: whether it calls, and where it saves register 31.
fn note_instruction(function: &mut Function, instruction: &Instruction) {
    match *instruction {
        Instruction::Call(_) => function.calls = true,
        Instruction::Store {
            width: Width::Word,
            rs: Register::LINK,
            base: Register::STACK,
            offset,
        } => {
            if function.saved_link.is_none() || function.masked_link == Some(offset) {
                function.saved_link = Some(offset);
            }
        }
        _ => {}
    }
}

impl<'a> Reader<'a> {
    /// A program with nothing in it.
    pub fn new(alloc: Global) -> Result<Reader<'a>, AllocError>
        ensures { IfOk result (λ reader. Programs.IsEmpty reader.program) }
    {
        Ok(Reader {
            alloc,
            program: Program::new(alloc)?,
            position: Position::new(0),
            shared: IndexMap::new(alloc),
            labels: Vec::new(alloc),
            constants: Constants::new(alloc),
            settings: Vec::new(alloc),
            numbered: IndexMap::new(alloc),
            numbered_count: 0,
        })
    }

    /// Notes the labels at the front of a line. Answers the rest after them.
    fn note_labels(&mut self, line: &'a [u8]) -> Result<&'a [u8], AllocError> {
        let mut rest = line;
        for _ in 0..MOST_LABELS {
            let Some((name, behind)) = label_before(rest) else {
                break;
            };
            if !is_numbered(name) {
                self.labels.push(name)?;
            }
            rest = behind;
        }
        Ok(rest)
    }

    /// Notes what a directive says of a name.
    fn note_told(&mut self, name: &'a [u8], told: Told) -> Result<(), AllocError> {
        match told {
            Told::Own => self.note_own(name),
            Told::Shared if self.shared.get(name).is_none() => self.share(name, false),
            Told::Weak => self.share(name, true),
            Told::Shared | Told::Nothing => Ok(()),
        }
    }

    /// Notes a name that the text defines.
    fn note_own(&mut self, name: &'a [u8]) -> Result<(), AllocError> {
        self.labels.push(name)?;
        Ok(())
    }

    /// Notes a name that the text shares with others.
    fn share(&mut self, name: &'a [u8], weak: bool) -> Result<(), AllocError> {
        self.shared.insert(name, weak)?;
        Ok(())
    }

    /// Notes the names of a statement.
    fn note_statement(&mut self, text: &'a [u8]) -> Result<(), AllocError> {
        let rest = self.note_labels(text)?;
        if may_tell(rest) {
            if let Ok(Line::Directive(read)) = line_read(rest, &self.constants) {
                if let Directive::Constant(value) = read.directive {
                    return self.constants.set(read.name, value);
                }
                return self.note_told(read.name, told_by(read.directive));
            }
        }
        Ok(())
    }

    /// Notes the names of a line.
    fn note_line(&mut self, line: &'a [u8]) -> Result<(), AllocError> {
        let mut rest = line;
        for _ in 0..=line.len() {
            if rest.is_empty() {
                break;
            }
            let (first, behind) = first_statement(rest);
            self.note_statement(first)?;
            rest = behind;
        }
        Ok(())
    }

    /// Notes the names of all lines of a text.
    fn note_all(&mut self, text: &'a [u8]) -> Result<(), AllocError> {
        let mut lines = Lines::new(text);
        for _ in 0..u64::MAX {
            let Some(line) = lines.next_line() else {
                break;
            };
            self.note_line(without_comment(line))?;
        }
        Ok(())
    }

    /// Makes those names a text's own that it does not share with others.
    fn make_own(&mut self) -> Result<(), AllocError> {
        let owner = self.position.unit.saturating_add(1);
        self.program.symbols.begin_unit();
        for name in &self.labels {
            if self.shared.get(*name).is_none() {
                self.program.symbols.make_own(*name, owner)?;
            }
        }
        Ok(())
    }

    /// Begins the text with this number: finds out which names it shares with others; all others that it defines are its own.
    fn begin(&mut self, unit: u32, text: &'a [u8]) -> Result<(), AllocError> {
        self.position = Position::new(unit);
        self.shared.clear();
        self.labels.clear();
        self.settings.clear();
        self.numbered.clear();
        self.constants.clear();
        self.note_all(text)?;
        self.constants.clear();
        self.make_own()
    }

    /// Whether a text may define a symbol again that others define.
    pub(crate) fn is_weak(&self, name: &[u8]) -> bool {
        match self.shared.get(name) {
            Some(weak) => *weak,
            None => false,
        }
    }

    /// A new symbol for a label that is a number.
    fn add_numbered(&mut self, name: &'a [u8]) -> Result<u32, LineError> {
        self.numbered_count = self.numbered_count.saturating_add(1);
        Ok(self.program.symbols.push(name, self.numbered_count)?)
    }

    /// The symbol of the last label that is this number, or of the next one.
    fn numbered_symbol(&mut self, name: &'a [u8], is_next: bool) -> Result<u32, LineError> {
        let found = self.numbered_before(name);
        if !is_next {
            return match found.last {
                Some(last) => Ok(last),
                None => Err(LineError::Refused(Refusal::Undefined)),
            };
        }
        match found.next {
            Some(next) => Ok(next),
            None => self.next_numbered(name, found.last),
        }
    }

    /// The symbols of the labels that are this number.
    fn numbered_before(&self, name: &[u8]) -> Numbered {
        match self.numbered.get(name) {
            Some(found) => *found,
            None => Numbered {
                last: None,
                next: None,
            },
        }
    }

    /// A new symbol for the next label that is this number.
    fn next_numbered(&mut self, name: &'a [u8], last: Option<u32>) -> Result<u32, LineError> {
        let next = self.add_numbered(name)?;
        let found = Numbered {
            last,
            next: Some(next),
        };
        self.numbered.insert(name, found)?;
        Ok(next)
    }

    /// The symbol of a label that is a number.
    fn begin_numbered(&mut self, name: &'a [u8]) -> Result<u32, LineError> {
        let symbol = self.numbered_symbol(name, true)?;
        let found = Numbered {
            last: Some(symbol),
            next: None,
        };
        self.numbered.insert(name, found)?;
        Ok(symbol)
    }

    /// The symbol that a line names, which may be a label that is a number.
    pub(crate) fn named(&mut self, name: &'a [u8]) -> Result<u32, LineError> {
        match name {
            [digits @ .., direction] if names_numbered(name) => {
                self.numbered_symbol(digits, *direction == b'f')
            }
            _ => self.program.symbols.number_if_short(name),
        }
    }

    /// Gives a symbol a meaning.
    pub(crate) fn define(
        &mut self,
        symbol: u32,
        meaning: Meaning,
        weak: bool,
    ) -> Result<(), LineError> {
        if self.program.symbols.define(symbol, meaning, weak) {
            Ok(())
        } else {
            Err(LineError::Refused(Refusal::DefinedTwice))
        }
    }

    /// Ends the last function.
    fn end_function(&mut self) {
        let end = self.program.items.len();
        if let Some(number) = self.position.code.function {
            if let Some(function) = self.program.functions.as_mut_slice().get_mut(number) {
                function.end = end;
            }
        }
        self.position.code.function = None;
    }

    /// Begins a function at its label.
    fn begin_function(&mut self, name: &'a [u8]) -> Result<(), LineError> {
        self.end_function();
        let weak = self.is_weak(name);
        let symbol = self.program.symbols.number_if_short(name)?;
        self.add_function(symbol, weak)
    }

    /// Adds a function without items.
    fn add_function(&mut self, symbol: u32, weak: bool) -> Result<(), LineError> {
        let number = self.program.functions.len();
        let meaning = Meaning::Function(number_behind(number)?);
        self.define(symbol, meaning, weak)?;
        let first = self.program.items.len();
        self.program
            .functions
            .push(Function::new(symbol, self.position.unit, first))?;
        self.position.code.function = Some(number);
        Ok(())
    }

    /// A label in code that is local to its function.
    fn place_label(&mut self, symbol: u32) -> Result<(), LineError> {
        let Some(function) = self.position.code.function else {
            return Ok(());
        };
        let item = self.program.items.len();
        let function = number_behind(function)?;
        self.define(symbol, Meaning::Place { item, function }, false)?;
        self.program.items.push(Item::Label(symbol))?;
        Ok(())
    }

    /// A label that is a number.
    fn numbered_label(&mut self, name: &'a [u8]) -> Result<(), LineError> {
        let symbol = self.begin_numbered(name)?;
        match self.position.sections.now {
            Section::Code => self.place_label(symbol),
            Section::Data => self.begin_object(symbol, false),
            Section::Notes | Section::Calls { .. } => Ok(()),
        }
    }

    /// A label.
    fn label(&mut self, name: &'a [u8]) -> Result<(), LineError> {
        if is_numbered(name) {
            return self.numbered_label(name);
        }
        match self.position.sections.now {
            Section::Code if name.starts_with(b"$") => self.local_label(name),
            Section::Code => self.begin_function(name),
            Section::Data => {
                let weak = self.is_weak(name);
                let symbol = self.program.symbols.number_if_short(name)?;
                self.begin_object(symbol, weak)
            }
            Section::Notes | Section::Calls { .. } => Ok(()),
        }
    }

    /// A label with a name in code that is local to its function.
    fn local_label(&mut self, name: &'a [u8]) -> Result<(), LineError> {
        let symbol = self.program.symbols.number_if_short(name)?;
        self.place_label(symbol)
    }

    /// A name for where it is in its section, in code a label of its function.
    fn here(&mut self, name: &'a [u8]) -> Result<(), LineError> {
        if self.position.sections.now == Section::Code {
            self.local_label(name)
        } else {
            self.label(name)
        }
    }

    /// Goes to a section, which ends the datum that lines add to.
    fn go_to(&mut self, section: Section) {
        self.position.sections.go_to(section);
        self.position.data = InData::new();
    }

    /// Why an instruction is not taken here, if it is not.
    fn refusal_of(&self, read: &Statement) -> Option<Refusal> {
        if !self.position.is_in_function() {
            return Some(Refusal::OutsideFunction);
        }
        if !self.position.code.reorder && has_slot(&read.instruction) {
            return Some(Refusal::DelaySlots);
        }
        None
    }

    /// An instruction.
    fn statement(&mut self, read: Statement<'a>) -> Result<(), LineError> {
        if let Some(refusal) = self.refusal_of(&read) {
            return Err(LineError::Refused(refusal));
        }
        let symbol = self.named_by(read.symbol)?;
        self.push_instruction(read.instruction, symbol)?;
        for instruction in &read.behind {
            self.push_behind(*instruction, symbol)?;
        }
        Ok(())
    }

    /// The symbol that an instruction names, if it names one.
    fn named_by(&mut self, name: Option<&'a [u8]>) -> Result<Option<u32>, LineError> {
        match name {
            Some(name) => Ok(Some(self.named(name)?)),
            None => Ok(None),
        }
    }

    /// Adds one of the instructions after the first one of a statement: where it stores, it names the same symbol.
    fn push_behind(
        &mut self,
        instruction: Instruction,
        symbol: Option<u32>,
    ) -> Result<(), LineError> {
        match instruction {
            Instruction::Nop => Ok(()),
            Instruction::Store { .. } => self.push_instruction(instruction, symbol),
            _ => self.push_instruction(instruction, None),
        }
    }

    /// Adds an instruction to its function.
    fn push_instruction(
        &mut self,
        instruction: Instruction,
        symbol: Option<u32>,
    ) -> Result<(), LineError> {
        if let Some(number) = self.position.code.function {
            if let Some(function) = self.program.functions.as_mut_slice().get_mut(number) {
                note_instruction(function, &instruction);
            }
        }
        self.program.items.push(Item::Code {
            instruction,
            symbol,
            line: self.position.line,
        })?;
        Ok(())
    }

    /// `.frame` and `.mask`.
    fn note_frame(&mut self, directive: Directive) {
        let Some(number) = self.position.code.function else {
            return;
        };
        if let Some(function) = self.program.functions.as_mut_slice().get_mut(number) {
            match directive {
                Directive::Frame { points, size } => {
                    function.points = points;
                    function.frame = size;
                }
                Directive::Mask {
                    saves_link: true,
                    offset,
                } => function.masked_link = Some(function.frame.wrapping_add(offset)),
                _ => {}
            }
        }
    }

    /// One name for another.
    fn alias(&mut self, name: &'a [u8], target: &'a [u8]) -> Result<(), LineError> {
        let weak = self.is_weak(name);
        let number = self.program.symbols.number_if_short(name)?;
        let other = self.program.symbols.number_if_short(target)?;
        self.define(number, Meaning::Alias(other), weak)
    }

    /// `.weak`.
    fn weaken(&mut self, name: &'a [u8]) -> Result<(), LineError> {
        let number = self.program.symbols.number_if_short(name)?;
        self.program.symbols.weaken(number);
        Ok(())
    }

    /// `.loc`.
    fn note_location(&mut self, file: u32, line: u32) -> Result<(), LineError> {
        if self.position.is_in_function() {
            self.program.items.push(Item::Location { file, line })?;
        }
        Ok(())
    }

    /// `.file`.
    fn note_file(&mut self, number: u32, quoted: &'a [u8]) -> Result<(), LineError> {
        let key = file_key(self.position.unit, number);
        self.program.files.insert(key, quoted)?;
        Ok(())
    }

    /// `.set push` and `.set pop`.
    fn settings(&mut self, directive: Directive) -> Result<(), LineError> {
        if let Directive::PushSettings = directive {
            self.settings.push(self.position.code.reorder)?;
            return Ok(());
        }
        match self.settings.pop() {
            Some(reorder) => {
                self.position.code.reorder = reorder;
                Ok(())
            }
            None => Err(LineError::Refused(Refusal::BadOperands)),
        }
    }

    /// A directive.
    fn directive(&mut self, read: DirectiveLine<'a>) -> Result<(), LineError> {
        match read.directive {
            Directive::Section(section) => self.go_to(section),
            Directive::Previous => self.go_to(self.position.sections.before),
            Directive::Reorder(reorder) => self.position.code.reorder = reorder,
            Directive::PushSettings | Directive::PopSettings => {
                return self.settings(read.directive);
            }
            Directive::Constant(value) => self.constants.set(read.name, value)?,
            Directive::Frame { .. } | Directive::Mask { .. } => self.note_frame(read.directive),
            Directive::Weak => return self.weaken(read.name),
            Directive::Alias => return self.alias(read.name, read.text),
            Directive::Within(addend) => {
                return self.add_within(read.name, read.text, addend);
            }
            Directive::Here => return self.here(read.name),
            Directive::Location { file, line } => return self.note_location(file, line),
            Directive::File(number) => return self.note_file(number, read.text),
            Directive::Common { size, align, .. } => {
                return self.add_common(read.name, size, align);
            }
            _ => return self.data_directive(read.directive, read.text),
        }
        Ok(())
    }

    /// What follows the labels of a line.
    fn behind_labels(&mut self, rest: &'a [u8]) -> Result<(), LineError> {
        match line_read(rest, &self.constants) {
            Ok(Line::Nothing) => Ok(()),
            Ok(Line::Statement(read)) => self.statement(read),
            Ok(Line::Directive(read)) => self.directive(read),
            Err(_) if self.position.sections.now == Section::Notes => Ok(()),
            Err(refusal) => Err(LineError::Refused(refusal)),
        }
    }

    /// A statement of a line with its labels.
    fn statement_text(&mut self, text: &'a [u8]) -> Result<(), LineError> {
        let mut rest = text;
        for _ in 0..MOST_LABELS {
            let Some((name, behind)) = label_before(rest) else {
                break;
            };
            self.label(name)?;
            rest = behind;
        }
        // What only debuggers read may be of any shape.
        let matters = rest.starts_with(b".") && !rest.starts_with(b".u");
        if self.position.sections.now == Section::Notes && !matters {
            return Ok(());
        }
        self.behind_labels(rest)
    }

    /// A line, without its comment.
    fn line(&mut self, text: &'a [u8]) -> Result<(), LineError> {
        self.position.statement = 0;
        let mut rest = text;
        for _ in 0..=text.len() {
            if rest.is_empty() {
                break;
            }
            let (first, behind) = first_statement(rest);
            self.statement_text(first)?;
            self.position.statement = self.position.statement.saturating_add(1);
            rest = behind;
        }
        Ok(())
    }

    /// Reads the lines of a text.
    fn read_lines(&mut self, text: &'a [u8]) -> Result<(), LineError> {
        let mut lines = Lines::new(text);
        for _ in 0..u64::MAX {
            let Some(next) = lines.next_line() else {
                break;
            };
            self.position.line = self.position.line.saturating_add(1);
            self.line(without_comment(next))?;
        }
        self.end_function();
        Ok(())
    }

    /// Reads one text.
    fn read_unit(&mut self, unit: u32, text: &'a [u8]) -> Result<(), ReadError<'a>> {
        self.begin(unit, text)?;
        match self.read_lines(text) {
            Ok(()) => Ok(()),
            Err(error) => {
                let Position {
                    line,
                    statement,
                    ..
                } = self.position;
                Err(error_at(unit, line, statement, error))
            }
        }
    }

    /// Reads all texts, keeps what `main` reaches of them, and gives each datum its address. Answers the symbol of `main` and
    /// the first byte after all data.
    pub fn read_all(&mut self, texts: &[&'a [u8]]) -> Result<(u32, u64), ReadError<'a>> {
        let mut unit = 0u32;
        for text in texts {
            self.read_unit(unit, *text)?;
            unit = unit.saturating_add(1);
        }
        self.program.symbols.begin_unit();
        let main = reach(self.alloc, &mut self.program)?;
        Ok((main, lay_out(&mut self.program)))
    }
}
