//! A text in JSON, as it is written.
ghost use Rattle.json.specs.Print.{IsPrintable};
ghost use Rattle.json.specs.Reads.{token_of};

use crate::value::Value;
use itoa::Buffer;
use json::{Pretty, Token, Writer};
use mx_io::Memory;
use std::alloc::{AllocError, Global};
use std::mem;

/// Lines, and the one that is being written, whose room is that of the one before.
#[derive(Drop)]
struct Lines {
    text: Vec<u8>,
    line: Writer,
}

impl Lines {
    // Ends the line.
    fn end(&mut self, alloc: Global) -> Result<(), AllocError> {
        let mut line = mem::replace(&mut self.line, Writer::new(Vec::new(alloc))).into_inner();
        line.push(b'\n')?;
        self.text.extend_from_slice(line.as_slice())?;
        line.clear();
        self.line = Writer::new(line);
        Ok(())
    }
}

/// How values are laid out.
#[derive(Drop)]
enum Layout {
    /// One value, with a line for each of its members and items.
    Pretty(Pretty),
    /// A line for each value.
    Lines(Lines),
}

impl Layout {
    // The bytes of the text.
    fn into_bytes(self) -> Result<Vec<u8>, AllocError> {
        match self {
            Layout::Pretty(writer) => {
                let mut text = writer.into_inner();
                text.push(b'\n')?;
                Ok(text)
            }
            Layout::Lines(lines) => Ok(lines.text),
        }
    }
}

/// A text in JSON that is written value by value. Once there was no memory for a part of it, nothing is appended any more, and the
/// text is not handed out: so only who asks for its bytes has an error to look at. Its caller ends what it begins.
#[derive(Drop)]
pub struct Document {
    alloc: Global,
    layout: Layout,
    failed: bool,
}

impl Document {
    /// An empty text, for one value on several lines.
    pub fn new(alloc: Global) -> Document {
        Document {
            alloc,
            layout: Layout::Pretty(Pretty::new(alloc)),
            failed: false,
        }
    }

    /// An empty text, for values on a line each.
    pub fn of_lines(alloc: Global) -> Document {
        let (text, line) = (Vec::new(alloc), Writer::new(Vec::new(alloc)));
        Document {
            alloc,
            layout: Layout::Lines(Lines { text, line }),
            failed: false,
        }
    }

    /// The bytes of the text, where there was memory for all of them.
    pub fn into_bytes(self) -> Result<Vec<u8>, Memory> {
        let failed = self.failed;
        match self.layout.into_bytes() {
            Ok(text) if !failed => Ok(text),
            _ => Err(Memory),
        }
    }

    /// Whether there was no memory for a part of it.
    pub fn has_failed(&self) -> bool {
        self.failed
    }

    /// Notes that there was no memory for what was to be appended.
    pub fn fail(&mut self) {
        self.failed = true;
    }

    // Appends a token.
    fn push_token(&mut self, token: Token)
        requires { IsPrintable (token_of token) }
    {
        if !self.failed {
            self.failed = match &mut self.layout {
                Layout::Pretty(writer) => writer.token(token).is_err(),
                Layout::Lines(lines) => lines.line.token(token).is_err(),
            };
        }
    }

    // Appends a number.
    fn push_number(&mut self, number: u64) {
        self.push_token(Token::Number(Buffer::new().format(number)));
    }

    // Appends a number with a sign.
    fn push_signed(&mut self, number: i64) {
        self.push_token(Token::Number(Buffer::new().format(number)));
    }

    /// Appends a value.
    pub fn push(&mut self, value: Value) {
        match value {
            Value::Null => self.push_token(Token::Null),
            Value::Flag(flag) => self.push_token(Token::Bool(flag)),
            Value::Number(number) => self.push_number(number),
            Value::Signed(number) => self.push_signed(number),
            Value::Text(text) => self.push_token(Token::String(text)),
        }
    }

    /// Begins an object.
    pub fn begin_object(&mut self) {
        self.push_token(Token::BeginObject);
    }

    /// Ends an object.
    pub fn end_object(&mut self) {
        self.push_token(Token::EndObject);
    }

    /// Begins a list.
    pub fn begin_list(&mut self) {
        self.push_token(Token::BeginArray);
    }

    /// Ends a list.
    pub fn end_list(&mut self) {
        self.push_token(Token::EndArray);
    }

    /// Appends the name of a member, whose value has to follow.
    pub fn push_key(&mut self, name: &str) {
        self.push_token(Token::Key(name));
    }

    /// Ends the line of a value, where each has one.
    pub fn end_line(&mut self) {
        if let Layout::Lines(lines) = &mut self.layout {
            self.failed = self.failed || lines.end(self.alloc).is_err();
        }
    }

    /// Appends a member.
    pub fn push_member(&mut self, name: &str, value: Value) {
        self.push_key(name);
        self.push(value);
    }

    /// Appends members.
    pub fn push_members(&mut self, members: &[(&str, Value)]) {
        for (name, value) in members {
            self.push_member(*name, *value);
        }
    }

    /// Appends an object of these members.
    pub fn push_record(&mut self, members: &[(&str, Value)]) {
        self.begin_object();
        self.push_members(members);
        self.end_object();
    }

    /// Appends members that are numbers.
    pub fn push_numbers(&mut self, numbers: &[(&str, u64)]) {
        for (name, number) in numbers {
            self.push_key(*name);
            self.push_number(*number);
        }
    }

    /// Appends a member that is an object of numbers.
    pub fn push_object(&mut self, name: &str, numbers: &[(&str, u64)]) {
        self.push_key(name);
        self.begin_object();
        self.push_numbers(numbers);
        self.end_object();
    }
}
