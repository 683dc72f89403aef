//! Texts that are written piece by piece.
use std::alloc::{AllocError, Global};
use std::fmt;
use std::fmt::{Display, Write};

/// A text that is written piece by piece. Once there was no memory for a piece, none is appended any more, and the text is not handed
/// out: so only who asks for it has an error to look at. It holds bytes, since a source that is quoted may be no UTF-8.
#[derive(Drop)]
pub struct Writer {
    bytes: Vec<u8>,
    failed: bool,
}

impl Write for Writer {
    // What formats a value stops at the first piece that there is no memory for.
    fn write_str(&mut self, text: &str) -> fmt::Result {
        self.push_str(text);
        if self.failed { Err(fmt::Error) } else { Ok(()) }
    }
}

impl Writer {
    /// An empty text.
    pub fn new(alloc: Global) -> Writer {
        Writer {
            bytes: Vec::new(alloc),
            failed: false,
        }
    }

    /// Where it takes its memory from.
    pub fn alloc(&self) -> Global {
        *self.bytes.allocator()
    }

    /// The bytes of the text, where there was memory for all of them.
    pub fn into_bytes(self) -> Result<Vec<u8>, AllocError> {
        if self.failed {
            Err(AllocError)
        } else {
            Ok(self.bytes)
        }
    }

    /// The text, where there was memory for all of it, with marks in place of bytes that are no UTF-8.
    pub fn into_text(self) -> Result<String, AllocError> {
        let alloc = self.alloc();
        let bytes = self.into_bytes()?;
        String::from_utf8_lossy(alloc, &bytes)
    }

    /// How many bytes are written.
    pub fn len(&self) -> usize {
        self.bytes.len()
    }

    /// What was made for the text, where there was memory for it.
    pub fn take<T>(&mut self, made: Result<T, AllocError>) -> Option<T> {
        match made {
            Ok(made) => Some(made),
            Err(_) => {
                self.failed = true;
                None
            }
        }
    }

    /// Appends bytes.
    pub fn push_bytes(&mut self, bytes: &[u8]) {
        if !self.failed {
            self.failed = self.bytes.extend_from_slice(bytes).is_err();
        }
    }

    /// Appends a text.
    pub fn push_str(&mut self, text: &str) {
        self.push_bytes(text.as_bytes());
    }

    /// Appends bytes as a text, with marks in place of those that are no UTF-8.
    pub fn push_lossy(&mut self, bytes: &[u8]) {
        if let Some(text) = self.take(String::from_utf8_lossy(self.alloc(), bytes)) {
            self.push_str(&text);
        }
    }

    /// Appends a sign.
    pub fn push(&mut self, sign: char) {
        let mut bytes = [0u8; 4];
        self.push_str(sign.encode_utf8(&mut bytes));
    }

    /// Appends texts, one behind the other.
    pub fn push_parts(&mut self, parts: &[&str]) {
        for part in parts {
            self.push_str(*part);
        }
    }

    /// Appends a number.
    pub fn push_number(&mut self, number: u64) {
        self.write_fmt(number);
    }

    /// Appends what `write!` is given.
    pub fn write_fmt<D: Display + Drop>(&mut self, value: D) {
        if Write::write(self, value).is_err() {
            self.failed = true;
        }
    }

    /// Appends fixed pieces, with a number behind each as long as there are any.
    pub fn push_numbers(&mut self, pieces: &[&str], numbers: &[u64]) {
        for (k, piece) in pieces.iter().enumerate() {
            self.push_str(*piece);
            if let Some(number) = numbers.get(k) {
                self.push_number(*number);
            }
        }
    }

    /// Leaves so many bytes behind a place: where there are more, the front of them and two dots.
    pub fn fit(&mut self, place: usize, room: usize) {
        let end = place.saturating_add(room);
        if self.len() > end {
            self.cut(end.saturating_sub(2));
            self.push_str("..");
        }
    }

    /// Takes away the blanks at the end.
    pub fn trim(&mut self) {
        let last = self.bytes.iter().rposition(|byte| *byte != b' ');
        self.bytes.truncate(match last {
            Some(last) => last.saturating_add(1),
            None => 0,
        });
    }

    /// Ends a line, without the blanks at its end.
    pub fn end_line(&mut self) {
        self.trim();
        self.push('\n');
    }

    /// Ends a line behind a comma, where something stands on it.
    pub fn separate(&mut self) {
        if !self.bytes.ends_with(b"\n") {
            self.push_str(",\n");
        }
    }

    // Takes away what stands behind a place that is not in the middle of a sign.
    fn cut(&mut self, place: usize) {
        match self.bytes.get(place) {
            Some(byte) if *byte & 0xC0 == 0x80 => {}
            _ => self.bytes.truncate(place),
        }
    }
}
