//! Rows of CSV (RFC 4180, with lines that end in LF).
use csv::{Writer, WriterBuilder};
use mx_io::Memory;
use std::alloc::Global;

/// Rows, as they are written. Where memory runs out, their end tells so.
#[derive(Drop)]
pub(crate) struct Rows {
    alloc: Global,
    writer: Writer<Vec<u8>>,
    failed: bool,
}

impl Rows {
    /// No row.
    pub(crate) fn new(alloc: Global) -> Rows {
        Rows {
            alloc,
            writer: WriterBuilder::new().from_writer(Vec::new(alloc)),
            failed: false,
        }
    }

    /// Appends a name to the row that is being written.
    pub(crate) fn push_name(&mut self, name: &str) {
        match self.writer.write_field(name.as_bytes()) {
            Ok(()) => {}
            Err(_) => self.failed = true,
        }
    }

    // Appends a number to the row.
    fn push_number(&mut self, number: i128) {
        match format!(in self.alloc; "{number}") {
            Ok(field) => self.push_name(field.as_str()),
            Err(_) => self.failed = true,
        }
    }

    /// Appends numbers to the row. A number that is not there is left empty.
    pub(crate) fn push_numbers(&mut self, numbers: &[Option<i128>]) {
        for number in numbers {
            match number {
                Some(number) => self.push_number(*number),
                None => self.push_name(""),
            }
        }
    }

    /// Ends the row.
    pub(crate) fn end(&mut self) {
        match self.writer.end_record() {
            Ok(()) => {}
            Err(_) => self.failed = true,
        }
    }

    /// Appends a row of names.
    pub(crate) fn push_names(&mut self, names: &[&str]) {
        for name in names {
            self.push_name(*name);
        }
        self.end();
    }

    /// All rows.
    pub(crate) fn into_bytes(self) -> Result<Vec<u8>, Memory> {
        let failed = self.failed;
        match self.writer.into_inner() {
            Ok(text) if !failed => Ok(text),
            _ => Err(Memory),
        }
    }
}
