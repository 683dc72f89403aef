//! Names and numbers in columns.
use crate::writer::Writer;

/// What stands in a column where there is no number.
const NONE: &str = "-";

/// Blanks that are appended at once.
static BLANKS: [u8; 32] = [b' '; 32];

impl Writer {
    /// Appends so many blanks.
    pub fn push_blanks(&mut self, count: usize) {
        for _ in 0..count / 32 {
            self.push_bytes(&BLANKS);
        }
        self.push_bytes(&BLANKS[..count % 32]);
    }

    /// Appends blanks, until so many bytes stand behind a place.
    pub fn pad(&mut self, place: usize, width: usize) {
        let end = place.saturating_add(width);
        self.push_blanks(end.saturating_sub(self.len()));
    }

    /// Appends a text at the left of a column of this width.
    pub fn push_padded(&mut self, text: &str, width: usize) {
        write!(self, "{text:<width$}");
    }

    /// Appends a number at the right of a column of this width. Its type holds counts and differences of them.
    pub fn push_right(&mut self, number: i128, width: usize) {
        write!(self, "{number:>width$}");
    }

    /// Appends a blank, and a number in a column of this width, or `-`.
    pub fn push_cell(&mut self, number: Option<i128>, width: usize) {
        self.push(' ');
        match number {
            Some(number) => self.push_right(number, width),
            None => write!(self, "{NONE:>width$}"),
        }
    }

    /// Appends numbers in columns of these widths, a blank before each.
    pub fn push_columns(&mut self, columns: &[(u64, usize)]) {
        for (number, width) in columns {
            self.push_cell(Some(*number as i128), *width);
        }
    }

    /// Appends an address.
    pub fn push_address(&mut self, address: u32) {
        write!(self, "{address:#010x}");
    }
}
