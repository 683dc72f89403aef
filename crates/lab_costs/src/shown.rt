//! Numbers and bytes as they are shown.
use lab_writer::{Ratio, Writer};
use std::alloc::{AllocError, Global};

/// What stands in a column where there is no number.
const NONE: &str = "-";

/// Appends the last bytes of a line, and its end.
pub(crate) fn push_last(text: &mut Writer, bytes: &[u8]) {
    text.push_bytes(bytes);
    text.push('\n');
}

/// Appends a column with a part of a whole in per cent, or with the cycles for each of so many executed statements; `-` where there
/// is no whole.
pub(crate) fn push_quotient(text: &mut Writer, quotient: Ratio) {
    text.push_ratio(quotient, 6, NONE);
}

/// Bytes as a text: as UTF-8, or where they are none, each as the character of its number.
pub(crate) fn text_of(alloc: Global, bytes: &[u8]) -> Result<String, AllocError> {
    if let Ok(text) = str::from_utf8(bytes) {
        return String::from_str(alloc, text);
    }
    let mut text = String::new(alloc);
    for byte in bytes {
        text.push(char::from(*byte))?;
    }
    Ok(text)
}
