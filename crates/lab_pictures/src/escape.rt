//! Text in HTML and SVG.
use lab_writer::Writer;

/// Appends words as text of HTML or XML.
pub fn push_escaped(text: &mut Writer, words: &str) {
    for sign in words.chars() {
        match sign {
            '&' => text.push_str("&amp;"),
            '<' => text.push_str("&lt;"),
            '>' => text.push_str("&gt;"),
            _ => text.push(sign),
        }
    }
}
