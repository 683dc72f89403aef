//! What may have been meant by a faulty line.

use crate::foreign::{directive_instead, mnemonic_instead, register_instead};
use crate::labels::{Definition, first_definition, names_of, other_case};
use crate::operand::push_operand_hint;
use crate::sentence::{
    BYTE_ORDER_MARK, char_of, is_among, is_mnemonic, mnemonics, name_of, text_of, token_of,
};
use lab_faults::Shown;
use lab_slips::nearest;
use lab_writer::Writer;
use mx_asm::statement_words;
use mx_lines::{Fault, Word, spells};

/// The directives of the language.
const DIRECTIVES: [&str; 5] = [".code", ".data", ".word", ".space", ".input"];

// Appends which name was meant in the place of a word, if one is near.
fn push_meant(text: &mut Writer, word: &str, names: &[&str]) {
    if let Some(Some(name)) = text.take(nearest(text.alloc(), word, names)) {
        text.push_parts(&["did you mean '", name, "'?"]);
    }
}

/// Signs that editors and word processors put in the place of others, and what is said of each.
static SIGNS: [(&str, &str); 6] = [
    (
        BYTE_ORDER_MARK,
        "this is a byte order mark: store the text as UTF-8 without one",
    ),
    ("\u{a0}", "this is a no-break space: write a space or a tab"),
    ("\u{2212}", "a minus is written '-'"),
    ("\u{2013}", "a minus is written '-'"),
    ("\u{2014}", "a minus is written '-'"),
    ("\r", "a line ends with LF, or with CR and LF"),
];

// F1: what is said of a sign.
fn byte_told(typed: Option<&str>) -> &'static str {
    let typed = typed.unwrap_or("");
    for (sign, told) in &SIGNS {
        if typed == *sign {
            return *told;
        }
    }
    "any text may follow a ';'"
}

// F2: what is said of bytes at which no token begins; nothing where nothing is known.
fn token_told(token: &[u8]) -> &'static str {
    match token {
        [b'(' | b')', ..] => "an address is OFFSET[R], as '4[r1]'",
        [b'$' | b'%', ..] => "a register is written 'r1', without a sign before it",
        [b'\'' | b'"', ..] => "a character is written as its number: 65 is 'A'",
        [b'/' | b'*' | b'!' | b'@' | b'|', ..] => "a comment begins with ';'",
        [b'+', ..] => "a number that is not negative has no sign",
        [b'-', ..] => "a '-' comes directly before the digits of its number",
        [b'0'..=b'9', ..] => {
            "a number is decimal, or hexadecimal after '0x'; a name begins with a letter or '_'"
        }
        _ => "",
    }
}

// The second word is the name of an instruction, so that the first one may be a label.
fn is_before_mnemonic(words: &[Word]) -> bool {
    match statement_words(words) {
        [Word::Name(_), Word::Name(second), ..] => is_mnemonic(second),
        _ => false,
    }
}

// F3: a mnemonic like this one, in small letters.
fn push_mnemonic_like(text: &mut Writer, word: &str, names: &[&str]) {
    if let Some(lower) = text.take(word.to_ascii_lowercase(text.alloc())) {
        push_meant(text, &lower, names);
    }
}

// F3: a word of another machine, a label without its colon, or a slip.
fn push_mnemonic_hint(text: &mut Writer, words: &[Word], token: &[u8]) {
    let word = text_of(token);
    if let Some(instead) = mnemonic_instead(token) {
        text.push_str(instead);
    } else if is_before_mnemonic(words) {
        text.push_parts(&["a label ends with a ':': '", word, ":'"]);
    } else if let Some(names) = text.take(mnemonics(text.alloc())) {
        push_mnemonic_like(text, word, &names);
    }
}

// The number of a register, after another letter or zeros.
fn register_number(token: &[u8]) -> Option<u32> {
    let digits = match token {
        [b'r' | b'R' | b'x' | b'X', digits @ ..] => text_of(digits),
        _ => return None,
    };
    match digits.parse::<u32>() {
        Ok(number) if number <= 31 => Some(number),
        _ => None,
    }
}

// F5: a register of another machine, or a number with zeros in front.
fn push_register_hint(text: &mut Writer, token: &[u8]) {
    if let Some(instead) = register_instead(token) {
        text.push_str(instead);
    } else if let Some(number) = register_number(token) {
        text.push_numbers(&["did you mean 'r", "'?"], &[u64::from(number)]);
    }
}

// F6: what is said of a number that is too wide for its place; nothing but for `addi`.
fn range_told(name: &[u8]) -> &'static str {
    if spells(name, "addi") {
        "a wider number is a data word: 'ld LABEL[r0],R' loads the word that '.word' puts there"
    } else {
        ""
    }
}

// F7: which line defines the label first.
fn push_first(text: &mut Writer, token: &[u8], definitions: &[Definition]) {
    if let Some(line) = first_definition(definitions, token) {
        text.push_numbers(&["line ", " defines it first"], &[u64::from(line)]);
    }
}

// F8: a label like this one.
fn push_label_like(text: &mut Writer, token: &[u8], definitions: &[Definition]) {
    if let Some(names) = text.take(names_of(text.alloc(), definitions)) {
        push_meant(text, text_of(token), &names);
    }
}

// F8: a label in other letters, or a slip.
fn push_label_hint(text: &mut Writer, token: &[u8], definitions: &[Definition]) {
    match other_case(definitions, token) {
        Some(other) => {
            text.push_numbers(&["line ", " defines '"], &[u64::from(other.line)]);
            text.push_str(text_of(other.name));
            text.push_str("': in labels small and capital letters differ");
        }
        None => push_label_like(text, token, definitions),
    }
}

// F11: a directive of another assembler, or a slip; the sentence of a directive in another place says enough.
fn push_directive_hint(text: &mut Writer, token: &[u8]) {
    if let Some(instead) = directive_instead(token) {
        text.push_str(instead);
    } else if token.starts_with(b".") && !is_among(&DIRECTIVES, token) {
        push_meant(text, text_of(token), &DIRECTIVES);
    }
}

/// Appends what may have been meant by a faulty line of these words, in a sentence, where something is known.
pub fn push_hint(text: &mut Writer, shown: &Shown, words: &[Word], definitions: &[Definition]) {
    let token = token_of(shown);
    match shown.fault {
        Fault::BadByte => text.push_str(byte_told(char_of(shown))),
        Fault::BadToken => text.push_str(token_told(token)),
        Fault::UnknownMnemonic => push_mnemonic_hint(text, words, token),
        Fault::BadOperands => push_operand_hint(text, shown, words),
        Fault::BadRegister => push_register_hint(text, token),
        Fault::NumberOutOfRange => text.push_str(range_told(name_of(words))),
        Fault::DuplicateLabel => push_first(text, token, definitions),
        Fault::UndefinedLabel => push_label_hint(text, token, definitions),
        Fault::BadDirective => push_directive_hint(text, token),
        _ => {}
    }
}
