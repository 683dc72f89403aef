//! Directives.

use crate::constants::Constants;
use crate::cursor::{Mark, number, split_at_byte, split_before, split_name, trimmed};
use crate::operand::{Value, value_read};
use crate::refusal::Refusal;
use crate::table::meaning_of;

/// What a section holds.
#[derive(Clone, Copy, PartialEq, Eq)]
pub enum Section {
    Code,
    Data,
    /// Notes for debuggers and linkers, which are left out.
    Notes,
    /// Functions that run before `main`, or after it, those with the least order first.
    Calls { after: bool, order: u32 },
}

/// What a directive says. The name and the text that it is about are in its line.
#[derive(Clone, Copy)]
pub enum Directive {
    Section(Section),
    Previous,
    /// `.frame`: whether the frame pointer is register 30, and the size of the frame.
    Frame { points: bool, size: u32 },
    /// `.mask`: whether register 31 is saved, and where it is after the frame.
    Mask { saves_link: bool, offset: u32 },
    Global,
    Weak,
    Local,
    Common { size: u32, align: u32, local: bool },
    /// The next datum is at a multiple of so many bytes.
    Align(u32),
    /// So many bytes with one value.
    Space { size: u32, fill: u8 },
    /// A number so often, of so many bytes each.
    Fill { count: u32, bytes: u8, value: u32 },
    /// Values of so many bytes each, which are at multiples of their size where they are `aligned`.
    Data { bytes: u8, aligned: bool },
    /// Floating-point numbers of 4 bytes or of 8, at multiples of their size.
    Float { double: bool },
    /// Quoted texts, ended by a byte 0 each or not.
    Text { ended: bool },
    /// One name for what another names.
    Alias,
    /// A name for what is so many bytes after what another names.
    Within(u32),
    /// A name for where it is in its section.
    Here,
    /// `.set reorder` and `.set noreorder`: whether jumps have no delay slots, or have.
    Reorder(bool),
    /// `.set push` and `.set pop`: what `.set` said is kept, and said again.
    PushSettings,
    PopSettings,
    /// A name for a number.
    Constant(u32),
    /// The line of the source file with this number that the next statements come from.
    Location { file: u32, line: u32 },
    /// The name, in quotes, of the source file with this number.
    File(u32),
    /// It says nothing that matters here.
    Ignored,
}

/// A directive with what it is about.
#[derive(Clone, Copy)]
pub struct DirectiveLine<'a> {
    pub directive: Directive,
    /// The symbol that it is about, where it is about one.
    pub name: &'a [u8],
    /// Its values or quoted texts; of an alias the symbol that it means.
    pub text: &'a [u8],
}

/// How the text after the word of a directive is read.
#[derive(Clone, Copy)]
enum Form {
    /// Whatever the text is, the directive says this.
    Says(Directive),
    /// A name, of which it says this.
    OfName(Directive),
    Section,
    Frame,
    Mask,
    Common { local: bool },
    Align,
    ByteAlign,
    Space,
    Fill,
    Set,
    Location,
    File,
}

/// The words of each form.
const FORMS: [(&[&str], Form); 31] = [
    (&[".loc"], Form::Location),
    (
        &[".word", ".long", ".int"],
        Form::Says(Directive::Data {
            bytes: 4,
            aligned: true,
        }),
    ),
    (
        &[".4byte"],
        Form::Says(Directive::Data {
            bytes: 4,
            aligned: false,
        }),
    ),
    (
        &[".half", ".short", ".hword"],
        Form::Says(Directive::Data {
            bytes: 2,
            aligned: true,
        }),
    ),
    (
        &[".2byte"],
        Form::Says(Directive::Data {
            bytes: 2,
            aligned: false,
        }),
    ),
    (
        &[".byte"],
        Form::Says(Directive::Data {
            bytes: 1,
            aligned: false,
        }),
    ),
    (
        &[".dword", ".quad"],
        Form::Says(Directive::Data {
            bytes: 8,
            aligned: true,
        }),
    ),
    (
        &[".8byte"],
        Form::Says(Directive::Data {
            bytes: 8,
            aligned: false,
        }),
    ),
    (
        &[".float", ".single"],
        Form::Says(Directive::Float { double: false }),
    ),
    (&[".double"], Form::Says(Directive::Float { double: true })),
    (&[".ascii"], Form::Says(Directive::Text { ended: false })),
    (
        &[".asciz", ".asciiz", ".string"],
        Form::Says(Directive::Text { ended: true }),
    ),
    (&[".space", ".zero", ".skip"], Form::Space),
    (&[".align", ".p2align"], Form::Align),
    (&[".balign"], Form::ByteAlign),
    (&[".comm"], Form::Common { local: false }),
    (&[".lcomm"], Form::Common { local: true }),
    (&[".text"], Form::Says(Directive::Section(Section::Code))),
    (
        &[".data", ".rdata", ".bss", ".sdata", ".sbss", ".rodata"],
        Form::Says(Directive::Section(Section::Data)),
    ),
    (&[".section", ".pushsection"], Form::Section),
    (
        &[".previous", ".popsection"],
        Form::Says(Directive::Previous),
    ),
    (&[".globl", ".global"], Form::OfName(Directive::Global)),
    (&[".weak"], Form::OfName(Directive::Weak)),
    (&[".local"], Form::OfName(Directive::Local)),
    (&[".frame"], Form::Frame),
    (&[".mask"], Form::Mask),
    (&[".set"], Form::Set),
    (&[".equ", ".equiv", ".eqv"], Form::Set),
    (&[".fill"], Form::Fill),
    (&[".file"], Form::File),
    (
        &[
            ".nan",
            ".module",
            ".ent",
            ".end",
            ".fmask",
            ".size",
            ".ident",
            ".type",
            ".hidden",
            ".internal",
            ".protected",
            ".extern",
            ".abicalls",
            ".gnu_attribute",
            ".option",
        ],
        Form::Says(Directive::Ignored),
    ),
];

/// The bits of `.mask` that say that register 31 is saved.
const LINK_BIT: u32 = 0x8000_0000;

/// A word at the front of a text up to a blank or a comma, and the rest after that.
fn word_before(text: &[u8]) -> (&[u8], &[u8]) {
    let (front, rest) = split_before(text, Mark::Separator);
    let rest = trimmed(rest);
    match rest {
        [b',', behind @ ..] => (front, trimmed(behind)),
        _ => (front, rest),
    }
}

/// Whether a text is a name.
fn is_name(text: &[u8]) -> bool {
    let (name, rest) = split_name(text);
    !name.is_empty() && trimmed(rest).is_empty()
}

/// What is said of the name that a text is.
fn named(text: &[u8], directive: Directive) -> Result<Directive, Refusal> {
    if is_name(text) {
        Ok(directive)
    } else {
        Err(Refusal::BadName)
    }
}

/// A text up to its first comma.
fn first_part(text: &[u8]) -> &[u8] {
    trimmed(split_at_byte(text, b',').0)
}

/// The number that a text is.
fn number_read(text: &[u8]) -> Result<u32, Refusal> {
    number(text).ok_or(Refusal::BadNumber)
}

/// The number after the first comma of a text.
fn second_number(text: &[u8]) -> Result<u32, Refusal> {
    number_read(first_part(split_at_byte(text, b',').1))
}

/// What the names of sections for notes begin with.
const NOTES: [&str; 8] = [
    ".debug", ".mdebug", ".note", ".comment", ".gnu", ".pdr", ".reginfo", ".MIPS",
];

/// Whether a section of this name holds notes.
fn holds_notes(name: &[u8]) -> bool {
    for front in &NOTES {
        if name.starts_with(front.as_bytes()) {
            return true;
        }
    }
    false
}

/// What the names of sections of functions that run before or after `main` begin with; whether they run after it, and whether the
/// section with the highest number comes first.
const CALLS: [(&str, bool, bool); 5] = [
    (".preinit_array", false, false),
    (".init_array", false, false),
    (".ctors", false, true),
    (".fini_array", true, false),
    (".dtors", true, true),
];

/// The order of a section of such functions without a number, which come last before `main`.
const LAST_ORDER: u32 = 65535;

/// The order of a section of such functions, of whose name this is the part after its kind.
fn order_of(text: &[u8], reversed: bool) -> u32 {
    let order = match text {
        [b'.', digits @ ..] => decimal(digits).unwrap_or(LAST_ORDER),
        _ => return LAST_ORDER,
    };
    if reversed {
        LAST_ORDER.saturating_sub(order)
    } else {
        order
    }
}

/// The number that decimal digits spell, of which the first may be zeros.
fn decimal(digits: &[u8]) -> Option<u32> {
    let mut value = 0u32;
    for digit in digits {
        if !digit.is_ascii_digit() {
            return None;
        }
        value = value
            .checked_mul(10)?
            .checked_add(u32::from(digit.wrapping_sub(b'0')))?;
    }
    Some(value)
}

/// The section of functions that run before or after `main` with this name, if it is one.
fn calls_named(name: &[u8]) -> Option<Section> {
    for (front, after, reversed) in &CALLS {
        if name.starts_with(front.as_bytes()) {
            let order = order_of(name.get(front.len()..).unwrap_or(&[]), *reversed);
            return Some(Section::Calls {
                after: *after,
                order,
            });
        }
    }
    None
}

/// The section with a name and these flags.
fn section_named(text: &[u8]) -> Section {
    let name = first_part(text);
    if let Some(section) = calls_named(name) {
        return section;
    }
    if name.starts_with(b".text") || holds_code(text) {
        Section::Code
    } else if holds_notes(name) {
        Section::Notes
    } else {
        Section::Data
    }
}

/// Whether the flags after a section's name, in quotes, say that it holds code.
fn holds_code(text: &[u8]) -> bool {
    let flags = first_part(split_at_byte(text, b',').1);
    flags.starts_with(b"\"") && flags.contains(&b'x')
}

/// `.set`: one name for another, or a mode of the assembler.
fn set_read(text: &[u8], constants: &Constants<'_>) -> Result<Directive, Refusal> {
    if let Some(mode) = meaning_of(&MODES, text) {
        return Ok(mode);
    }
    let (name, target) = split_at_byte(text, b',');
    if target.is_empty() {
        return Ok(Directive::Ignored);
    }
    alias_read(trimmed(name), trimmed(target), constants)
}

/// The modes of `.set` that matter.
const MODES: [(&[&str], Directive); 4] = [
    (&["noreorder"], Directive::Reorder(false)),
    (&["reorder"], Directive::Reorder(true)),
    (&["push"], Directive::PushSettings),
    (&["pop"], Directive::PopSettings),
];

/// One name for another, for where it is itself, or for a number.
fn alias_read(name: &[u8], target: &[u8], constants: &Constants<'_>) -> Result<Directive, Refusal> {
    if target == b".".as_slice() {
        return named(name, Directive::Here);
    }
    match value_read(target, constants)? {
        Value::Symbol(0) => named(name, Directive::Alias),
        Value::Number(value) => named(name, Directive::Constant(value)),
        Value::Symbol(addend) => named(name, Directive::Within(addend)),
    }
}

/// The multiple at which a datum of `.comm` is: of 4 bytes where the directive has none.
fn alignment_read(text: &[u8]) -> Result<u32, Refusal> {
    if text.is_empty() {
        Ok(4)
    } else {
        number_read(trimmed(text))
    }
}

/// `.comm` and `.lcomm`.
fn common_read(text: &[u8], local: bool) -> Result<Directive, Refusal> {
    let (name, rest) = split_at_byte(text, b',');
    let (size, align) = split_at_byte(rest, b',');
    let align = alignment_read(align)?;
    if !is_name(trimmed(name)) {
        return Err(Refusal::BadName);
    }
    let size = number_read(trimmed(size))?;
    Ok(Directive::Common { size, align, local })
}

/// `.frame $sp,32,$31`.
fn frame_read(text: &[u8]) -> Result<Directive, Refusal> {
    let size = second_number(text)?;
    let register = first_part(text);
    let points = register == b"$fp".as_slice() || register == b"$30".as_slice();
    Ok(Directive::Frame { points, size })
}

/// `.mask 0x80000000,-4`.
fn mask_read(text: &[u8]) -> Result<Directive, Refusal> {
    let mask = number_read(first_part(text))?;
    let offset = second_number(text)?;
    Ok(Directive::Mask {
        saves_link: mask & LINK_BIT != 0,
        offset,
    })
}

/// `.align 2`: to a multiple of a power of two.
fn align_read(text: &[u8]) -> Result<Directive, Refusal> {
    match number_read(first_part(text))? {
        power @ 0..=15 => Ok(Directive::Align(1 << power)),
        _ => Err(Refusal::BadNumber),
    }
}

/// `.balign 4`: to a multiple of a number that is a power of two; 0 says nothing.
fn byte_align_read(text: &[u8]) -> Result<Directive, Refusal> {
    match number_read(first_part(text))? {
        0 => Ok(Directive::Align(1)),
        align @ 1..=32768 if align.is_power_of_two() => Ok(Directive::Align(align)),
        _ => Err(Refusal::BadNumber),
    }
}

/// A number, or the name of one.
fn counted(text: &[u8], constants: &Constants<'_>) -> Result<u32, Refusal> {
    match value_read(text, constants)? {
        Value::Number(value) => Ok(value),
        Value::Symbol(_) => Err(Refusal::BadNumber),
    }
}

/// `.fill 3,2,7`: so often a number of so many bytes, at most 8; of one byte and 0 where they are left out.
fn fill_read(text: &[u8], constants: &Constants<'_>) -> Result<Directive, Refusal> {
    let count = counted(first_part(text), constants)?;
    let rest = split_at_byte(text, b',').1;
    if rest.is_empty() {
        return Ok(Directive::Fill {
            count,
            bytes: 1,
            value: 0,
        });
    }
    let [.., bytes] = counted(first_part(rest), constants)?.min(8).to_be_bytes();
    let value = trimmed(split_at_byte(rest, b',').1);
    if value.is_empty() {
        return Ok(Directive::Fill {
            count,
            bytes,
            value: 0,
        });
    }
    Ok(Directive::Fill {
        count,
        bytes,
        value: counted(value, constants)?,
    })
}

/// So many bytes of 0, or of the number after a comma, of which the low byte counts.
fn space_read(text: &[u8], constants: &Constants<'_>) -> Result<Directive, Refusal> {
    let size = counted(first_part(text), constants)?;
    let fill = split_at_byte(text, b',').1;
    if fill.is_empty() {
        return Ok(Directive::Space { size, fill: 0 });
    }
    let [.., fill] = number_read(trimmed(fill))?.to_be_bytes();
    Ok(Directive::Space { size, fill })
}

/// `.loc 1 12 3`.
fn location_read(text: &[u8]) -> Result<Directive, Refusal> {
    let (file, rest) = word_before(text);
    let file = number_read(file)?;
    let line = number_read(word_before(rest).0)?;
    Ok(Directive::Location { file, line })
}

/// `.file 1 "name"`. Without a number it says nothing that matters here.
fn file_read(text: &[u8]) -> Result<Directive, Refusal> {
    if text.starts_with(b"\"") {
        return Ok(Directive::Ignored);
    }
    let number = number_read(word_before(text).0)?;
    Ok(Directive::File(number))
}

/// What a directive of a form says, with this text after its word.
fn said_by(form: Form, text: &[u8], constants: &Constants<'_>) -> Result<Directive, Refusal> {
    match form {
        Form::Says(directive) => Ok(directive),
        Form::OfName(directive) => named(text, directive),
        Form::Section => Ok(Directive::Section(section_named(text))),
        Form::Frame => frame_read(text),
        Form::Mask => mask_read(text),
        Form::Common { local } => common_read(text, local),
        Form::Align => align_read(text),
        Form::ByteAlign => byte_align_read(text),
        Form::Space => space_read(text, constants),
        Form::Fill => fill_read(text, constants),
        Form::Set => set_read(text, constants),
        Form::Location => location_read(text),
        Form::File => file_read(text),
    }
}

/// How a directive is read that begins with this word.
fn form_of(word: &[u8]) -> Result<Form, Refusal> {
    match meaning_of(&FORMS, word) {
        Some(form) => Ok(form),
        None if word.starts_with(b".cfi_") => Ok(Form::Says(Directive::Ignored)),
        None => Err(Refusal::UnknownDirective),
    }
}

/// The name of another symbol, which follows the name at the front of a text and the `,` or `=` after that.
fn other_name(text: &[u8]) -> &[u8] {
    match trimmed(split_name(text).1) {
        [_, behind @ ..] => split_name(trimmed(behind)).0,
        [] => &[],
    }
}

/// A directive with the text that follows it, or that it is itself.
fn with_text(directive: Directive, text: &[u8]) -> DirectiveLine<'_> {
    let name = split_name(text).0;
    let text = match directive {
        Directive::Alias | Directive::Within(_) => other_name(text),
        Directive::File(_) => word_before(text).1,
        _ => text,
    };
    DirectiveLine {
        directive,
        name,
        text,
    }
}

/// Whether a text is an assignment `name = other`.
fn is_assignment(text: &[u8]) -> bool {
    let (name, behind) = split_at_byte(text, b'=');
    !behind.is_empty() && is_name(trimmed(name))
}

/// What the assignment `name = other` says.
fn assignment_read(text: &[u8], constants: &Constants<'_>) -> Result<Directive, Refusal> {
    let (name, behind) = split_at_byte(text, b'=');
    alias_read(trimmed(name), trimmed(behind), constants)
}

/// The directive that a text spells, or the assignment `name = other`.
pub(crate) fn directive_read<'a>(
    text: &'a [u8],
    constants: &Constants<'_>,
) -> Result<DirectiveLine<'a>, Refusal> {
    if is_assignment(text) {
        return Ok(with_text(assignment_read(text, constants)?, text));
    }
    let (word, rest) = split_before(text, Mark::Gap);
    let rest = trimmed(rest);
    let directive = said_by(form_of(word)?, rest, constants)?;
    Ok(with_text(directive, rest))
}
