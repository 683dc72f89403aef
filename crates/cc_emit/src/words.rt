//! The data of the translation.
ghost use Rattle.std.specs.Prelude.{◌≡◌, ◌≤◌, ◌<◌, ◌^◌, ◌++◌, drop, set, decimal, slice_get, ℕ, Some, IfOk, OnOk};
ghost use Rattle.std.specs.List.{flat_map, fold};
ghost use Rattle.cc_emit.specs.declared.words.Writing.TheVariants.{Nothing};
ghost use Rattle.cc_emit.specs.Data;
ghost use Rattle.cc_emit.specs.Images;
ghost use Rattle.cc_emit.specs.Sources;

use crate::line::{MASKS, Mask, Routine, Target, Word};
use crate::output::Output;
use crate::text::Text;
use cc_lines::Shift;
use cc_program::{Meaning, Object, Program, Reference, Symbols};
use cc_rules::{LIMIT, place_in, spelled_len, words_with};
use std::alloc::{AllocError, Global};

/// What is said of a word of data besides its bytes.
#[derive(Clone, Copy)]
pub struct Said {
    /// The symbol that it is the place of, if it is one.
    pub place: Option<u32>,
    /// The number of the datum that begins there, if one does.
    pub begins: Option<usize>,
}

/// The words of all data: their bytes, and what is said of each.
#[derive(Drop)]
struct Image {
    bytes: Vec<u8>,
    said: Vec<Said>,
}

/// Writes a byte, if there is one at the place.
fn write_byte(bytes: &mut [u8], at: usize, byte: u8)
    ensures { bytes.new ≡ set bytes.old at byte }
{
    if at < bytes.len() {
        bytes[at] = byte;
    }
}

/// Writes bytes over others from a place on, without those past the end.
fn write_bytes(bytes: &mut [u8], at: usize, new: &[u8])
    requires { at ≤ 2 ^ 33 }
    ensures { bytes.new ≡ Images.overlay at new.now bytes.old }
{
    for i in 0..new.len() {
        write_byte(bytes, at + i, new[i]);
    }
}

/// Lets a word be the place of a symbol.
fn write_place(said: &mut [Said], word: usize, symbol: u32)
    ensures { said.new ≡ Images.with_place word symbol said.old }
{
    if word < said.len() {
        let begins = said[word].begins;
        let place = Some(symbol);
        said[word] = Said { place, begins };
    }
}

/// Lets the datum with this number begin at a word.
fn write_begin(said: &mut [Said], word: usize, number: usize)
    ensures { said.new ≡ Images.with_begin word number said.old }
{
    if word < said.len() {
        let place = said[word].place;
        let begins = Some(number);
        said[word] = Said { place, begins };
    }
}

/// What a reference to a symbol that is an address, or nothing, is less.
fn from_address(program: &Program, from: Option<u32>) -> u32
    ensures { result ≡ Images.from_address program.now from }
{
    match from {
        Some(from) => program.address(from),
        None => 0,
    }
}

/// The word that a reference is, where all data end here.
fn reference_word(program: &Program, one: Reference, end: u32) -> u32
    ensures { result ≡ Images.reference_word program.now end one }
{
    match program.symbols.meaning(one.symbol) {
        Meaning::End => end.wrapping_add(one.addend),
        _ => program
            .address(one.symbol)
            .wrapping_add(one.addend)
            .wrapping_sub(from_address(program, one.from)),
    }
}

/// Whether a reference is the place of a label in a function, which no word holds.
fn is_label(program: &Program, symbol: u32) -> bool
    ensures { result ≡ Images.is_label program.now symbol }
{
    match program.symbols.meaning(symbol) {
        Meaning::Place { .. } => program.address(symbol) == 0,
        _ => false,
    }
}

/// Writes a word of a datum that is a symbol.
fn write_reference(image: &mut Image, program: &Program, one: Reference, start: usize, end: u32)
    requires { start ≤ 2 ^ 32 }
    ensures { Images.seen image.new ≡ Images.with_reference program.now end start (Images.seen image.old) one }
{
    let at = start + one.at as usize;
    if is_label(program, one.symbol) {
        write_place(image.said.as_mut_slice(), at / 4, one.symbol);
    } else {
        let word = reference_word(program, one, end);
        write_bytes(image.bytes.as_mut_slice(), at, &word.to_be_bytes());
    }
}

/// Writes words of a datum that are symbols.
fn write_references(
    image: &mut Image,
    program: &Program,
    references: &[Reference],
    start: usize,
    end: u32,
)
    requires { start ≤ 2 ^ 32 }
    ensures { Images.seen image.new ≡ fold (Images.with_reference program.now end start) (Images.seen image.old) references.now }
{
    for one in references {
        write_reference(image, program, *one, start, end);
    }
}

/// Whether a datum holds the place of a function, or of a label in one.
fn is_descriptor(program: &Program, object: &Object) -> bool
    ensures { result ≡ Images.is_descriptor program.now object.now }
{
    matches!(
        program.symbols.meaning(object.symbol),
        Meaning::Function(_) | Meaning::Place { .. }
    )
}

/// Writes the content of a datum: the place that it holds, or its bytes and the words of it that are symbols.
fn write_content(image: &mut Image, program: &Program, object: &Object, end: u32)
    ensures { Images.seen image.new ≡ Images.with_content program.now end object.now (Images.seen image.old) }
{
    let start = place_in(object.standing.address);
    if is_descriptor(program, object) {
        write_place(image.said.as_mut_slice(), start / 4, object.symbol);
    } else {
        write_bytes(image.bytes.as_mut_slice(), start, &object.content.bytes);
        write_references(image, program, &object.content.references, start, end);
    }
}

/// Lets a datum begin, if a word begins at its address.
fn write_front(image: &mut Image, number: usize, object: &Object)
    ensures { Images.seen image.new ≡ Images.with_front number object.now (Images.seen image.old) }
{
    if object.standing.address % 4 == 0 {
        let word = place_in(object.standing.address) / 4;
        write_begin(image.said.as_mut_slice(), word, number);
    }
}

/// Writes a datum, if it is kept.
fn write_object(image: &mut Image, program: &Program, number: usize, object: &Object, end: u32)
    ensures { Images.seen image.new ≡ Images.with_object program.now end number object.now (Images.seen image.old) }
{
    if object.kept {
        write_front(image, number, object);
        write_content(image, program, object, end);
    }
}

/// An image of words of 0 that are nothing else.
fn empty_image(alloc: Global, bytes: usize) -> Result<Image, AllocError>
    ensures { IfOk result (λ image. Images.seen image ≡ Images.empty_image bytes) }
{
    let nothing = Said {
        place: None,
        begins: None,
    };
    let said = vec![in alloc; nothing; bytes / 4]?;
    Ok(Image {
        bytes: vec![in alloc; 0u8; bytes]?,
        said,
    })
}

/// Writes data that are kept, one after the other.
fn write_objects(image: &mut Image, program: &Program, objects: &[Object], end: u32)
    ensures { Images.seen image.new ≡ Images.with_objects program.now end 0 objects.now (Images.seen image.old) }
{
    for i in 0..objects.len() {
        write_object(image, program, i, &objects[i], end);
    }
}

/// The image of all data, where `behind` is the first byte after them and `end` the one after what follows too.
fn image_of(alloc: Global, program: &Program, behind: u32, end: u32) -> Result<Image, AllocError>
    ensures { IfOk result (λ image. Images.seen image ≡ Images.image_of program.now behind end) }
{
    let mut image = empty_image(alloc, place_in(behind))?;
    write_objects(&mut image, program, &program.objects, end);
    Ok(image)
}

/// The byte at a place, or 0 where there is none.
fn byte_at(bytes: &[u8], at: usize) -> u32
    ensures value { result ≡ Images.byte_at bytes.now at }
    ensures short { result < 256 }
{
    u32::from(bytes.get(at).copied().unwrap_or(0))
}

/// The first four bytes as a word, most significant first.
fn first_word(bytes: &[u8]) -> u32
    ensures { result ≡ Images.first_word bytes.now }
{
    let upper = byte_at(bytes, 0) * 256 + byte_at(bytes, 1);
    let lower = byte_at(bytes, 2) * 256 + byte_at(bytes, 3);
    upper * 65536 + lower
}

/// The bytes after the first four.
fn after_first_word(bytes: &[u8]) -> &[u8]
    ensures { result.now ≡ drop 4 bytes.now }
{
    match bytes {
        [_, _, _, _, rest @ ..] => rest,
        _ => &[],
    }
}

/// A line that is being written: words of 0, or words.
#[derive(Clone, Copy)]
pub enum Writing {
    Nothing,
    Zeros(u32),
    Words(u32),
}

/// Adds so many words of 0.
fn put_space(text: &mut Text, count: u32) -> Result<(), AllocError>
    ensures { OnOk result (text.new ≡ text.old ++ Images.space_line count) }
{
    text.put(b"        .space ")?;
    text.number(count)?;
    text.put(b"\n")
}

/// Adds the end of the line that is being written.
fn put_end(text: &mut Text, writing: Writing) -> Result<(), AllocError>
    ensures { OnOk result (text.new ≡ text.old ++ Images.ended writing) }
{
    match writing {
        Writing::Nothing => Ok(()),
        Writing::Zeros(count) => put_space(text, count),
        Writing::Words(_) => text.put(b"\n"),
    }
}

/// Ends the line that is being written.
fn end_line(text: &mut Text, writing: Writing) -> Result<Writing, AllocError>
    ensures text { OnOk result (text.new ≡ text.old ++ Images.ended writing) }
    ensures writing { IfOk result (λ w. w ≡ Nothing) }
{
    put_end(text, writing)?;
    Ok(Writing::Nothing)
}

/// Goes on with a word of 0.
fn put_zero(text: &mut Text, writing: Writing) -> Result<Writing, AllocError>
    ensures text { OnOk result (text.new ≡ text.old ++ Images.zero_front writing) }
    ensures writing { IfOk result (λ w. w ≡ Images.zero_after writing) }
{
    match writing {
        Writing::Zeros(count) => Ok(Writing::Zeros(count.saturating_add(1))),
        _ => {
            end_line(text, writing)?;
            Ok(Writing::Zeros(1))
        }
    }
}

/// How many words the line holds with one more, if it has room for it.
fn more(writing: Writing) -> Option<u32>
    ensures { result ≡ Images.more writing }
{
    match writing {
        Writing::Words(count) => words_with(count),
        _ => None,
    }
}

/// Goes on with a word that is not 0, after its line's front or a comma.
fn before_word(text: &mut Text, writing: Writing) -> Result<Writing, AllocError>
    ensures text { OnOk result (text.new ≡ text.old ++ Images.word_front writing) }
    ensures writing { IfOk result (λ w. w ≡ Images.word_after writing) }
{
    match more(writing) {
        Some(count) => {
            text.put(b",")?;
            Ok(Writing::Words(count))
        }
        None => {
            end_line(text, writing)?;
            text.put(b"        .word ")?;
            Ok(Writing::Words(1))
        }
    }
}

/// The label of a datum.
fn put_object_label(text: &mut Text, program: &Program, object: &Object) -> Result<(), AllocError>
    ensures { OnOk result (text.new ≡ text.old ++ Images.object_label program.now object.now) }
{
    if is_descriptor(program, object) {
        text.put(b"d.")?;
    }
    text.symbol(&program.symbols, object.symbol)?;
    text.put(b":\n")
}

/// The label of the datum with a number.
fn put_label(text: &mut Text, program: &Program, number: usize) -> Result<(), AllocError>
    ensures { OnOk result (text.new ≡ text.old ++ Images.datum_label program.now number) }
{
    match program.objects.get(number) {
        Some(object) => put_object_label(text, program, object),
        None => Ok(()),
    }
}

/// Goes on with a number that is not 0.
fn put_number(text: &mut Text, writing: Writing, word: u32) -> Result<Writing, AllocError>
    ensures text { OnOk result (text.new ≡ text.old ++ (Images.word_front writing ++ decimal word)) }
    ensures writing { IfOk result (λ w. w ≡ Images.word_after writing) }
{
    let writing = before_word(text, writing)?;
    text.number(word)?;
    Ok(writing)
}

/// The longest name that may share a line with other words, so that no line of them is too long.
const LONGEST_SHARED: usize = 16;

/// Whether the name of a symbol may share a line with other words.
fn may_share(program: &Program, symbol: u32) -> bool
    ensures { result ≡ Images.may_share program.now symbol }
{
    match program.symbols.at(program.symbols.resolved(symbol)) {
        Some(symbol) => spelled_len(symbol.name) <= LONGEST_SHARED,
        None => true,
    }
}

/// Goes on with the name of a symbol.
fn put_name(
    text: &mut Text,
    program: &Program,
    writing: Writing,
    symbol: u32,
) -> Result<Writing, AllocError>
    ensures text { OnOk result (text.new ≡ text.old ++ Images.name_text program.now writing symbol) }
    ensures writing { IfOk result (λ w. w ≡ Images.word_after writing) }
{
    let writing = before_word(text, writing)?;
    text.symbol(&program.symbols, symbol)?;
    Ok(writing)
}

/// Goes on with the place of a symbol, which has a line of its own where its name is long.
fn put_place(
    text: &mut Text,
    program: &Program,
    writing: Writing,
    symbol: u32,
) -> Result<Writing, AllocError>
    ensures text { OnOk result (text.new ≡ text.old ++ Images.place_text program.now writing symbol) }
    ensures writing { IfOk result (λ w. w ≡ Images.place_after program.now writing symbol) }
{
    if may_share(program, symbol) {
        return put_name(text, program, writing, symbol);
    }
    let writing = end_line(text, writing)?;
    let writing = put_name(text, program, writing, symbol)?;
    end_line(text, writing)
}

/// Goes on with a word, which is the place of a symbol, or a number.
fn put_word(
    text: &mut Text,
    program: &Program,
    writing: Writing,
    place: Option<u32>,
    word: u32,
) -> Result<Writing, AllocError>
    ensures text { OnOk result (text.new ≡ text.old ++ Images.word_text program.now writing place word) }
    ensures writing { IfOk result (λ w. w ≡ Images.after_word program.now writing place word) }
{
    match place {
        Some(symbol) => put_place(text, program, writing, symbol),
        None if word == 0 => put_zero(text, writing),
        None => put_number(text, writing, word),
    }
}

/// Ends the line that is being written where a datum begins, and adds the label of that.
fn before_begin(
    text: &mut Text,
    program: &Program,
    writing: Writing,
    begins: Option<usize>,
) -> Result<Writing, AllocError>
    ensures text { OnOk result (text.new ≡ text.old ++ Images.begin_text program.now writing begins) }
    ensures writing { IfOk result (λ w. w ≡ Images.after_begin writing begins) }
{
    match begins {
        Some(number) => {
            end_line(text, writing)?;
            put_label(text, program, number)?;
            Ok(Writing::Nothing)
        }
        None => Ok(writing),
    }
}

/// Goes on with a word of an image, after the label of a datum that begins there.
fn put_said(
    text: &mut Text,
    program: &Program,
    writing: Writing,
    said: Said,
    word: u32,
) -> Result<Writing, AllocError>
    ensures text { OnOk result (text.new ≡ text.old ++ Images.said_text program.now writing said word) }
    ensures writing { IfOk result (λ w. w ≡ Images.after_said program.now writing said word) }
{
    let writing = before_begin(text, program, writing, said.begins)?;
    put_word(text, program, writing, said.place, word)
}

/// Goes on with the words of these bytes, of which this is said, with the labels of the data, and ends the last line.
fn put_image(
    text: &mut Text,
    program: &Program,
    bytes: &[u8],
    said: &[Said],
) -> Result<(), AllocError>
    ensures { OnOk result (text.new ≡ text.old ++ Images.image_text program.now bytes.now Nothing said.now) }
{
    let mut writing = Writing::Nothing;
    let mut left = bytes;
    for one in said {
        writing = put_said(text, program, writing, *one, first_word(left))?;
        left = after_first_word(left);
    }
    end_line(text, writing)?;
    Ok(())
}

/// A label, and a word.
fn put_held(text: &mut Text, label: Word, value: u32) -> Result<(), AllocError>
    ensures { OnOk result (text.new ≡ text.old ++ Data.held_text label value) }
{
    text.word(label)?;
    text.put(b": .word ")?;
    text.number(value)?;
    text.put(b"\n")
}

/// Whether a routine keeps words of its own.
fn keeps_words(out: &Output) -> bool
    ensures { result ≡ Data.keeps_words out.now.routines.items }
{
    out.needs(Routine::SignedProduct) || out.needs(Routine::SignedQuotient)
}

/// How many words the tables of shifts have.
fn shift_words(out: &Output) -> u64 {
    let mut count = 0u64;
    for which in &SHIFTS {
        if out.needs(*which) {
            count = count.saturating_add(32);
        }
    }
    count
}

/// How many words the tables have that statements read.
fn mask_words(out: &Output) -> u64 {
    let mut count = 0u64;
    for mask in &MASKS {
        if out.needs_mask(*mask) {
            count = count.saturating_add(4);
        }
    }
    count
}

/// How many words hold numbers that statements load, and addresses after all data.
fn number_words(out: &Output) -> u64 {
    (out.numbers.len() as u64).saturating_add(out.ends.len() as u64)
}

/// How many data words follow those of the program: one is the stack pointer at the start.
fn more_words(out: &Output) -> u64 {
    let own = if keeps_words(out) { 3u64 } else { 0 };
    own.saturating_add(shift_words(out))
        .saturating_add(mask_words(out))
        .saturating_add(number_words(out))
        .saturating_add(1)
}

/// The shift that a routine is for, if it is for one.
fn shift_of(which: Routine) -> Option<Shift>
    ensures { result ≡ Data.shift_of which }
{
    match which {
        Routine::ShiftLeft => Some(Shift::Left),
        Routine::ShiftRight => Some(Shift::Right),
        Routine::ShiftArithmetic => Some(Shift::Arithmetic),
        Routine::RotateLeft => Some(Shift::Rotate),
        _ => None,
    }
}

/// A word that is the place of a shift's routine for a count.
fn put_shifted(
    text: &mut Text,
    symbols: &Symbols,
    routine: Routine,
    count: u8,
) -> Result<(), AllocError>
    ensures { OnOk result (text.new ≡ text.old ++ Data.shifted_line routine count) }
{
    text.put(b"        .word ")?;
    text.target(symbols, Target::Shifted { routine, count })?;
    text.put(b"\n")
}

/// The table of a shift: its place for each count.
fn put_shift_table(
    text: &mut Text,
    symbols: &Symbols,
    which: Routine,
    op: Shift,
) -> Result<(), AllocError>
    ensures { OnOk result (text.new ≡ text.old ++ Data.shift_table which op) }
{
    text.word(Word::Shifts(op))?;
    text.put(b":\n")?;
    put_places(text, symbols, which, 32)
}

/// The places of a shift for so many counts.
fn put_places(
    text: &mut Text,
    symbols: &Symbols,
    which: Routine,
    counts: u8,
) -> Result<(), AllocError>
    ensures { OnOk result (text.new ≡ text.old ++ Data.shifted_lines which counts) }
{
    for count in 0..counts {
        put_shifted(text, symbols, which, count)?;
    }
    Ok(())
}

/// The table of a routine, if it is one of a shift that is called.
fn put_table_of(
    text: &mut Text,
    symbols: &Symbols,
    out: &Output,
    which: Routine,
) -> Result<(), AllocError>
    ensures { OnOk result (text.new ≡ text.old ++ Data.routine_table out.now.routines.items which) }
{
    match shift_of(which) {
        Some(op) if out.needs(which) => put_shift_table(text, symbols, which, op),
        _ => Ok(()),
    }
}

/// The tables of those of these routines that are shifts and called.
fn put_shift_tables(
    text: &mut Text,
    symbols: &Symbols,
    out: &Output,
    routines: &[Routine],
) -> Result<(), AllocError>
    ensures { OnOk result (text.new ≡ text.old ++ flat_map (Data.routine_table out.now.routines.items) routines.now) }
{
    for which in routines {
        put_table_of(text, symbols, out, *which)?;
    }
    Ok(())
}

/// A word on a line of its own.
fn put_line(text: &mut Text, word: u32) -> Result<(), AllocError>
    ensures { OnOk result (text.new ≡ text.old ++ Data.word_line word) }
{
    text.put(b"        .word ")?;
    text.number(word)?;
    text.put(b"\n")
}

/// Words on lines of their own.
fn put_lines(text: &mut Text, words: &[u32]) -> Result<(), AllocError>
    ensures { OnOk result (text.new ≡ text.old ++ flat_map Data.word_line words.now) }
{
    for word in words {
        put_line(text, *word)?;
    }
    Ok(())
}

/// A table that statements read, if they do.
fn put_mask(text: &mut Text, out: &Output, mask: Mask) -> Result<(), AllocError>
    ensures { OnOk result (text.new ≡ text.old ++ Data.mask_table out.now.masks.items mask) }
{
    if !out.needs_mask(mask) {
        return Ok(());
    }
    text.word(Word::Mask(mask))?;
    text.put(b":\n")?;
    put_lines(text, &mask.words())
}

/// Those of these tables that statements read.
fn put_masks(text: &mut Text, out: &Output, masks: &[Mask]) -> Result<(), AllocError>
    ensures { OnOk result (text.new ≡ text.old ++ flat_map (Data.mask_table out.now.masks.items) masks.now) }
{
    for mask in masks {
        put_mask(text, out, *mask)?;
    }
    Ok(())
}

/// The words that routines keep between calls, if one does.
fn put_kept(text: &mut Text, out: &Output) -> Result<(), AllocError>
    ensures { OnOk result (text.new ≡ text.old ++ Data.kept_text out.now.routines.items) }
{
    if keeps_words(out) {
        text.put(b"m.link: .word 0\nm.x: .word 0\nm.y: .word 0\n")?;
    }
    Ok(())
}

/// The number with an index among those that statements load, if there is one.
fn put_number_at(text: &mut Text, out: &Output, i: usize) -> Result<(), AllocError>
    ensures { OnOk result ((n : ℕ) → slice_get out.now.numbers.keys i ≡ Some n → text.new ≡ text.old ++ Data.number_text n) }
{
    match out.numbers.get_index(i).copied() {
        Some(number) => put_held(text, Word::Number(number), number),
        None => Ok(()),
    }
}

/// The numbers that statements load.
fn put_numbers(text: &mut Text, out: &Output) -> Result<(), AllocError>
    ensures { OnOk result (text.new ≡ text.old ++ flat_map Data.number_text out.now.numbers.keys) }
{
    for i in 0..out.numbers.len() {
        put_number_at(text, out, i)?;
    }
    Ok(())
}

/// The address with an index among those after all data, which end here, if there is one.
fn put_end_at(text: &mut Text, out: &Output, end: u32, i: usize) -> Result<(), AllocError>
    ensures { OnOk result ((n : ℕ) → slice_get out.now.ends.keys i ≡ Some n → text.new ≡ text.old ++ Data.end_text end n) }
{
    match out.ends.get_index(i).copied() {
        Some(addend) => put_held(text, Word::End(addend), end.wrapping_add(addend)),
        None => Ok(()),
    }
}

/// The addresses after all data, which end here.
fn put_ends(text: &mut Text, out: &Output, end: u32) -> Result<(), AllocError>
    ensures { OnOk result (text.new ≡ text.old ++ flat_map (Data.end_text end) out.now.ends.keys) }
{
    for i in 0..out.ends.len() {
        put_end_at(text, out, end, i)?;
    }
    Ok(())
}

/// The routines of shifts.
static SHIFTS: [Routine; 4] = [
    Routine::ShiftLeft,
    Routine::ShiftRight,
    Routine::ShiftArithmetic,
    Routine::RotateLeft,
];

/// The words that routines and statements need, where all data end here.
fn put_added(text: &mut Text, symbols: &Symbols, out: &Output, end: u32) -> Result<(), AllocError>
    ensures { OnOk result (text.new ≡ text.old ++ Data.added_text out.now end) }
{
    put_shift_tables(text, symbols, out, &SHIFTS)?;
    put_masks(text, out, &MASKS)?;
    put_kept(text, out)?;
    put_numbers(text, out)?;
    put_ends(text, out, end)?;
    put_held(text, Word::Stack, LIMIT - STACK_GAP)
}

/// How far below the end of the memory the stack begins.
const STACK_GAP: u32 = 64;

/// The first byte after all data words, where those of the program end here.
pub fn end_of(out: &Output, behind: u64) -> u64
    ensures { behind ≤ result }
{
    behind.saturating_add(more_words(out).saturating_mul(4))
}

/// The beginning of the data.
fn put_front(text: &mut Text, input: bool) -> Result<(), AllocError>
    ensures { OnOk result (text.new ≡ text.old ++ Data.front_text input) }
{
    if input {
        text.put(b".input\n")?;
    }
    text.put(b".data\n")
}

/// Adds the data, where those of the program end before the byte `behind`, and all before `end`.
pub(crate) fn put_data(
    alloc: Global,
    text: &mut Text,
    program: &Program,
    out: &Output,
    behind: u32,
    end: u32,
) -> Result<(), AllocError>
    ensures { OnOk result (text.new ≡ text.old ++ Sources.data_text program.now out.now behind end) }
{
    let image = image_of(alloc, program, behind, end)?;
    put_front(text, out.input)?;
    put_image(text, program, &image.bytes, &image.said)?;
    put_added(text, &program.symbols, out, end)
}
