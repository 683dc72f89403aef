//! The shapes of operands.
ghost use Rattle.std.specs.Prelude.{◌≡◌, map};
ghost use Rattle.mx_lines.specs.Reading.{seen};
ghost use Rattle.mx_lines.specs.Shapes;

use crate::fault::Fault;
use crate::word::Word;

/// What stands in `NAME,#NUMBER,NAME`.
#[derive(Clone, Copy)]
pub struct OneAndNumber<'a> {
    pub source: &'a [u8],
    pub negative: bool,
    pub value: u64,
    pub dest: &'a [u8],
}

/// What stands in `NAME,NAME,#NUMBER,NAME`.
#[derive(Clone, Copy)]
pub struct TwoAndNumber<'a> {
    pub first: &'a [u8],
    pub second: &'a [u8],
    pub negative: bool,
    pub value: u64,
    pub dest: &'a [u8],
}

/// What stands in `OFFSET[NAME],NAME`. The offset is a number or a name.
#[derive(Clone, Copy)]
pub struct Access<'a> {
    pub offset: Word<'a>,
    pub base: &'a [u8],
    pub register: &'a [u8],
}

/// No words at all.
pub fn nothing(words: &[Word]) -> Result<(), Fault>
    ensures { result ≡ Shapes.nothing (map Shapes.word words.now) }
{
    match words {
        [] => Ok(()),
        _ => Err(Fault::BadOperands),
    }
}

/// `NAME`
pub fn one_name<'a>(words: &[Word<'a>]) -> Result<&'a [u8], Fault>
    ensures { seen (λ x. x.now) result ≡ Shapes.one_name (map Shapes.word words.now) }
{
    match words {
        [Word::Name(a)] => Ok(a),
        _ => Err(Fault::BadOperands),
    }
}

/// `NAME,NAME`
pub fn two_names<'a>(words: &[Word<'a>]) -> Result<(&'a [u8], &'a [u8]), Fault>
    ensures { seen (λ x. (x.0.now, x.1.now)) result ≡ Shapes.two_names (map Shapes.word words.now) }
{
    match words {
        [Word::Name(a), Word::Comma, Word::Name(b)] => Ok((a, b)),
        _ => Err(Fault::BadOperands),
    }
}

/// `NAME,NAME,NAME`
pub fn three_names<'a>(words: &[Word<'a>]) -> Result<(&'a [u8], &'a [u8], &'a [u8]), Fault>
    ensures { seen (λ x. (x.0.now, x.1.now, x.2.now)) result ≡ Shapes.three_names (map Shapes.word words.now) }
{
    match words {
        [
            Word::Name(a),
            Word::Comma,
            Word::Name(b),
            Word::Comma,
            Word::Name(c),
        ] => Ok((a, b, c)),
        _ => Err(Fault::BadOperands),
    }
}

/// `NAME,#NUMBER,NAME`
pub fn name_number_name<'a>(words: &[Word<'a>]) -> Result<OneAndNumber<'a>, Fault>
    ensures { seen Shapes.one_and_number result ≡ Shapes.name_number_name (map Shapes.word words.now) }
{
    match words {
        [
            Word::Name(source),
            Word::Comma,
            Word::Hash,
            Word::Number { negative, value },
            Word::Comma,
            Word::Name(dest),
        ] => Ok(OneAndNumber {
            source,
            negative: *negative,
            value: *value,
            dest,
        }),
        _ => Err(Fault::BadOperands),
    }
}

/// `NAME,NAME,#NUMBER,NAME`
pub fn names_number_name<'a>(words: &[Word<'a>]) -> Result<TwoAndNumber<'a>, Fault>
    ensures { seen Shapes.two_and_number result ≡ Shapes.names_number_name (map Shapes.word words.now) }
{
    let [Word::Name(first), Word::Comma, rest @ ..] = words else {
        return Err(Fault::BadOperands);
    };
    let OneAndNumber {
        source,
        negative,
        value,
        dest,
    } = name_number_name(rest)?;
    Ok(TwoAndNumber {
        first,
        second: source,
        negative,
        value,
        dest,
    })
}

/// `OFFSET[NAME],NAME`
pub fn memory<'a>(words: &[Word<'a>]) -> Result<Access<'a>, Fault>
    ensures { seen Shapes.memory_operands result ≡ Shapes.memory (map Shapes.word words.now) }
{
    match words {
        [
            offset,
            Word::Open,
            Word::Name(base),
            Word::Close,
            Word::Comma,
            Word::Name(register),
        ] => with_offset(offset, base, register),
        _ => Err(Fault::BadOperands),
    }
}

/// An offset, which is a number or a name, before `[NAME],NAME`.
fn with_offset<'a>(
    offset: &Word<'a>,
    base: &'a [u8],
    register: &'a [u8],
) -> Result<Access<'a>, Fault>
    ensures { seen Shapes.memory_operands result ≡ Shapes.with_offset (Shapes.word offset.now) base.entry.now register.entry.now }
{
    match offset {
        Word::Name(_) | Word::Number { .. } => Ok(Access {
            offset: *offset,
            base,
            register,
        }),
        _ => Err(Fault::BadOperands),
    }
}
