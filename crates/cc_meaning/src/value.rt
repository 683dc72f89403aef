//! What a register or a word of memory holds.
ghost use Rattle.std.specs.Prelude.{◌≡◌, ◌+◌, ◌*◌};
ghost use Rattle.cc_meaning.specs.Values;

/// The bytes of a word, most significant first. One that is `None` is not specified.
#[derive(Clone, Copy, Debug, PartialEq, Eq)]
pub struct Bytes {
    pub first: Option<u8>,
    pub second: Option<u8>,
    pub third: Option<u8>,
    pub fourth: Option<u8>,
}

/// What a register or a word of memory holds.
#[derive(Clone, Copy, Debug, PartialEq, Eq)]
pub enum Value {
    Number(u32),
    /// The address of the item with this number: a return address, or a label in a jump table.
    Code(usize),
    /// A word of which some bytes are not specified, or all.
    Partial(Bytes),
}

/// Why a program cannot go on.
#[derive(Clone, Copy, Debug, PartialEq, Eq)]
pub enum Why {
    /// There is no instruction.
    NoItem,
    /// It computes with a code address, or compares one.
    CodeOperand,
    /// It loads or stores a part of a code address.
    CodeByte,
    /// It computes with a value that is not specified.
    Unspecified,
    /// A half of a word is at an odd address, or a word at no multiple of 4.
    Misaligned,
    /// A load or a store is outside the memory.
    Outside,
    /// A jump goes to what is no code address.
    NotCode,
    ZeroDivision,
}

/// A word of which nothing is specified.
pub(crate) const UNSPECIFIED: Value = Value::Partial(NO_BYTES);

const NO_BYTES: Bytes = Bytes {
    first: None,
    second: None,
    third: None,
    fourth: None,
};

impl Value {
    /// The number that it is.
    pub(crate) fn number(self) -> Result<u32, Why>
        ensures { result ≡ Values.number_of self }
    {
        match self {
            Value::Number(number) => Ok(number),
            Value::Code(_) => Err(Why::CodeOperand),
            Value::Partial(_) => Err(Why::Unspecified),
        }
    }

    /// Its bytes, if it is no code address.
    pub(crate) fn bytes(self) -> Result<Bytes, Why>
        ensures { result ≡ Values.bytes_of self }
    {
        match self {
            Value::Number(word) => Ok(word_bytes(word)),
            Value::Code(_) => Err(Why::CodeByte),
            Value::Partial(bytes) => Ok(bytes),
        }
    }

    /// What is known of its bytes where others replace some of them.
    pub(crate) fn known_bytes(self) -> Bytes
        ensures { result ≡ Values.known_bytes self }
    {
        match self {
            Value::Number(word) => word_bytes(word),
            Value::Code(_) => NO_BYTES,
            Value::Partial(bytes) => bytes,
        }
    }

    /// The code address that it is.
    pub(crate) fn code(self) -> Result<usize, Why>
        ensures { result ≡ Values.code_of self }
    {
        match self {
            Value::Code(item) => Ok(item),
            _ => Err(Why::NotCode),
        }
    }
}

/// The bytes of a number.
fn word_bytes(word: u32) -> Bytes
    ensures { result ≡ Values.word_bytes word }
{
    Bytes {
        first: Some((word / 16_777_216 % 256) as u8),
        second: Some((word / 65536 % 256) as u8),
        third: Some((word / 256 % 256) as u8),
        fourth: Some((word % 256) as u8),
    }
}

/// The number that two bytes are.
pub(crate) fn half_of(upper: u8, lower: u8) -> u32
    ensures { result ≡ upper * 256 + lower }
{
    u32::from(upper) * 256 + u32::from(lower)
}

/// The number that four bytes are, if all are specified.
fn word_of(bytes: Bytes) -> Option<u32>
    ensures { result ≡ Values.word_of bytes.first bytes.second bytes.third bytes.fourth }
{
    match (bytes.first, bytes.second, bytes.third, bytes.fourth) {
        (Some(a), Some(b), Some(c), Some(d)) => Some(half_of(a, b) * 65536 + half_of(c, d)),
        _ => None,
    }
}

/// The value that four bytes are.
pub(crate) fn value_of(bytes: Bytes) -> Value
    ensures { result ≡ Values.value_of bytes }
{
    match word_of(bytes) {
        Some(word) => Value::Number(word),
        None => Value::Partial(bytes),
    }
}
