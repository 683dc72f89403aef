//! The cycles in which interrupts are requested.
ghost use Rattle.std.specs.Prelude.{◌≡◌, true, ◌≢◌, ◌≤◌, ◌<◌, ◌==◌, ◌∷◌, ◌++◌, [], length, IfOk, IfErr, OnOk, IfSome, IfNone};
ghost use Rattle.std.specs.Option.{option_to_list};
ghost use Rattle.std.specs.List.{prefix_len};
ghost use Rattle.std.specs.List.Sorted.{IsStrictlyIncreasing};
ghost use Rattle.std.specs.Char.{is_ascii_digit};
ghost use Rattle.std.specs.Str.{all_ascii_digits};
ghost use Rattle.std.specs.Str.Lines.{strip_carriage_return};
ghost use Rattle.mx_board.specs.declared.requests.TheConstants.{MAX_REQUESTS};
ghost use Rattle.mx_io.specs.declared.limits.TheConstants.{MAX_FILE_BYTES};
ghost use Rattle.mx_board.specs.RequestFile.{is_blank, is_blank_line, without_blanks, number_of_digits, number_of, may_follow, fault_of, requests_of, is_wanted};

use mx_io::Memory;
use mx_text::split_line;
use std::alloc::Global;
use std::marker::Model;
use thiserror::Error;

/// How many requests a file of interrupt cycles names at most.
pub const MAX_REQUESTS: usize = 65_536;

/// Why a file of interrupt cycles is refused, with the number of the first faulty line.
#[derive(Clone, Copy, Debug, PartialEq, Eq, Error)]
pub enum EventError {
    /// The line is not one number of 32 bits.
    #[error("line {line}: BadLine")]
    BadLine { line: u32 },
    /// It would be the 65,537th number.
    #[error("line {line}: TooMany")]
    TooMany { line: u32 },
    /// The number is not greater than the one before.
    #[error("line {line}: NotAscending")]
    NotAscending { line: u32 },
    /// Memory ran out.
    #[error("out of memory")]
    Memory,
}

/// The cycles in which a request comes: at most 65,536, each greater than the one before.
#[derive(Drop)]
pub struct Requests {
    cycles: Vec<u32>,
}

impl Model for Requests {
    ghost use Rattle.std.specs.Prelude.{ℕ, List, ◌≤◌, length};
    ghost use Rattle.std.specs.List.Sorted.{IsStrictlyIncreasing};
    ghost use Rattle.mx_board.specs.declared.requests.TheConstants.{MAX_REQUESTS};

    ghost Value = { List ℕ };

    ghost view = { λ r. r.cycles.items };

    ghost invariant = { λ r. (length r.cycles.items ≤ MAX_REQUESTS) × IsStrictlyIncreasing r.cycles.items };
}

// A line without a carriage return at its end.
fn without_return(piece: &[u8]) -> &[u8]
    ensures { result.now ≡ strip_carriage_return piece.now }
{
    piece.strip_suffix(b"\r".as_slice()).unwrap_or(piece)
}

// How many blanks stand in front.
fn blanks(text: &[u8]) -> usize
    ensures count { result ≡ prefix_len is_blank text.now }
    ensures within { result ≤ length text.now }
{
    text.iter()
        .take_while(|b| **b == b' ' || **b == b'\t')
        .count()
}

// How many digits stand in front.
fn digits(text: &[u8]) -> usize
    ensures count { result ≡ prefix_len is_ascii_digit text.now }
    ensures within { result ≤ length text.now }
{
    text.iter().take_while(|b| b.is_ascii_digit()).count()
}

fn is_blank_line(line: &[u8]) -> bool
    ensures { result ≡ is_blank_line line.now }
{
    blanks(line) == line.len()
}

// The number that digits write, where it has 32 bits.
fn number_of_digits(digits: &[u8]) -> Option<u32>
    requires some { 0 < length digits.now }
    requires digits { all_ascii_digits digits.now ≡ true }
    ensures { result ≡ number_of_digits digits.now }
{
    match std::str::from_utf8(digits) {
        Ok(text) => text.parse().ok(),
        Err(_) => None,
    }
}

// The number of a line: blanks, one or more digits, and blanks.
fn number_of(line: &[u8]) -> Option<u32>
    ensures { result ≡ number_of line.now }
{
    let text = &line[blanks(line)..];
    let (number, rest) = text.split_at(digits(text));
    if !number.is_empty() && is_blank_line(rest) {
        number_of_digits(number)
    } else {
        None
    }
}

// The number of a line that has no fault after these numbers, if it is not blank; else its fault.
fn read_line(before: &[u32], line: u32, text: &[u8]) -> Result<Option<u32>, EventError>
    ensures ok { IfOk result (λ n. fault_of before.now line text.now ≡ None × (n ≡ number_of text.now)) }
    ensures err { IfErr result (λ fault. fault_of before.now line text.now ≡ Some fault) }
{
    if is_blank_line(text) {
        return Ok(None);
    }
    let Some(number) = number_of(text) else {
        return Err(EventError::BadLine { line });
    };
    if before.len() >= MAX_REQUESTS {
        return Err(EventError::TooMany { line });
    }
    if may_follow(before, number) {
        Ok(Some(number))
    } else {
        Err(EventError::NotAscending { line })
    }
}

// Whether the number is greater than the last of these.
fn may_follow(before: &[u32], number: u32) -> bool
    ensures { result ≡ may_follow before.now number }
{
    match before.last() {
        Some(last) => *last < number,
        None => true,
    }
}

// Takes the number of a line that has no fault, if it is not blank.
fn add_line(cycles: &mut Vec<u32>, line: u32, text: &[u8]) -> Result<(), EventError>
    ensures clean { OnOk result (fault_of cycles.old.items line text.now ≡ None) }
    ensures added { OnOk result (cycles.new.items ≡ cycles.old.items ++ option_to_list (number_of text.now)) }
    ensures err { IfErr result (λ fault. fault ≢ EventError.Memory → fault_of cycles.old.items line text.now ≡ Some fault) }
{
    match read_line(cycles, line, text)? {
        Some(cycle) => match cycles.push(cycle) {
            Ok(()) => Ok(()),
            Err(_) => Err(EventError::Memory),
        },
        None => Ok(()),
    }
}

// Whether the number is one of these, which rise.
fn is_among(cycles: &[u32], cycle: u32) -> bool
    requires { IsStrictlyIncreasing cycles.now }
    ensures { result ≡ is_wanted cycles.now cycle }
{
    cycles.binary_search(&cycle).is_ok()
}

impl Requests {
    /// The requests that an interrupt file of at most 1,048,576 bytes names, or its first faulty line.
    pub fn parse(alloc: Global, bytes: &[u8]) -> Result<Requests, EventError>
        requires { length bytes.now ≤ MAX_FILE_BYTES }
        ensures ok { IfOk result (λ requests. requests_of bytes.now ≡ Ok requests) }
        ensures err { IfErr result (λ fault. fault ≢ EventError.Memory → requests_of bytes.now ≡ Err fault) }
    {
        let mut cycles = Vec::new(alloc);
        let mut line = 1u32;
        let mut text = bytes;
        'lines: loop {
            let (piece, rest) = split_line(text);
            add_line(&mut cycles, line, without_return(piece))?;
            let Some(rest) = rest else {
                return Ok(Requests { cycles });
            };
            text = rest;
            line += 1;
        }
    }

    /// These requests, at most 65,536, each greater than the one before.
    pub fn of(alloc: Global, list: &[u32]) -> Result<Requests, Memory>
        requires count { length list.now ≤ MAX_REQUESTS }
        requires ascending { IsStrictlyIncreasing list.now }
        ensures { IfOk result (λ requests. requests ≡ list.now) }
    {
        let cycles = Vec::from_slice(alloc, list).map_err(|_| Memory)?;
        Ok(Requests { cycles })
    }

    /// No request.
    pub fn none(alloc: Global) -> Requests
        ensures { result ≡ [] }
    {
        Requests {
            cycles: Vec::new(alloc),
        }
    }

    /// The cycles in which a request comes.
    pub fn list(&self) -> &[u32]
        ensures list { result.now ≡ self.now }
        ensures count { length self.now ≤ MAX_REQUESTS }
        ensures ascending { IsStrictlyIncreasing self.now }
    {
        &self.cycles
    }

    /// Whether a request comes in the cycle.
    pub fn wants(&self, cycle: u32) -> bool
        ensures { result ≡ is_wanted self.now cycle }
    {
        is_among(&self.cycles, cycle)
    }
}
