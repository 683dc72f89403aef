//! The kinds of bytes.
ghost use Rattle.std.specs.Prelude.{◌≡◌, ◌+◌, ◌≤◌, length, drop};
ghost use Rattle.std.specs.List.{prefix_len};
ghost use Rattle.std.specs.Char;
ghost use Rattle.mx_lex.specs.Bytes;

/// A space or a tab.
fn is_blank(byte: u8) -> bool
    ensures { result ≡ Bytes.is_blank byte }
{
    byte == b' ' || byte == b'\t'
}

/// The byte may stand outside comments.
pub fn is_allowed(byte: u8) -> bool
    ensures { result ≡ Bytes.is_allowed byte }
{
    (b' '..=b'~').contains(&byte) || byte == b'\t'
}

/// A name may begin with the byte.
pub fn begins_name(byte: u8) -> bool
    ensures { result ≡ Bytes.begins_name byte }
{
    byte.is_ascii_alphabetic() || byte == b'_' || byte == b'.'
}

/// A name may go on with the byte.
pub fn continues_name(byte: u8) -> bool
    ensures { result ≡ Bytes.continues_name byte }
{
    begins_name(byte) || char::from(byte).is_digit(10)
}

/// What a run of bytes is made of.
#[derive(Clone, Copy)]
pub enum Run {
    Blanks,
    Name,
}

/// A run goes on with the byte.
fn is_in(run: Run, byte: u8) -> bool
    ensures { result ≡ Bytes.is_in run byte }
{
    match run {
        Run::Blanks => is_blank(byte),
        Run::Name => continues_name(byte),
    }
}

/// Where the run from a place on ends.
pub fn run_end(line: &[u8], at: usize, run: Run) -> usize
    requires { at ≤ length line.now }
    ensures end { result ≡ at + prefix_len (Bytes.is_in run) (drop at line.now) }
    ensures after { at ≤ result }
    ensures within { result ≤ length line.now }
{
    let mut end = at;
    while end < line.len() && is_in(run, line[end]) {
        end += 1;
    }
    end
}

/// Where the bytes of a name from a place on end.
pub fn name_end(line: &[u8], at: usize) -> usize
    requires { at ≤ length line.now }
    ensures end { result ≡ at + prefix_len Bytes.continues_name (drop at line.now) }
    ensures after { at ≤ result }
    ensures within { result ≤ length line.now }
{
    run_end(line, at, Run::Name)
}
