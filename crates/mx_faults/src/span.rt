//! The bytes of a line.
ghost use Rattle.std.specs.Prelude.{◌≡◌, ◌+◌, ◌≤◌, length, drop};
ghost use Rattle.std.specs.List.{prefix_len};
ghost use Rattle.mx_lex.specs.Bytes;
ghost use Rattle.mx_lex.specs.Tokens.{tokens_of};
ghost use Rattle.mx_lex.specs.Tokens;
ghost use Rattle.mx_faults.specs.Showing;

use mx_lex::{Kind, LexFault, Lexer, is_allowed, name_end};

/// Bytes of a line: from `start` to before `end`.
#[derive(Clone, Copy, Debug, PartialEq, Eq)]
pub struct Span {
    pub start: usize,
    pub end: usize,
}

/// Where the bytes from the front on end that may stand outside comments.
fn allowed_end(line: &[u8]) -> usize
    ensures end { result ≡ prefix_len Bytes.is_allowed line.now }
    ensures within { result ≤ length line.now }
{
    let mut end = 0;
    while end < line.len() && is_allowed(line[end]) {
        end += 1;
    }
    end
}

/// The first byte that may not stand outside comments.
pub fn bad_byte_span(line: &[u8]) -> Span
    ensures { result ≡ Showing.byte_span line.now }
{
    let start = allowed_end(line);
    Span {
        start,
        end: start + 1,
    }
}

/// The byte at which no token begins, with the bytes of a name behind it.
fn lex_fault_span(line: &[u8], fault: LexFault) -> Option<Span>
    ensures { result ≡ Showing.lex_fault_span line.now fault }
{
    match fault {
        LexFault::BadToken { at } => {
            if at >= line.len() {
                return None;
            }
            Some(Span {
                start: at,
                end: name_end(line, at + 1),
            })
        }
        LexFault::BadByte { .. } => None,
    }
}

/// The line ends at such a token.
fn is_end(kind: &Kind) -> bool
    ensures { result ≡ Tokens.is_end kind.now }
{
    matches!(kind, Kind::End)
}

/// The bytes at which the line does not split into tokens.
#[tactic(auto, unfolding(mx_lex::specs::Tokens::tokens_of))]
pub fn bad_token_span(line: &[u8]) -> Option<Span>
    ensures { result ≡ Showing.no_token line.now (tokens_of line.now) }
{
    let mut lexer = Lexer::new(line);
    let mut left = line.len() + 1;
    while left > 0 {
        match lexer.next() {
            Ok(token) => {
                if is_end(&token.kind) {
                    return None;
                }
            }
            Err(fault) => return lex_fault_span(line, fault),
        }
        left -= 1;
    }
    None
}

/// The bytes of the token at a place of a line, the first one being at 0.
pub fn token_span(line: &[u8], place: usize) -> Option<Span>
    ensures { result ≡ Showing.token_span line.now place }
{
    let mut lexer = Lexer::new(line);
    let mut left = place;
    while left > 0 {
        if lexer.next().is_err() {
            return None;
        }
        left -= 1;
    }
    match lexer.next() {
        Ok(token) => Some(Span {
            start: token.start,
            end: token.end,
        }),
        Err(_) => None,
    }
}
