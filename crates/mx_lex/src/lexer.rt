//! The lexer.
ghost use Rattle.std.specs.Prelude.{◌≡◌, ◌≤◌, length, IfOk};
ghost use Rattle.mx_lex.specs.Reading.{IsSpan};
ghost use Rattle.mx_lex.specs.Tokens.{next_token, token_from, mark_of};
ghost use Rattle.mx_lex.specs.Tokens;

use crate::bytes::{Run, begins_name, is_allowed, name_end, run_end};
use crate::numbers::number;
use crate::token::{Kind, LexFault, Token};
use std::marker::Model;

/// Gives the tokens of one line in order.
#[derive(Drop)]
pub struct Lexer<'a> {
    line: &'a [u8],
    at: usize,
}

impl<'a> Model for Lexer<'a> {
    ghost use Rattle.std.specs.Prelude.{◌≤◌, length};
    ghost use Rattle.mx_lex.specs.Reading.{Reading};

    ghost Value = { Reading };

    ghost view = { λ l. record { line = l.line.now; at = l.at } };

    ghost invariant = { λ l. l.at ≤ length l.line.now };
}

impl<'a> Lexer<'a> {
    ghost use Rattle.std.specs.Prelude.{◌≡◌, IfOk, MatchResult};
    ghost use Rattle.mx_lex.specs.Reading.{Reading, IsSpan};
    ghost use Rattle.mx_lex.specs.Tokens.{next_token};

    /// A lexer over one line without its line end.
    pub fn new(line: &'a [u8]) -> Lexer<'a>
        ensures { result ≡ record { line = line.entry.now; at = 0 } }
    {
        Lexer { line, at: 0 }
    }

    /// The next token. At the end of the line or at a comment that is `End`, again and again.
    /// After a fault the same fault is answered again.
    pub fn next(&mut self) -> Result<Token, LexFault>
        ensures token { result ≡ next_token self.old.line self.old.at }
        ensures line { self.new.line ≡ self.old.line }
        ensures span { IfOk result (IsSpan self.old.line self.old.at) }
        ensures place { MatchResult result (λ t. self.new.at ≡ t.end) (λ _. self.new.at ≡ self.old.at) }
    {
        let token = token_after(self.line, self.at)?;
        self.at = token.end;
        Ok(token)
    }
}

/// The next token from a place on.
#[tactic(auto, unfolding(crate::specs::Tokens::next_token))]
fn token_after(line: &[u8], at: usize) -> Result<Token, LexFault>
    requires { at ≤ length line.now }
    ensures token { result ≡ next_token line.now at }
    ensures within { IfOk result (IsSpan line.now at) }
{
    token_at(line, run_end(line, at, Run::Blanks))
}

/// The token that begins at a place.
#[tactic(auto, unfolding(crate::specs::Tokens::token_from))]
fn token_at(line: &[u8], at: usize) -> Result<Token, LexFault>
    requires { at ≤ length line.now }
    ensures token { result ≡ token_from line.now at }
    ensures within { IfOk result (IsSpan line.now at) }
{
    if at == line.len() || line[at] == b';' {
        return Ok(token(Kind::End, at, at));
    }
    let byte = line[at];
    if !is_allowed(byte) {
        return Err(LexFault::BadByte { at });
    }
    if begins_name(byte) {
        return Ok(token(Kind::Name, at, name_end(line, at)));
    }
    match mark(byte) {
        Some(kind) => Ok(token(kind, at, at + 1)),
        None => number(line, at),
    }
}

/// A token.
fn token(kind: Kind, start: usize, end: usize) -> Token
    ensures { result ≡ Tokens.token kind start end }
{
    Token { kind, start, end }
}

/// The kind of a token of one byte.
fn mark(byte: u8) -> Option<Kind>
    ensures { result ≡ mark_of byte }
{
    match byte {
        b',' => Some(Kind::Comma),
        b'[' => Some(Kind::Open),
        b']' => Some(Kind::Close),
        b'#' => Some(Kind::Hash),
        b':' => Some(Kind::Colon),
        _ => None,
    }
}
