//! The tokens of a line.
use crate::same::{same, same_for};
use mx_lex::{Kind, LexFault, Lexer, Token};

/// The token of a line with this number, from 0 on.
fn token(line: &[u8], number: usize) -> Result<Token, LexFault> {
    let mut lexer = Lexer::new(line);
    for _ in 0..number {
        let _before = lexer.next();
    }
    lexer.next()
}

const EACH_KIND: &[u8] = b"a.1:\t#-0X1f,[9] ;\xff";

const MINUS_31: Kind = Kind::Number {
    negative: true,
    value: 31,
};

const NINE: Kind = Kind::Number {
    negative: false,
    value: 9,
};

/// The tokens of the line above, and from where to where each stands.
static KINDS: [(Kind, usize, usize); 10] = [
    (Kind::Name, 0, 3),
    (Kind::Colon, 3, 4),
    (Kind::Hash, 5, 6),
    (MINUS_31, 6, 11),
    (Kind::Comma, 11, 12),
    (Kind::Open, 12, 13),
    (NINE, 13, 14),
    (Kind::Close, 14, 15),
    (Kind::End, 16, 16),
    (Kind::End, 16, 16),
];

#[test]
fn reads_each_kind(rt: HostRuntime) {
    for (number, (kind, start, end)) in KINDS.iter().enumerate() {
        let wanted = Token {
            kind: *kind,
            start: *start,
            end: *end,
        };
        same(&rt, &token(EACH_KIND, number), &Ok(wanted));
    }
}

static NUMBERS: [(&[u8], u64); 5] = [
    (b"007", 7),
    (b"8589934591", 8_589_934_591),
    (b"8589934593", 8_589_934_592),
    (b"0x1ffffffff", 8_589_934_591),
    (b"0xffffffffffffffffffffffffffffffff", 8_589_934_592),
];

#[test]
fn caps_numbers(rt: HostRuntime) {
    for (line, value) in NUMBERS.iter() {
        let kind = Kind::Number {
            negative: false,
            value: *value,
        };
        let wanted = Token {
            kind,
            start: 0,
            end: line.len(),
        };
        same_for(&rt, line, &token(line, 0), &Ok(wanted));
    }
}

static FAULTS: [(&[u8], LexFault); 9] = [
    (b" 5x", LexFault::BadToken { at: 1 }),
    (b"0x", LexFault::BadToken { at: 0 }),
    (b"0x1g", LexFault::BadToken { at: 0 }),
    (b"5.", LexFault::BadToken { at: 0 }),
    (b"- 5", LexFault::BadToken { at: 0 }),
    (b"--5", LexFault::BadToken { at: 0 }),
    (b"(", LexFault::BadToken { at: 0 }),
    (b"\t\r", LexFault::BadByte { at: 1 }),
    (b"\x7f", LexFault::BadByte { at: 0 }),
];

#[test]
fn stays_at_a_fault(rt: HostRuntime) {
    for (line, fault) in FAULTS.iter() {
        for number in 0..2 {
            same_for(&rt, line, &token(line, number), &Err(*fault));
        }
    }
}
