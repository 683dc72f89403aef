//! A rejection in words.
use crate::rejection::Rejection;
use mx_plans::Rule;
use mx_squash::CopyRule;
use std::alloc::{AllocError, Global};

/// The name of a rule of valid plans.
fn rule_name(rule: Rule) -> &'static str {
    match rule {
        Rule::Once => "Once",
        Rule::Terminator => "Terminator",
        Rule::Tail => "Tail",
        Rule::Order => "Order",
        Rule::Delay => "Delay",
        Rule::LastLoad => "LastLoad",
        Rule::Room => "Room",
    }
}

/// The name of a rule of copies.
fn copy_rule_name(rule: CopyRule) -> &'static str {
    match rule {
        CopyRule::Target => "Target",
        CopyRule::Room => "Room",
        CopyRule::Front => "Front",
        CopyRule::Reach => "Reach",
        CopyRule::Load => "Load",
    }
}

/// A word as it is printed, or that there is none.
fn word_name(alloc: Global, word: Option<u32>) -> Result<String, AllocError> {
    match word {
        Some(word) => format!(in alloc; "{word:08x}"),
        None => format!(in alloc; "no word"),
    }
}

/// A word that differs, in words.
fn word_text(
    alloc: Global,
    part: &str,
    address: usize,
    expected: Option<u32>,
    found: Option<u32>,
) -> Result<String, AllocError> {
    let expected = word_name(alloc, expected)?;
    let found = word_name(alloc, found)?;
    format!(in alloc; "{part} {address}: expected {expected}; found {found}")
}

/// A rejection in words: what it is, where, and what was expected. Blocks count from 1; words have their addresses.
pub fn rejection_text(alloc: Global, rejection: &Rejection) -> Result<String, AllocError> {
    match *rejection {
        Rejection::Source => format!(in alloc; "source: the certificate is for another one"),
        Rejection::Blocks { expected, found } => {
            format!(in alloc; "blocks: the source has {expected}; found {found}")
        }
        Rejection::Plan { block, rule } => {
            let number = block.saturating_add(1);
            let rule = rule_name(rule);
            format!(in alloc; "plan of block {number}: it breaks {rule}")
        }
        Rejection::Address {
            block,
            expected,
            found,
        } => {
            let number = block.saturating_add(1);
            format!(in alloc; "address of block {number}: expected {expected}; found {found}")
        }
        Rejection::Copies { block, rule } => {
            let number = block.saturating_add(1);
            let rule = copy_rule_name(rule);
            format!(in alloc; "copies of block {number}: {rule} forbids so many")
        }
        Rejection::Squash { block } => {
            let number = block.saturating_add(1);
            format!(in alloc;
                "squash of block {number}: exactly a conditional branch with copies squashes"
            )
        }
        Rejection::Code {
            index,
            expected,
            found,
        } => word_text(
            alloc,
            "code word",
            index.saturating_add(4096),
            expected,
            found,
        ),
        Rejection::Data {
            index,
            expected,
            found,
        } => word_text(
            alloc,
            "data word",
            index.saturating_add(256),
            expected,
            found,
        ),
    }
}
