//! The words of a command line, from left to right.
//!
//! A command has options, each of which takes one value, and a number of names. Before the first
//! `--`, a word of two or more bytes that begins with `-` is an option, written `--name=value` or
//! `--name value`, where the value is no such word. All other words are names.
#![tactic(auto)]

mod number;
mod read;

pub use number::number_within;
pub use read::{Read, Shape, read_words};
