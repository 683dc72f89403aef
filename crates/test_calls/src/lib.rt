//! Tests of the public calls of the crates about sources and commands, by values that come from outside.
//!
//! They stand in a crate at the top, since a crate with tests of its own is proved twice.
#![tactic(auto)]

#[cfg(test)]
mod answer;
#[cfg(test)]
mod assembler;
#[cfg(test)]
mod generator;
#[cfg(test)]
mod io;
#[cfg(test)]
mod lexer;
#[cfg(test)]
mod meaning;
#[cfg(test)]
mod modules;
#[cfg(test)]
mod names;
#[cfg(test)]
mod print;
#[cfg(test)]
mod same;
#[cfg(test)]
mod soak;
#[cfg(test)]
mod words;
