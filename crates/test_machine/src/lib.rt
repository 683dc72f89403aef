//! Tests of the public calls of the crates about words, images, layouts and machines, by values that come from outside.
//!
//! They stand in a crate at the top, as those of `test_calls` do, and apart from these, so that each takes half as long.
#![tactic(auto)]

#[cfg(test)]
mod arithmetic;
#[cfg(test)]
mod board;
#[cfg(test)]
mod chain;
#[cfg(test)]
mod code;
#[cfg(test)]
mod icache;
#[cfg(test)]
mod image;
#[cfg(test)]
mod layout;
#[cfg(test)]
mod link;
#[cfg(test)]
mod listing;
#[cfg(test)]
mod programs;
#[cfg(test)]
mod requests;
#[cfg(test)]
mod same;
#[cfg(test)]
mod traces;
#[cfg(test)]
mod turns;
