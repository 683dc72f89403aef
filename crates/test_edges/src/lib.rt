//! Tests of public calls at the edges: the texts of faults that the commands print by themselves, the order of what the library
//! for C is given and gives back, what a watcher is told, and what requests of the workbench are answered.
//!
//! They stand apart from `test_calls`, since they stand on crates above `mx_command`.
#![tactic(auto)]

#[cfg(test)]
mod asked;
#[cfg(test)]
mod faults;
#[cfg(test)]
mod library;
#[cfg(test)]
mod watchers;
