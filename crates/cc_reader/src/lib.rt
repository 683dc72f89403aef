//! The texts of a program are read one after the other (`reading`, `data`), linked, with what `main` does not reach left out
//! (`reach`), and each datum gets its address (`layout`).
#![tactic(auto)]

mod data;
mod layout;
mod reach;
mod reading;
mod startup;

pub use reading::Reader;
