//! What MIPS-I assembly means, as a compiler writes it: the steps of a program (`specs/Steps.antt`), and a machine that takes them.
#![tactic(auto)]

mod arithmetic;
mod data;
mod effect;
mod layout;
mod machine;
mod parts;
mod running;
mod symbols;
mod value;

pub use effect::Effect;
pub use layout::{Extent, Layout};
pub use machine::{Machine, Stepped};
pub use running::{Ending, run};
pub use value::{Bytes, Value, Why};
