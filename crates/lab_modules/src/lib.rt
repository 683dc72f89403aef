//! What `check` finds in the modules of a program: a line has a fault exactly if `join` refuses them.
#![tactic(auto)]

mod modules;

pub use lab_check::CheckedModules;
pub use modules::{MOST_MODULES, check_modules};
