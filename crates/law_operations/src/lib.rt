//! What a translation puts for operations on registers does what the semantics of the assembly says.
#![tactic(auto)]

mod laws;

pub use laws::{
    added_leaves, branch_gives, comparison_holds, comparison_leaves, comparison_with_zero_holds,
    computed_leaves, constant_leaves, operation_gives, shift_gives,
};
