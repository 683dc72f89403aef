//! Linked code on the machine with delay slots is the sequential meaning.
#![tactic(auto)]

mod laws;

pub use laws::{
    as_chosen_is_lawful, as_wanted_is_lawful, fetches_start_blocks, later_blocks_start_later,
    linked_blocks_start, linked_code_halts, linked_code_halts_only, linked_code_is_clean,
    linked_code_sends, results_are_linked,
};
