//! What a translation puts for loads and stores does what the semantics of the assembly says.
#![tactic(auto)]

mod laws;

pub use laws::{
    board_keeps_data, byte_load_leaves, byte_store_stores, call_leaves_target, half_load_leaves,
    half_store_stores, jump_leaves_target, left_load_leaves, left_store_stores, link_load_takes,
    right_load_leaves, right_store_stores, word_load_leaves, word_store_stores, words_move,
};
