//! Caches of code words: 4 sets of 8 lines of 16 words.
#![tactic(auto)]

mod fetch_cache;
mod line_cache;
mod line_set;
mod mask;
mod plain_cache;
mod plain_set;

pub use fetch_cache::FetchCache;
pub use line_cache::LineCache;
pub use line_set::Set;
pub use plain_cache::PlainCache;
