//! Words of the code in assembly language, with the names of places.
#![tactic(auto)]

mod assembly;
mod laws;
mod names;
mod word;

pub use assembly::push_instruction;
pub use laws::{calls_name_their_aim, texts_are_canonical, words_assemble_again};
pub use names::{NamedPlace, PlaceNames};
pub use word::word_text;
