//! The law that a verified image means its source.
#![tactic(auto)]

mod laws;

pub use laws::verified_image_means_its_source;
