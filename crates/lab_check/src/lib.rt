//! What is wrong with a text, in words: its faulty lines, what may have been meant, and what is seldom meant.
#![tactic(auto)]

mod checking;
mod closing;
mod error;
mod finding;
mod follow;
mod foreign;
mod hint;
mod json;
mod labels;
mod link_error;
mod module;
mod modules;
mod operand;
mod report;
mod sentence;
mod used;
mod warning;

pub use checking::{Checked, check};
pub use finding::{Finding, Severity};
pub use lab_faults::MOST_LINES;
pub use module::{Module, modules_of};
pub use modules::{CheckedModules, Refusal, accepted_findings, numbered_texts, refused_findings};
pub use report::{Form, findings_text};
