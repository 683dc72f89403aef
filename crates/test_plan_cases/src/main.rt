//! Compares blocks, plans and copies with cases from a file, whose answers come from another program. Prints how many
//! agree, and a line for each case that does not.
#![tactic(auto)]

mod backwards;
mod shown;

use anyhow::Result;
use shown::answered;
use test_case_files::{Cases, compare_all};

/// The cases of plans.
struct Plans;

impl Cases for Plans {
    fn file(&self) -> &'static str {
        "plans.txt"
    }

    fn answered(&self, rt: &HostRuntime, line: &str) -> Result<String> {
        answered(rt.alloc(), line)
    }
}

fn main(rt: HostRuntime) -> Result<()> {
    compare_all(&rt, [Plans].as_slice())
}
