//! Translates stored assembly of a compiler and executes what it means, and compares what is sent to the console with what
//! the same programs print elsewhere. Prints a line for each kind of case, and one for each case that differs.
#![tactic(auto)]

mod case;
mod kind;

use anyhow::Result;
use kind::Kind;
use test_case_files::compare;

fn main(rt: HostRuntime) -> Result<()> {
    for kind in Kind::ALL {
        compare(&rt, &kind)?;
    }
    Ok(())
}
