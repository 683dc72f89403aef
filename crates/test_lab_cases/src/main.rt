//! Runs the commands for people who look on cases from files, over a shelf and a sink in memory. Prints a line for each kind
//! of case, and one for each case that differs.
#![tactic(auto)]

mod case;
mod kind;
mod sources;
mod texts;
mod traced;

use anyhow::Result;
use kind::Kind;
use test_case_files::compare;

fn main(rt: HostRuntime) -> Result<()> {
    for kind in Kind::ALL {
        compare(&rt, &kind)?;
    }
    Ok(())
}
