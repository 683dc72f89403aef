//! Runs `command` on cases from files, over a shelf and a sink in memory. What each case has to answer comes from
//! outside. Prints a line for each kind of case, and one for each case that differs.
#![tactic(auto)]

mod accepted;
mod case;
mod images;
mod kind;
mod puts;
mod repeated;
mod runs;
mod shared;

use anyhow::Result;
use kind::Kind;
use test_case_files::compare;

fn main(rt: HostRuntime) -> Result<()> {
    for kind in Kind::ALL {
        compare(&rt, &kind)?;
    }
    Ok(())
}
