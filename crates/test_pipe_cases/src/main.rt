//! Compares the two machines with each other, and with cases from files: worked images, images by drawn words, cycles many
//! at once and one by one, the fields of the pipeline in a worked run, and traces whose answers come from another program.
//! Prints a line for each kind of case, and one for each case that differs.
#![tactic(auto)]

mod apart;
mod drawn;
mod kind;
mod pieces;
mod sides;
mod traced;

use anyhow::Result;
use kind::Kind;
use test_case_files::compare;

fn main(rt: HostRuntime) -> Result<()> {
    for kind in Kind::ALL {
        compare(&rt, &kind)?;
    }
    Ok(())
}
