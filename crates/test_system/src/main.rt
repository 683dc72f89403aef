//! Reads and writes files of the system, and prints what became of each: how many bytes came, with their sum and the last of
//! them, or the fault. What has to be printed is the file `stdout`; `data/README.md` says how it was worked out.
#![tactic(auto)]

mod cases;
mod report;

use anyhow::Result;
use mx_io::{RealShelf, RealSink, put_all};

fn main(rt: HostRuntime) -> Result<()> {
    let mut shelf = RealShelf::new(&rt);
    let mut out = RealSink::new(&rt);
    let text = cases::told(&rt, &mut shelf)?;
    put_all(&mut out, text.as_bytes())?;
    Ok(())
}
