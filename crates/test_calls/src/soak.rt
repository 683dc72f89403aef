//! The run of a generated source under interrupts.
use crate::same::same;
use cmd_soak::soak;
use std::test::Fail;

static REPORT: &[u8] = b"\
steps 10\n\
cycles 27\n\
fetches 13\n\
misses 7\n\
squashes 0\n\
interrupts 0\n\
words 10\n\
noops 0\n\
bytes 0\n";

#[test]
fn a_source_of_one_item(rt: HostRuntime) -> Result<(), Fail> {
    same(&rt, &soak(rt.alloc(), 1, 1)?.as_slice(), &REPORT);
    Ok(())
}
