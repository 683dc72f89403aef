//! Texts that import and export labels, joined to one source.
use crate::same::same;
use mx_module::Joiner;
use std::alloc::Global;
use std::test::Fail;

const FIRST: &[u8] = b".import emit\naddi r0,#72,r1\ncall emit,r31\nhalt";

const SECOND: &[u8] = b".export emit\nemit: st 255[r0],r1\nx: jr r31";

static PROGRAM: &[u8] =
    b"addi r0,#72,r1\ncall emit,r31\nhalt\nemit:\nst 255[r0],r1\nx..2:\njr r31\n";

/// The text of both, joined.
fn joined(alloc: Global) -> Result<Vec<u8>, Fail> {
    let mut joiner = Joiner::new(alloc);
    joiner.add(FIRST)?;
    joiner.add(SECOND)?;
    Ok(joiner.join(alloc)?.print(alloc)?)
}

#[test]
fn joins_two_texts(rt: HostRuntime) -> Result<(), Fail> {
    same(&rt, &joined(rt.alloc())?.as_slice(), &PROGRAM);
    Ok(())
}
