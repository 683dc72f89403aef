//! The listing of a linked source.
use crate::programs::COUNTS_DOWN;
use crate::same::same;
use cmd_list::listing;
use mx_asm::assemble;
use mx_isa::BOARD;
use mx_link::link;
use mx_reorg::ListProposer;
use std::alloc::Global;
use std::test::Fail;

static LISTING: &[u8] = b"\
00000000 88020001 h\n\
00000001 88040002 h\n\
00000002 50001001 h\n\
00000003 50002002 h\n\
00000004 88020003 h\n\
00000005 88040004 h\n\
00000006 50001003 h\n\
00000007 88020005 h\n\
00000008 80040000 h\n\
00000009 80020003 h\n\
0000000a c0840001 h\n\
0000000b 88040000 h\n\
0000000c 58400001 h\n\
0000000d 80040004 h\n\
0000000e 80020005 h\n\
0000000f 58800002 h\n\
00000010 58400003 h\n\
00000011 80040002 h\n\
00000012 80020001 h\n\
00000013 40000000 h\n\
00000014 d0000000 h\n\
00000015 d0000000 h\n\
00000016 d8000000 h\n\
00001000 c0020033 1\n\
00001001 c0040030 2\n\
00001002 880200ff 3\n\
00001003 c043ffff 4\n\
00001004 08450000 5\n\
00001005 880200ff +3\n\
00001006 c043ffff +4\n\
00001007 e0000000 6\n\
links\n\
L 00001002\n\
words 8\n\
noops 0\n\
copies 2\n\
rejected 0\n";

/// The listing of the program.
fn listed(alloc: Global) -> Result<Vec<u8>, Fail> {
    let source = assemble(alloc, COUNTS_DOWN)?;
    let _few = source.statements();
    let linked = link(alloc, &source, BOARD, &mut ListProposer)?;
    Ok(listing(alloc, &source, &linked)?)
}

#[test]
fn a_loop_whose_words_are_copied(rt: HostRuntime) -> Result<(), Fail> {
    let text = listed(rt.alloc())?;
    same(&rt, &text.as_slice(), &LISTING);
    Ok(())
}
