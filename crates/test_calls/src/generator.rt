//! Generated sources.
ghost use Rattle.std.specs.Prelude.{◌≤◌};

use crate::same::same;
use mx_gen::generate;
use std::alloc::Global;
use std::test::Fail;

/// The text of so many items from a seed.
fn printed(alloc: Global, seed: u32, count: u32) -> Result<Vec<u8>, Fail>
    requires { count ≤ 4000 }
{
    Ok(generate(alloc, seed, count)?.print(alloc)?)
}

static FIRST: &[u8] = b"\
addi r0,#1,r1\n\
addi r0,#4,r2\n\
addi r0,#9,r3\n\
addi r0,#16,r4\n\
addi r0,#25,r5\n\
addi r0,#36,r6\n\
addi r0,#49,r7\n\
addi r0,#64,r8\n\
sub r2,r4,r2\n\
halt\n";

#[test]
fn the_first_draw_of_seed_1(rt: HostRuntime) -> Result<(), Fail> {
    same(&rt, &printed(rt.alloc(), 1, 1)?.as_slice(), &FIRST);
    Ok(())
}

// Seed 28 draws each of the eight kinds once; the text was worked out by a program of its own.
static EACH_KIND: &[u8] = b"\
sub r5,r4,r1\n\
st 255[r0],r4\n\
blt r8,r4,S2\n\
add r1,r4,r8\n\
S2:\n\
addi r0,#3,r9\n\
L3:\n\
add r8,r5,r3\n\
addi r9,#-1,r9\n\
bne r9,r0,L3\n\
add r8,r2,r8\n\
ld 291[r0],r1\n\
st 277[r0],r4\n\
xor r4,r5,r6\n\
halt\n";

#[test]
fn each_kind_of_item(rt: HostRuntime) -> Result<(), Fail> {
    let text = printed(rt.alloc(), 28, 8)?;
    same(&rt, &text.as_slice().ends_with(EACH_KIND), &true);
    Ok(())
}
