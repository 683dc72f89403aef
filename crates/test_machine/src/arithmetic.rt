//! What compute instructions and conditions give.
use crate::same::same;
use mx_isa::{Cond, Op, compute, holds};

#[test]
fn computes(rt: HostRuntime) {
    let shifted = compute(Op::Sh(8), 0x1234_5678, 0xab, 9);
    let turned = compute(Op::Rotlb, 0x1234_5678, 1, 9);
    same(
        &rt,
        &[shifted, turned],
        &[(0xab12_3456, 9), (0x3456_7812, 9)],
    );
}

#[test]
fn divides_in_steps(rt: HostRuntime) {
    let (mut dest, mut md) = (0, 7);
    for _ in 0..32 {
        (dest, md) = compute(Op::Dstep, dest, 2, md);
    }
    same(&rt, &(dest, md), &(1, 3));
}

#[test]
fn compares(rt: HostRuntime) {
    for (cond, wanted) in [(Cond::Lt, true), (Cond::Lo, false)] {
        same(&rt, &holds(cond, 0xffff_ffff, 0), &wanted);
    }
}
