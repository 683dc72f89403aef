//! Names that instructions read and write.
use crate::same::same;
use mx_depend::independent;
use mx_isa::{Inst, Op, Place, Reg};
use std::test::Fail;

fn load(base: Reg, dest: Reg, offset: i32) -> Inst {
    Inst::Load { base, dest, offset }
}

/// Whether it fits, loads, stores and transfers.
fn kinds(inst: &Inst) -> [bool; 4] {
    [
        inst.fits(),
        inst.is_load(),
        inst.is_store(),
        inst.is_transfer(),
    ]
}

/// Whether the one writes what the other reads.
fn feeds(one: &Inst, other: &Inst) -> bool {
    one.writes().meets(other.reads())
}

#[test]
fn tells_names(rt: HostRuntime) -> Result<(), Fail> {
    let one = Reg::new(1).ok_or("r1")?;
    let load = load(Reg::ZERO, one, 256);
    let step = Inst::Compute {
        a: one,
        dest: Reg::ZERO,
        b: Reg::ZERO,
        op: Op::Mstep,
    };
    same(&rt, &kinds(&load), &[true, true, false, false]);
    // r1; r0 is no name; MD
    let names = [
        feeds(&load, &step),
        load.reads().meets(step.writes()),
        feeds(&step, &step),
    ];
    same(&rt, &names, &[true, false, true]);
    Ok(())
}

#[test]
fn data_words_begin_at_256(rt: HostRuntime) {
    same(&rt, &Place::board().user_data, &256);
}

#[test]
fn loads_of_a_source_with_input_keep_their_order(rt: HostRuntime) -> Result<(), Fail> {
    let (Some(one), Some(two), Some(three)) = (Reg::new(1), Reg::new(2), Reg::new(3)) else {
        return Err("three registers".into());
    };
    let (first, second) = (load(Reg::ZERO, one, 256), load(three, two, 0));
    for (input, wanted) in [(false, true), (true, false)] {
        same(&rt, &independent(&first, &second, input), &wanted);
    }
    Ok(())
}
