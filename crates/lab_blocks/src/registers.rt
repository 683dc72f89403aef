//! The names of registers and of MD in a set.
use mx_isa::{Inst, Names, Reg, Special};

/// What the names of a set are called, by their numbers: registers from 1 on, then MD.
pub(crate) static CALLED: [&str; 33] = [
    "r0", "r1", "r2", "r3", "r4", "r5", "r6", "r7", "r8", "r9", "r10", "r11", "r12", "r13", "r14",
    "r15", "r16", "r17", "r18", "r19", "r20", "r21", "r22", "r23", "r24", "r25", "r26", "r27",
    "r28", "r29", "r30", "r31", "md",
];

// What an instruction reads that reads this name alone.
fn one_name(number: u8) -> Names {
    let reader = match Reg::new(number) {
        Some(a) => Inst::Addi {
            a,
            dest: Reg::ZERO,
            imm: 0,
        },
        None => Inst::MoveFrom {
            dest: Reg::ZERO,
            special: Special::Md,
        },
    };
    reader.reads()
}

/// Whether the set has the name of this number.
pub(crate) fn has_name(names: Names, number: usize) -> bool {
    names.meets(one_name(number.min(32) as u8))
}
