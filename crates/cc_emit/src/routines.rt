//! The routines that statements call: products, quotients, and shifts by a register.
//!
//! They take their operands in r1 and r26 and their link in r27, and answer in r24 and r25, as LO and HI, shifts in r1. They
//! change these, MD and r22 alone. Each line of a routine follows the number of times
//! that it is written.

ghost use Rattle.std.specs.Prelude.{◌≡◌, ◌≤◌, ◌++◌, replicate, option_map, OnOk};
ghost use Rattle.std.specs.List.{flat_map};
ghost use Rattle.cc_emit.specs.Routines;

use crate::line::{Line, Plain, ROUTINES, Routine, Target, Transfer};
use crate::output::Output;
use std::alloc::AllocError;

/// The low word of a product. A step is needed for each bit that MD has, so it takes an operand below 2^8 or 2^16, or at least -2^15
/// and negative, if there is one.
const LOW: &[(u32, &str)] = &[
    (1, "m.mul:"),
    (1, "        sh r1,r0,#16,r24"),
    (1, "        beq r24,r0,m.mul.b"),
    (1, "        sh r26,r0,#16,r24"),
    (1, "        beq r24,r0,m.mul.a"),
    (1, "        asr r1,#15,r24"),
    (1, "        not r24,r24"),
    (1, "        beq r24,r0,m.mul.c"),
    (1, "        asr r26,#15,r24"),
    (1, "        not r24,r24"),
    (1, "        beq r24,r0,m.mul.e"),
    (1, "        movtos r1,md"),
    (1, "        mstart r26,r24"),
    (31, "        mstep r24,r26,r24"),
    (1, "        jr r27"),
    (1, "m.mul.a:"),
    (1, "        sh r26,r0,#8,r24"),
    (1, "        beq r24,r0,m.mul.f"),
    (1, "        sh r0,r26,#16,r26"),
    (1, "        movtos r26,md"),
    (1, "        mstep r0,r1,r24"),
    (15, "        mstep r24,r1,r24"),
    (1, "        jr r27"),
    (1, "m.mul.b:"),
    (1, "        sh r1,r0,#8,r24"),
    (1, "        beq r24,r0,m.mul.d"),
    (1, "        sh r26,r0,#8,r24"),
    (1, "        beq r24,r0,m.mul.f"),
    (1, "        sh r0,r1,#16,r1"),
    (1, "        movtos r1,md"),
    (1, "        mstep r0,r26,r24"),
    (15, "        mstep r24,r26,r24"),
    (1, "        jr r27"),
    (1, "m.mul.c:"),
    (1, "        sh r0,r1,#16,r1"),
    (1, "        movtos r1,md"),
    (1, "        mstart r26,r24"),
    (15, "        mstep r24,r26,r24"),
    (1, "        jr r27"),
    (1, "m.mul.d:"),
    (1, "        sh r0,r1,#8,r1"),
    (1, "        movtos r1,md"),
    (1, "        mstep r0,r26,r24"),
    (7, "        mstep r24,r26,r24"),
    (1, "        jr r27"),
    (1, "m.mul.e:"),
    (1, "        sh r0,r26,#16,r26"),
    (1, "        movtos r26,md"),
    (1, "        mstart r1,r24"),
    (15, "        mstep r24,r1,r24"),
    (1, "        jr r27"),
    (1, "m.mul.f:"),
    (1, "        sh r0,r26,#8,r26"),
    (1, "        movtos r26,md"),
    (1, "        mstep r0,r1,r24"),
    (7, "        mstep r24,r1,r24"),
    (1, "        jr r27"),
];

/// Both words of a product of signed numbers, by that of their amounts.
const SIGNED_PRODUCT: &[(u32, &str)] = &[
    (1, "m.mult:"),
    (1, "        or r1,r26,r24"),
    (1, "        bge r24,r0,m.multu"),
    (1, "        xor r1,r26,r22"),
    (1, "        st m.x[r0],r22"),
    (1, "        st m.link[r0],r27"),
    (1, "        bge r1,r0,m.mult.a"),
    (1, "        sub r0,r1,r1"),
    (1, "m.mult.a:"),
    (1, "        bge r26,r0,m.mult.b"),
    (1, "        sub r0,r26,r26"),
    (1, "m.mult.b:"),
    (1, "        call m.multu,r27"),
    (1, "        ld m.link[r0],r27"),
    (1, "        st m.link[r0],r0"),
    (1, "        ld m.x[r0],r22"),
    (1, "        bge r22,r0,m.mult.c"),
    (1, "        not r25,r25"),
    (1, "        sub r0,r24,r24"),
    (1, "        bne r24,r0,m.mult.c"),
    (1, "        addi r25,#1,r25"),
    (1, "m.mult.c:"),
    (1, "        jr r27"),
];

/// Both words of a product of unsigned numbers: of the lower one and each half of the other, or of four halves.
const PRODUCT: &[(u32, &str)] = &[
    (1, "m.multu:"),
    (1, "        bhs r26,r1,m.multu.a"),
    (1, "        mov r1,r24"),
    (1, "        mov r26,r1"),
    (1, "        mov r24,r26"),
    (1, "m.multu.a:"),
    (1, "        sh r0,r26,#16,r22"),
    (1, "        sh r22,r0,#16,r22"),
    (1, "        sh r1,r0,#8,r24"),
    (1, "        bne r24,r0,m.multu.b"),
    (1, "        sh r0,r1,#8,r1"),
    (1, "        sh r26,r0,#16,r26"),
    (1, "        mov r0,r25"),
    (1, "        movtos r1,md"),
    (8, "        mstep r24,r22,r24"),
    (1, "        beq r26,r0,m.multu.c"),
    (1, "        movtos r1,md"),
    (8, "        mstep r25,r26,r25"),
    (1, "m.multu.c:"),
    (1, "        sh r24,r0,#16,r22"),
    (1, "        add r25,r22,r25"),
    (1, "        sh r0,r24,#16,r24"),
    (1, "        sh r24,r25,#16,r24"),
    (1, "        sh r25,r0,#16,r25"),
    (1, "        jr r27"),
    (1, "m.multu.b:"),
    (1, "        sh r1,r0,#16,r24"),
    (1, "        bne r24,r0,m.multu.d"),
    (1, "        sh r0,r1,#16,r1"),
    (1, "        sh r26,r0,#16,r26"),
    (1, "        mov r0,r25"),
    (1, "        movtos r1,md"),
    (16, "        mstep r24,r22,r24"),
    (1, "        beq r26,r0,m.multu.c"),
    (1, "        movtos r1,md"),
    (16, "        mstep r25,r26,r25"),
    (1, "        b m.multu.c"),
    (1, "m.multu.d:"),
    (1, "        movtos r1,md"),
    (1, "        mov r0,r25"),
    (16, "        mstep r25,r22,r25"),
    (1, "        mov r0,r24"),
    (16, "        mstep r24,r22,r24"),
    (1, "        sh r26,r0,#16,r26"),
    (1, "        movtos r1,md"),
    (1, "        mov r0,r22"),
    (16, "        mstep r22,r26,r22"),
    (1, "        mov r0,r1"),
    (16, "        mstep r1,r26,r1"),
    (1, "        sh r24,r0,#16,r26"),
    (1, "        add r25,r26,r25"),
    (1, "        sh r0,r25,#16,r26"),
    (1, "        sh r26,r0,#16,r26"),
    (1, "        add r1,r26,r1"),
    (1, "        sh r25,r0,#16,r25"),
    (1, "        add r22,r25,r25"),
    (1, "        sh r1,r0,#16,r26"),
    (1, "        add r25,r26,r25"),
    (1, "        sh r0,r24,#16,r24"),
    (1, "        sh r24,r1,#16,r24"),
    (1, "        jr r27"),
];

/// A quotient of signed numbers and its remainder, by those of their amounts.
const SIGNED_QUOTIENT: &[(u32, &str)] = &[
    (1, "m.div:"),
    (1, "        or r1,r26,r24"),
    (1, "        bge r24,r0,m.divu"),
    (1, "        beq r26,r0,m.zero"),
    (1, "        xor r1,r26,r24"),
    (1, "        st m.x[r0],r24"),
    (1, "        st m.y[r0],r1"),
    (1, "        st m.link[r0],r27"),
    (1, "        bge r1,r0,m.div.a"),
    (1, "        sub r0,r1,r1"),
    (1, "m.div.a:"),
    (1, "        bge r26,r0,m.div.b"),
    (1, "        sub r0,r26,r26"),
    (1, "m.div.b:"),
    (1, "        call m.divu,r27"),
    (1, "        ld m.link[r0],r27"),
    (1, "        st m.link[r0],r0"),
    (1, "        ld m.y[r0],r1"),
    (1, "        ld m.x[r0],r26"),
    (1, "        bge r1,r0,m.div.c"),
    (1, "        sub r0,r25,r25"),
    (1, "m.div.c:"),
    (1, "        bge r26,r0,m.div.d"),
    (1, "        sub r0,r24,r24"),
    (1, "m.div.d:"),
    (1, "        jr r27"),
];

/// A quotient of unsigned numbers and its remainder, in as many steps as it may have bits.
const QUOTIENT: &[(u32, &str)] = &[
    (1, "m.divu:"),
    (1, "        beq r26,r0,m.zero"),
    (1, "        sh r1,r0,#8,r25"),
    (1, "        bhs r25,r26,m.divu.b"),
    (1, "        sh r1,r0,#4,r24"),
    (1, "        bhs r24,r26,m.divu.a"),
    (1, "        bhs r1,r26,m.divu.e"),
    (1, "        mov r1,r25"),
    (1, "        mov r0,r24"),
    (1, "        jr r27"),
    (1, "m.divu.e:"),
    (1, "        mov r24,r25"),
    (1, "        sh r0,r1,#4,r1"),
    (1, "        movtos r1,md"),
    (4, "        dstep r25,r26,r25"),
    (1, "        movfrs md,r24"),
    (1, "        jr r27"),
    (1, "m.divu.a:"),
    (1, "        sh r0,r1,#8,r1"),
    (1, "        movtos r1,md"),
    (8, "        dstep r25,r26,r25"),
    (1, "        movfrs md,r24"),
    (1, "        jr r27"),
    (1, "m.divu.b:"),
    (1, "        sh r1,r0,#16,r25"),
    (1, "        bhs r25,r26,m.divu.c"),
    (1, "        sh r0,r1,#16,r1"),
    (1, "        movtos r1,md"),
    (16, "        dstep r25,r26,r25"),
    (1, "        movfrs md,r24"),
    (1, "        jr r27"),
    (1, "m.divu.c:"),
    (1, "        sh r1,r0,#24,r25"),
    (1, "        bhs r25,r26,m.divu.d"),
    (1, "        sh r0,r1,#24,r1"),
    (1, "        movtos r1,md"),
    (24, "        dstep r25,r26,r25"),
    (1, "        movfrs md,r24"),
    (1, "        jr r27"),
    (1, "m.divu.d:"),
    (1, "        mov r0,r25"),
    (1, "        movtos r1,md"),
    (32, "        dstep r25,r26,r25"),
    (1, "        movfrs md,r24"),
    (1, "        jr r27"),
];

/// Adds a line so often.
fn put_line(out: &mut Output, times: u32, line: Line) -> Result<(), AllocError>
    ensures lines { OnOk result (out.new.lines.items ≡ out.old.lines.items ++ replicate times line) }
    ensures routines { out.new.routines ≡ out.old.routines }
{
    for _done in 0..times {
        out.push(line)?;
    }
    Ok(())
}

/// Adds lines, each so often as its number says.
fn put_rows(out: &mut Output, rows: &[(u32, &'static str)]) -> Result<(), AllocError>
    ensures lines { OnOk result (out.new.lines.items ≡ out.old.lines.items ++ flat_map Routines.row_lines rows.now) }
    ensures routines { out.new.routines ≡ out.old.routines }
{
    for row in rows {
        put_line(out, row.0, Line::Written(row.1))?;
    }
    Ok(())
}

/// What shifts by a number that is not 0.
fn shift_by(which: Routine, count: u8) -> Plain
    requires { count ≤ 32 }
    ensures { result ≡ Routines.shift_by which count }
{
    match which {
        Routine::ShiftLeft => Plain::Sh {
            a: 0,
            b: 1,
            count: 32 - count,
            rd: 1,
        },
        Routine::ShiftRight => Plain::Sh {
            a: 1,
            b: 0,
            count,
            rd: 1,
        },
        Routine::RotateLeft => Plain::Sh {
            a: 1,
            b: 1,
            count: 32 - count,
            rd: 1,
        },
        _ => Plain::Asr {
            rs: 1,
            count,
            rd: 1,
        },
    }
}

/// The place in a shift's routine for a count.
fn put_shift_by(out: &mut Output, which: Routine, count: u8) -> Result<(), AllocError>
    requires { count ≤ 32 }
    ensures lines { OnOk result (out.new.lines.items ≡ out.old.lines.items ++ Routines.shift_lines which count) }
    ensures routines { out.new.routines ≡ out.old.routines }
{
    let target = Target::Shifted {
        routine: which,
        count,
    };
    out.push(Line::Mark(target))?;
    if count > 0 {
        out.plain(shift_by(which, count))?;
    }
    out.transfer(Transfer::JumpReg(27))
}

/// The routine of a shift: a place for each of so many counts.
fn put_shift(out: &mut Output, which: Routine, counts: u8) -> Result<(), AllocError>
    requires { counts ≤ 32 }
    ensures lines { OnOk result (out.new.lines.items ≡ out.old.lines.items ++ Routines.shifts_lines which counts) }
    ensures routines { out.new.routines ≡ out.old.routines }
{
    for count in 0..counts {
        put_shift_by(out, which, count)?;
    }
    Ok(())
}

/// What ends a program that cannot go on, with a status in r2: 128 and the number of the signal that other systems give. r27 keeps the
/// address that the routine was called from, or of a full stack the one that the function was called from.
const TRAP: &[(u32, &str)] = &[
    (1, "m.trap:"),
    (1, "        addi r0,#133,r2"),
    (1, "        halt"),
];

const ZERO: &[(u32, &str)] = &[
    (1, "m.zero:"),
    (1, "        addi r0,#136,r2"),
    (1, "        halt"),
];

const NULL: &[(u32, &str)] = &[
    (1, "m.null:"),
    (1, "        addi r0,#139,r2"),
    (1, "        halt"),
];

const STACK: &[(u32, &str)] = &[
    (1, "m.stack:"),
    (1, "        mov r31,r27"),
    (1, "        addi r0,#139,r2"),
    (1, "        halt"),
];

/// The lines of a routine that is no shift.
#[tactic(auto, unfolding(crate::specs::Routines::assembly_of))]
fn rows_of(which: Routine) -> Option<&'static [(u32, &'static str)]>
    ensures { option_map (λ rows. Routines.rows_seen rows.now) result ≡ Routines.assembly_of which }
{
    match which {
        Routine::Low => Some(LOW),
        Routine::Product => Some(PRODUCT),
        Routine::SignedProduct => Some(SIGNED_PRODUCT),
        Routine::Quotient => Some(QUOTIENT),
        Routine::SignedQuotient => Some(SIGNED_QUOTIENT),
        Routine::Trap => Some(TRAP),
        Routine::Zero => Some(ZERO),
        Routine::Null => Some(NULL),
        Routine::Stack => Some(STACK),
        _ => None,
    }
}

/// Adds a routine.
fn put_routine(out: &mut Output, which: Routine) -> Result<(), AllocError>
    ensures lines { OnOk result (Routines.Adds out.old.lines.items out.new.lines.items (λ p. Routines.routine_text p which)) }
    ensures routines { out.new.routines ≡ out.old.routines }
{
    match rows_of(which) {
        Some(rows) => put_rows(out, rows),
        None => put_shift(out, which, 32),
    }
}

/// Adds a routine, if it is called.
fn put_if_called(out: &mut Output, which: Routine) -> Result<(), AllocError>
    ensures lines { OnOk result (Routines.Adds out.old.lines.items out.new.lines.items (λ p. Routines.called_text out.old.routines.items p which)) }
    ensures routines { out.new.routines ≡ out.old.routines }
{
    if !out.needs(which) {
        return Ok(());
    }
    put_routine(out, which)
}

/// Adds those of these routines that are called.
fn put_called(out: &mut Output, routines: &[Routine]) -> Result<(), AllocError>
    ensures lines { OnOk result (Routines.Adds out.old.lines.items out.new.lines.items (Routines.called_texts out.old.routines.items routines.now)) }
    ensures routines { out.new.routines ≡ out.old.routines }
{
    for which in routines {
        put_if_called(out, *which)?;
    }
    Ok(())
}

/// Notes that a routine is called where another is.
fn need_with(out: &mut Output, routine: Routine, other: Routine) -> Result<(), AllocError>
    ensures noted { OnOk result (out.new.routines.items ≡ Routines.needed_with routine other out.old.routines.items) }
    ensures lines { out.new.lines ≡ out.old.lines }
{
    if out.needs(routine) {
        out.need(other)
    } else {
        Ok(())
    }
}

/// Notes the routines that those that are called call.
fn need_called(out: &mut Output) -> Result<(), AllocError>
    ensures noted { OnOk result (out.new.routines.items ≡ Routines.all_needed out.old.routines.items) }
    ensures lines { out.new.lines ≡ out.old.lines }
{
    need_with(out, Routine::SignedProduct, Routine::Product)?;
    need_with(out, Routine::SignedQuotient, Routine::Quotient)?;
    need_with(out, Routine::Quotient, Routine::Zero)
}

/// Adds the routines that are called, and those that these call.
pub fn put_routines(out: &mut Output) -> Result<(), AllocError>
    ensures lines { OnOk result (Routines.Adds out.old.lines.items out.new.lines.items (Routines.routines_text (Routines.all_needed out.old.routines.items))) }
    ensures routines { OnOk result (out.new.routines.items ≡ Routines.all_needed out.old.routines.items) }
{
    need_called(out)?;
    put_called(out, &ROUTINES)
}
