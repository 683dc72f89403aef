//! Where data are.

use cc_program::{Object, Program};
use cc_rules::{FIRST_BYTE, aligned};

/// Data of at most so many bytes come first, then those of at most so many, so that most have short addresses.
static SMALL: [u32; 3] = [256, 4096, u32::MAX];

/// Whether a size is at most one number and more than another, where that is not 0.
fn fits(size: u32, least: u32, most: u32) -> bool {
    size <= most && (least == 0 || size > least)
}

/// Gives a datum its address, at a byte or the next where it may be. Answers the first byte after it.
fn place(object: &mut Object, from: u64) -> u64 {
    let size = object.content.size;
    let align = if size >= 4 {
        object.standing.align.max(4)
    } else {
        object.standing.align
    };
    let at = aligned(from, align);
    object.standing.address = u32::try_from(at).unwrap_or(u32::MAX);
    at.saturating_add(u64::from(size))
}

/// Gives each datum that is kept its address. Answers the first byte after all, at a multiple of 4.
pub(crate) fn lay_out(program: &mut Program) -> u64 {
    let mut at = FIRST_BYTE;
    let mut least = 0u32;
    for most in &SMALL {
        for object in program.objects.iter_mut() {
            if object.kept && fits(object.content.size, least, *most) {
                at = place(object, at);
            }
        }
        least = *most;
    }
    place_empty(program);
    place_within(program);
    aligned(at, 4)
}

/// The first byte after a datum, if it is kept.
fn end_of(program: &Program, number: u32) -> Option<u32> {
    match program.objects.get(number as usize) {
        Some(object) if object.kept => Some(
            object.standing.address.saturating_add(object.content.size),
        ),
        _ => None,
    }
}

/// Where an empty datum is that follows another one: at the end of that.
fn end_before(program: &Program, number: usize) -> Option<u32> {
    let object = program.objects.get(number)?;
    if object.content.size > 0 {
        return None;
    }
    let end = end_of(program, object.after?)?;
    u32::try_from(aligned(u64::from(end), object.standing.align)).ok()
}

/// Where a place in another datum is.
fn place_in_other(program: &Program, number: usize) -> Option<u32> {
    let within = program.objects.get(number)?.within?;
    Some(program.address(within.symbol).wrapping_add(within.addend))
}

/// Gives each place in another datum its address.
fn place_within(program: &mut Program) {
    for number in 0..program.objects.len() {
        if let Some(address) = place_in_other(program, number) {
            if let Some(object) = program.objects.as_mut_slice().get_mut(number) {
                object.standing.address = address;
            }
        }
    }
}

/// Gives each empty datum that follows another one the address of that one's end.
fn place_empty(program: &mut Program) {
    for number in 0..program.objects.len() {
        if let Some(address) = end_before(program, number) {
            if let Some(object) = program.objects.as_mut_slice().get_mut(number) {
                object.standing.address = address;
            }
        }
    }
}
