//! What the word in MEM does in a turn.
use lab_terms::{Committed, committed_by};
use mx_code::decode;
use mx_isa::CODE_BASE;
use mx_turn::{SHIPPED, Stage};

/// Nothing.
const NOTHING: Committed = Committed {
    register: None,
    md: false,
    store: false,
};

/// The word at an address, of the code or the shipped handler.
fn word_at(code: &[u32], address: u32) -> Option<u32> {
    match address.checked_sub(CODE_BASE) {
        Some(number) => code.get(number as usize).copied(),
        None => SHIPPED.as_slice().get(address as usize).copied(),
    }
}

/// What the word in MEM does: nothing where none is there or it is squashed.
pub(crate) fn committed_in(code: &[u32], mem: Stage) -> Committed {
    let Stage::Live(address) = mem else {
        return NOTHING;
    };
    let Some(word) = word_at(code, address) else {
        return NOTHING;
    };
    match decode(word) {
        Some(inst) => committed_by(&inst),
        None => NOTHING,
    }
}
