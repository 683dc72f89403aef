//! The labels at the front of a line.
ghost use Rattle.std.specs.Prelude.{◌≡◌, ◌≤◌, true, length, map, OnOk, IfOk};
ghost use Rattle.mx_lines.specs.LabelTable.{IsNear};
ghost use Rattle.mx_asm.specs.Positions;
ghost use Rattle.mx_lines.specs.Shapes.{word};
ghost use Rattle.mx_faults.specs.Walking;
ghost use Rattle.mx_faults.specs.Walking.{repeat_place};

use mx_asm::{begins_label, define_own, first_name};
use mx_lines::{Labels, Word};
use mx_source::Label;
use std::alloc::AllocError;

/// The place that was found, or else this one if a label stands there that is defined before.
fn earlier_place(found: Option<usize>, again: bool, place: usize) -> Option<usize>
    ensures { result ≡ Walking.earlier_place found again place }
{
    match found {
        Some(found) => Some(found),
        None => again.then_some(place),
    }
}

/// Defines the labels at the front, and tells at which token the first one stands that is defined before.
pub fn define_front(
    labels: &mut Labels,
    label: Label,
    words: &[Word],
) -> Result<Option<usize>, AllocError>
    requires near { IsNear label }
    ensures labels { OnOk result (labels.new ≡ Positions.define_front labels.old label (map word words.now)) }
    ensures repeated { IfOk result (λ o. o ≡ repeat_place labels.old label 0 (map word words.now)) }
{
    let mut repeated = None;
    let mut place = 0;
    let mut rest = words;
    while begins_label(rest) {
        let again = define_own(labels, label, first_name(rest))?;
        repeated = earlier_place(repeated, again, place);
        place += 2;
        rest = &rest[2..];
    }
    Ok(repeated)
}
