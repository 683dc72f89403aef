//! A source that is laid out, its program, and its image with the copies that are wanted.
ghost use Rattle.std.specs.Prelude.{◌≡◌, ◌≤◌, ◌+◌, ◌*◌, IfOk, IfErr, OnOk, length};
ghost use Rattle.mx_isa.specs.declared.board.TheConstants.{LAST_ADDRESS};
ghost use Rattle.mx_source.specs.SourceValue.{IsSource};
ghost use Rattle.mx_layout.specs.Kept.{AreKept};
ghost use Rattle.mx_layout.specs.Overlong.{IsRefusal};
ghost use Rattle.mx_link.specs.Origins.{as_wanted};
ghost use Rattle.mx_link.specs.Linked.{linked_code, linked_data};
ghost use Rattle.mx_link.specs.Parts.{filling_of, sites_of, HaveRegisters};
ghost use Rattle.mx_link.specs.Laid.{IsLaidAt, IsLinkedFrom};

use crate::Linked;
use crate::code::{Code, Slots, code_of};
use crate::linking::{linked, words_of};
use mx_code::Image;
use mx_isa::Place;
use mx_layout::{Layout, LinkError, lay_out};
use mx_source::Source;
use mx_validate::Proposer;
use std::alloc::{AllocError, Global};

/// Lays out a source at a place as `link` does.
///
/// # Errors
///
/// Those of `link`.
pub fn laid_out<P: Proposer>(
    alloc: Global,
    source: &Source,
    place: Place,
    proposer: &mut P,
) -> Result<Layout, LinkError>
    requires { place.code + 3 * length source.now.statements ≤ LAST_ADDRESS }
    ensures laid { IfOk result (IsLaidAt source.now place) }
    ensures kept { IfOk result (λ l. AreKept P.proposes l.rejected (sites_of l) l.proposals.items) }
    ensures refused { IfErr result (IsRefusal P.proposes source.now place) }
{
    let layout = lay_out(alloc, source, place, proposer)?;
    Ok(layout)
}

/// The linked program of a source that is laid out at a place, with these words in slots that hold no-ops.
pub fn link_laid(
    alloc: Global,
    source: &Source,
    place: Place,
    layout: Layout,
    slots: Slots,
) -> Result<Linked, AllocError>
    requires { IsLaidAt source.now place layout }
    ensures source { IsSource source.now }
    ensures registers { OnOk result (HaveRegisters source.now.statements) }
    ensures linked { IfOk result (IsLinkedFrom (filling_of slots.entry) source.now place layout) }
{
    let program = linked(alloc, source, layout, slots)?;
    Ok(program)
}

/// The image of a source that is laid out at a place, with as many copies as are wanted for the block that begins at each
/// statement: the words that `link_laid` gives with `Slots::Wanted`.
pub fn image_wanted(
    alloc: Global,
    source: &Source,
    place: Place,
    layout: &Layout,
    wanted: &[u8],
) -> Result<Image, AllocError>
    requires { IsLaidAt source.now place layout.now }
    ensures source { IsSource source.now }
    ensures registers { OnOk result (HaveRegisters source.now.statements) }
    ensures code { IfOk result (λ image. image.code.items
        ≡ linked_code (as_wanted wanted.now) source.now place (sites_of layout.now)) }
    ensures user_data { IfOk result (λ image. image.user_data.items
        ≡ linked_data source.now place (sites_of layout.now)) }
{
    let values = source.user_data();
    let code = code_of(alloc, source, layout, Slots::Wanted(wanted))?;
    let user_data = words_of(alloc, layout.links.as_slice(), values)?;
    let Code { words, origin: _ } = code;
    Ok(Image {
        code: words,
        user_data,
    })
}
