//! Linking.
ghost use Rattle.std.specs.Prelude.{◌≡◌, ◌≤◌, ◌<◌, ◌+◌, ◌*◌, All, IfOk, IfErr, OnOk, length, slice_index};
ghost use Rattle.mx_isa.specs.declared.board.TheConstants.{LAST_ADDRESS, MAX_CODE_WORDS};
ghost use Rattle.mx_source.specs.Statements.{ValueFits};
ghost use Rattle.mx_source.specs.SourceValue.{IsSource};
ghost use Rattle.mx_layout.specs.Overlong.{IsRefusal};
ghost use Rattle.mx_link.specs.Origins.{from_target, from_nowhere, origins_of, copies_in};
ghost use Rattle.mx_link.specs.Words.{code_of, words_of, value_word};
ghost use Rattle.mx_code.specs.NoOps.{noops_in};
ghost use Rattle.mx_link.specs.Parts.{filling_of, sites_of, link_in, IsLaidOut, HaveRegisters};
ghost use Rattle.mx_link.specs.Linked.{IsLinked};

use crate::code::{Code, Slots, code_of};
use crate::{Linked, Origin};
use mx_code::Image;
use mx_isa::Place;
use mx_layout::{Layout, LinkError, lay_out};
use mx_source::{Source, Value};
use mx_validate::Proposer;
use std::alloc::{AllocError, Global};

/// Links a source at a place: its blocks stand in source order from the beginning of the place's code on, each as what was
/// proposed for it, or padded where that is not valid, and slots that hold no-ops are filled with copies of the first words
/// of the target (Hennessy and Gross).
///
/// # Errors
///
/// `Displacement` exactly where some branch would not reach its target, had each block its padded plan: the first one in
/// source order. `Memory` where there is no room.
pub fn link<P: Proposer>(
    alloc: Global,
    source: &Source,
    place: Place,
    proposer: &mut P,
) -> Result<Linked, LinkError>
    requires { place.code + 3 * length source.now.statements ≤ LAST_ADDRESS }
    ensures linked { IfOk result (IsLinked P.proposes from_target source.now place) }
    ensures registers { OnOk result (HaveRegisters source.now.statements) }
    ensures refused { IfErr result (IsRefusal P.proposes source.now place) }
{
    link_with(alloc, source, place, proposer, Slots::FromTarget)
}

/// Links a source at a place as `link` does, but without copies.
///
/// # Errors
///
/// Those of `link`.
pub fn link_plain<P: Proposer>(
    alloc: Global,
    source: &Source,
    place: Place,
    proposer: &mut P,
) -> Result<Linked, LinkError>
    requires { place.code + 3 * length source.now.statements ≤ LAST_ADDRESS }
    ensures linked { IfOk result (IsLinked P.proposes from_nowhere source.now place) }
    ensures registers { OnOk result (HaveRegisters source.now.statements) }
    ensures refused { IfErr result (IsRefusal P.proposes source.now place) }
{
    link_with(alloc, source, place, proposer, Slots::Kept)
}

/// Links a source at a place, with these words in slots that hold no-ops.
fn link_with<P: Proposer>(
    alloc: Global,
    source: &Source,
    place: Place,
    proposer: &mut P,
    slots: Slots,
) -> Result<Linked, LinkError>
    requires { place.code + 3 * length source.now.statements ≤ LAST_ADDRESS }
    ensures linked { IfOk result (IsLinked P.proposes (filling_of slots.entry) source.now place) }
    ensures registers { OnOk result (HaveRegisters source.now.statements) }
    ensures refused { IfErr result (IsRefusal P.proposes source.now place) }
{
    let layout = lay_out(alloc, source, place, proposer)?;
    Ok(linked(alloc, source, layout, slots)?)
}

/// The linked program of a source that is laid out.
pub(crate) fn linked(
    alloc: Global,
    source: &Source,
    layout: Layout,
    slots: Slots,
) -> Result<Linked, AllocError>
    requires { IsLaidOut source.now layout }
    ensures source { IsSource source.now }
    ensures registers { OnOk result (HaveRegisters source.now.statements) }
    ensures code { IfOk result (λ l. l.image.code.items
        ≡ code_of (filling_of slots.entry) (link_in layout) source.now.statements (sites_of layout)) }
    ensures user_data { IfOk result (λ l. l.image.user_data.items
        ≡ words_of (link_in layout) source.now.user_data) }
    ensures links { IfOk result (λ l. l.links ≡ layout.links) }
    ensures origin { IfOk result (λ l. l.origin.items
        ≡ origins_of (filling_of slots.entry) (sites_of layout)) }
    ensures proposals { IfOk result (λ l. l.proposals ≡ layout.proposals) }
    ensures noops { IfOk result (λ l. l.noops ≡ noops_in l.image.code.items) }
    ensures copies { IfOk result (λ l. l.copies ≡ copies_in l.origin.items) }
    ensures rejected { IfOk result (λ l. l.rejected ≡ layout.rejected) }
{
    let values = source.user_data();
    let code = code_of(alloc, source, &layout, slots)?;
    let user_data = words_of(alloc, layout.links.as_slice(), values)?;
    let noops = noops_in(code.words.as_slice());
    let copies = copies_in(code.origin.as_slice());
    let Layout {
        blocks: _,
        plans: _,
        starts: _,
        links,
        proposals,
        rejected,
    } = layout;
    let Code { words, origin } = code;
    Ok(Linked {
        image: Image {
            code: words,
            user_data,
        },
        links,
        origin,
        proposals,
        noops,
        copies,
        rejected,
    })
}

/// A value as a word: a place of code is its address.
fn value_word(links: &[u32], value: Value) -> u32
    requires { ValueFits (λ i. i < length links.now) value }
    ensures { result ≡ value_word (slice_index links.now) value }
{
    match value {
        Value::Int(word) => word,
        Value::Code(i) => links[i as usize],
    }
}

/// The words of values.
pub(crate) fn words_of(
    alloc: Global,
    links: &[u32],
    values: &[Value],
) -> Result<Vec<u32>, AllocError>
    requires { All (ValueFits (λ i. i < length links.now)) values.now }
    ensures { IfOk result (λ words. words.items ≡ words_of (slice_index links.now) values.now) }
{
    let mut words = Vec::new(alloc);
    for value in values {
        words.push(value_word(links, *value))?;
    }
    Ok(words)
}

/// How many code words are the no-op.
fn noops_in(code: &[u32]) -> u32
    requires { length code.now ≤ MAX_CODE_WORDS }
    ensures { result ≡ noops_in code.now }
{
    mx_code::noops_in(code) as u32
}

/// How many words are copies.
fn copies_in(origin: &[Origin]) -> u32
    requires { length origin.now ≤ MAX_CODE_WORDS }
    ensures { result ≡ copies_in origin.now }
{
    origin
        .iter()
        .filter(|from| matches!(from, Origin::Copy(_)))
        .count() as u32
}
