//! The code of a source that is laid out.
ghost use Rattle.std.specs.Prelude.{◌≡◌, ◌<◌, ◌≤◌, ◌+◌, ◌++◌, ◌∷◌, [], ℕ, length, Some, None, All, IfOk, OnOk, slice_get, slice_index, slice_index_or};
ghost use Rattle.mx_link.specs.Terms.{LAST_ADDRESS, MAX_STATEMENTS, InstFits, word_of_row, HasRegisters, StatementFits, items_of, Site, AreOfOneSource};
ghost use Rattle.mx_squash.specs.Copies.{site_of, is_target};
ghost use Rattle.mx_squash.specs.Chosen.{copies_wanted};
ghost use Rattle.mx_link.specs.Origins.{goal_of, origins_at, origins_of, from_target, as_wanted, as_chosen};
ghost use Rattle.mx_link.specs.Words.{code_of};
ghost use Rattle.mx_link.specs.Parts.{filling_of, site, sites_of, link_in, IsLaidOut, EachInst, HasWords, HaveRegisters, site_words};

use crate::Origin;
use crate::inst::{inst_at, no_copies};
use crate::origin::origin_at;
use mx_blocks::{Block, Plan};
use mx_code::encode;
use mx_isa::Inst;
use mx_layout::Layout;
use mx_source::{Source, Statement};
use mx_squash::{Copied, copies, copies_asked};
use std::alloc::{AllocError, Global};

/// What goes into slots that hold no-ops.
#[derive(Clone, Copy)]
pub enum Slots<'a> {
    /// As many of the first words of the target as can be copied.
    FromTarget,
    /// The no-ops stay.
    Kept,
    /// As many of the first words of the target as are wanted for the block that begins at each statement, and none where a rule
    /// forbids so many (`copies_asked`). A list that is too short wants none.
    Wanted(&'a [u8]),
    /// As many of them as are chosen for the block that begins at each statement, and none where a rule forbids so many. Where
    /// nothing is chosen, or the list is too short, as many as can be copied.
    Chosen(&'a [Option<u8>]),
}

/// Code words, and where each comes from.
#[derive(Drop)]
pub(crate) struct Code {
    pub words: Vec<u32>,
    pub origin: Vec<Origin>,
}

/// Appends the word of an instruction.
fn push_word(code: &mut Code, inst: &Inst, origin: Origin) -> Result<(), AllocError>
    requires { InstFits inst.now }
    ensures registers { OnOk result (HasRegisters inst.now) }
    ensures words { OnOk result (code.new.words.items ≡ code.old.words.items ++ word_of_row inst.now ∷ []) }
    ensures origin { OnOk result (code.new.origin.items ≡ code.old.origin.items ++ origin ∷ []) }
{
    code.words.push(encode(inst))?;
    code.origin.push(origin)?;
    Ok(())
}

/// Appends the words of a block, which begins at an address, with copies in its slots.
fn push_block(
    code: &mut Code,
    statements: &[Statement],
    links: &[u32],
    block: &Block,
    plan: &Plan,
    start: u32,
    copied: &Copied,
) -> Result<(), AllocError>
    requires fit { All (StatementFits (λ i. i < length links.now)) statements.now }
    requires short { All (λ link. link ≤ LAST_ADDRESS) links.now }
    requires within { start + length (items_of plan.now) ≤ LAST_ADDRESS }
    requires first { block.now.first ≤ MAX_STATEMENTS }
    requires goal { goal_of block.now.end ≤ MAX_STATEMENTS }
    requires fits { HasWords (slice_index links.now) statements.now
        (site block.now plan.now start) copied.now }
    ensures words { OnOk result (code.new.words.items ≡ code.old.words.items
        ++ site_words (slice_index links.now) statements.now (site block.now plan.now start) copied.now) }
    ensures origin { OnOk result (code.new.origin.items ≡ code.old.origin.items
        ++ origins_at (site block.now plan.now start) copied.now) }
    ensures registers { OnOk result (EachInst HasRegisters (slice_index links.now) statements.now
        (site block.now plan.now start) copied.now) }
{
    let items = plan.items.as_slice();
    for (p, item) in items.iter().enumerate() {
        let origin = origin_at(block, plan, copied, p, *item);
        let inst = inst_at(statements, links, copied, start + p as u32, origin);
        push_word(code, &inst, origin)?;
    }
    Ok(())
}

/// What is copied into the slots of block `k`.
fn copied_at(layout: &Layout, k: usize, slots: Slots) -> Copied
    requires within { k < length layout.now.blocks.items }
    requires plans { length layout.now.plans.items ≡ length layout.now.blocks.items }
    requires starts { length layout.now.starts.items ≡ length layout.now.blocks.items }
    requires blocks { AreOfOneSource layout.now.blocks.items }
    requires few { length layout.now.blocks.items ≤ MAX_STATEMENTS }
    ensures { (s : Site) → slice_get (sites_of layout.now) k ≡ Some s
        → result ≡ filling_of slots.entry (sites_of layout.now) s }
{
    match slots {
        Slots::FromTarget => most_at(layout, k),
        Slots::Kept => no_copies(),
        Slots::Wanted(counts) => wanted_at(layout, k, counts),
        Slots::Chosen(choices) => chosen_at(layout, k, choices),
    }
}

/// As many words for block `k` as can be copied.
fn most_at(layout: &Layout, k: usize) -> Copied
    requires within { k < length layout.now.blocks.items }
    requires plans { length layout.now.plans.items ≡ length layout.now.blocks.items }
    requires starts { length layout.now.starts.items ≡ length layout.now.blocks.items }
    requires blocks { AreOfOneSource layout.now.blocks.items }
    requires few { length layout.now.blocks.items ≤ MAX_STATEMENTS }
    ensures { (s : Site) → slice_get (sites_of layout.now) k ≡ Some s
        → result ≡ from_target (sites_of layout.now) s }
{
    copies(
        layout.blocks.as_slice(),
        layout.plans.as_slice(),
        layout.starts.as_slice(),
        k as u32,
    )
}

/// As many words as are wanted for block `k`, or none where a rule forbids so many.
fn wanted_at(layout: &Layout, k: usize, counts: &[u8]) -> Copied
    requires within { k < length layout.now.blocks.items }
    requires plans { length layout.now.plans.items ≡ length layout.now.blocks.items }
    requires starts { length layout.now.starts.items ≡ length layout.now.blocks.items }
    requires blocks { AreOfOneSource layout.now.blocks.items }
    requires few { length layout.now.blocks.items ≤ MAX_STATEMENTS }
    ensures { (s : Site) → slice_get (sites_of layout.now) k ≡ Some s
        → result ≡ as_wanted counts.now (sites_of layout.now) s }
{
    let count = wanted_for(counts, layout.blocks[k].first);
    so_many_at(layout, k, count)
}

/// As many words as are chosen for block `k`, or none where a rule forbids so many; without a choice as many as can be copied.
fn chosen_at(layout: &Layout, k: usize, choices: &[Option<u8>]) -> Copied
    requires within { k < length layout.now.blocks.items }
    requires plans { length layout.now.plans.items ≡ length layout.now.blocks.items }
    requires starts { length layout.now.starts.items ≡ length layout.now.blocks.items }
    requires blocks { AreOfOneSource layout.now.blocks.items }
    requires few { length layout.now.blocks.items ≤ MAX_STATEMENTS }
    ensures { (s : Site) → slice_get (sites_of layout.now) k ≡ Some s
        → result ≡ as_chosen choices.now (sites_of layout.now) s }
{
    match chosen_for(choices, layout.blocks[k].first) {
        Some(count) => so_many_at(layout, k, count),
        None => most_at(layout, k),
    }
}

/// So many words for block `k`, or none where a rule forbids so many.
fn so_many_at(layout: &Layout, k: usize, count: u8) -> Copied
    requires within { k < length layout.now.blocks.items }
    requires plans { length layout.now.plans.items ≡ length layout.now.blocks.items }
    requires starts { length layout.now.starts.items ≡ length layout.now.blocks.items }
    requires blocks { AreOfOneSource layout.now.blocks.items }
    requires few { length layout.now.blocks.items ≤ MAX_STATEMENTS }
    ensures { let all = sites_of layout.now in (s : Site) → slice_get all k ≡ Some s
        → result ≡ copies_wanted count s (site_of (is_target s.block.end) all) }
{
    let asked = copies_asked(
        layout.blocks.as_slice(),
        layout.plans.as_slice(),
        layout.starts.as_slice(),
        k as u32,
        count,
    );
    match asked {
        Ok(copied) => copied,
        Err(_) => no_copies(),
    }
}

/// How many words are wanted for the block that begins at a statement.
fn wanted_for(counts: &[u8], first: u32) -> u8
    ensures { result ≡ slice_index_or counts.now first 0 }
{
    match counts.get(first as usize) {
        Some(count) => *count,
        None => 0,
    }
}

/// What is chosen for the block that begins at a statement.
fn chosen_for(choices: &[Option<u8>], first: u32) -> Option<u8>
    ensures { result ≡ slice_index_or choices.now first None }
{
    match choices.get(first as usize) {
        Some(choice) => *choice,
        None => None,
    }
}

/// The code of a source that is laid out.
pub(crate) fn code_of(
    alloc: Global,
    source: &Source,
    layout: &Layout,
    slots: Slots,
) -> Result<Code, AllocError>
    requires { IsLaidOut source.now layout.now }
    ensures words { IfOk result (λ code. code.words.items
        ≡ code_of (filling_of slots.entry) (link_in layout.now) source.now.statements (sites_of layout.now)) }
    ensures origin { IfOk result (λ code. code.origin.items
        ≡ origins_of (filling_of slots.entry) (sites_of layout.now)) }
    ensures registers { OnOk result (HaveRegisters source.now.statements) }
{
    let statements = source.statements();
    let mut code = Code {
        words: Vec::new(alloc),
        origin: Vec::new(alloc),
    };
    for k in 0..layout.blocks.len() {
        let copied = copied_at(layout, k, slots);
        push_block(
            &mut code,
            statements,
            layout.links.as_slice(),
            &layout.blocks[k],
            &layout.plans[k],
            layout.starts[k],
            &copied,
        )?;
    }
    Ok(code)
}
