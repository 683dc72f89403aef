//! The certificate of a source.
ghost use Rattle.std.specs.Prelude.{◌≡◌, ◌<◌, ◌++◌, Some, OnOk, IfOk, IfErr, length, slice_get};
ghost use Rattle.std.specs.List.{flat_map};
ghost use Rattle.mx_isa.specs.Board.{board};
ghost use Rattle.mx_layout.specs.Kept.{AreKept};
ghost use Rattle.mx_layout.specs.Overlong.{IsRefusal};
ghost use Rattle.mx_squash.specs.Copies.{Site};
ghost use Rattle.mx_link.specs.Laid.{IsLaidAt};
ghost use Rattle.mx_link.specs.Origins.{from_target};
ghost use Rattle.mx_link.specs.Parts.{sites_of};
ghost use Rattle.mx_reorg.specs.Greedy.{IsGreedy};
ghost use Rattle.mx_plans.specs.Ready.{IsReady};
ghost use Rattle.lab_certify.specs.Hash.{hash_digits};
ghost use Rattle.lab_certify.specs.Printed.{squash_sign, head_text, block_line, head_of, site_line, certificate_text, IsCertificate};

use crate::certificate::Head;
use crate::hash::hash_digits;
use mx_blocks::{Block, Plan};
use mx_isa::BOARD;
use mx_layout::{Layout, LinkError};
use mx_link::laid_out;
use mx_plans::push_plan;
use mx_reorg::ListProposer;
use mx_source::Source;
use mx_squash::{Copied, copies};
use mx_text::push_decimal;
use std::alloc::{AllocError, Global};

/// The sign of a branch that squashes.
fn squash_sign(squashes: bool) -> &'static [u8]
    ensures { result.now ≡ squash_sign squashes }
{
    if squashes { b"s" } else { b"" }
}

/// Appends the items of a block's line before its plan.
fn push_head(alloc: Global, text: &mut Vec<u8>, head: &Head) -> Result<(), AllocError>
    ensures { OnOk result (text.new.items ≡ text.old.items ++ head_text head.now) }
{
    text.extend_from_slice(b"block ")?;
    push_decimal(alloc, text, u64::from(head.address))?;
    text.extend_from_slice(b" ")?;
    push_decimal(alloc, text, u64::from(head.copies))?;
    text.extend_from_slice(squash_sign(head.squashes))?;
    text.extend_from_slice(b" ")
}

/// Appends the line of a block.
fn push_line(
    alloc: Global,
    text: &mut Vec<u8>,
    head: &Head,
    block: &Block,
    plan: &Plan,
) -> Result<(), AllocError>
    ensures { OnOk result (text.new.items ≡ text.old.items ++ block_line head.now block.now plan.now) }
{
    push_head(alloc, text, head)?;
    push_plan(alloc, text, block, plan)?;
    text.extend_from_slice(b"\n")
}

/// What a certificate says of a block with these copies.
fn head_of(start: u32, copied: &Copied) -> Head
    ensures { result ≡ head_of start copied.now }
{
    Head {
        address: start,
        copies: copied.count,
        squashes: copied.squash,
    }
}

/// What is copied into the slots of block `k`.
fn copied_at(layout: &Layout, k: usize) -> Copied
    requires ready { IsReady layout.now }
    requires within { k < length layout.now.blocks.items }
    ensures { (s : Site) → slice_get (sites_of layout.now) k ≡ Some s → result ≡ from_target (sites_of layout.now) s }
{
    copies(
        layout.blocks.as_slice(),
        layout.plans.as_slice(),
        layout.starts.as_slice(),
        k as u32,
    )
}

/// Appends the line of block `k` of a layout.
fn push_site(alloc: Global, text: &mut Vec<u8>, layout: &Layout, k: usize) -> Result<(), AllocError>
    requires ready { IsReady layout.now }
    requires within { k < length layout.now.blocks.items }
    ensures { OnOk result ((s : Site) → slice_get (sites_of layout.now) k ≡ Some s
        → text.new.items ≡ text.old.items ++ site_line (sites_of layout.now) s) }
{
    let copied = copied_at(layout, k);
    let head = head_of(layout.starts[k], &copied);
    push_line(alloc, text, &head, &layout.blocks[k], &layout.plans[k])
}

/// Appends the lines of the blocks of a layout.
fn push_sites(alloc: Global, text: &mut Vec<u8>, layout: &Layout) -> Result<(), AllocError>
    requires { IsReady layout.now }
    ensures { OnOk result (text.new.items ≡ text.old.items ++ flat_map (site_line (sites_of layout.now)) (sites_of layout.now)) }
{
    for k in 0..layout.blocks.len() {
        push_site(alloc, text, layout, k)?;
    }
    Ok(())
}

/// The certificate of a source with this text that is laid out.
fn certificate_text(alloc: Global, bytes: &[u8], layout: &Layout) -> Result<Vec<u8>, AllocError>
    requires { IsReady layout.now }
    ensures { IfOk result (λ text. text.items ≡ certificate_text (hash_digits bytes.now) (sites_of layout.now)) }
{
    let digits = hash_digits(alloc, bytes)?;
    let mut text = Vec::new(alloc);
    text.extend_from_slice(b"zanderanvil certificate 1\nsource ")?;
    text.extend_from_slice(digits.as_bytes())?;
    text.extend_from_slice(b"\n")?;
    push_sites(alloc, &mut text, layout)?;
    Ok(text)
}

/// Lays out a source on the board by the plans of the list scheduler.
fn listed(alloc: Global, source: &Source) -> Result<Layout, LinkError>
    ensures laid { IfOk result (IsLaidAt source.now board) }
    ensures kept { IfOk result (λ l. AreKept IsGreedy l.rejected (sites_of l) l.proposals.items) }
    ensures refused { IfErr result (IsRefusal IsGreedy source.now board) }
{
    let _statements = source.statements();
    let mut scheduler = ListProposer;
    laid_out(alloc, source, BOARD, &mut scheduler)
}

/// The certificate of a source, given with its text: what shows that the image that `build` makes is the source, with the plans
/// of the list scheduler and as many copies as it takes.
///
/// # Errors
///
/// Those of `link`.
pub fn certify(alloc: Global, bytes: &[u8], source: &Source) -> Result<Vec<u8>, LinkError>
    ensures certified { IfOk result (λ text. IsCertificate bytes.now source.now text.items) }
    ensures refused { IfErr result (IsRefusal IsGreedy source.now board) }
{
    let layout = listed(alloc, source)?;
    let text = certificate_text(alloc, bytes, &layout)?;
    Ok(text)
}
