//! The checks of a certificate's hash, plans, addresses and copies.
ghost use Rattle.std.specs.Prelude.{◌≡◌, ◌<◌, ℕ, cond, not, OnOk, IfErr, Some, length, slice_get};
ghost use Rattle.mx_validate.specs.Validity.{Valid};
ghost use Rattle.mx_squash.specs.Copies.{Site};
ghost use Rattle.mx_link.specs.Parts.{sites_of};
ghost use Rattle.mx_plans.specs.Ready.{IsReady};
ghost use Rattle.lab_certify.specs.Texts.{claims_of};
ghost use Rattle.lab_certify.specs.Verified.{AtBoth, MayCarry, MayCopy};
ghost use Rattle.lab_certify.specs.Checks.{IsOfAnother, Begins, IsBrokenBy, IsElsewhere, IsForbidden, IsFirst};

use crate::certificate::{Certificate, Head};
use crate::rejection::Rejection;
use mx_blocks::{Block, Plan};
use mx_layout::Layout;
use mx_plans::first_broken_rule;
use mx_squash::copies_asked;

/// Rejects a certificate for another source, or with lines for another number of blocks.
pub(crate) fn check_source(
    digits: &[u8],
    blocks: &[Block],
    certificate: &Certificate,
) -> Result<(), Rejection>
    ensures hash { OnOk result (certificate.now.hash.items ≡ digits.now) }
    ensures count { OnOk result (length certificate.now.heads.items ≡ length blocks.now) }
    ensures rejected { IfErr result (IsOfAnother digits.now blocks.now (claims_of certificate.now)) }
{
    if certificate.hash.as_slice() != digits {
        return Err(Rejection::Source);
    }
    let expected = blocks.len();
    let found = certificate.heads.len();
    if expected == found {
        Ok(())
    } else {
        Err(Rejection::Blocks { expected, found })
    }
}

/// Rejects a plan that is not valid.
fn check_plan(k: usize, block: &Block, plan: &Plan) -> Result<(), Rejection>
    ensures valid { OnOk result (Valid block.now plan.now) }
    ensures rejected { IfErr result (IsBrokenBy k block.now plan.now) }
{
    match first_broken_rule(block, plan) {
        Some(rule) => Err(Rejection::Plan { block: k, rule }),
        None => Ok(()),
    }
}

/// Rejects the first plan that is not valid.
pub(crate) fn check_plans(blocks: &[Block], plans: &[Plan]) -> Result<(), Rejection>
    requires { length plans.now ≡ length blocks.now }
    ensures valid { OnOk result ((k : ℕ) → AtBoth Valid blocks.now plans.now k) }
    ensures rejected { IfErr result (IsFirst Valid IsBrokenBy blocks.now plans.now) }
{
    for k in 0..blocks.len() {
        if let Err(rejection) = check_plan(k, &blocks[k], &plans[k]) {
            return Err(rejection);
        }
    }
    Ok(())
}

/// Rejects an address at which the block does not begin.
fn check_address(k: usize, start: u32, head: &Head) -> Result<(), Rejection>
    ensures begins { OnOk result (head.now.address ≡ start) }
    ensures rejected { IfErr result (IsElsewhere k start head.now) }
{
    if head.address == start {
        return Ok(());
    }
    Err(Rejection::Address {
        block: k,
        expected: start,
        found: head.address,
    })
}

/// Rejects the first address at which its block does not begin.
pub(crate) fn check_addresses(starts: &[u32], heads: &[Head]) -> Result<(), Rejection>
    requires { length heads.now ≡ length starts.now }
    ensures begin { OnOk result ((k : ℕ) → AtBoth Begins starts.now heads.now k) }
    ensures rejected { IfErr result (IsFirst Begins IsElsewhere starts.now heads.now) }
{
    for k in 0..starts.len() {
        if let Err(rejection) = check_address(k, starts[k], &heads[k]) {
            return Err(rejection);
        }
    }
    Ok(())
}

/// Whether two truths are the same.
fn are_alike(expected: bool, found: bool) -> bool
    ensures { result ≡ cond expected found (not found) }
{
    if expected { found } else { !found }
}

/// What a certificate says of block `k`, besides its plan.
fn head_at(heads: &[Head], k: usize) -> Head
    requires { k < length heads.now }
    ensures { slice_get heads.now k ≡ Some result }
{
    heads[k]
}

/// Rejects copies that a rule forbids for block `k`, and a branch that squashes where it must not, or does not where it must.
fn check_copy(layout: &Layout, k: usize, head: &Head) -> Result<(), Rejection>
    requires ready { IsReady layout.now }
    requires within { k < length layout.now.blocks.items }
    ensures may { OnOk result ((s : Site) → slice_get (sites_of layout.now) k ≡ Some s → MayCarry (sites_of layout.now) s head.now) }
    ensures rejected { IfErr result (λ r. (s : Site) → slice_get (sites_of layout.now) k ≡ Some s → IsForbidden (sites_of layout.now) k s head.now r) }
{
    let asked = copies_asked(
        layout.blocks.as_slice(),
        layout.plans.as_slice(),
        layout.starts.as_slice(),
        k as u32,
        head.copies,
    );
    match asked {
        Ok(copied) => {
            if are_alike(copied.squash, head.squashes) {
                Ok(())
            } else {
                Err(Rejection::Squash { block: k })
            }
        }
        Err(rule) => Err(Rejection::Copies { block: k, rule }),
    }
}

/// Rejects the first block that may not have its copies.
pub(crate) fn check_copies(layout: &Layout, heads: &[Head]) -> Result<(), Rejection>
    requires ready { IsReady layout.now }
    requires count { length heads.now ≡ length layout.now.blocks.items }
    ensures may { OnOk result ((k : ℕ) → MayCopy (sites_of layout.now) heads.now k) }
    ensures rejected { IfErr result (IsFirst (MayCarry (sites_of layout.now)) (IsForbidden (sites_of layout.now)) (sites_of layout.now) heads.now) }
{
    for k in 0..layout.blocks.len() {
        let head = head_at(heads, k);
        if let Err(rejection) = check_copy(layout, k, &head) {
            return Err(rejection);
        }
    }
    Ok(())
}
