//! Verifying an image by a certificate.
ghost use Rattle.std.specs.Prelude.{◌≡◌, ◌++◌, ℕ, List, OnOk, IfOk, IfErr, length, replicate};
ghost use Rattle.mx_isa.specs.Board.{board};
ghost use Rattle.mx_source.specs.SourceValue.{SourceValue, IsSource};
ghost use Rattle.mx_code.specs.declared.Image.{Image as TheImage};
ghost use Rattle.mx_squash.specs.Copies.{Site};
ghost use Rattle.mx_layout.specs.Kept.{AreKept};
ghost use Rattle.mx_layout.specs.Overlong.{IsRefusal};
ghost use Rattle.mx_link.specs.Laid.{IsLaidAt};
ghost use Rattle.mx_link.specs.Parts.{HaveRegisters, sites_of};
ghost use Rattle.mx_link.specs.Linked.{linked_data};
ghost use Rattle.mx_plans.specs.Says.{IsProposed};
ghost use Rattle.mx_plans.specs.Ready.{IsReady};
ghost use Rattle.lab_certify.specs.Texts.{Claims, claims_of};
ghost use Rattle.lab_certify.specs.Verified.{counts_of, claimed_code, IsLinkable, IsVerified, IsUnverified};
ghost use Rattle.lab_certify.specs.Checks.{IsPlanned, IsSited, Passes, FailsAsPlanned, FailsAsSited, Fails, IsGiven, IsExpected, IsOtherImage};

use crate::certificate::{Certificate, Head};
use crate::checking::{check_addresses, check_copies, check_plans, check_source};
use crate::comparing::first_difference;
use crate::hash::hash_digits;
use crate::rejection::{Rejection, VerifyError};
use mx_blocks::Block;
use mx_code::Image;
use mx_isa::BOARD;
use mx_layout::{Layout, LinkError};
use mx_link::image_wanted;
use mx_plans::lay_planned;
use mx_source::Source;
use std::alloc::{AllocError, Global};

/// Lays out a source on the board by the plans of a certificate.
fn planned_layout(
    alloc: Global,
    source: &Source,
    certificate: &Certificate,
) -> Result<Layout, LinkError>
    ensures source { IsSource source.now }
    ensures laid { IfOk result (IsLaidAt source.now board) }
    ensures kept { IfOk result (λ l. AreKept (IsProposed source.now (claims_of certificate.now).plans) l.rejected (sites_of l) l.proposals.items) }
    ensures refused { IfErr result (IsRefusal (IsProposed source.now (claims_of certificate.now).plans) source.now board) }
{
    let _statements = source.statements();
    lay_planned(alloc, source, BOARD, certificate.plans.as_slice())
}

/// Lays out a source on the board by the plans of a certificate, so that these can be checked.
#[tactic(auto, using(crate::proofs::Ready::ready))]
fn layout_of(alloc: Global, source: &Source, certificate: &Certificate) -> Result<Layout, LinkError>
    ensures source { IsSource source.now }
    ensures laid { IfOk result (IsLaidAt source.now board) }
    ensures ready { IfOk result IsReady }
    ensures proposals { IfOk result (λ l. length l.proposals.items ≡ length l.blocks.items) }
    ensures kept { IfOk result (λ l. AreKept (IsProposed source.now (claims_of certificate.now).plans) l.rejected (sites_of l) l.proposals.items) }
    ensures refused { IfErr result (IsRefusal (IsProposed source.now (claims_of certificate.now).plans) source.now board) }
{
    let layout = planned_layout(alloc, source, certificate)?;
    Ok(layout)
}

/// Rejects a certificate that is for another source, or whose plans are not valid.
fn check_planned(digits: &[u8], layout: &Layout, certificate: &Certificate) -> Result<(), Rejection>
    requires { length layout.now.proposals.items ≡ length layout.now.blocks.items }
    ensures planned { OnOk result (IsPlanned digits.now layout.now (claims_of certificate.now)) }
    ensures fails { IfErr result (FailsAsPlanned digits.now layout.now (claims_of certificate.now)) }
{
    if let Err(rejection) = check_source(digits, layout.blocks.as_slice(), certificate) {
        return Err(rejection);
    }
    if let Err(rejection) = check_plans(layout.blocks.as_slice(), layout.proposals.as_slice()) {
        return Err(rejection);
    }
    Ok(())
}

/// Rejects a certificate also where a block begins elsewhere.
fn check_sited(digits: &[u8], layout: &Layout, certificate: &Certificate) -> Result<(), Rejection>
    requires ready { IsReady layout.now }
    requires proposals { length layout.now.proposals.items ≡ length layout.now.blocks.items }
    ensures sited { OnOk result (IsSited digits.now layout.now (claims_of certificate.now)) }
    ensures fails { IfErr result (FailsAsSited digits.now layout.now (claims_of certificate.now)) }
{
    if let Err(rejection) = check_planned(digits, layout, certificate) {
        return Err(rejection);
    }
    if let Err(rejection) = check_addresses(
        layout.starts.as_slice(),
        certificate.heads.as_slice(),
    ) {
        return Err(rejection);
    }
    Ok(())
}

/// Rejects a certificate by the first of its rules that fails for a source that is laid out by its plans.
fn check(digits: &[u8], layout: &Layout, certificate: &Certificate) -> Result<(), Rejection>
    requires ready { IsReady layout.now }
    requires proposals { length layout.now.proposals.items ≡ length layout.now.blocks.items }
    ensures passes { OnOk result (Passes digits.now layout.now (claims_of certificate.now)) }
    ensures fails { IfErr result (Fails digits.now layout.now (claims_of certificate.now)) }
{
    if let Err(rejection) = check_sited(digits, layout, certificate) {
        return Err(rejection);
    }
    if let Err(rejection) = check_copies(layout, certificate.heads.as_slice()) {
        return Err(rejection);
    }
    Ok(())
}

/// Rejects a certificate that does not fit a source that is laid out by its plans.
fn checked(digits: &[u8], layout: &Layout, certificate: &Certificate) -> Result<(), VerifyError>
    requires ready { IsReady layout.now }
    requires proposals { length layout.now.proposals.items ≡ length layout.now.blocks.items }
    ensures count { OnOk result (length certificate.now.heads.items ≡ length layout.now.blocks.items) }
    ensures linkable { (text : List ℕ) (source : SourceValue)
        → IsGiven text digits.now source layout.now (claims_of certificate.now)
        → OnOk result (IsLinkable text source (claims_of certificate.now) (sites_of layout.now)) }
    ensures refused { (text : List ℕ) (source : SourceValue) (image : TheImage)
        → IsGiven text digits.now source layout.now (claims_of certificate.now)
        → IfErr result (IsUnverified text source image (claims_of certificate.now)) }
{
    match check(digits, layout, certificate) {
        Ok(()) => Ok(()),
        Err(rejection) => Err(VerifyError::Rejected(rejection)),
    }
}

/// Appends zeros.
fn push_zeros(counts: &mut Vec<u8>, n: usize) -> Result<(), AllocError>
    ensures { OnOk result (counts.new.items ≡ counts.old.items ++ replicate n 0) }
{
    for _ in 0..n {
        counts.push(0)?;
    }
    Ok(())
}

/// For each statement how many copies are claimed for the block that begins there.
fn counts_of(alloc: Global, blocks: &[Block], heads: &[Head]) -> Result<Vec<u8>, AllocError>
    requires { length heads.now ≡ length blocks.now }
    ensures { IfOk result (λ counts. counts.items ≡ counts_of blocks.now heads.now) }
{
    let mut counts = Vec::new(alloc);
    for k in 0..blocks.len() {
        counts.push(heads[k].copies)?;
        push_zeros(&mut counts, blocks[k].insts.len() - 1)?;
    }
    Ok(counts)
}

/// The image of a source that is laid out, with the copies that are claimed.
fn claimed_image(
    alloc: Global,
    source: &Source,
    layout: &Layout,
    heads: &[Head],
) -> Result<Image, AllocError>
    requires laid { IsLaidAt source.now board layout.now }
    requires count { length heads.now ≡ length layout.now.blocks.items }
    ensures registers { OnOk result (HaveRegisters source.now.statements) }
    ensures code { IfOk result (λ image. image.code.items ≡ claimed_code source.now (sites_of layout.now) heads.now) }
    ensures user_data { IfOk result (λ image. image.user_data.items ≡ linked_data source.now board (sites_of layout.now)) }
{
    let counts = counts_of(alloc, layout.blocks.as_slice(), heads)?;
    image_wanted(alloc, source, BOARD, layout, counts.as_slice())
}

/// Rejects an image by its first word that is not the one expected.
fn check_words(expected: &Image, image: &Image) -> Result<(), Rejection>
    ensures code { OnOk result (image.now.code.items ≡ expected.now.code.items) }
    ensures user_data { OnOk result (image.now.user_data.items ≡ expected.now.user_data.items) }
    ensures rejected { IfErr result (IsOtherImage expected.now image.now) }
{
    if let Some(found) = first_difference(expected.code.as_slice(), image.code.as_slice()) {
        return Err(Rejection::Code {
            index: found.index,
            expected: found.expected,
            found: found.found,
        });
    }
    match first_difference(expected.user_data.as_slice(), image.user_data.as_slice()) {
        Some(found) => Err(Rejection::Data {
            index: found.index,
            expected: found.expected,
            found: found.found,
        }),
        None => Ok(()),
    }
}

/// Rejects an image that is not the one expected.
fn compared(expected: &Image, image: &Image) -> Result<(), VerifyError>
    ensures verified { (text : List ℕ) (source : SourceValue) (all : List Site) (claims : Claims)
        → IsExpected text source claims all expected.now → OnOk result (IsVerified text source image.now claims) }
    ensures refused { (text : List ℕ) (source : SourceValue) (all : List Site) (claims : Claims)
        → IsExpected text source claims all expected.now → IfErr result (IsUnverified text source image.now claims) }
{
    match check_words(expected, image) {
        Ok(()) => Ok(()),
        Err(rejection) => Err(VerifyError::Rejected(rejection)),
    }
}

/// Verifies an image by a certificate for a source that is laid out by its plans.
fn verify_on(
    alloc: Global,
    digits: &[u8],
    source: &Source,
    layout: &Layout,
    image: &Image,
    certificate: &Certificate,
) -> Result<(), VerifyError>
    requires laid { IsLaidAt source.now board layout.now }
    requires ready { IsReady layout.now }
    requires proposals { length layout.now.proposals.items ≡ length layout.now.blocks.items }
    ensures registers { OnOk result (HaveRegisters source.now.statements) }
    ensures verified { (text : List ℕ) → IsGiven text digits.now source.now layout.now (claims_of certificate.now)
        → OnOk result (IsVerified text source.now image.now (claims_of certificate.now)) }
    ensures refused { (text : List ℕ) → IsGiven text digits.now source.now layout.now (claims_of certificate.now)
        → IfErr result (IsUnverified text source.now image.now (claims_of certificate.now)) }
{
    if let Err(error) = checked(digits, layout, certificate) {
        return Err(error);
    }
    match claimed_image(alloc, source, layout, certificate.heads.as_slice()) {
        Ok(expected) => compared(&expected, image),
        Err(_) => Err(VerifyError::Link(LinkError::Memory)),
    }
}

/// Verifies an image by a certificate for a source, given with its text, that is laid out by its plans.
fn verify_laid(
    alloc: Global,
    text: &[u8],
    source: &Source,
    layout: &Layout,
    image: &Image,
    certificate: &Certificate,
) -> Result<(), VerifyError>
    requires laid { IsLaidAt source.now board layout.now }
    requires ready { IsReady layout.now }
    requires proposals { length layout.now.proposals.items ≡ length layout.now.blocks.items }
    requires kept { AreKept (IsProposed source.now (claims_of certificate.now).plans) layout.now.rejected (sites_of layout.now) layout.now.proposals.items }
    ensures registers { OnOk result (HaveRegisters source.now.statements) }
    ensures verified { OnOk result (IsVerified text.now source.now image.now (claims_of certificate.now)) }
    ensures refused { IfErr result (IsUnverified text.now source.now image.now (claims_of certificate.now)) }
{
    match hash_digits(alloc, text) {
        Ok(digits) => verify_on(alloc, digits.as_bytes(), source, layout, image, certificate),
        Err(_) => Err(VerifyError::Link(LinkError::Memory)),
    }
}

/// Verifies that an image is a source, given with its text, linked as a certificate claims: at the board's place, its blocks in
/// source order, with the plans and the copies of the certificate.
///
/// # Errors
///
/// `Link` as `link` refuses the source; `Rejected` with the first rule, block and word that fail.
pub fn verify(
    alloc: Global,
    text: &[u8],
    source: &Source,
    image: &Image,
    certificate: &Certificate,
) -> Result<(), VerifyError>
    ensures source { IsSource source.now }
    ensures registers { OnOk result (HaveRegisters source.now.statements) }
    ensures verified { OnOk result (IsVerified text.now source.now image.now (claims_of certificate.now)) }
    ensures refused { IfErr result (IsUnverified text.now source.now image.now (claims_of certificate.now)) }
{
    match layout_of(alloc, source, certificate) {
        Ok(layout) => verify_laid(alloc, text, source, &layout, image, certificate),
        Err(error) => Err(VerifyError::Link(error)),
    }
}
