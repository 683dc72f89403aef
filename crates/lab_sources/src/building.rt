//! The reply of `build` with a plan file.
ghost use Rattle.std.specs.Prelude.{◌≡◌, ◌++◌, OnOk, IfOk, IfErr, length};
ghost use Rattle.mx_image.specs.Contents.{contents_of, LinksFit};
ghost use Rattle.mx_image.specs.Files.{file_bytes};
ghost use Rattle.mx_plans.specs.Files.{lines_said};
ghost use Rattle.cmd_answer.specs.Answer.{writes};
ghost use Rattle.cmd_answer.specs.Replies.{reply_answer};
ghost use Rattle.lab_sources.specs.Refusals.{IsTooFar};
ghost use Rattle.lab_sources.specs.Building.{contents_linked, IsBuilt, IsBuildOf};

use crate::plan_files::plans_of;
use crate::sources::{read_source, unlinked};
use cmd_answer::Reply;
use lab_failure::LabFailure;
use lab_options::BuildOptions;
use lab_plans::{LinkedTold, link_told};
use mx_image::{ImageFile, write_file};
use mx_io::Shelf;
use mx_link::Linked;
use mx_plans::PlanLine;
use mx_source::Source;
use std::alloc::Global;

// What an image file keeps of a linked source.
fn image_file(source: &Source, linked: Linked) -> ImageFile
    requires { LinksFit (length linked.image.code.items) linked.links.items }
    ensures contents { contents_of result ≡ contents_linked source.now linked }
    ensures fit { LinksFit (length result.image.code.items) result.links.items }
{
    let input = source.input().is_some();
    let Linked { image, links, .. } = linked;
    ImageFile {
        image,
        input,
        links,
    }
}

// The reply that writes the image file of a linked source, beside which the lines of the rejected plans are left in `notes`.
fn written<'w>(
    alloc: Global,
    source: &Source,
    told: LinkedTold,
    name: &str,
    notes: &mut Vec<u8>,
) -> Result<Reply, LabFailure<'w>>
    requires { LinksFit (length told.linked.image.code.items) told.linked.links.items }
    ensures reply { IfOk result (λ r. reply_answer r ≡ writes name.now (file_bytes (contents_linked source.now told.linked))) }
    ensures noted { OnOk result (notes.new.items ≡ notes.old.items ++ told.rejections.items) }
    ensures memory { IfErr result (λ failure. failure ≡ LabFailure.Memory) }
{
    let LinkedTold { linked, rejections } = told;
    notes.extend_from_slice(rejections.as_slice())?;
    let file = image_file(source, linked);
    let name = String::from_str(alloc, name)?;
    let bytes = write_file(alloc, &file)?;
    Ok(Reply::Writes { name, bytes })
}

// The reply that writes the image file of a source that is linked by the plans that the lines of a file say, beside which a line
// for each plan that is rejected is left in `notes`; or the reply to its first branch that does not reach its target.
fn built_reply<'w>(
    alloc: Global,
    options: &BuildOptions<'w>,
    source: &Source,
    lines: &[PlanLine],
    notes: &mut Vec<u8>,
) -> Result<Reply, LabFailure<'w>>
    ensures built { IfOk result (λ r. IsBuilt source.now (lines_said lines.now) options.now.image.now notes.old.items notes.new.items (reply_answer r)) }
    ensures refused { IfErr result (IsTooFar options.now.source.now source.now (lines_said lines.now)) }
{
    match link_told(alloc, source, lines) {
        Ok(told) => written(alloc, source, told, options.image, notes),
        Err(error) => Err(unlinked(options.source, error)),
    }
}

/// The reply to `build SOURCE IMAGE --plans FILE`: it writes the image file. A line for each plan that is rejected is left in
/// `notes`.
pub fn build_reply<'w, S: Shelf>(
    alloc: Global,
    options: &BuildOptions<'w>,
    shelf: &mut S,
    notes: &mut Vec<u8>,
) -> Result<Reply, LabFailure<'w>>
    ensures { IfOk result (λ r. IsBuildOf (S.told shelf.old) options.now (S.counts shelf.old) (S.counts shelf.new)
        notes.old.items notes.new.items (reply_answer r)) }
{
    let source = read_source(alloc, shelf, options.source)?;
    let lines = plans_of(alloc, shelf, &source, options.plans)?;
    let reply = built_reply(alloc, options, &source, lines.as_slice(), notes)?;
    Ok(reply)
}
