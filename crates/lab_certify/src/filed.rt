//! Verifying an image file by a certificate.
ghost use Rattle.std.specs.Prelude.{◌≡◌, ◌≢◌, true, false, OnOk, IfErr};
ghost use Rattle.std.specs.Option.{is_some};
ghost use Rattle.mx_source.specs.SourceValue.{IsSource};
ghost use Rattle.mx_link.specs.Parts.{HaveRegisters};
ghost use Rattle.lab_certify.specs.Texts.{claims_of};
ghost use Rattle.lab_certify.specs.Filed.{IsFileVerified, IsFileUnverified};

use crate::certificate::Certificate;
use crate::rejection::VerifyError;
use crate::verifying::verify;
use mx_image::ImageFile;
use mx_source::Source;
use std::alloc::Global;

/// Why an image file is not verified.
#[derive(Clone, Copy, Debug, PartialEq, Eq)]
pub enum FileError {
    /// Its image is not.
    Image(VerifyError),
    /// Its flag says that the source has an input, and it has none; or the other way round.
    Input,
}

/// Whether the flag of an image file says what the source does.
fn has_flag_of(source: &Source, file: &ImageFile) -> bool
    ensures same { result ≡ true → file.now.input ≡ is_some source.now.input }
    ensures other { result ≡ false → file.now.input ≢ is_some source.now.input }
{
    let asks = source.input().is_some();
    file.input == asks
}

/// Verifies that an image file is a source, given with its text, linked as a certificate claims (`verify`), and that its flag says
/// whether the source has an input. Its link map is not looked at: a run does not depend on it.
///
/// # Errors
///
/// `Image` as `verify` refuses its image; `Input` where only the flag differs.
pub fn verify_file(
    alloc: Global,
    text: &[u8],
    source: &Source,
    file: &ImageFile,
    certificate: &Certificate,
) -> Result<(), FileError>
    ensures source { IsSource source.now }
    ensures registers { OnOk result (HaveRegisters source.now.statements) }
    ensures verified { OnOk result (IsFileVerified text.now source.now file.now (claims_of certificate.now)) }
    ensures refused { IfErr result (IsFileUnverified text.now source.now file.now (claims_of certificate.now)) }
{
    if let Err(error) = verify(alloc, text, source, &file.image, certificate) {
        return Err(FileError::Image(error));
    }
    if !has_flag_of(source, file) {
        return Err(FileError::Input);
    }
    Ok(())
}
