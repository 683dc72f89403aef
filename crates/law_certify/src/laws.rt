//! A law of verified images.
ghost use Rattle.law_certify.specs.Laws.{VerifiedImageMeansItsSource};

/// Each run of an image that `verify` accepts is that of the source, linked by the plans and with the copies of the certificate,
/// and does what the source means: whatever interrupts come, whatever its input is, and whoever made the image.
pub fn verified_image_means_its_source()
    ensures { VerifiedImageMeansItsSource }
{}
