//! A law of verdicts on images.
ghost use Rattle.lab_certify.specs.Laws.{VerifiedIsNotRejected};

/// No image is both verified and rejected, so `verify` accepts an image exactly where it is the source, linked as claimed.
pub fn verified_is_not_rejected()
    ensures { VerifiedIsNotRejected }
{}
