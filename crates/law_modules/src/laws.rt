//! Laws over the definitions.
ghost use Rattle.law_modules.specs.JoinedTexts.{JoinedReadsBack, SameMeaning};

/// The canonical text of the source that texts join as, where its labels have short names, has no fault, and reads as the same
/// program but for lines. The same program means the same: at any place, with any input, after any number of steps.
pub fn joined_reads_back()
    ensures reads_back { JoinedReadsBack }
    ensures means { SameMeaning }
{}
