//! Laws of blocks.
ghost use Rattle.mx_blocks.specs.Splitting.{BlocksExist, BlocksUnique, LeadersBegin};

/// A statement is a leader exactly where it is the first, has a label, stands behind a transfer or a halt, or the 64th statement
/// before it is a leader and none lies between.
pub fn leaders_begin()
    ensures { LeadersBegin }
{}

/// Each source has blocks, and has them in one way.
pub fn blocks_exist()
    ensures exist { BlocksExist }
    ensures unique { BlocksUnique }
{}
