//! Laws over the definitions: a source that is laid out with valid plans and branches in reach, with any copies in its
//! slots that no rule forbids, at any place and with any input.
ghost use Rattle.law_link.specs.Laws.{AsWantedIsLawful, AsChosenIsLawful, LinkedCodeIsClean, LinkedCodeHalts, LinkedCodeHaltsOnly, LinkedCodeSends, LinkedBlocksStart, LaterBlocksStartLater, FetchesStartBlocks};
ghost use Rattle.law_link.specs.Results.{ResultsAreLinked};

use mx_validate::Proposer;

/// What `link` or `link_plain` gives is linked code of its source, whatever was proposed: its image has the words and the data
/// of a layout, its links are the link map, and each word spells the instruction that stands there. So each law below holds of it.
pub fn results_are_linked<P: Proposer>()
    ensures { ResultsAreLinked P.proposes }
{}

/// Whatever counts are wanted of a linker, its copies are lawful: where a rule forbids so many, there are none. So each law below
/// holds of its code.
pub fn as_wanted_is_lawful()
    ensures { AsWantedIsLawful }
{}

/// So are they whatever is chosen.
pub fn as_chosen_is_lawful()
    ensures { AsChosenIsLawful }
{}

/// Where the meaning is not stuck within j + 64 statements, the first j steps of linked code are clean, and
/// what they send is a prefix of what those statements send.
pub fn linked_code_is_clean()
    ensures { LinkedCodeIsClean }
{}

/// Where the meaning halts in n statements, linked code has halted after at most 3n steps, with the same console,
/// registers, MD, data and count of input bytes.
pub fn linked_code_halts()
    ensures { LinkedCodeHalts }
{}

/// Where linked code has halted after j steps and the meaning is not stuck within j + 64 statements, the meaning halts
/// in at most j, with the same console, registers, MD, data and count of input bytes.
pub fn linked_code_halts_only()
    ensures { LinkedCodeHaltsOnly }
{}

/// Where the meaning is not stuck within m + 64 statements, what its first m statements send is a prefix of what
/// linked code sends in 3 (m + 64) steps.
pub fn linked_code_sends()
    ensures { LinkedCodeSends }
{}

/// Without copies: where the meaning goes on at a leader after m statements, linked code has come to that leader's
/// address after the words of the plans of the blocks that began before, from m to 3m steps, with the same console,
/// registers, MD, data and count of input bytes.
pub fn linked_blocks_start()
    ensures { LinkedBlocksStart }
{}

/// Of two such numbers of statements the greater has the greater number of steps.
pub fn later_blocks_start_later()
    ensures { LaterBlocksStartLater }
{}

/// Without copies: where linked code is at a leader's address after d steps, it has come there so.
pub fn fetches_start_blocks()
    ensures { FetchesStartBlocks }
{}
