//! Laws over the definitions: a source that is laid out with valid plans and branches in reach, with any copies in its
//! slots that no rule forbids, at any place and with any input.
ghost use Rattle.law_counts.specs.Laws.{LinkedCodeCounts, LinkedBlocksCount};

/// Where linked code has halted after j steps and the meaning is not stuck within j + 64 statements, the meaning halts in
/// at most j, and for each statement as many of those j steps execute one of its words, its own or a copy, as the meaning
/// was at it. What is squashed is not executed, and no-ops belong to no statement.
pub fn linked_code_counts()
    ensures { LinkedCodeCounts }
{}

/// Without copies: so it is after the words of the plans of the blocks before, wherever the meaning goes on at a leader.
pub fn linked_blocks_count()
    ensures { LinkedBlocksCount }
{}
