//! Laws over the definitions.
ghost use Rattle.law_tasks.specs.Meant.{SharedProgramsMeanTheirSources};
ghost use Rattle.law_tasks.specs.Sources.{SharedSourcesMean, SharedTextsMean};

use mx_validate::Proposer;

/// Two linked programs without input, each at its place in one image, under the switching handler, whatever interrupts come: the
/// console of each is a prefix of its meaning's; where the run halted, the meaning of the program that is current then halts,
/// with that program's console; and each interrupt changes to the other program, in the state in which it was left.
pub fn shared_programs_mean_their_sources()
    ensures { SharedProgramsMeanTheirSources }
{}

/// The same of an image that `share` made with a proposer.
pub fn shared_sources_mean<P: Proposer>(_proposer: &P)
    ensures { SharedSourcesMean P.proposes }
{}

/// The same of two texts, laid out by greedy plans.
pub fn shared_texts_mean()
    ensures { SharedTextsMean }
{}
