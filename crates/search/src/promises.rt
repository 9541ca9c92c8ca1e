// The main theorems on the call, each named by a contract: functions that do nothing.

ghost use Rattle.map.specs.Memory.{base};
ghost use Rattle.search.specs.SearchCall.{search_call};
ghost use Rattle.search.specs.Refusals.{SearchRefuses};
ghost use Rattle.search.specs.Correct.{SearchCorrect};

// Which refusal answers, and that it changes nothing.
#[tactic(auto, using(crate::proofs::Theorems::search_refusals, map::proofs::Theorems::base_shape))]
pub fn refusals()
    ensures { SearchRefuses base (search_call base) }
{}

// What an accepted search leaves, by walks.
#[tactic(auto, using(crate::proofs::Theorems::search_correct, map::proofs::Theorems::base_shape))]
pub fn figures()
    ensures { SearchCorrect base }
{}
