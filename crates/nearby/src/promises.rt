// The main theorems on the calls, each named by a contract: functions that do nothing.

ghost use Rattle.map.specs.Memory.{base};
ghost use Rattle.nearby.specs.WithinCall.{within_call};
ghost use Rattle.nearby.specs.NearestCall.{nearest_call};
ghost use Rattle.nearby.specs.Refusals.{WithinRefuses, NearestRefuses};
ghost use Rattle.nearby.specs.Correct.{WithinCorrect, NearestCorrect};

// Which refusal answers `within`, and that it changes nothing.
#[tactic(auto, using(crate::proofs::Theorems::within_refusals, map::proofs::Theorems::base_shape))]
pub fn within_refusals()
    ensures { WithinRefuses base (within_call base) }
{}

// Which codes `within` lists, by walks.
#[tactic(auto, using(crate::proofs::Theorems::within_correct, map::proofs::Theorems::base_shape))]
pub fn within_listed()
    ensures { WithinCorrect base }
{}

// Which refusal answers `nearest`, and that it changes nothing.
#[tactic(auto, using(crate::proofs::Theorems::nearest_refusals, map::proofs::Theorems::base_shape))]
pub fn nearest_refusals()
    ensures { NearestRefuses base (nearest_call base) }
{}

// Which depot `nearest` finds, by walks.
#[tactic(auto, using(crate::proofs::Theorems::nearest_correct, map::proofs::Theorems::base_shape))]
pub fn nearest_found()
    ensures { NearestCorrect base }
{}
