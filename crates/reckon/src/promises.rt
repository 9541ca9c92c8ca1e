// The main theorems on the call, each named by a contract: functions that do nothing.

ghost use Rattle.map.specs.Memory.{base};
ghost use Rattle.reckon.specs.ReckonCall.{reckon_call};
ghost use Rattle.reckon.specs.Refusals.{ReckonRefuses};
ghost use Rattle.reckon.specs.Correct.{ReckonCorrect};

// Which refusal answers, and that it changes nothing.
#[tactic(auto, using(crate::proofs::Theorems::reckon_refusals, map::proofs::Theorems::base_shape))]
pub fn refusals()
    ensures { ReckonRefuses base (reckon_call base) }
{}

// The figures are true, and every other depot is covered.
#[tactic(auto, using(crate::proofs::Theorems::reckon_correct_base))]
pub fn figures()
    ensures { ReckonCorrect base (reckon_call base) }
{}
