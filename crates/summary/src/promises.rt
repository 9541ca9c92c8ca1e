// The main theorems on the call, each named by a contract: functions that do nothing.

ghost use Rattle.map.specs.Memory.{base};
ghost use Rattle.summary.specs.SummaryCall.{summary_call};
ghost use Rattle.summary.specs.Refusals.{SummaryRefuses};
ghost use Rattle.summary.specs.Correct.{SummaryCorrect};

// Which refusal answers, and that it changes nothing.
#[tactic(auto, using(crate::proofs::Theorems::summary_refusals, map::proofs::Theorems::base_shape))]
pub fn refusals()
    ensures { SummaryRefuses base (summary_call base) }
{}

// What the report says, by the published distances.
#[tactic(auto, using(crate::proofs::Theorems::summary_correct, map::proofs::Theorems::base_shape))]
pub fn figures()
    ensures { SummaryCorrect base }
{}
