// The main theorems on a batch of openings, each named by a contract: functions that do nothing.

ghost use Rattle.map.specs.Memory.{base};
ghost use Rattle.batch_update.specs.BatchCall.{batch_call};
ghost use Rattle.batch_update.specs.Refusals.{BatchRefuses};
ghost use Rattle.batch_update.specs.Correct.{BatchCorrect};
ghost use Rattle.batch_update.specs.Largest.{BatchLargest};
ghost use Rattle.batch_update.specs.Marks.{BatchMarks};

// Which refusal answers, and that it changes nothing.
#[tactic(auto, using(crate::proofs::Refusals::batch_refusals, map::proofs::Theorems::base_shape))]
pub fn refusals()
    ensures { BatchRefuses base (batch_call base) }
{}

// True figures stay true.
#[tactic(auto, using(crate::proofs::Theorems::batch_correct_base))]
pub fn figures()
    ensures { BatchCorrect base (batch_call base) }
{}

// The codes open are the most that any order of the lines opens.
pub fn largest()
    ensures { BatchLargest base (batch_call base) }
{}

// Marks, searches and cover are those of the last accepted opening.
#[tactic(auto, using(crate::proofs::Marks::batch_marks, map::proofs::Theorems::base_shape))]
pub fn marks()
    ensures { BatchMarks base (batch_call base) }
{}
