// The main theorems on emptying a map, each named by a contract: functions that do nothing.

ghost use Rattle.map.specs.Memory.{base};
ghost use Rattle.map.specs.Empty.{empty_call, EmptyRefuses, LeavesEmpty};

// Which refusal answers, and that it changes nothing.
#[tactic(auto, using(crate::proofs::Theorems::empty_refusals))]
pub fn refusals()
    ensures { EmptyRefuses base (empty_call base) }
{}

// A map that was emptied has no open code, no link, no pair.
#[tactic(auto, using(crate::proofs::Theorems::emptied_is_empty))]
pub fn emptied()
    ensures { LeavesEmpty base (empty_call base) }
{}
