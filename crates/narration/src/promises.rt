// The main theorem on the narration, named by a contract: a function that does nothing.

ghost use Rattle.narration.specs.Answers.{TellAlike};

// Transcript and narration tell the same answers, and say the same of each.
#[tactic(auto, using(crate::proofs::Theorems::tells_alike))]
pub fn same_answers()
    ensures { TellAlike }
{}
