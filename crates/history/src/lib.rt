// Lists of calls on one map, and what holds of every list (specs/Lib.antt).

#![tactic(auto)]

ghost use Rattle.map.specs.Memory.{base};
ghost use Rattle.history.specs.History.{rules_program};
ghost use Rattle.history.specs.HistoriesAgree.{HistoriesAgree};
ghost use Rattle.history.specs.Movement.{Moves};

// Every list of calls from an empty map, as one claim (rules 9.4 to 9.7).
#[tactic(auto, using(crate::proofs::Theorems::histories_agree_base))]
pub fn histories()
    ensures { HistoriesAgree base (rules_program base) }
{}

// How far any calls move the chain of a map that has no yard yet (rule 11.8).
#[tactic(auto, using(crate::proofs::Movement::histories_move_base))]
pub fn movements()
    ensures { Moves base (rules_program base) }
{}
