// The main theorems on an opening or a link, each named by a contract: functions that do nothing.

ghost use Rattle.map.specs.Memory.{base};
ghost use Rattle.update.specs.UpdateCall.{update_call};
ghost use Rattle.update.specs.Refusals.{UpdateRefuses};
ghost use Rattle.update.specs.Correct.{UpdateCorrect};
ghost use Rattle.update.specs.Tables.{LeavesTables};
ghost use Rattle.update.specs.Movement.{MapMoves, CallMoves};

// Which refusal answers, and that it changes nothing.
#[tactic(auto, using(crate::proofs::Refusals::update_refusals, map::proofs::Theorems::base_shape))]
pub fn refusals()
    ensures { UpdateRefuses base (update_call base) }
{}

// True figures stay true, and every other depot is covered after a shrink.
#[tactic(auto, using(crate::proofs::Theorems::update_correct_base))]
pub fn figures()
    ensures { UpdateCorrect base (update_call base) }
{}

// What every lent table holds.
#[tactic(auto, using(crate::proofs::Tables::update_tables, map::proofs::Theorems::base_shape))]
pub fn tables()
    ensures { LeavesTables base (update_call base) }
{}

// How far one update moves the diameter of a map without yards.
#[tactic(auto, using(crate::proofs::Movement::map_moves_base))]
pub fn map_moves()
    ensures { MapMoves base }
{}

// And the chain in its record.
#[tactic(auto, using(crate::proofs::Movement::call_moves_base))]
pub fn chain_moves()
    ensures { CallMoves base (update_call base) }
{}
