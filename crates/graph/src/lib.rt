// The published definitions and their laws; no code. Start at specs/Lib.antt. The functions do nothing: the contract of each names a main theorem.

#![tactic(auto)]

ghost use Rattle.graph.specs.Correct.{ReckonsRight};
ghost use Rattle.graph.specs.Updates.{UpdatesLawful};
ghost use Rattle.graph.specs.Movement.{OpeningMoves, LinkingMoves};
ghost use Rattle.graph.specs.Greatest.{GreatestFigures};

// A whole reckoning gives the diameter and the farthest pairs, and covers every depot that it did not search.
#[tactic(auto, using(crate::proofs::Theorems::reckoning_correct))]
pub fn right_reckonings()
    ensures { ReckonsRight }
{}

// Every opening and every link that is not refused keeps true figures true.
pub fn lawful_updates()
    ensures { UpdatesLawful }
{}

// How far an opening moves the diameter of a network without yards.
#[tactic(auto, using(crate::proofs::Movement::opening_moves))]
pub fn opening_movement()
    ensures { OpeningMoves }
{}

// And a link.
#[tactic(auto, using(crate::proofs::Movement::linking_moves))]
pub fn linking_movement()
    ensures { LinkingMoves }
{}

// The greatest figures: the chain of depots in a path, the pairs of depots all linked.
#[tactic(auto, using(crate::proofs::Greatest::greatest_figures))]
pub fn greatest_figures()
    ensures { GreatestFigures }
{}
