// The table of worked cases (rule 11.6), on lent memory. Start at specs/Lib.antt. The functions do nothing: the contract of each names a theorem.

#![tactic(auto)]

ghost use Rattle.map.specs.Memory.{base};
ghost use Rattle.map.specs.Empty.{empty_call};
ghost use Rattle.reckon.specs.ReckonCall.{reckon_call};
ghost use Rattle.update.specs.UpdateCall.{update_call};
ghost use Rattle.cases.specs.Table.{Cases};
ghost use Rattle.cases.specs.Rules.{RuleCases};

// The published table: empty map, single map, path of seven, and the seven stream lines.
#[tactic(auto, using(crate::proofs::Theorems::cases_hold))]
pub fn published_cases()
    ensures { Cases (empty_call base) (reckon_call base) (update_call base) }
{}

// A shrink that shows its first reference and its candidate.
#[tactic(auto, using(crate::proofs::Rules::rule_cases_hold))]
pub fn rule_cases()
    ensures { RuleCases (update_call base) }
{}
