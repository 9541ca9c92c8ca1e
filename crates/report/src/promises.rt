// The main theorems on the call, each named by a contract: functions that do nothing.

ghost use Rattle.std.specs.Prelude.{◌≡◌};
ghost use Rattle.report.specs.declared.ReportFields.{ReportFields};
ghost use Rattle.report.specs.Line.{report_line, report_call, ReportRefuses};

// Which refusal answers the writer of report lines, and that it changes nothing.
#[tactic(auto, using(crate::proofs::Theorems::report_refusals))]
pub fn refusals()
    ensures { ReportRefuses report_call }
{}

// Different reports have different lines.
#[tactic(auto, using(crate::proofs::Theorems::line_injective))]
pub fn line_injective()
    ensures { (r s : ReportFields) → report_line r ≡ report_line s → r ≡ s }
{}
