// The report line: what the stream writes for each line that it read.

#![tactic(auto)]

pub mod promises;

ghost use Rattle.std.specs.Prelude.{◌≡◌, ◌+◌, ◌≤◌, length};
ghost use Rattle.std.specs.Result.{result_unwrap_or};
ghost use Rattle.outcome.specs.Answers.{answer_of, leaves};
ghost use Rattle.decimal.specs.Decimal.{field};
ghost use Rattle.decimal.specs.Placed.{Placed};
ghost use Rattle.report.specs.Line.{outcome_text, report_call};

mod kept;

pub use kept::KeptTexts;
use outcome::{Outcome, Refusal, Written};

// the bytes that a line is lent; in specifications `buffer_limit`
pub const BUFFER_LIMIT: usize = 48;

// What a line reports: its number, the outcome of its call, and the figures of the map after it.
#[derive(Clone, Copy)]
pub struct ReportFields {
    pub number: u32,
    pub outcome: Outcome,
    pub depots: u16,
    pub chain: u16,
    pub pairs: u32,
    pub searches: u16,
}

// Writes the line of a report at the start of the caller's buffer, and answers its length. What the line has like those before it is kept, and copied.
#[tactic(auto, using(crate::proofs::Lines::written))]
fn write_report_by(
    kept: &mut KeptTexts,
    line: &mut [u8],
    report: ReportFields,
) -> Result<usize, Refusal>
    ensures { leaves (answer_of result) line.new ≡ report_call report line.old }
{
    if line.len() < BUFFER_LIMIT {
        return Err(Refusal::Short);
    }
    let outcome = report.outcome;
    let a = kept.tens.put(line, 0, report.number);
    let b = put_outcome(line, a, outcome);
    let end = kept.figures.put(line, b, report);
    line[end] = 10;
    Ok(end + 1)
}

// The same for a single line, of which nothing is kept.
pub fn write_report(line: &mut [u8], report: ReportFields) -> Result<usize, Refusal>
    ensures { leaves (answer_of result) line.new ≡ report_call report line.old }
{
    write_report_by(&mut KeptTexts::new(), line, report)
}

// Writes the line of a report at the start of the caller's buffer, which is handed back and the part of
// it that was written: it is empty exactly where the buffer is too short.
#[tactic(auto, using(crate::proofs::Lines::handed))]
pub fn report_line<'a>(
    kept: &mut KeptTexts,
    line: &'a mut [u8],
    report: ReportFields,
) -> Written<'a>
    ensures same { result.lent.ghost_name ≡ line.entry.ghost_name }
    ensures length { result.length ≡ result_unwrap_or (report_call report line.old).answer 0 }
    ensures lent { result.lent.now ≡ (report_call report line.old).lent }
{
    let length = write_report_by(kept, &mut *line, report).unwrap_or(0);
    Written { lent: line, length }
}

// Puts a space and the outcome's letter, with the number of a refusal, at a place of the line: five
// bytes hold them.
#[tactic(auto, using(crate::proofs::Lines::outcome_put))]
fn put_outcome(line: &mut [u8], at: usize, outcome: Outcome) -> usize
    requires { at + 5 ≤ length line.old }
    ensures { Placed (field (outcome_text outcome)) at line.old result line.new × (result ≤ at + 5) }
{
    line[at] = b' ';
    line[at + 1] = outcome::letter(outcome);
    match outcome {
        Outcome::Accepted(_) => at + 2,
        Outcome::Refused(n) => decimal::put_number(line, at + 2, n as u64),
    }
}
