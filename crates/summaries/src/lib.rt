// The lines of a run over notice files: one for the network report of each, and a last one that totals them.

#![tactic(auto)]

ghost use Rattle.std.specs.Prelude.{◌≡◌, ◌+◌, ◌-◌, ◌≤◌, ◌<◌, min, length, Ok, Err};
ghost use Rattle.decimal.specs.Placed.{Placed};
ghost use Rattle.summaries.specs.Run.{room, files_limit, summing_text, with_file, total_of};
ghost use Rattle.summaries.specs.Calls.{IsOfFile, AreOfFiles, file_call, total_call};

use summary::Summary;

// the bytes that a line is lent; in specifications `room`
pub const ROOM: usize = 84;

// the most files of a run; in specifications `files_limit`
pub const FILES_LIMIT: u32 = 1000;

// The sums and the pairs of the files so far, added up, and how many files these are. That they are of so many files is no ghost field: the last line takes
// any totals.
#[derive(Clone, Copy)]
pub struct Totals {
    pub sum: u64,
    pub pairs: u64,
    pub files: u32,
}

// What a file's line leaves: the place behind it, and the totals with the file.
#[derive(Clone, Copy)]
pub struct FilePut {
    pub at: usize,
    pub totals: Totals,
}

// How many files are read: the arguments behind the program's name, which is the first, as far as a run goes.
pub fn files_read(arguments: usize) -> u32
    ensures { result ≡ min (arguments - 1) files_limit }
{
    arguments.saturating_sub(1).min(FILES_LIMIT as usize) as u32
}

// ---- a line: each function asks as much room as it writes, from its place on

// Puts the four numbers of a report and the line's end at a place.
#[tactic(auto, using(crate::proofs::Lines::widths))]
fn put_numbers(out: &mut [u8], at: usize, numbers: Summary) -> usize
    requires { at + room ≤ length out.old }
    ensures { Placed (summing_text (Ok numbers)) at out.old result out.new }
{
    let a = decimal::put_number(out, at, numbers.sum);
    let b = decimal::put_field(out, a, numbers.pairs);
    let c = decimal::put_field(out, b, numbers.quotient);
    let d = decimal::put_field(out, c, numbers.remainder);
    out[d] = 10;
    d + 1
}

// Puts R, a refusal's number and the line's end at a place.
#[tactic(auto, using(crate::proofs::Lines::widths))]
fn put_refusal(out: &mut [u8], at: usize, n: u8) -> usize
    requires { at + room ≤ length out.old }
    ensures { Placed (summing_text (Err n)) at out.old result out.new }
{
    out[at] = b'R';
    let end = decimal::put_number(out, at + 1, n as u64);
    out[end] = 10;
    end + 1
}

// Puts the line of an answer at a place.
fn put_answer(out: &mut [u8], at: usize, answer: Result<Summary, u8>) -> usize
    requires { at + room ≤ length out.old }
    ensures { Placed (summing_text answer) at out.old result out.new }
{
    match answer {
        Ok(numbers) => put_numbers(out, at, numbers),
        Err(n) => put_refusal(out, at, n),
    }
}

// ---- the totals

// The totals with one file more. A refused map adds nothing.
#[tactic(auto, unfolding(crate::specs::Run::with_file, crate::specs::Calls::IsOfFile))]
fn with_file(totals: Totals, answer: Result<Summary, u8>) -> Totals
    requires { AreOfFiles totals × IsOfFile answer × (totals.files < files_limit) }
    ensures { result ≡ with_file answer totals }
{
    match answer {
        Ok(numbers) => Totals {
            sum: totals.sum + numbers.sum,
            pairs: totals.pairs + numbers.pairs,
            files: totals.files + 1,
        },
        Err(_) => Totals {
            sum: totals.sum,
            pairs: totals.pairs,
            files: totals.files + 1,
        },
    }
}

// The totals as the numbers of a report: the mean of all pairs, 0 and 0 where there are none.
#[tactic(auto, unfolding(crate::specs::Run::total_of))]
fn total_of(totals: Totals) -> Summary
    ensures { result ≡ total_of totals }
{
    if totals.pairs == 0 {
        return Summary {
            sum: totals.sum,
            pairs: 0,
            quotient: 0,
            remainder: 0,
        };
    }
    Summary {
        sum: totals.sum,
        pairs: totals.pairs,
        quotient: totals.sum / totals.pairs,
        remainder: totals.sum % totals.pairs,
    }
}

// ---- the lines of a run

// Writes the line of a file's answer behind what is written, and adds the file to the totals. The answer is a report, or any number of eight bits, not one
// of a `Refusal` alone: a line shows any.
#[tactic(auto, using(crate::proofs::Lines::pasted_text), unfolding(crate::specs::Calls::file_call))]
pub fn put_file(out: &mut [u8], at: usize, totals: Totals, answer: Result<Summary, u8>) -> FilePut
    requires { (at + room ≤ length out.old) × AreOfFiles totals × IsOfFile answer × (totals.files < files_limit) }
    ensures { (result.at, result.totals, out.new) ≡ file_call totals answer at out.old }
{
    let next = with_file(totals, answer);
    let end = put_answer(out, at, answer);
    FilePut {
        at: end,
        totals: next,
    }
}

// Writes the last line behind what is written, and answers the place behind it.
#[tactic(auto, using(crate::proofs::Lines::pasted_text), unfolding(crate::specs::Calls::total_call, crate::specs::Run::total_line))]
pub fn put_total(out: &mut [u8], at: usize, totals: Totals) -> usize
    requires { at + room ≤ length out.old }
    ensures { (result, out.new) ≡ total_call totals at out.old }
{
    put_numbers(out, at, total_of(totals))
}
