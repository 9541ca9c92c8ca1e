// The lines of a batch of openings: how many there are, whether all read, which is the first that can be accepted, and the numbers of those left
// over. Nothing of a map is lent but its open set. A row's width comes beside it, as crate `rows` says.

#![tactic(auto)]

ghost use Rattle.std.specs.Prelude.{[], ◌≡◌, true, cond, not, ◌&&◌, ◌≤◌, ◌<◌, length, IfOk};
ghost use Rattle.lists.specs.Lists.{allb, first_of};
ghost use Rattle.graph.specs.Distance.{vertices};
ghost use Rattle.graph.specs.Batch.{accepts, first_fit};
ghost use Rattle.words.specs.Bits.{bit};
ghost use Rattle.map.specs.Memory.{base, network_of};
ghost use Rattle.notice.specs.Lines.{lines_of, read_line};
ghost use Rattle.notice.specs.Calls.{frame_limit};
ghost use Rattle.outcome.specs.Refusals.{refused_by};
ghost use Rattle.batch.specs.Lines.{batch_limit, is_opening, entries_of, batch_faults};
ghost use Rattle.batch.specs.Steps.{opening_length, waiting_of, notice_at, fit_of, FitsFrame, leavings, put_number, left_numbers, left_over};

use outcome::Refusal;

// the most lines of a batch; in specifications `batch_limit`
pub const LIMIT: usize = 64;

// What a scan of the lines finds: the number of the first that can be accepted, and the length of its frame.
#[derive(Clone, Copy)]
pub struct Fit {
    pub number: u8,
    pub length: usize,
}

// ---- what refuses a batch

// Whether a byte begins a line, as a number: it does unless it stands inside one.
fn begun_here(inside: bool) -> usize
    ensures { result ≡ cond inside 0 1 }
{
    usize::from(!inside)
}

// How many lines the input has. What is left behind the last 0A is a line too.
#[tactic(auto, using(crate::proofs::Counting::counted))]
pub fn count_lines(lines: &[u8]) -> usize
    ensures { result ≡ length (lines_of lines.now) }
{
    let mut count: usize = 0;
    let mut inside = false;
    for byte in lines {
        count += begun_here(inside);
        inside = *byte != 10;
    }
    count
}

// How many bytes the line has that the text begins with, if it reads as a frame that opens something.
#[tactic(auto, using(crate::proofs::Lines::opening_laws), unfolding(crate::specs::Steps::opening_length))]
fn opening_length(text: &[u8]) -> Option<usize>
    ensures { result ≡ opening_length (read_line text.now) }
{
    let mut frame = [0u8; notice::FRAME_LIMIT];
    let Ok(got) = notice::read_notice(&mut frame, text) else {
        return None;
    };
    notice::opens_depot(frame[0]).then_some(got.used)
}

// Whether every line reads as a frame that opens something.
#[tactic(auto, using(crate::proofs::Lines::reads))]
fn all_open(lines: &[u8]) -> bool
    ensures { result ≡ allb is_opening (lines_of lines.now) }
{
    // The place goes from line to line, each as long as it reads, so that no range counts it.
    let mut at: usize = 0;
    while at < lines.len() {
        let Some(used) = opening_length(&lines[at..]) else {
            return false;
        };
        at += used;
    }
    true
}

// ---- the scan

// Whether the line of a number is not taken, and the notice of its frame can be accepted.
#[tactic(auto, using(crate::proofs::Scans::fits_taken, crate::proofs::Scans::fits_by))]
fn fits(members: &[u64], frame: &[u8], words: usize, taken: u64, number: u8) -> bool
    requires { (base.words ≤ words) × (words < 513) × (words ≤ length members.now) × (number < batch_limit) × (3 ≤ length frame.now) }
    ensures { let G = network_of words members.now [] in
        result ≡ (not (bit taken number) && accepts G (notice_at frame.now (length frame.now))) }
{
    if words::test(taken, number as usize) {
        return false;
    }
    let code = frame[1];
    admission::notice_refusal(members, words, code, &frame[3..]).is_ok()
}

// The lines of a batch that nothing refuses: each opens something, and they are counted.
#[derive(Clone, Copy)]
pub struct Openings<'a> {
    pub lines: &'a [u8],
    pub count: usize,
    pub ghost counted: { count ≡ length (lines_of lines.now) },
    pub ghost few: { count ≤ batch_limit },
    pub ghost opening: { allb is_opening (lines_of lines.now) ≡ true },
}

impl<'a> Openings<'a> {
    // The lines, or the first of the refusals 11, 12 and 9 that holds.
    #[tactic(auto, using(crate::proofs::Refusals::refused_lines))]
    pub fn judged(members: &[u64], words: usize, lines: &'a [u8]) -> Result<Openings<'a>, Refusal>
        requires { words ≤ length members.now }
        ensures refused { refused_by result ≡ first_of (batch_faults (length (vertices (network_of words members.now []))) lines.now) }
        ensures same { IfOk result (λ o. o.lines.now ≡ lines.now) }
    {
        let count = count_lines(lines);
        if LIMIT < count {
            return Err(Refusal::Overfull);
        }
        if rows::is_empty(members, words) {
            return Err(Refusal::Bare);
        }
        if !all_open(lines) {
            return Err(Refusal::Garbled);
        }
        Ok(Openings { lines, count })
    }

    // The first line, in their order, that is not taken and can be accepted with these depots open. Its notice is left in the frame. Only the open
    // set is asked, so that no table is lent.
    #[tactic(auto, using(crate::proofs::Scans::scans))]
    pub fn first_fit(
        self,
        members: &[u64],
        frame: &mut [u8],
        words: usize,
        taken: u64,
    ) -> Option<Fit>
        requires { (base.words ≤ words) × (words < 513) × (words ≤ length members.now) × (frame_limit ≤ length frame.old) }
        ensures { let waiting = waiting_of taken (entries_of self.entry.lines.now) in
            (fit_of result frame.new ≡ first_fit (network_of words members.now []) waiting)
            × FitsFrame result (length frame.new) }
    {
        // The place goes from line to line, each as long as it reads, so that no range counts it; the number goes with it.
        let mut at: usize = 0;
        let mut number: u8 = 0;
        while at < self.lines.len() {
            let Ok(got) = notice::read_notice(frame, &self.lines[at..]) else {
                return None;
            };
            if fits(members, &frame[..got.length], words, taken, number) {
                return Some(Fit {
                    number,
                    length: got.length,
                });
            }
            at += got.used;
            number += 1;
        }
        None
    }
}

// ---- those left over

// Writes a number behind n others unless it is taken, and answers how many they are then. A struct of the places, which are the caller's, and n
// would be made for this one call and taken apart behind it.
#[tactic(auto, unfolding(crate::specs::Steps::put_number))]
fn put_number(left: &mut [u8], taken: u64, number: u8, n: u8) -> u8
    requires { (number < batch_limit) × (n < batch_limit) × (batch_limit ≤ length left.old) }
    ensures { leavings result left.new ≡ put_number taken number n left.old }
{
    if words::test(taken, number as usize) {
        return n;
    }
    left[n as usize] = number;
    n + 1
}

// Writes the numbers of the lines that are not taken, in order, and answers how many they are. What stands behind them stays.
pub fn put_left(left: &mut [u8], taken: u64, count: usize) -> u8
    requires { (count ≤ batch_limit) × (batch_limit ≤ length left.old) }
    ensures { leavings result left.new ≡ left_over (left_numbers taken count) left.old }
{
    let mut n: u8 = 0;
    for number in 0..count as u8 {
        n = put_number(left, taken, number, n);
    }
    n
}
