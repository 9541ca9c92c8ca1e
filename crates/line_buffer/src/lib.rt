// The lines of a stream on their way through memory: the line buffer, the answer behind what is written, and where a step stops.

#![tactic(auto)]

ghost use Rattle.std.specs.Prelude.{◌≡◌, List, ℕ, ◌+◌, ◌*◌, ◌≤◌, ◌<◌, length, take, drop, true, Some, IfSome, option_copied};
ghost use Rattle.lists.specs.Lists.{overwrite};
ghost use Rattle.notice.specs.Lines.{line_limit, read_line};
ghost use Rattle.notice.specs.Calls.{frame_limit, line_found};
ghost use Rattle.report.specs.Line.{buffer_limit, report_line};
ghost use Rattle.transcript.specs.Manner.{Manner, as_reports};
ghost use Rattle.line_buffer.specs.Lines.{StandsWhole, holding, part_left, part_from, report_of, pasted, is_stopped};

use report::{KeptTexts, ReportFields};
use update::Returned;

// What the line buffer took of a piece: the place behind it, the bytes held then, and whether the line ended.
// Place and count hold either way, so that an Option would be no plainer.
#[derive(Clone, Copy)]
pub struct Gathered {
    pub at: usize,
    pub held: usize,
    pub ended: bool,
}

// What was taken of a piece, and, where that ended a line, how many bytes of the frame buffer are the frame that the line spells, if it spells one.
#[derive(Clone, Copy)]
pub struct Taken {
    pub part: Gathered,
    pub frame: Option<usize>,
}

// ---- the line buffer

// Takes the bytes of a piece up to the end of a line, or all that are left of it, and reads the line that ends. One that stands whole in the piece, as most
// do, is read where it stands, and taken over without a look at each byte.
#[tactic(auto, using(crate::proofs::Whole::stands_behind, crate::proofs::Holding::part_most))]
pub fn take_part(line: &mut [u8], frame: &mut [u8], piece: &[u8], from: usize, held: usize) -> Taken
    requires { (line_limit ≤ length line.old)
        × (frame_limit ≤ length frame.old)
        × (held ≤ line_limit)
        × (from ≤ length piece.now) }
    ensures part { part_left result.part line.new ≡ part_from from (holding line.old held) (drop from piece.now) }
    ensures read { result.part.ended ≡ true → line_found result.frame frame.new ≡ read_line (take result.part.held line.new) }
    ensures long { IfSome result.frame (λ n. (3 ≤ n) × (n ≤ length frame.new)) }
{
    if held == 0
        && let Some(n) = notice::read_frame(&mut *frame, &piece[from..])
    {
        let part = take_whole(line, piece, from, n);
        return Taken {
            part,
            frame: Some(n),
        };
    }
    let part = hold_part(line, piece, from, held);
    if !part.ended {
        return Taken { part, frame: None };
    }
    let read = notice::read_frame(frame, &line[..part.held]);
    Taken { part, frame: read }
}

// Takes a line that stands whole at a place of a piece and spells a frame of n bytes.
#[tactic(auto, using(crate::proofs::Whole::whole, notice::proofs::Readings::behind))]
fn take_whole(line: &mut [u8], piece: &[u8], from: usize, n: usize) -> Gathered
    requires room { (line_limit ≤ length line.old) × (from ≤ length piece.now) }
    requires whole { StandsWhole n (drop from piece.now) }
    ensures part { part_left result line.new ≡ part_from from (holding line.old 0) (drop from piece.now) }
    ensures ended { (result.ended ≡ true) × (result.held ≡ 2 * n + 1) }
    ensures read { read_line (take result.held line.new) ≡ read_line (drop from piece.now) }
{
    let end = 2 * n + 1;
    copy_first(line, &piece[from..], end);
    Gathered {
        at: from + end,
        held: end,
        ended: true,
    }
}

// Copies the first bytes of a text to the start of the buffer.
#[tactic(auto, using(crate::proofs::Whole::copied_over))]
fn copy_first(line: &mut [u8], text: &[u8], count: usize)
    requires { (count ≤ length line.old) × (count ≤ length text.now) }
    ensures { line.new ≡ overwrite (take count text.now) line.old }
{
    copy_text(&mut line[..count], &text[..count]);
}

// Copies a text. Its length is no constant, so that std's copy would be a call of the C library,
// which the archive for C is not to need more of: short texts go as words, long ones byte by byte,
// which the compiler does many at a time.
fn copy_text(to: &mut [u8], text: &[u8])
    requires { length to.old ≡ length text.now }
    ensures { to.new ≡ text.now }
{
    match text.len() {
        4..=8 => copy_ends(to, text, 4),
        9..=16 => copy_ends(to, text, 8),
        17..=32 => copy_ends(to, text, 16),
        _ => copy_bytes(to, text),
    }
}

// Copies a text of k to twice k bytes: k at its start and k at its end, which are all of it. Each is
// a word or two where k is a constant.
#[inline]
fn copy_ends(to: &mut [u8], text: &[u8], k: usize)
    requires { (length to.old ≡ length text.now) × (k ≤ length text.now) × (length text.now ≤ k + k) }
    ensures { to.new ≡ text.now }
{
    let end = text.len() - k;
    to[..k].copy_from_slice(&text[..k]);
    to[end..].copy_from_slice(&text[end..]);
}

// Copies a text byte by byte.
#[tactic(auto, using(lists::proofs::Copies::copied_none))]
fn copy_bytes(to: &mut [u8], text: &[u8])
    requires { length to.old ≡ length text.now }
    ensures { to.new ≡ text.now }
{
    for i in 0..text.len() {
        to[i] = text[i];
    }
}

// Takes the bytes of a piece up to the end of a line, or all that are left of it. A line's first bytes, as many as the longest has, decide how it reads, so
// that no more are kept: the loop ends where the buffer takes no more, so that no byte need be asked. A struct of the buffer and the bytes held was tried:
// its loop has to be a method, as the end of a loop over a local one leaves unsaid what the buffer holds, and then `follow` takes 0.57 % more instructions
// on a million lines.
#[tactic(auto, using(crate::proofs::Holding::part_here, crate::proofs::Holding::part_on))]
fn hold_part(line: &mut [u8], piece: &[u8], from: usize, held: usize) -> Gathered
    requires { line_limit ≤ length line.old }
    ensures { part_left result line.new ≡ part_from from (holding line.old held) (drop from piece.now) }
{
    let free = notice::LINE_LIMIT.saturating_sub(held);
    let end = from.saturating_add(free).min(piece.len());
    let mut count = held;
    for at in from..end {
        let b = piece[at];
        line[count] = b;
        count += 1;
        if b == 10 {
            return Gathered {
                at: at + 1,
                held: count,
                ended: true,
            };
        }
    }
    skip_part(piece, from.max(end), count)
}

// Passes over the bytes of a piece up to the end of a line, or all that are left of it, where none of them is kept.
fn skip_part(piece: &[u8], from: usize, held: usize) -> Gathered
    requires { from < length piece.now → line_limit ≤ held }
    ensures { (line : List ℕ) → part_left result line ≡ part_from from (holding line held) (drop from piece.now) }
{
    for at in from..piece.len() {
        if piece[at] == 10 {
            return Gathered {
                at: at + 1,
                held,
                ended: true,
            };
        }
    }
    Gathered {
        at: from.max(piece.len()),
        held,
        ended: false,
    }
}

// ---- the answer

// How a stream tells the answers of its lines.
pub trait Tells {
    // the text of each answer, and the bytes that have to be free for it
    ghost manner: { Manner };

    // The bytes that have to be free for a text.
    fn room(&self) -> usize
        ensures { result ≡ manner.room };

    // Writes the text of a line's answer, by the frame that the line spells, if any, and its report, behind what is written; and answers the place behind it.
    fn put(&mut self, out: &mut [u8], at: usize, read: Option<&[u8]>, report: ReportFields) -> usize
        requires room { at + manner.room ≤ length out.old }
        requires read { IfSome read (λ f. 3 ≤ length f.now) }
        ensures { let told = manner.text (option_copied read.entry) report in
            (out.new ≡ pasted told at out.old)
            × (result ≡ at + length told)
            × (result ≤ length out.new) };
}

// Tells each answer as its report. What the next may have like the last one is kept.
#[derive(Clone, Copy)]
pub struct Reports {
    kept: KeptTexts,
}

impl Reports {
    // Those of a stream that begins anywhere.
    pub fn new() -> Self {
        Reports {
            kept: KeptTexts::new(),
        }
    }
}

impl Tells for Reports {
    ghost manner = { as_reports };

    fn room(&self) -> usize {
        report::BUFFER_LIMIT
    }

    fn put(&mut self, out: &mut [u8], at: usize, _: Option<&[u8]>, report: ReportFields) -> usize {
        put_report(&mut self.kept, out, at, report)
    }
}

// Writes a report behind what is written, into as many bytes as its line may want, and answers the place behind it.
#[tactic(auto, using(crate::proofs::Putting::part_laws))]
fn put_report(kept: &mut KeptTexts, out: &mut [u8], at: usize, report: ReportFields) -> usize
    requires { at + buffer_limit ≤ length out.old }
    ensures { let line = report_line report in
        (out.new ≡ pasted line at out.old)
        × (result ≡ at + length line)
        × (result ≤ length out.new) }
{
    at + put_line(kept, &mut out[at..at + report::BUFFER_LIMIT], report)
}

// Writes a report into the bytes that it is lent, and answers how long the part is that is handed back.
#[tactic(auto, using(crate::proofs::Putting::line_put))]
fn put_line(kept: &mut KeptTexts, lent: &mut [u8], report: ReportFields) -> usize
    requires { buffer_limit ≤ length lent.old }
    ensures over { lent.new ≡ overwrite (report_line report) lent.old }
    ensures long { result ≡ length (report_line report) }
{
    let written = report::report_line(kept, lent, report);
    written.part().len()
}

// The report of line `number`.
pub fn report_of(number: u32, got: Returned) -> ReportFields
    ensures { result ≡ report_of number got }
{
    let rec = got.after;
    let call = got.report;
    ReportFields {
        number,
        outcome: call.outcome,
        depots: rec.number,
        chain: rec.chain,
        pairs: rec.count,
        searches: call.searches,
    }
}

// ---- the stop

// Whether no further line may be begun: the text of its answer may not fit, or the stream has had its lines.
#[tactic(auto, unfolding(crate::specs::Lines::is_stopped))]
pub fn is_stopped<T: Tells>(tell: &T, lines: u32, written: usize, room: usize) -> bool
    ensures { result ≡ is_stopped T.manner.room lines written room }
{
    let needed = tell.room();
    if room < needed {
        return true;
    }
    if room - needed < written {
        return true;
    }
    1000000 <= lines
}
