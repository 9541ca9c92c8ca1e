// The stream: notice lines in, their answers out, told as reports or in any other manner, the input in pieces of any size.

#![tactic(auto)]

pub mod promises;

ghost use Rattle.std.specs.Prelude.{◌≡◌, List, ℕ, take, ◌+◌, ◌≤◌, ◌<◌, length, IfSome, option_copied};
ghost use Rattle.map.specs.Memory.{base, table_words};
ghost use Rattle.map.specs.Slices.{lent_in, room_sizes, IsSameRoom};
ghost use Rattle.notice.specs.Lines.{read_line};
ghost use Rattle.notice.specs.Calls.{line_found};
ghost use Rattle.update.specs.UpdateCall.{left_of, update_call};
ghost use Rattle.update.specs.Steps.{map_refusal};
ghost use Rattle.transcript.specs.Transcript.{lines_limit, update_in, frame_in};
ghost use Rattle.stream.specs.Feeding.{begin_call, answer_to, IsReady, feeding, took_line, feed_call, finish_call};

use admission::Link;
use line_buffer::Tells;
use map::{Record, Room};
use opening::Notice;
use outcome::Refusal;
use step::Asked;
use update::{Report, Returned};

// How far a stream has come: the map's record, the lines answered, and the bytes that the line buffer holds of the next one.
#[derive(Clone, Copy)]
pub struct Progress {
    pub rec: Record,
    pub lines: u32,
    pub held: usize,
}

// What a call leaves beside the lent memory: the progress, the bytes of the piece used, and the bytes of answers written.
#[derive(Clone, Copy)]
pub struct Fed {
    pub progress: Progress,
    pub used: usize,
    pub written: usize,
}

// Begins a stream: the map is emptied, and no line is read.
#[tactic(auto, using(crate::proofs::Begins::emptying), unfolding(crate::specs::Feeding::begin_call))]
pub fn begin(links: &mut [u64], pairs: &mut [u64]) -> Progress
    requires { (table_words base ≤ length links.old) × (table_words base ≤ length pairs.old) }
    ensures { (result, links.new, pairs.new) ≡ begin_call links.old pairs.old }
{
    let none = map::empty_record();
    let rec = map::empty_map(none, links, pairs).unwrap_or(none);
    Progress {
        rec,
        lines: 0,
        held: 0,
    }
}

// ---- a line's answer. Of `likely`, the rows that are thought to have a pair, nothing is promised: a piece's lines hand it on to each other.

// The frame that a buffer begins with, of the length that was found, if any was.
#[tactic(auto, using(crate::proofs::Answers::readings))]
fn frame_read(buffer: &[u8], count: Option<usize>) -> Option<&[u8]>
    requires { IfSome count (λ n. (3 ≤ n) × (n ≤ length buffer.now)) }
    ensures read { (text : List ℕ) → line_found count buffer.now ≡ read_line text → option_copied result ≡ frame_in (read_line text) }
    ensures long { IfSome result (λ f. 3 ≤ length f.now) }
{
    Some(&buffer[..count?])
}

// Answers a frame by its kind: the opening of a depot or a yard, or the link of two depots.
#[tactic(auto, using(notice::proofs::Readings::behind), unfolding(transcript::specs::Transcript::update_in))]
fn answer_frame(
    rec: &mut Record,
    links: &mut [u64],
    room: &mut Room<'_>,
    likely: &mut [u64; map::WORDS],
    frame: &[u8],
) -> Report
    requires { let long = room_sizes (length links.old) room.old in
        (map_refusal base rec.old links.old room.old.pairs.now long ≡ 0) × (3 ≤ length frame.now) }
    ensures same { IsSameRoom room.old room.new }
    ensures left { left_of result rec.new links.new (lent_in room.new)
        ≡ update_call base rec.old links.old (lent_in room.old) (update_in frame.now) }
{
    let code = frame[1];
    let asked = if notice::opens_depot(frame[0]) {
        Asked::Opening(Notice {
            yard: notice::opens_yard(frame[0]),
            code,
            neighbours: &frame[3..],
        })
    } else {
        Asked::Link(Link {
            first: code,
            second: frame[2],
        })
    };
    step::step_lent(rec, links, room, likely, asked)
}

// Answers a line by the frame that it spells: what the frame asks for, or the refusal where there is none.
#[tactic(auto, unfolding(crate::specs::Feeding::answer_to))]
fn answer_line(
    rec: &mut Record,
    links: &mut [u64],
    room: &mut Room<'_>,
    likely: &mut [u64; map::WORDS],
    read: Option<&[u8]>,
) -> Report
    requires free { let long = room_sizes (length links.old) room.old in
        map_refusal base rec.old links.old room.old.pairs.now long ≡ 0 }
    requires long { IfSome read (λ f. 3 ≤ length f.now) }
    ensures same { IsSameRoom room.old room.new }
    ensures left { left_of result rec.new links.new (lent_in room.new)
        ≡ answer_to (option_copied read.entry) rec.old links.old (lent_in room.old) }
{
    match read {
        Some(frame) => answer_frame(rec, links, room, likely, frame),
        None => update::refused(*rec, Refusal::Garbled.number()).report,
    }
}

// Answers the line that is held, by the frame that it spells, if any, and tells the answer. What was fed is lent, so that a refused line copies no record.
#[tactic(auto, unfolding(crate::specs::Feeding::took_line))]
fn take_line<T: Tells>(
    fed: &mut Fed,
    links: &mut [u64],
    room: &mut Room<'_>,
    likely: &mut [u64; map::WORDS],
    read: Option<&[u8]>,
    out: &mut [u8],
    tell: &mut T,
)
    requires free { let long = room_sizes (length links.old) room.old in
        (map_refusal base fed.old.progress.rec links.old room.old.pairs.now long ≡ 0)
        × (fed.old.progress.lines < lines_limit)
        × (fed.old.written + T.manner.room ≤ length out.old) }
    requires long { IfSome read (λ f. 3 ≤ length f.now) }
    ensures same { IsSameRoom room.old room.new }
    ensures left { (line : List ℕ) → option_copied read.entry ≡ frame_in (read_line (take fed.old.progress.held line))
        → feeding fed.new links.new (lent_in room.new) line out.new
        ≡ took_line T.manner (feeding fed.old links.old (lent_in room.old) line out.old) }
    ensures written { fed.new.written ≤ length out.new }
{
    let number = fed.progress.lines + 1;
    let report = answer_line(&mut fed.progress.rec, links, room, likely, read);
    let got = Returned {
        report,
        after: fed.progress.rec,
    };
    fed.written = tell.put(out, fed.written, read, line_buffer::report_of(number, got));
    fed.progress.lines = number;
    fed.progress.held = 0;
}

// ---- the step

// Feeds a piece of the input: answers each line that ends in it, holds what is left, and tells the answers from the start of `out`. It
// stops before a line whose answer might not fit and after the last line of a stream; what is not used is to be fed again. `IsReady` is of values that are
// lent apart: a struct that lends them together was tried, and tables lent inside a lent struct are not covered by the borrow checker.
#[tactic(auto, using(crate::proofs::Feeds::bytes), unfolding(crate::specs::Feeding::feed_call, map::specs::Room::sizes_of))]
pub fn feed<T: Tells>(
    progress: Progress,
    links: &mut [u64],
    room: &mut Room<'_>,
    line: &mut [u8],
    out: &mut [u8],
    piece: &[u8],
    tell: &mut T,
) -> Fed
    requires { IsReady progress links.old (lent_in room.old) line.old }
    ensures same { IsSameRoom room.old room.new }
    ensures left { feeding result links.new (lent_in room.new) line.new out.new
        ≡ feed_call T.manner progress links.old (lent_in room.old) line.old out.old piece.now }
    ensures ready { IsReady result.progress links.new (lent_in room.new) line.new }
    ensures used { result.used ≤ length piece.now }
    ensures written { result.written ≤ length out.new }
{
    let mut now = Fed {
        progress,
        used: 0,
        written: 0,
    };
    let mut frame = [0u8; notice::FRAME_LIMIT];
    let mut likely = [0u64; map::WORDS];
    while now.used < piece.len() {
        if line_buffer::is_stopped(&*tell, now.progress.lines, now.written, out.len()) {
            return now;
        }
        let taken = line_buffer::take_part(line, &mut frame, piece, now.used, now.progress.held);
        now.progress.held = taken.part.held;
        now.used = taken.part.at;
        if !taken.part.ended {
            return now;
        }
        let read = frame_read(&frame, taken.frame);
        take_line(&mut now, links, room, &mut likely, read, out, tell);
    }
    now
}

// Ends the stream: a last stretch that is held is a line too.
#[tactic(auto, unfolding(crate::specs::Feeding::finish_call, line_buffer::specs::Lines::is_stopped, map::specs::Room::sizes_of))]
pub fn finish<T: Tells>(
    progress: Progress,
    links: &mut [u64],
    room: &mut Room<'_>,
    line: &[u8],
    out: &mut [u8],
    tell: &mut T,
) -> Fed
    requires { IsReady progress links.old (lent_in room.old) line.now }
    ensures same { IsSameRoom room.old room.new }
    ensures left { feeding result links.new (lent_in room.new) line.now out.new
        ≡ finish_call T.manner progress links.old (lent_in room.old) line.now out.old }
    ensures written { result.written ≤ length out.new }
{
    let mut fed = Fed {
        progress,
        used: 0,
        written: 0,
    };
    if progress.held == 0 {
        return fed;
    }
    if line_buffer::is_stopped(&*tell, progress.lines, 0, out.len()) {
        return fed;
    }
    let mut frame = [0u8; notice::FRAME_LIMIT];
    let mut likely = [0u64; map::WORDS];
    let read = notice::read_frame(&mut frame, &line[..progress.held]);
    let read = frame_read(&frame, read);
    take_line(&mut fed, links, room, &mut likely, read, out, tell);
    fed
}
