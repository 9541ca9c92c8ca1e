// Openings in a batch, of depots and of yards: of some notice lines the first that can be accepted is opened, again and again, until none can.

#![tactic(auto)]

ghost use Rattle.std.specs.Prelude.{[], ◌≡◌, ◌&&◌, ◌||◌, ◌≤◌, ◌<◌, eqb, leb, length, IfOk};
ghost use Rattle.words.specs.Bits.{bit, word_of};
ghost use Rattle.graph.specs.Batch.{first_fit};
ghost use Rattle.map.specs.Memory.{base, network_of};
ghost use Rattle.map.specs.Room.{long_enough};
ghost use Rattle.map.specs.Slices.{lent_in, room_sizes, IsSameRoom};
ghost use Rattle.outcome.specs.Refusals.{refused_by};
ghost use Rattle.update.specs.Steps.{map_refusal};
ghost use Rattle.notice.specs.Calls.{frame_limit};
ghost use Rattle.batch.specs.Lines.{batch_limit, entries_of};
ghost use Rattle.batch.specs.Steps.{waiting_of, notice_at, fit_of, FitsFrame};
ghost use Rattle.batch_update.specs.BatchCall.{batch_refusal, lent_memory, memory_left, opening_on, batch_left, batch_call};
ghost use Rattle.batch_update.specs.Steps.{turns_on};
ghost use Rattle.batch_opening.specs.Steps.{batch_standing, batch_begun};

use batch::{Fit, Openings};
use batch_update::Batched;
use map::{Record, Room};
use outcome::Refusal;

// How far a batch has come: the map's record, and the lines taken, a bit for each.
#[derive(Clone, Copy)]
pub struct BatchProgress {
    pub after: Record,
    pub taken: u64,
}

// ---- what refuses a batch

// Whether the seven buffers of an opening and the places for the lines left over have their named sizes.
fn are_long(links: usize, room: &Room<'_>, left: usize) -> bool
    ensures { result ≡ (leb batch_limit left && long_enough base (room_sizes links room.now)) }
{
    batch::LIMIT <= left && room.is_long(links)
}

// The lines, or the first refusal that holds. It only reads.
#[tactic(auto, using(crate::proofs::Calls::refusals))]
fn batch_refusal<'a>(
    rec: Record,
    links: &[u64],
    room: &Room<'_>,
    left: usize,
    lines: &'a [u8],
) -> Result<Openings<'a>, Refusal>
    ensures refused { let long = room_sizes (length links.now) room.now in
        refused_by result ≡ batch_refusal base rec links.now room.now.pairs.now long left lines.now }
    ensures same { IfOk result (λ o. o.lines.now ≡ lines.now) }
{
    let long = are_long(links.len(), room, left);
    lent_map::map_refusal(rec, links, Some(&*room.pairs), long)?;
    let members = rec.members;
    Openings::judged(&members, map::WORDS, lines)
}

// ---- the openings

// The first line that can be accepted on the map of this record.
fn next_fit(rec: Record, frame: &mut [u8], taken: u64, openings: Openings<'_>) -> Option<Fit>
    requires { frame_limit ≤ length frame.old }
    ensures { let waiting = waiting_of taken (entries_of openings.entry.lines.now) in
        (fit_of result frame.new ≡ first_fit (network_of base.words rec.members []) waiting)
        × FitsFrame result (length frame.new) }
{
    let members = rec.members;
    openings.first_fit(&members, frame, map::WORDS, taken)
}

// Opens the notice that stands in the frame, and marks its line as taken. Record, links and room are lent apart, so that nothing refuses them is asked. Of
// `likely` nothing is promised.
#[tactic(auto, unfolding(batch_update::specs::BatchCall::opening_on))]
fn take_line(
    progress: BatchProgress,
    links: &mut [u64],
    room: &mut Room<'_>,
    likely: &mut [u64; map::WORDS],
    frame: &[u8],
    fit: Fit,
) -> BatchProgress
    requires { let long = room_sizes (length links.old) room.old in
        (map_refusal base progress.after links.old room.old.pairs.now long ≡ 0)
        × (fit.number < batch_limit)
        × (3 ≤ fit.length)
        × (fit.length ≤ length frame.now) }
    ensures same { IsSameRoom room.old room.new }
    ensures left { let before = lent_memory progress.after links.old (lent_in room.old) in
        lent_memory result.after links.new (lent_in room.new) ≡ memory_left (opening_on base before (notice_at frame.now fit.length)) }
    ensures taken { result.taken ≡ word_of 64 (λ k. eqb k fit.number || bit progress.taken k) }
{
    let yard = notice::opens_yard(frame[0]);
    let asked = opening::Notice {
        yard,
        code: frame[1],
        neighbours: &frame[3..fit.length],
    };
    let got = opening::open_sound(progress.after, links, room, likely, asked);
    BatchProgress {
        after: got.after,
        taken: words::with_bit(progress.taken, fit.number as usize),
    }
}

// Opens the lines, the first that can be accepted at each turn. As many turns as lines are enough.
#[tactic(auto, using(crate::proofs::Progress::turns), unfolding(map::specs::Room::sizes_of))]
fn open_lines(
    rec: Record,
    links: &mut [u64],
    room: &mut Room<'_>,
    openings: Openings<'_>,
) -> BatchProgress
    requires { map_refusal base rec links.old room.old.pairs.now (room_sizes (length links.old) room.old) ≡ 0 }
    ensures same { IsSameRoom room.old room.new }
    ensures left { let lines = openings.entry.lines.now in
        let before = batch_standing (batch_begun rec) links.old (lent_in room.old) lines in
        batch_standing result links.new (lent_in room.new) lines ≡ turns_on openings.entry.count base before }
{
    let mut frame = [0u8; notice::FRAME_LIMIT];
    let mut likely = [0u64; map::WORDS];
    let mut progress = BatchProgress {
        after: rec,
        taken: 0,
    };
    for _turn in 0..openings.count {
        let Some(fit) = next_fit(progress.after, &mut frame, progress.taken, openings) else {
            return progress;
        };
        progress = take_line(progress, links, room, &mut likely, &frame, fit);
    }
    progress
}

// ---- the call

// Opens a batch: of up to 64 notice lines the first that can be accepted, again and again, until none can. The numbers of those left over, from 0,
// are written into `left`, and the answer counts them; or it is the first refusal that holds, and then nothing is changed.
#[tactic(auto, using(crate::proofs::Calls::calls), unfolding(map::specs::Room::sizes_of))]
pub fn open_batch(
    rec: Record,
    links: &mut [u64],
    room: &mut Room<'_>,
    left: &mut [u8],
    lines: &[u8],
) -> Result<Batched, Refusal>
    ensures same { IsSameRoom room.old room.new }
    ensures left { batch_left rec result links.new (lent_in room.new) left.new
        ≡ batch_call base rec links.old (lent_in room.old) left.old lines.now }
{
    let openings = batch_refusal(rec, &*links, &*room, left.len(), lines)?;
    let got = open_lines(rec, links, room, openings);
    let over = batch::put_left(left, got.taken, openings.count);
    Ok(Batched {
        left: over,
        after: got.after,
    })
}
