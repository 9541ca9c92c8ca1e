// The call that changes a map, record in and out by value (rule 4), whatever it asks for: the opening of a depot or a yard, or the link of two depots.
// What is asked is judged first, on a record that is only read. What nothing refuses goes through one
// step, which takes the record by value and gives it back; over it stand the public call, by value,
// and a thin one on a record that is lent by `&mut` (rule 12.9), which the stream calls.

#![tactic(auto)]

ghost use Rattle.std.specs.Prelude.{◌≡◌, ◌≤◌, length};
ghost use Rattle.lists.specs.Lists.{first_of};
ghost use Rattle.graph.specs.Updates.{update_faults};
ghost use Rattle.map.specs.Memory.{base, table_words, network_of};
ghost use Rattle.map.specs.Slices.{lent_in, room_sizes, IsSameRoom};
ghost use Rattle.outcome.specs.Refusals.{refused_by};
ghost use Rattle.update.specs.UpdateCall.{update_refusal, left_of, update_left, update_given, update_call};
ghost use Rattle.update.specs.Steps.{map_refusal};
ghost use Rattle.step.specs.Asks.{update_of};

use admission::Link;
use map::{Record, Room};
use opening::Notice;
use outcome::Refusal;
use update::{Report, Returned};

// What a call asks for: the opening of a depot or a yard, or the link of two depots.
#[derive(Clone, Copy)]
pub enum Asked<'a> {
    Opening(Notice<'a>),
    Link(Link),
}

// ---- what refuses it

// The first refusal of what is asked, on a map that nothing refuses. It only reads.
#[tactic(auto, unfolding(graph::specs::Updates::update_faults))]
fn asked_refusal(members: &[u64], links: &[u64], asked: Asked<'_>) -> Result<(), Refusal>
    requires { (base.words ≤ length members.now) × (table_words base ≤ length links.now) }
    ensures { let G = network_of base.words members.now links.now in
        refused_by result ≡ first_of (update_faults G (update_of asked.entry)) }
{
    match asked {
        Asked::Opening(notice) => {
            admission::notice_refusal(members, map::WORDS, notice.code, notice.neighbours)
        }
        Asked::Link(link) => admission::link_refusal(members, links, map::WORDS, link),
    }
}

// The first refusal of the call: of the lent memory, then of what is asked.
fn step_refusal(
    rec: Record,
    links: &[u64],
    room: &Room<'_>,
    asked: Asked<'_>,
) -> Result<(), Refusal>
    ensures { let long = room_sizes (length links.now) room.now in
        refused_by result
        ≡ update_refusal base rec links.now room.now.pairs.now long (update_of asked.entry) }
{
    update::room_refusal(rec, links, room)?;
    let members = rec.members;
    asked_refusal(&members, links, asked)
}

// ---- the step

// The step by value, of what nothing refuses. A caller of many steps keeps `likely` between them, the
// rows of the pair table that are thought to have a pair; it begins with none. Of it nothing is asked
// and nothing promised: what is thought wrong costs time and changes no answer.
fn step_granted(
    rec: Record,
    links: &mut [u64],
    room: &mut Room<'_>,
    likely: &mut [u64; map::WORDS],
    asked: Asked<'_>,
) -> Returned
    requires { let long = room_sizes (length links.old) room.old in
        update_refusal base rec links.old room.old.pairs.now long (update_of asked) ≡ 0 }
    ensures same { IsSameRoom room.old room.new }
    ensures left { update_left result links.new (lent_in room.new)
        ≡ update_given 0 base rec links.old (lent_in room.old) (update_of asked.entry) }
{
    match asked {
        Asked::Opening(notice) => opening::open_map(
            rec,
            links,
            room,
            likely,
            notice.yard,
            notice.code,
            notice.neighbours,
        ),
        Asked::Link(link) => linking::link_map(rec, links, room, likely, link),
    }
}

// The step on a record that is lent, for callers that hold a proved map, whose memory nothing
// refuses: the same answer without checking the memory again. A refused call does not touch the
// record. Of `likely` nothing is promised.
pub fn step_lent(
    rec: &mut Record,
    links: &mut [u64],
    room: &mut Room<'_>,
    likely: &mut [u64; map::WORDS],
    asked: Asked<'_>,
) -> Report
    requires { let long = room_sizes (length links.old) room.old in
        map_refusal base rec.old links.old room.old.pairs.now long ≡ 0 }
    ensures same { IsSameRoom room.old room.new }
    ensures left { left_of result rec.new links.new (lent_in room.new)
        ≡ update_call base rec.old links.old (lent_in room.old) (update_of asked.entry) }
{
    match asked_refusal(&rec.members, &*links, asked) {
        Ok(()) => {
            let got = step_granted(*rec, links, room, likely, asked);
            *rec = got.after;
            got.report
        }
        Err(refusal) => update::refused(*rec, refusal.number()).report,
    }
}

// The step: grew, kept or shrank with the number of searches; or the first refusal that holds, and then nothing is changed.
pub fn step(rec: Record, links: &mut [u64], room: &mut Room<'_>, asked: Asked<'_>) -> Returned
    ensures same { IsSameRoom room.old room.new }
    ensures left { update_left result links.new (lent_in room.new)
        ≡ update_call base rec links.old (lent_in room.old) (update_of asked.entry) }
{
    match step_refusal(rec, &*links, &*room, asked) {
        Ok(()) => step_granted(rec, links, room, &mut [0u64; map::WORDS], asked),
        Err(refusal) => update::refused(rec, refusal.number()),
    }
}
