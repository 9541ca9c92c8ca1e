// The opening call, of a depot that delivers or of a yard, record in and out by value (rule 4): what refuses it, the links in place, then the figures.

#![tactic(auto)]

ghost use Rattle.std.specs.Prelude.{◌≡◌, ◌&&◌, ◌||◌, ◌≤◌, eqb, length};
ghost use Rattle.lists.specs.Lists.{overwrite};
ghost use Rattle.rows.specs.Rows.{row_bit, encode_row};
ghost use Rattle.graph.specs.Opening.{notice_of};
ghost use Rattle.graph.specs.Updates.{opens};
ghost use Rattle.map.specs.Memory.{base};
ghost use Rattle.map.specs.Slices.{lent_in, room_sizes, IsSameRoom};
ghost use Rattle.update.specs.UpdateCall.{update_refusal, update_left, update_given, update_call};
ghost use Rattle.update.specs.Steps.{map_refusal};
ghost use Rattle.opening.specs.Asked.{asked};

use map::{Record, Room};
use outcome::Outcome;
use pairs::Farthest;
use rounds::Plan;
use update::{Report, Returned};

// What a notice line says: whether a yard is to open, its code, and its neighbours. The calls hand the three on together.
#[derive(Clone, Copy)]
pub struct Notice<'a> {
    pub yard: bool,
    pub code: u8,
    pub neighbours: &'a [u8],
}

// ---- the opening

// Puts the new code into the open set.
#[tactic(auto, using(crate::proofs::Placed::code_put))]
fn put_code(members: &mut [u64], code: u8)
    requires { base.words ≤ length members.old }
    ensures { let before = members.old in
        members.new ≡ overwrite (encode_row base.words (λ v. eqb v code || row_bit base.words before v)) before }
{
    rows::row_set(members, map::WORDS, 0, code as usize);
}

// Puts the code of a yard into the yard set. Of any other opening it says that the row is what its bits encode.
fn put_yard(yards: &mut [u64], yard: bool, code: u8)
    requires { base.words ≤ length yards.old }
    ensures { let before = yards.old in
        yards.new ≡ overwrite (encode_row base.words (λ v. (yard && eqb v code) || row_bit base.words before v)) before }
{
    if yard {
        rows::row_set(yards, map::WORDS, 0, code as usize);
    }
}

// The opening of a notice that nothing refuses: its links in place, then the figures. It takes the notice apart (a `Notice` was tried): that the neighbours are
// bytes is known of an argument at each place below, and of a struct's field only as long as it is used. It is kept apart, so that a notice that is refused
// sets up none of the memory that it works in. Of `likely`, the rows that are thought to have a pair, nothing is promised.
#[tactic(auto, using(crate::proofs::Placed::room_for_one))]
#[inline(never)]
pub fn open_map(
    rec: Record,
    links: &mut [u64],
    room: &mut Room<'_>,
    likely: &mut [u64; map::WORDS],
    yard: bool,
    code: u8,
    neighbours: &[u8],
) -> Returned
    requires { let long = room_sizes (length links.old) room.old in
        update_refusal base rec links.old room.old.pairs.now long (opens (notice_of yard code neighbours.now)) ≡ 0 }
    ensures same { IsSameRoom room.old room.new }
    ensures left { update_left result links.new (lent_in room.new)
        ≡ update_given 0 base rec links.old (lent_in room.old) (opens (notice_of yard code neighbours.now)) }
{
    admission::link_depot(links, map::WORDS, code, neighbours);
    let mut members = rec.members;
    put_code(&mut members, code);
    let mut yards = rec.yards;
    put_yard(&mut yards, yard, code);
    let mut targets = members;
    map::keep_delivering(&mut targets, &yards, map::WORDS);
    let plan = Plan {
        members: &members,
        targets: &targets,
        links: &*links,
    };
    let stored = Farthest {
        chain: rec.chain,
        count: rec.count,
    };
    let got = insertion::refigure(plan, room, likely, code as usize, stored);
    let mut after = rec;
    after.members = members;
    after.number = rec.number + 1;
    after.chain = got.chain;
    after.count = got.count;
    after.yards = yards;
    let report = Report {
        outcome: Outcome::Accepted(got.change),
        searches: got.searches,
    };
    Returned { report, after }
}

// The opening for callers that hold a proved map, whose memory nothing refuses: the same answer
// without checking the memory again. That is a fact of record, links and room together, which are
// lent apart. Of `likely` nothing is promised.
#[tactic(auto, using(crate::proofs::Placed::judged, crate::proofs::Placed::called))]
pub fn open_sound(
    rec: Record,
    links: &mut [u64],
    room: &mut Room<'_>,
    likely: &mut [u64; map::WORDS],
    notice: Notice<'_>,
) -> Returned
    requires { let long = room_sizes (length links.old) room.old in
        map_refusal base rec links.old room.old.pairs.now long ≡ 0 }
    ensures same { IsSameRoom room.old room.new }
    ensures left { update_left result links.new (lent_in room.new)
        ≡ update_call base rec links.old (lent_in room.old) (asked notice.entry) }
{
    let members = rec.members;
    match admission::notice_refusal(&members, map::WORDS, notice.code, notice.neighbours) {
        Ok(()) => open_map(
            rec,
            links,
            room,
            likely,
            notice.yard,
            notice.code,
            notice.neighbours,
        ),
        Err(refusal) => update::refused(rec, refusal.number()),
    }
}
