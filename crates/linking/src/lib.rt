// The link call, record in and out by value: what refuses it, the link in place, then the figures.

#![tactic(auto)]

ghost use Rattle.std.specs.Prelude.{[], ◌≡◌, ◌≤◌, max, min, length};
ghost use Rattle.lists.specs.Lists.{range, overwrite};
ghost use Rattle.rows.specs.Rows.{row_bit, table_bit, encode_row};
ghost use Rattle.graph.specs.Network.{delivers};
ghost use Rattle.graph.specs.Chart.{count_pairs};
ghost use Rattle.graph.specs.Updates.{joins};
ghost use Rattle.map.specs.Room.{AreLong};
ghost use Rattle.map.specs.Memory.{base, places, yard_network};
ghost use Rattle.map.specs.Slices.{lent_in, room_sizes, IsSameRoom};
ghost use Rattle.rounds.specs.Leaves.{ran};
ghost use Rattle.rounds.specs.Slices.{plan_network};
ghost use Rattle.insertion.specs.Figured.{figured};
ghost use Rattle.relink.specs.Relinked.{relinked_by, IsRelinkable};
ghost use Rattle.update.specs.UpdateCall.{update_refusal, update_left, update_given};

use admission::Link;
use insertion::Figures;
use map::{Record, Room};
use outcome::Outcome;
use pairs::Farthest;
use rounds::Plan;
use update::{Report, Returned};

// The targets: the yards are taken out of the row, which has the open set. Of both sets it says that they are what their bits encode, their words being of
// 64 bits each: so the call's definition writes them.
#[tactic(auto, using(rows::proofs::Wholes::row_whole))]
fn keep_targets(targets: &mut [u64], yards: &[u64])
    requires { (base.words ≤ length targets.old) × (base.words ≤ length yards.now) }
    ensures kept { let G = yard_network base.words targets.old yards.now [] in
        targets.new ≡ overwrite (encode_row base.words (delivers G)) targets.old }
    ensures members { let row = targets.old in row ≡ overwrite (encode_row base.words (row_bit base.words row)) row }
    ensures yards { let row = yards.now in row ≡ overwrite (encode_row base.words (row_bit base.words row)) row }
{
    map::keep_delivering(targets, yards, map::WORDS);
}

// The figures after the link of two codes, the lower one's search first. Of `likely`, here and below, nothing is promised.
fn relink_codes(
    plan: Plan<'_>,
    room: &mut Room<'_>,
    likely: &mut [u64; map::WORDS],
    link: Link,
    stored: Farthest,
) -> Figures
    requires { let low = min link.first link.second in
        let high = max link.first link.second in
        AreLong base (room_sizes (length plan.links.now) room.old)
        × IsRelinkable base plan.members.now plan.targets.now plan.links.now (lent_in room.old) low high
        × (count_pairs (range (places base)) (table_bit base.words room.old.pairs.now) ≤ stored.count) }
    ensures same { IsSameRoom room.old room.new }
    ensures left { let G = plan_network base.words plan.entry in
        let low = min link.first link.second in
        let high = max link.first link.second in
        figured result.change (ran (lent_in room.new) result.chain result.count result.searches)
        ≡ relinked_by base G low high stored.chain (lent_in room.old) }
{
    let low = link.first.min(link.second);
    let high = link.first.max(link.second);
    relink::relink(plan, room, likely, low as usize, high as usize, stored)
}

// A link that nothing refuses: put in place, then the figures, the lower code's search first. It is kept apart, as the opening of a notice is.
#[inline(never)]
pub fn link_map(
    rec: Record,
    links: &mut [u64],
    room: &mut Room<'_>,
    likely: &mut [u64; map::WORDS],
    link: Link,
) -> Returned
    requires { let long = room_sizes (length links.old) room.old in
        update_refusal base rec links.old room.old.pairs.now long (joins link.first link.second) ≡ 0 }
    ensures same { IsSameRoom room.old room.new }
    ensures left { update_left result links.new (lent_in room.new)
        ≡ update_given 0 base rec links.old (lent_in room.old) (joins link.first link.second) }
{
    admission::link_codes(links, map::WORDS, link);
    let members = rec.members;
    let yards = rec.yards;
    let mut targets = rec.members;
    keep_targets(&mut targets, &yards);
    let plan = Plan {
        members: &members,
        targets: &targets,
        links: &*links,
    };
    let stored = Farthest {
        chain: rec.chain,
        count: rec.count,
    };
    let got = relink_codes(plan, room, likely, link, stored);
    let mut after = rec;
    after.chain = got.chain;
    after.count = got.count;
    let report = Report {
        outcome: Outcome::Accepted(got.change),
        searches: got.searches,
    };
    Returned { report, after }
}
