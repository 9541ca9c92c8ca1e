// Chain and pairs after a link between two open depots: kept, or settled by rounds, from the searches of both ends on.

#![tactic(auto)]

ghost use Rattle.std.specs.Prelude.{◌≡◌, not, ◌||◌, ◌<◌, ◌≤◌, eqb, length};
ghost use Rattle.lists.specs.Lists.{range};
ghost use Rattle.graph.specs.Chart.{chart, count_pairs};
ghost use Rattle.rows.specs.Rows.{table_bit};
ghost use Rattle.graph.specs.Rounds.{rounds};
ghost use Rattle.graph.specs.Linking.{first_two};
ghost use Rattle.map.specs.Room.{AreLong};
ghost use Rattle.map.specs.Memory.{base, places, table_words};
ghost use Rattle.targets.specs.Reach.{reached};
ghost use Rattle.map.specs.Slices.{lent_in, room_sizes, IsSameRoom};
ghost use Rattle.pairs.specs.Pairs.{tally, Counted};
ghost use Rattle.ranks.specs.Ranks.{AreRanks};
ghost use Rattle.bounds.specs.Slices.{marks_in, MarksFit, IsSameMarks};
ghost use Rattle.rounds.specs.Leaves.{ran, ran_by};
ghost use Rattle.rounds.specs.Workspace.{absorbed, rounds_begun};
ghost use Rattle.rounds.specs.Slices.{plan_network, said_of};
ghost use Rattle.insertion.specs.Figured.{figured};
ghost use Rattle.insertion.specs.Steps.{AreOpen};
ghost use Rattle.relink.specs.Relinked.{relinked_by, IsRelinkable};
ghost use Rattle.relink.specs.Steps.{low_taken, both_taken, StandBoth};

use bounds::Marks;
use insertion::Figures;
use map::{Room, Scratch, TABLE};
use outcome::Change;
use pairs::Farthest;
use rounds::{Desk, Finished, Plan, RoundFigures};
use targets::Span;

// ---- the two ends

// The lower end with its finished search. Its hops stand in a table of the call's own, so that they go with it; each size is said once, here.
#[derive(Clone, Copy)]
struct Low<'a> {
    code: usize,
    hops: &'a [u16],
    found: Finished<'a>,
    ghost within: { code < places base },
    ghost hops_fit: { places base ≤ length hops.now },
    ghost row_fits: { base.words ≤ length found.partners.now },
}

// The higher end with what its finished search says of the distances. The hops stand in the lent room, and the partners in a row that the rounds use again.
#[derive(Clone, Copy)]
struct High {
    code: usize,
    span: Span,
    ghost within: { code < places base },
}

// ---- the chain is kept

// Whether it is: a pair is left, or it was 0.
#[tactic(auto, using(crate::proofs::Ends::kept_by_pair, crate::proofs::Ends::kept_at_zero, crate::proofs::Ends::not_kept))]
fn is_kept(count: u32, chain: u16) -> bool
    ensures { result ≡ (not (eqb count 0) || eqb chain 0) }
{
    if count != 0 {
        return true;
    }
    if chain == 0 {
        return true;
    }
    false
}

// ---- the chain shrank

// The start of rounds with the candidate way, and the search from low taken in. Nobody is skipped yet.
#[tactic(auto, using(rounds::proofs::Turns::begun_counted, crate::proofs::Taking::low_taken_lem, ranks::proofs::Ranks::thinned_ranks))]
fn take_low(
    plan: Plan<'_>,
    pairs: &mut [u64],
    marks: &mut Marks<'_>,
    low: Low<'_>,
    way: u16,
) -> RoundFigures
    requires { MarksFit base.words marks.old
        × (base.words ≤ length plan.members.now)
        × (table_words base ≤ length plan.links.now)
        × (table_words base ≤ length pairs.old) }
    ensures same { IsSameMarks marks.old marks.new }
    ensures taken { let L = low.entry in
        let before = rounds_begun pairs.old (marks_in base.words marks.old) in
        let after = absorbed (tally pairs.new result.count) (marks_in base.words marks.new) result.candidate in
        after ≡ low_taken base plan.entry.members.now L.hops.now L.code (said_of L.found) way before }
    ensures counted { Counted base.words pairs.new result.count }
    ensures ranked { AreRanks base.words plan.entry.links.now marks.new.ranks.now }
    ensures searches { result.searches ≡ 1 }
{
    rounds::begin(
        plan.members,
        plan.links,
        pairs,
        marks,
        map::WORDS,
        map::OTHER,
    );
    let none = RoundFigures {
        candidate: way,
        count: 0,
        searches: 0,
    };
    rounds::absorb(
        pairs,
        low.hops,
        marks,
        map::WORDS,
        map::SEARCHED,
        low.code,
        low.found,
        none,
        None,
    )
}

// Then the search from high, whose hops stand in far and its partners in fars; after it depots are skipped.
#[tactic(auto, using(ranks::proofs::Ranks::thinned_ranks))]
fn take_both(
    plan: Plan<'_>,
    pairs: &mut [u64],
    marks: &mut Marks<'_>,
    low: Low<'_>,
    far: &[u16],
    high: High,
    fars: &[u64],
    way: u16,
) -> RoundFigures
    requires { MarksFit base.words marks.old
        × (base.words ≤ length plan.members.now)
        × (table_words base ≤ length plan.links.now)
        × (table_words base ≤ length pairs.old)
        × (places base ≤ length far.now)
        × (base.words ≤ length fars.now) }
    ensures same { IsSameMarks marks.old marks.new }
    ensures taken { let L = low.entry in
        let Q = reached high.span.ecc high.span.own fars.now in
        let before = rounds_begun pairs.old (marks_in base.words marks.old) in
        let after = absorbed (tally pairs.new result.count) (marks_in base.words marks.new) result.candidate in
        after ≡ both_taken base plan.entry.members.now L.hops.now far.now L.code (said_of L.found) high.code Q way before }
    ensures counted { Counted base.words pairs.new result.count }
    ensures ranked { AreRanks base.words plan.entry.links.now marks.new.ranks.now }
    ensures searches { result.searches ≡ 2 }
{
    let first = take_low(plan, pairs, marks, low, way);
    let found = Finished {
        span: high.span,
        partners: fars,
    };
    let limit = rounds::raised(first.candidate, high.span.own);
    rounds::absorb(
        pairs,
        far,
        marks,
        map::WORDS,
        map::SEARCHED,
        high.code,
        found,
        first,
        Some(limit),
    )
}

// Rounds with the candidate way, whose first two references are the searches from low and from high. The tables of the second stand in the room, and its
// partners in a row that the rounds then use. The plan's links and the room are lent apart, so that both are long enough is asked by each function.
fn shrink(
    plan: Plan<'_>,
    room: &mut Room<'_>,
    low: Low<'_>,
    high: High,
    fars: &mut [u64],
    way: u16,
) -> RoundFigures
    requires { let G = plan_network base.words plan in
        let Q = reached high.span.ecc high.span.own fars.old in
        AreLong base (room_sizes (length plan.links.now) room.old)
        × (base.words ≤ length fars.old)
        × StandBoth base G low.hops.now (lent_in room.old).searched low.code (said_of low.found) high.code Q }
    ensures same { IsSameRoom room.old room.new }
    ensures left { let G = plan_network base.words plan.entry in
        let M = chart G in
        ran (lent_in room.new) result.candidate result.count result.searches
        ≡ ran_by base G (rounds M (length M.depots) (first_two M low.entry.code high.code way)) (lent_in room.old) }
{
    let mut ranks = [0u16; map::PLACES];
    let mut order = [0u16; ranks::NODES];
    let mut left = [0u64; map::WORDS];
    let mut next = [0u64; map::WORDS];
    let pairs = &mut *room.pairs;
    let hops = &mut *room.hops;
    let mut marks = Marks {
        bounds: &mut *room.bounds,
        skips: &mut *room.skips,
        ranks: &mut ranks,
    };
    let before = take_both(plan, pairs, &mut marks, low, &*hops, high, &*fars, way);
    let mut desk = Desk {
        left: &mut left,
        next: &mut next,
        partners: &mut *fars,
        ranks: &mut ranks,
    };
    rounds::run_rounds(
        plan.members,
        plan.targets,
        plan.links,
        room,
        &mut desk,
        &mut order,
        map::WORDS,
        map::SEARCHED,
        before,
    )
}

// ---- the whole step

// The figures by the finished searches of both ends, without the stale pairs. Of `likely` nothing is promised.
fn settle(
    plan: Plan<'_>,
    room: &mut Room<'_>,
    likely: &mut [u64; map::WORDS],
    low: Low<'_>,
    high: High,
    fars: &mut [u64],
    stored: Farthest,
) -> Figures
    requires { let G = plan_network base.words plan in
        let Q = reached high.span.ecc high.span.own fars.old in
        AreLong base (room_sizes (length plan.links.now) room.old)
        × AreOpen base G room.old.pairs.now
        × (base.words ≤ length fars.old)
        × StandBoth base G low.hops.now (lent_in room.old).searched low.code (said_of low.found) high.code Q
        × (count_pairs (range (places base)) (table_bit base.words room.old.pairs.now) ≤ stored.count) }
    ensures same { IsSameRoom room.old room.new }
    ensures left { let G = plan_network base.words plan.entry in
        figured result.change (ran (lent_in room.new) result.chain result.count result.searches)
        ≡ relinked_by base G low.entry.code high.code stored.chain (lent_in room.old) }
{
    let pairs = &mut *room.pairs;
    let hops = &mut *room.hops;
    let near = low.hops;
    let left = stale_pairs::drop_stale_either::<TABLE>(
        pairs,
        likely,
        near,
        &*hops,
        map::WORDS,
        stored,
    );
    let chain = stored.chain;
    if is_kept(left.count, chain) {
        bounds::mark_twice(
            room.bounds,
            room.skips,
            map::WORDS,
            low.code,
            low.found.span.ecc,
            high.code,
            high.span.ecc,
            map::SEARCHED,
            map::OTHER,
        );
        return Figures {
            change: Change::Kept,
            chain,
            count: left.count,
            searches: 2,
        };
    }
    rows::clear(likely, map::WORDS);
    let got = shrink(plan, room, low, high, fars, left.way);
    Figures {
        change: Change::Shrank,
        chain: got.candidate,
        count: got.count,
        searches: got.searches,
    }
}

// The figures after the link of low and high is in place, by the stored chain and the count of the stored pairs: the search from low on local tables and the
// one from high on the lent ones, what each says of its end, then the pairs, the marks and, if the chain shrank, the rounds. The targets are the depots that
// deliver. A hint, `likely`, says which rows of the pair table are thought to have a pair: of it nothing is asked and nothing promised.
pub fn relink(
    plan: Plan<'_>,
    room: &mut Room<'_>,
    likely: &mut [u64; map::WORDS],
    low: usize,
    high: usize,
    stored: Farthest,
) -> Figures
    requires { AreLong base (room_sizes (length plan.links.now) room.old)
        × IsRelinkable base plan.members.now plan.targets.now plan.links.now (lent_in room.old) low high
        × (low < places base)
        × (high < places base)
        × (count_pairs (range (places base)) (table_bit base.words room.old.pairs.now) ≤ stored.count) }
    ensures same { IsSameRoom room.old room.new }
    ensures left { let G = plan_network base.words plan.entry in
        figured result.change (ran (lent_in room.new) result.chain result.count result.searches)
        ≡ relinked_by base G low high stored.chain (lent_in room.old) }
{
    let mut near = [0u16; map::PLACES];
    let mut evens = [0u64; map::WORDS];
    let mut odds = [0u64; map::WORDS];
    let mut nears = [0u64; map::WORDS];
    let mut fars = [0u64; map::WORDS];
    let mut own = Scratch {
        hops: &mut near,
        even: &mut evens,
        odd: &mut odds,
    };
    let d = search::search_sound(plan.members, plan.links, &mut own, low);
    let e = rounds::reach_by(
        plan.targets,
        &near,
        &evens,
        &odds,
        &mut nears,
        map::WORDS,
        low,
        d,
    );
    let hops = &mut *room.hops;
    let even = &mut *room.even;
    let odd = &mut *room.odd;
    let mut lent = Scratch {
        hops: &mut *hops,
        even: &mut *even,
        odd: &mut *odd,
    };
    let b = search::search_sound(plan.members, plan.links, &mut lent, high);
    let f = rounds::reach_by(
        plan.targets,
        &*hops,
        &*even,
        &*odd,
        &mut fars,
        map::WORDS,
        high,
        b,
    );
    let found = Finished {
        span: e,
        partners: &nears,
    };
    let lower = Low {
        code: low,
        hops: &near,
        found,
    };
    let higher = High {
        code: high,
        span: f,
    };
    settle(plan, room, likely, lower, higher, &mut fars, stored)
}
