// Chain and pairs after a depot's insertion: grown, kept, or settled by rounds (rules 4.2 to 4.4), from the finished search of the new depot on.

#![tactic(auto)]

ghost use Rattle.std.specs.Prelude.{Bool, ℕ, ◌≡◌, ◌&&◌, ◌||◌, ◌<◌, ◌≤◌, eqb, ltb, length};
ghost use Rattle.lists.specs.Lists.{range, overwrite};
ghost use Rattle.graph.specs.Chart.{chart, count_pairs};
ghost use Rattle.rows.specs.Rows.{row_bit, table_bit, encode_row};
ghost use Rattle.graph.specs.Rounds.{round, rounds, start};
ghost use Rattle.map.specs.Room.{AreLong};
ghost use Rattle.map.specs.Memory.{base, places};
ghost use Rattle.targets.specs.Reach.{reached};
ghost use Rattle.pairs.specs.Pairs.{tally, Counted};
ghost use Rattle.rounds.specs.Leaves.{ran, ran_by};
ghost use Rattle.rounds.specs.Slices.{plan_network, said_of};
ghost use Rattle.map.specs.Slices.{lent_in, room_sizes, IsSameRoom};
ghost use Rattle.insertion.specs.Figured.{figured, figured_by, IsFigurable};
ghost use Rattle.bounds.specs.Once.{marking};
ghost use Rattle.insertion.specs.Steps.{joined, join_of, HoldsSearch, AreOpen};

use bounds::Marks;
use map::{Room, Scratch, TABLE};
use outcome::Change;
use pairs::Farthest;
use rounds::{Desk, Finished, Plan, RoundFigures};
use targets::Span;

// The figures after an opening: how the chain moved, chain, pair count, number of searches.
#[derive(Clone, Copy)]
pub struct Figures {
    pub change: Change,
    pub chain: u16,
    pub count: u32,
    pub searches: u16,
}

// ---- the rows that are thought to have a pair: a row of codes that a call is lent as a hint

// Adds those of a's own pairs: its own row, and those of its partners below it.
#[tactic(auto, using(crate::proofs::Noted::noted))]
fn note_own(likely: &mut [u64; map::WORDS], partners: &[u64], a: usize)
    requires { (base.words ≤ length partners.now) × (a < places base) }
    ensures { let W = base.words in
        let before = likely.old in
        let had : (ℕ → Bool) = row_bit W before in
        let near : (ℕ → Bool) = row_bit W partners.now in
        likely.new ≡ overwrite (encode_row W (λ v. eqb v a || (had v || (near v && ltb v a)))) before }
{
    for j in 0..map::WORDS {
        likely[j] |= pairs::lower_part(partners[j], j, a);
    }
    rows::row_set(likely, map::WORDS, 0, a);
}

// ---- a call that searched from a alone

// The pairs and marks after it, answering the number of pairs. It takes slices: of a whole room it would have to say besides that hops and rows stay.
#[tactic(auto, using(crate::proofs::Once::join_is))]
fn join(
    pairs: &mut [u64],
    bounds: &mut [u16],
    skips: &mut [u16],
    a: usize,
    found: Finished<'_>,
    stored: Farthest,
) -> u32
    requires { Counted base.words pairs.old stored.count
        × (places base ≤ length bounds.old)
        × (places base ≤ length skips.old)
        × (a < places base)
        × (base.words ≤ length found.partners.now) }
    ensures { let before = joined (tally pairs.old stored.count) (marking bounds.old skips.old) in
        let after = joined (tally pairs.new result) (marking bounds.new skips.new) in
        after ≡ join_of base a (said_of found.entry) stored.chain before }
{
    let span = found.span;
    let sum = pairs::settle(pairs, found.partners, map::WORDS, a, span.own, stored);
    bounds::mark_once(
        bounds,
        skips,
        map::WORDS,
        a,
        span.ecc,
        map::SEARCHED,
        map::OTHER,
    );
    sum
}

// ---- the chain shrank. The links that a plan reads and the room are lent apart, so that both are long enough is asked by each function.

// Rounds with the candidate way, whose first reference is the search from a that stands in the tables.
#[tactic(auto, using(rounds::proofs::Turns::begun_counted, ranks::proofs::Ranks::thinned_ranks))]
fn shrink(
    plan: Plan<'_>,
    room: &mut Room<'_>,
    partners: &mut [u64],
    a: usize,
    span: Span,
    way: u16,
) -> RoundFigures
    requires { let G = plan_network base.words plan in
        AreLong base (room_sizes (length plan.links.now) room.old)
        × (base.words ≤ length partners.old)
        × HoldsSearch base G (lent_in room.old) a (reached span.ecc span.own partners.old)
        × (a < places base) }
    ensures same { IsSameRoom room.old room.new }
    ensures left { let M = chart (plan_network base.words plan.entry) in
        ran (lent_in room.new) result.candidate result.count result.searches
        ≡ ran_by base (plan_network base.words plan.entry) (rounds M (length M.depots) (round M a (start way))) (lent_in room.old) }
{
    let mut ranks = [0u16; map::PLACES];
    let mut order = [0u16; ranks::NODES];
    let mut left = [0u64; map::WORDS];
    let mut next = [0u64; map::WORDS];
    let pairs = &mut *room.pairs;
    let hops = &mut *room.hops;
    let mut marks = Marks {
        bounds: &mut *room.bounds,
        skips: &mut *room.skips,
        ranks: &mut ranks,
    };
    rounds::begin(
        plan.members,
        plan.links,
        pairs,
        &mut marks,
        map::WORDS,
        map::OTHER,
    );
    let found = Finished {
        span,
        partners: &*partners,
    };
    let none = RoundFigures {
        candidate: way,
        count: 0,
        searches: 0,
    };
    let limit = rounds::raised(way, span.own);
    let first = rounds::absorb(
        pairs,
        &*hops,
        &mut marks,
        map::WORDS,
        map::SEARCHED,
        a,
        found,
        none,
        Some(limit),
    );
    let mut desk = Desk {
        left: &mut left,
        next: &mut next,
        partners: &mut *partners,
        ranks: &mut ranks,
    };
    rounds::run_rounds(
        plan.members,
        plan.targets,
        plan.links,
        room,
        &mut desk,
        &mut order,
        map::WORDS,
        map::SEARCHED,
        first,
    )
}

// ---- the whole step

// The figures where what is a's own is not above the chain, without the stale pairs. A yard has nothing of its own: it keeps only a chain that was 0.
// Of `likely` nothing is promised.
fn settle_low(
    plan: Plan<'_>,
    room: &mut Room<'_>,
    likely: &mut [u64; map::WORDS],
    partners: &mut [u64],
    a: usize,
    span: Span,
    stored: Farthest,
) -> Figures
    requires { let G = plan_network base.words plan in
        AreLong base (room_sizes (length plan.links.now) room.old)
        × (base.words ≤ length partners.old)
        × AreOpen base G room.old.pairs.now
        × HoldsSearch base G (lent_in room.old) a (reached span.ecc span.own partners.old)
        × (a < places base)
        × (span.own ≤ stored.chain)
        × (count_pairs (range (places base)) (table_bit base.words room.old.pairs.now) ≤ stored.count) }
    ensures same { IsSameRoom room.old room.new }
    ensures left { figured result.change (ran (lent_in room.new) result.chain result.count result.searches)
        ≡ figured_by base (plan_network base.words plan.entry) a stored.chain (lent_in room.old) }
{
    let pairs = &mut *room.pairs;
    let hops = &mut *room.hops;
    let left = stale_pairs::drop_stale::<TABLE>(pairs, likely, &*hops, map::WORDS, stored);
    let chain = stored.chain;
    if span.own == chain {
        let found = Finished {
            span,
            partners: &*partners,
        };
        let staying = Farthest {
            chain,
            count: left.count,
        };
        let sum = join(room.pairs, room.bounds, room.skips, a, found, staying);
        note_own(likely, &*partners, a);
        return Figures {
            change: Change::Kept,
            chain,
            count: sum,
            searches: 1,
        };
    }
    if left.count != 0 {
        bounds::mark_once(
            room.bounds,
            room.skips,
            map::WORDS,
            a,
            span.ecc,
            map::SEARCHED,
            map::OTHER,
        );
        return Figures {
            change: Change::Kept,
            chain,
            count: left.count,
            searches: 1,
        };
    }
    rows::clear(likely, map::WORDS);
    let got = shrink(plan, room, partners, a, span, left.way);
    Figures {
        change: Change::Shrank,
        chain: got.candidate,
        count: got.count,
        searches: got.searches,
    }
}

// The figures after a's links are in place, by the stored chain and the count of the stored pairs: the search from a and what it says of a, then the
// pairs, the marks and, if the chain shrank, the rounds. The targets are the depots that deliver. A hint, `likely`, says which rows of the pair table are
// thought to have a pair: of it nothing is asked and nothing promised.
pub fn refigure(
    plan: Plan<'_>,
    room: &mut Room<'_>,
    likely: &mut [u64; map::WORDS],
    a: usize,
    stored: Farthest,
) -> Figures
    requires { AreLong base (room_sizes (length plan.links.now) room.old)
        × IsFigurable base plan.members.now plan.targets.now plan.links.now (lent_in room.old) a stored.chain stored.count
        × (a < places base) }
    ensures same { IsSameRoom room.old room.new }
    ensures left { figured result.change (ran (lent_in room.new) result.chain result.count result.searches)
        ≡ figured_by base (plan_network base.words plan.entry) a stored.chain (lent_in room.old) }
{
    let mut partners = [0u64; map::WORDS];
    let hops = &mut *room.hops;
    let even = &mut *room.even;
    let odd = &mut *room.odd;
    let mut scratch = Scratch {
        hops: &mut *hops,
        even: &mut *even,
        odd: &mut *odd,
    };
    let depth = search::search_sound(plan.members, plan.links, &mut scratch, a);
    let span = rounds::reach_by(
        plan.targets,
        &*hops,
        &*even,
        &*odd,
        &mut partners,
        map::WORDS,
        a,
        depth,
    );
    if stored.chain < span.own {
        let found = Finished {
            span,
            partners: &partners,
        };
        let own = join(room.pairs, room.bounds, room.skips, a, found, stored);
        rows::clear(likely, map::WORDS);
        note_own(likely, &partners, a);
        return Figures {
            change: Change::Grew,
            chain: span.own,
            count: own,
            searches: 1,
        };
    }
    settle_low(plan, room, likely, &mut partners, a, span, stored)
}
