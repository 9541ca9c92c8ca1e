// Reference rounds over lent tables (rules 5.1 to 5.4), a round at a time. Rows of 1 to 512 words, of 1 to 511 where rounds run until none remains. A row's
// width comes beside it, as crate `rows` says.
// `words`, `mark` and `other` stay apart: `begin` has no use for `mark` and `absorb` none for `other`. So width and one mark go together, which are two, and
// all else that they call takes the width alone.

#![tactic(auto)]

ghost use Rattle.std.specs.Prelude.{◌≡◌, true, cond, ◌+◌, ◌*◌, ◌^◌, ◌<◌, ◌≤◌, ltb, length};
ghost use Rattle.pairs.specs.Pairs.{tally, Counted};
ghost use Rattle.bounds.specs.Bounds.{leave_of, relax_of};
ghost use Rattle.ranks.specs.Ranks.{AreRanks, AreThinned, PickIs};
ghost use Rattle.ranks.specs.Order.{OrderFits, AreLow, GoesOn, GoesOnBehind};
ghost use Rattle.targets.specs.Reach.{reached};
ghost use Rattle.rounds.specs.Workspace.{reach_in, absorbed, taking, round_of, run_of, rounds_begun, rounds_begin_of};
ghost use Rattle.map.specs.Room.{tables};
ghost use Rattle.map.specs.Slices.{IsSameRoom};
ghost use Rattle.bounds.specs.Slices.{marks_in, MarksFit, IsSameMarks};
ghost use Rattle.rounds.specs.Slices.{workspace_in, MarksFitIn, RoomFits, IsSameDesk, said_of, limit_in, marks_of, AreLevel, IsSettled};

mod plan;

use bounds::Marks;
use map::{Room, Scratch};
use pairs::Farthest;
pub use plan::Plan;
use targets::{Span, TargetHops, TargetSearch};

// ---- what a round is told and lent

// What rounds keep beside the lent room: the codes left and the next layer of a search, a row for partners, and the ranks of the depots that remain.
#[derive(Drop)]
pub struct Desk<'a> {
    pub left: &'a mut [u64],
    pub next: &'a mut [u64],
    pub partners: &'a mut [u64],
    pub ranks: &'a mut [u16],
}

// ---- one round

// What a search from r to this depth says of it, by the last layer that is handed back of the two lent rows: how
// far the targets lie, and its partners. It takes the three tables as shared slices: it only reads them, and a
// caller that has nothing else can ask too. They have one lifetime, since a struct holds two of them.
#[tactic(auto, using(crate::proofs::Reaching::reach_handed, layers::proofs::Parts::last_long))]
pub fn reach_by<'a>(
    targets: &'a [u64],
    hops: &'a [u16],
    even: &'a [u64],
    odd: &'a [u64],
    partners: &mut [u64],
    words: usize,
    r: usize,
    depth: u16,
) -> Span
    requires { (words ≤ length targets.now)
        × (64 * words ≤ length hops.now)
        × (words ≤ length even.now)
        × (words ≤ length odd.now)
        × (words ≤ length partners.old)
        × (words < 2 ^ 32)
        × (r < 64 * words) }
    ensures { reached result.ecc result.own partners.new
        ≡ reach_in words targets.now r depth (tables hops.now even.now odd.now) partners.old }
{
    let last = layers::last_layer(even, odd, words, depth);
    let seen = TargetHops {
        targets,
        hops,
        words,
    };
    TargetSearch { seen, last, depth }.reach(partners, r)
}

// The candidate after a search whose own eccentricity is e.
#[tactic(auto, using(std::proofs::lemmas::Bool::cond_below, std::proofs::lemmas::Bool::cond_above))]
pub fn raised(candidate: u16, e: u16) -> u16
    ensures { result ≡ cond (ltb candidate e) e candidate }
{
    candidate.max(e)
}

// Candidate, pair count and number of searches.
#[derive(Clone, Copy)]
pub struct RoundFigures {
    pub candidate: u16,
    pub count: u32,
    pub searches: u16,
}

// ---- a finished search

// What a finished search says of its start. The start stands beside it, since behind a struct the compiler no longer knows how small it is (1 % more
// instructions); and so does the hop table: of one that a room lends nothing is known any more once it has stood in a second struct.
#[derive(Clone, Copy)]
pub struct Finished<'a> {
    pub span: Span,
    pub partners: &'a [u64],
}

// Below which bound a depot is skipped: the limit, or 0, below which no bound lies.
fn least_kept(limit: Option<u16>) -> u16
    ensures { result ≡ limit_in limit }
{
    match limit {
        Some(c) => c,
        None => 0,
    }
}

// Whether a pass over the bounds would change nothing, where `level` is the bound that every remaining depot has: it is not below the limit c, and a search
// with the eccentricity e offers none below it.
fn stays(level: Option<u16>, e: u16, c: u16) -> bool
    ensures { result ≡ true → IsSettled level e c }
{
    match level {
        Some(v) => c <= v && v <= e,
        None => false,
    }
}

// What a search from r with the eccentricity e does to the marks: r leaves the remaining; then their bounds, and those below the limit are skipped. Where
// that changes nothing the pass is left out. The answer is the bound that every remaining depot has then, if it is known.
#[tactic(auto, using(ranks::proofs::Ranks::thinned_twice))]
fn spread(
    hops: &[u16],
    marks: &mut Marks<'_>,
    words: usize,
    mark: u16,
    r: usize,
    e: u16,
    limit: Option<u16>,
    level: Option<u16>,
) -> Option<u16>
    requires { MarksFit words marks.old
        × (64 * words ≤ length hops.now)
        × (r < 64 * words)
        × AreLevel words level (marks_in words marks.old) }
    ensures same { IsSameMarks marks.old marks.new }
    ensures marked { let left = leave_of words r e mark (marks_in words marks.old) in
        marks_in words marks.new ≡ relax_of words hops.now r e (limit_in limit) left }
    ensures thinned { AreThinned words marks.old.ranks.now marks.new.ranks.now }
    ensures level { AreLevel words result (marks_in words marks.new) }
{
    bounds::leave(marks, words, r, e, mark);
    let c = least_kept(limit);
    if stays(level, e, c) {
        return level;
    }
    let top = bounds::relax(hops, marks, words, r as u16, e, c);
    if top <= c {
        return Some(c);
    }
    None
}

// Takes in a finished search from r: candidate and pairs by what is its own, marks by its eccentricity; then the depots whose bound is below the limit are
// skipped. A caller that skips by the candidate gives the raised one; without a limit nobody is skipped yet.
#[tactic(auto, using(crate::proofs::Turns::taken))]
pub fn absorb(
    pairs: &mut [u64],
    hops: &[u16],
    marks: &mut Marks<'_>,
    words: usize,
    mark: u16,
    r: usize,
    found: Finished<'_>,
    before: RoundFigures,
    limit: Option<u16>,
) -> RoundFigures
    requires { Counted words pairs.old before.count
        × MarksFit words marks.old
        × (64 * words ≤ length hops.now)
        × (r < 64 * words)
        × (words ≤ length found.partners.now)
        × (before.searches < 65535) }
    ensures same { IsSameMarks marks.old marks.new }
    ensures taken { let h = hops.now in
        let entry = absorbed (tally pairs.old before.count) (marks_in words marks.old) before.candidate in
        let after = absorbed (tally pairs.new result.count) (marks_in words marks.new) result.candidate in
        after ≡ taking (limit_in limit) words mark r (said_of found.entry) h entry }
    ensures counted { Counted words pairs.new result.count }
    ensures thinned { AreThinned words marks.old.ranks.now marks.new.ranks.now }
    ensures searches { result.searches ≡ before.searches + 1 }
{
    let own = found.span.own;
    let known = Farthest {
        chain: before.candidate,
        count: before.count,
    };
    let count = pairs::settle(pairs, found.partners, words, r, own, known);
    spread(hops, marks, words, mark, r, found.span.ecc, limit, None);
    RoundFigures {
        candidate: raised(before.candidate, own),
        count,
        searches: before.searches + 1,
    }
}

// ---- one round more

// The figures so far, and the bound that every remaining depot has, if it is known.
#[derive(Clone, Copy)]
struct Turn {
    figures: RoundFigures,
    level: Option<u16>,
}

// One round: a search from r, taken in. What stands in left, next and partners afterwards is free.
// It takes members, targets and links apart, as `run_rounds` does, and `begin` members and links: a `Plan` says that its targets are those of the base's
// width, and rounds go by any.
fn round(
    members: &[u64],
    targets: &[u64],
    links: &[u64],
    room: &mut Room<'_>,
    desk: &mut Desk<'_>,
    words: usize,
    mark: u16,
    r: usize,
    before: Turn,
) -> Turn
    requires { RoomFits words members.now targets.now links.now room.old desk.old
        × Counted words room.old.pairs.now before.figures.count
        × MarksFitIn words room.old desk.old
        × (r < 64 * words)
        × (before.figures.searches ≤ 64 * words + 1)
        × AreLevel words before.level (marks_of words room.old desk.old) }
    ensures same_room { IsSameRoom room.old room.new }
    ensures same_desk { IsSameDesk desk.old desk.new }
    ensures left { let entry = workspace_in words room.old desk.old before.figures in
        workspace_in words room.new desk.new result.figures ≡ round_of words targets.now links.now mark r entry }
    ensures thinned { AreThinned words desk.old.ranks.now desk.new.ranks.now }
    ensures level { AreLevel words result.level (marks_of words room.new desk.new) }
{
    let pairs = &mut *room.pairs;
    let hops = &mut *room.hops;
    let even = &mut *room.even;
    let odd = &mut *room.odd;
    let partners = &mut *desk.partners;
    let mut scratch = Scratch {
        hops: &mut *hops,
        even: &mut *even,
        odd: &mut *odd,
    };
    let mut marks = Marks {
        bounds: &mut *room.bounds,
        skips: &mut *room.skips,
        ranks: &mut *desk.ranks,
    };
    let depth = layers::search_table(members, links, &mut scratch, desk.left, desk.next, words, r);
    let span = reach_by(targets, &*hops, &*even, &*odd, partners, words, r, depth);
    let limit = raised(before.figures.candidate, span.own);
    let known = Farthest {
        chain: before.figures.candidate,
        count: before.figures.count,
    };
    let count = pairs::settle(pairs, &*partners, words, r, span.own, known);
    let level = spread(
        &*hops,
        &mut marks,
        words,
        mark,
        r,
        span.ecc,
        Some(limit),
        before.level,
    );
    let figures = RoundFigures {
        candidate: limit,
        count,
        searches: before.figures.searches + 1,
    };
    Turn { figures, level }
}

// ---- rounds until none remains

// Orders the codes by the ranks on the desk.
fn order_all(order: &mut [u16], desk: &Desk<'_>, words: usize) -> usize
    requires { OrderFits words order.old desk.now.ranks.now × AreLow words desk.now.ranks.now }
    ensures { GoesOn words desk.now.ranks.now order.new result }
{
    ranks::order_all(order, &*desk.ranks, words)
}

// The next reference, by the ranks on the desk.
fn pick_next(order: &[u16], desk: &Desk<'_>, words: usize, last: usize) -> Option<usize>
    requires { OrderFits words order.now desk.now.ranks.now × GoesOn words desk.now.ranks.now order.now last }
    ensures picked { PickIs words desk.now.ranks.now result }
    ensures place { GoesOnBehind words desk.now.ranks.now order.now result }
{
    ranks::pick_next(order, &*desk.ranks, words, last)
}

// Rounds until no depot remains, after up to two searches. What stands on the desk and in the order afterwards is free where the caller does not look.
// The order is lent beside the desk: a round has no use for it.
pub fn run_rounds(
    members: &[u64],
    targets: &[u64],
    links: &[u64],
    room: &mut Room<'_>,
    desk: &mut Desk<'_>,
    order: &mut [u16],
    words: usize,
    mark: u16,
    before: RoundFigures,
) -> RoundFigures
    requires { RoomFits words members.now targets.now links.now room.old desk.old
        × Counted words room.old.pairs.now before.count
        × MarksFitIn words room.old desk.old
        × AreRanks words links.now desk.old.ranks.now
        × (before.searches < 3)
        × OrderFits words order.old desk.old.ranks.now }
    ensures same_room { IsSameRoom room.old room.new }
    ensures same_desk { IsSameDesk desk.old desk.new }
    ensures left { let entry = workspace_in words room.old desk.old before in
        workspace_in words room.new desk.new result ≡ run_of words targets.now links.now mark (64 * words) entry }
{
    // nothing is known of the bounds yet
    let level = None;
    let mut now = Turn {
        figures: before,
        level,
    };
    let mut last = order_all(order, &*desk, words);
    while let Some(r) = pick_next(&*order, &*desk, words, last) {
        now = round(members, targets, links, room, desk, words, mark, r, now);
        last = r;
    }
    now.figures
}

// The start of rounds: no pair, no bound, no mark, every open depot remaining.
#[tactic(auto, using(crate::proofs::Turns::beginning))]
pub fn begin(
    members: &[u64],
    links: &[u64],
    pairs: &mut [u64],
    marks: &mut Marks<'_>,
    words: usize,
    other: u16,
)
    requires { MarksFit words marks.old
        × (words * (64 * words) ≤ length pairs.old)
        × (words ≤ length members.now)
        × (words * (64 * words) ≤ length links.now) }
    ensures same { IsSameMarks marks.old marks.new }
    ensures begun { rounds_begun pairs.new (marks_in words marks.new)
        ≡ rounds_begin_of words other members.now (rounds_begun pairs.old (marks_in words marks.old)) }
    ensures ranked { AreRanks words links.now marks.new.ranks.now }
{
    rows::clear_table(pairs, words);
    rows::fill(marks.bounds, 64 * words, map::UNREACHED);
    rows::fill(marks.skips, 64 * words, other);
    ranks::rank_all(members, links, marks.ranks, words);
}
