// The network report: the sum of the distances over all pairs of depots that deliver, the number of pairs, the mean, and how many of them have each
// eccentricity. A search from each in rising code; of what it left, the hops of those above are added, and the last layer gives the eccentricity.

#![tactic(auto)]

pub mod promises;

ghost use Rattle.std.specs.Prelude.{[], ◌≡◌, ◌<◌, ◌≤◌, ltb, length, get_or};
ghost use Rattle.lists.specs.Lists.{filterb, sum_of, max_of};
ghost use Rattle.graph.specs.Distance.{vertices, unreached, dist};
ghost use Rattle.outcome.specs.Answers.{answer_of, refusal_in, leaves};
ghost use Rattle.map.specs.Room.{AreLong};
ghost use Rattle.map.specs.Slices.{tables_in, scratch_sizes, IsSameScratch};
ghost use Rattle.map.specs.Memory.{base, places, network_of, table_network};
ghost use Rattle.layers.specs.Begin.{HoldsEnds};
ghost use Rattle.layers.specs.Layers.{search_leaves};
ghost use Rattle.summary.specs.Steps.{tally_of, count_one, AreNear, totalled, total_over};
ghost use Rattle.summary.specs.SummaryCall.{summary_refusal, summary_call};

use map::{Record, Scratch};
use outcome::Refusal;
use targets::{Later, TargetHops};

// ---- one destination

// What the search from a destination gives: the hops of the targets above it added, how many these are, and the greatest hop of all targets.
#[derive(Clone, Copy)]
struct Tally {
    sum: u64,
    pairs: u64,
    ecc: u16,
}

// The hops of the targets above u added, and how many these are, after a search from u.
// The contract says how long the hop table is: each search writes it, so that no field of a struct of shared slices can.
fn sum_later(targets: &[u64; map::WORDS], scratch: &Scratch<'_>, u: usize) -> Later
    requires { (places base ≤ length scratch.now.hops.now) × (u < places base) }
    ensures { let later = filterb (λ v. ltb u v) (vertices (network_of base.words targets.now [])) in
        (result.sum ≡ sum_of (λ v. get_or scratch.now.hops.now v 0) later) × (result.pairs ≡ length later) }
{
    let seen = TargetHops {
        targets,
        hops: &*scratch.hops,
        words: map::WORDS,
    };
    seen.sum_above(u)
}

// Searches from u, tallies the targets, and counts one destination of its eccentricity.
fn search_target(
    members: &[u64; map::WORDS],
    targets: &[u64; map::WORDS],
    links: &[u64],
    scratch: &mut Scratch<'_>,
    counts: &mut [u16],
    u: usize,
) -> Tally
    requires { let depots = vertices (network_of base.words targets.now []) in
        let ecc = max_of (dist (table_network base.words links.now) u) depots in
        AreLong base (scratch_sizes (length links.now) scratch.old)
        × HoldsEnds base.words members.now links.now
        × (ecc < length counts.old)
        × (ecc < unreached)
        × (get_or counts.old ecc 0 ≤ places base)
        × (u < places base) }
    ensures same { IsSameScratch scratch.old scratch.new }
    ensures left { let N = table_network base.words links.now in
        let depots = vertices (network_of base.words targets.now []) in
        (result ≡ tally_of (dist N u) u depots)
        × (tables_in scratch.new ≡ search_leaves base.words N u (tables_in scratch.old))
        × (counts.new ≡ count_one (max_of (dist N u) depots) counts.old) }
{
    let found = search::search_to(members, targets, links, scratch, u);
    let later = sum_later(targets, &*scratch, u);
    let e = found.ecc as usize;
    counts[e] += 1;
    Tally {
        sum: later.sum,
        pairs: later.pairs,
        ecc: found.ecc,
    }
}

// ---- all destinations

// Searches from every target in rising code, adds the tallies up, and counts the eccentricities afresh. Its answer holds those above of every target: the
// sum of the distances, and the number of pairs.
fn total_over(
    members: &[u64; map::WORDS],
    targets: &[u64; map::WORDS],
    links: &[u64],
    scratch: &mut Scratch<'_>,
    counts: &mut [u16],
) -> Later
    requires { AreLong base (scratch_sizes (length links.now) scratch.old)
        × (places base ≤ length counts.old)
        × AreNear base.words targets.now links.now
        × HoldsEnds base.words members.now links.now }
    ensures same { IsSameScratch scratch.old scratch.new }
    ensures left { totalled result.sum result.pairs (tables_in scratch.new) counts.new
        ≡ total_over base.words targets.now links.now (tables_in scratch.old) counts.old }
{
    rows::fill(counts, map::PLACES, 0);
    let mut sum: u64 = 0;
    let mut pairs: u64 = 0;
    for u in map::open_depots(targets) {
        let t = search_target(members, targets, links, scratch, counts, u);
        sum += t.sum;
        pairs += t.pairs;
    }
    Later { sum, pairs }
}

// ---- the public call

// What a report answers: the sum of the distances, the number of pairs, and quotient and remainder of the mean.
#[derive(Clone, Copy)]
pub struct Summary {
    pub sum: u64,
    pub pairs: u64,
    pub quotient: u64,
    pub remainder: u64,
}

// The first refusal of a report that holds. It only reads.
#[tactic(auto, using(crate::proofs::Accepts::refused))]
fn summary_refusal(
    rec: Record,
    links: &[u64],
    scratch: &Scratch<'_>,
    counts: usize,
) -> Result<(), Refusal>
    ensures { let T = tables_in scratch.now in
        refusal_in (answer_of result) ≡ summary_refusal base rec links.now (length T.hops) (length T.even) (length T.odd) counts }
{
    if counts < map::PLACES {
        return Err(Refusal::Short);
    }
    lent_map::map_refusal(rec, links, None, scratch.is_long(links.len()))?;
    let mut delivering = rec.members;
    let yards = rec.yards;
    map::keep_delivering(&mut delivering, &yards, map::WORDS);
    if rows::degree(&delivering, map::WORDS, 0) < 2 {
        return Err(Refusal::TooFew);
    }
    Ok(())
}

// The network report, with how many depots have each eccentricity in the lent counts; or the first refusal that holds, and then nothing is changed.
// The depots that count are those that deliver: the open set without the yards.
pub fn summarise(
    rec: Record,
    links: &[u64],
    scratch: &mut Scratch<'_>,
    counts: &mut [u16],
) -> Result<Summary, Refusal>
    ensures same { IsSameScratch scratch.old scratch.new }
    ensures left { let call = summary_call base rec links.now (tables_in scratch.old) counts.old in
        leaves (answer_of result) (tables_in scratch.new, counts.new) ≡ call }
{
    summary_refusal(rec, links, &*scratch, counts.len())?;
    let members = rec.members;
    let mut targets = rec.members;
    let yards = rec.yards;
    map::keep_delivering(&mut targets, &yards, map::WORDS);
    let t = total_over(&members, &targets, links, scratch, counts);
    Ok(Summary {
        sum: t.sum,
        pairs: t.pairs,
        quotient: t.sum / t.pairs,
        remainder: t.sum % t.pairs,
    })
}
