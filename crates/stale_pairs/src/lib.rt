// Stale pairs dropped from the pair table itself: those that a search, or either of two, shows to
// be nearer than the chain. A row of words may be up to 512 long.
// Rows are done one after the other, each in its place: there is no second pair table. Where there
// are few pairs (`likely`) each is looked at, and callers lend a row besides, in which the rows
// that are thought to have a pair are kept from call to call, so that the others need not be looked
// at. Where there are many (`dense`), a row loses whole words: the codes that a search finds near
// enough, its balls, which are made first (`whole`). What holds of the rows done, whichever they
// are, is `RowsDone`.
// What a function ensures of table, counts and way is one equation, so that callers rewrite by it.
// A row's width comes beside it, as crate `rows` says.

#![tactic(auto)]

mod dense;
mod likely;
mod passing;
mod sift;
mod whole;

ghost use Rattle.std.specs.Prelude.{IsTrue, ◌≡◌, ◌^◌, ◌*◌, ◌<◌, ◌≤◌, ltb, length};
ghost use Rattle.lists.specs.Lists.{range};
ghost use Rattle.graph.specs.Chart.{count_pairs};
ghost use Rattle.rows.specs.Rows.{table_bit};
ghost use Rattle.pairs.specs.Pairs.{tally};
ghost use Rattle.stale_pairs.specs.Stale.{HasHops, way_by, way_by_either, dropped, drop_of};
ghost use Rattle.stale_pairs.specs.Balls.{BallsFit, ChoiceFits};
ghost use Rattle.stale_pairs.specs.RowsDone.{RowsDone};

use dense::{drop_many, drop_many_either};
use likely::{drop_few, drop_few_either};
use pairs::Farthest;

// From so many pairs on they are dropped by whole words: on a star that is quicker from some 90 on.
const MANY: u32 = 100;

// words that the balls of a short chain fit into: 64 rows of four words
const SHORT: usize = 256;

// Of the rows done: how many of their pairs are gone, how many stay, and the greatest way of those
// that were there.
#[derive(Clone, Copy)]
pub struct Dropping {
    pub gone: u32,
    pub count: u32,
    pub way: u16,
}

// ---- few or many

// Whether n words hold the balls up to the row `most`.
fn balls_fit(words: usize, most: u16, n: usize) -> bool
    requires { (words < 513) × (n < 2 ^ 60) }
    ensures { IsTrue result → BallsFit words most n }
{
    let rows = most as usize;
    if 64 * words <= rows {
        return false;
    }
    words * rows + words <= n
}

// How pairs are dropped: member by member, or by whole words whose balls stand in few words or in
// as many as the caller has.
#[derive(Clone, Copy)]
enum Choice {
    Members,
    ShortBalls,
    ManyBalls,
}

// The choice where `searches` tables of balls have to be made: many pairs go by whole words, if the
// balls fit into N words. To make these costs less than to go over the pairs. For a short chain a
// few rows do.
fn choose<const N: usize>(words: usize, stored: Farthest, searches: u32) -> Choice
    requires { (words < 513) × (N < 2 ^ 60) × (searches < 3) }
    ensures { ChoiceFits words stored.chain N result }
{
    if stored.count < searches * MANY {
        return Choice::Members;
    }
    if balls_fit(words, stored.chain, SHORT) {
        return Choice::ShortBalls;
    }
    if balls_fit(words, stored.chain, N) {
        return Choice::ManyBalls;
    }
    Choice::Members
}

// Drops the stale pairs of the table in place, of which it has no more than the stored count, and
// answers what is left of them and the greatest way that was there. Many go by whole words, if the
// balls fit into N words: to make these costs less than to go over the pairs. For a short chain a
// few rows do.
pub fn drop_stale<const N: usize>(
    pairs: &mut [u64],
    likely: &mut [u64],
    hops: &[u16],
    words: usize,
    stored: Farthest,
) -> Dropping
    requires { HasHops words pairs.old hops.now
        × (words ≤ length likely.old)
        × (count_pairs (range (64 * words)) (table_bit words pairs.old) ≤ stored.count)
        × (N < 2 ^ 60) }
    ensures left { let way = way_by hops.now in
        let after = dropped (tally pairs.new result.count) result.way in
        after ≡ drop_of words way stored.chain pairs.old }
    ensures done { let way = way_by hops.now in
        RowsDone words way stored.chain (λ u. ltb u (64 * words)) pairs.old pairs.new result.gone }
{
    match choose::<N>(words, stored, 1) {
        Choice::Members => drop_few(pairs, likely, hops, words, stored),
        Choice::ShortBalls => drop_many::<SHORT>(pairs, hops, words, stored),
        Choice::ManyBalls => drop_many::<N>(pairs, hops, words, stored),
    }
}

// `drop_stale` by two searches: a pair is stale that either shows to be nearer than the chain.
// There are two tables of balls to make.
pub fn drop_stale_either<const N: usize>(
    pairs: &mut [u64],
    likely: &mut [u64],
    near: &[u16],
    far: &[u16],
    words: usize,
    stored: Farthest,
) -> Dropping
    requires { HasHops words pairs.old near.now
        × HasHops words pairs.old far.now
        × (words ≤ length likely.old)
        × (count_pairs (range (64 * words)) (table_bit words pairs.old) ≤ stored.count)
        × (N < 2 ^ 60) }
    ensures left { let way = way_by_either near.now far.now in
        let after = dropped (tally pairs.new result.count) result.way in
        after ≡ drop_of words way stored.chain pairs.old }
    ensures done { let way = way_by_either near.now far.now in
        RowsDone words way stored.chain (λ u. ltb u (64 * words)) pairs.old pairs.new result.gone }
{
    match choose::<N>(words, stored, 2) {
        Choice::Members => drop_few_either(pairs, likely, near, far, words, stored),
        Choice::ShortBalls => drop_many_either::<SHORT>(pairs, near, far, words, stored),
        Choice::ManyBalls => drop_many_either::<N>(pairs, near, far, words, stored),
    }
}
