// Many pairs: every row that has one is done, by whole words, and those with a pair are looked for
// as they come.

ghost use Rattle.std.specs.Prelude.{◌≡◌, ◌*◌, ◌<◌, ◌≤◌, ltb, length};
ghost use Rattle.lists.specs.Lists.{range};
ghost use Rattle.graph.specs.Chart.{count_pairs};
ghost use Rattle.rows.specs.Rows.{table_bit};
ghost use Rattle.pairs.specs.Pairs.{tally};
ghost use Rattle.stale_pairs.specs.Stale.{HasHops, way_by, way_by_either, sifted, sift_of};
ghost use Rattle.stale_pairs.specs.Stale.{dropped, drop_of, IsSifter, Drops, pairs_below};
ghost use Rattle.stale_pairs.specs.Balls.{AreBalls, BallsFit};
ghost use Rattle.stale_pairs.specs.RowsDone.{RowsDone};

use crate::Dropping;
use crate::passing::{drop_row, next_row};
use crate::sift::Sifted;
use crate::whole::{put_balls, sift_whole_by, sift_whole_by_either};
use pairs::Farthest;

// ---- some rows

// The same of rows that have many pairs, in which those with a pair are looked for as they come: to
// keep them would save nothing.
fn drop_dense_rows<F: Fn(u64, usize, usize) -> Sifted>(
    pairs: &mut [u64],
    sifter: &F,
    words: usize,
    rows: usize,
    total: u32,
) -> Dropping
    requires room { (words < 513)
        × (words * (64 * words) ≤ length pairs.old)
        × (rows ≤ 64 * words)
        × (pairs_below words rows pairs.old ≤ total) }
    requires sifter { IsSifter words (F.pre sifter.now) (F.post sifter.now) }
    ensures { Drops words (F.post sifter.now) (λ u. ltb u rows) pairs.old pairs.new result }
{
    let mut gone: u32 = 0;
    let mut count: u32 = 0;
    let mut way: u16 = 0;
    let mut u = next_row(&*pairs, words, rows, 0, true);
    while u < rows {
        let part = drop_row(pairs, sifter, words, u);
        gone += part.gone;
        count += part.count;
        way = way.max(part.way);
        if gone + count < total {
            u = next_row(&*pairs, words, rows, u + 1, true);
        } else {
            u = rows;
        }
    }
    Dropping { gone, count, way }
}

// ---- the whole table

// Drops the stale pairs by whole words. The balls stand in local memory, which a call that drops
// few does not pay for. It is kept apart, so that what such a call runs through stays short enough
// to be written into its callers. What sifts is told the array and no slice of it, so that it is
// another function for each N: one that had two callers would not be written into its loop.
#[inline(never)]
#[tactic(auto, using(crate::proofs::StaleTable::below_all))]
pub(crate) fn drop_many<const N: usize>(
    pairs: &mut [u64],
    hops: &[u16],
    words: usize,
    stored: Farthest,
) -> Dropping
    requires { HasHops words pairs.old hops.now
        × (count_pairs (range (64 * words)) (table_bit words pairs.old) ≤ stored.count)
        × BallsFit words stored.chain N }
    ensures left { let way = way_by hops.now in
        let after = dropped (tally pairs.new result.count) result.way in
        after ≡ drop_of words way stored.chain pairs.old }
    ensures done { let way = way_by hops.now in
        RowsDone words way stored.chain (λ u. ltb u (64 * words)) pairs.old pairs.new result.gone }
{
    let chain = stored.chain;
    let mut balls = [0u64; N];
    put_balls(&mut balls, hops, words, chain as usize);
    let sifter = |x: u64, u: usize, j: usize| -> Sifted
        requires { (words < 513) × AreBalls words chain hops.now balls × (u < length hops.now) × (j < words) }
        ensures { sifted result.word result.gone result.kept result.way ≡ sift_of (way_by hops.entry.now) chain u (64 * j) x }
    { sift_whole_by(&balls, hops, words, x, u, j, chain) };
    drop_dense_rows(pairs, &sifter, words, 64 * words, stored.count)
}

// The same by two searches.
#[inline(never)]
#[tactic(auto, using(crate::proofs::StaleTable::below_all))]
pub(crate) fn drop_many_either<const N: usize>(
    pairs: &mut [u64],
    near: &[u16],
    far: &[u16],
    words: usize,
    stored: Farthest,
) -> Dropping
    requires { HasHops words pairs.old near.now
        × HasHops words pairs.old far.now
        × (count_pairs (range (64 * words)) (table_bit words pairs.old) ≤ stored.count)
        × BallsFit words stored.chain N }
    ensures left { let way = way_by_either near.now far.now in
        let after = dropped (tally pairs.new result.count) result.way in
        after ≡ drop_of words way stored.chain pairs.old }
    ensures done { let way = way_by_either near.now far.now in
        RowsDone words way stored.chain (λ u. ltb u (64 * words)) pairs.old pairs.new result.gone }
{
    let chain = stored.chain;
    let mut near_balls = [0u64; N];
    let mut far_balls = [0u64; N];
    put_balls(&mut near_balls, near, words, chain as usize);
    put_balls(&mut far_balls, far, words, chain as usize);
    let sifter = |x: u64, u: usize, j: usize| -> Sifted
        requires { (words < 513)
            × AreBalls words chain near.now near_balls
            × AreBalls words chain far.now far_balls
            × (u < length near.now)
            × (u < length far.now)
            × (j < words) }
        ensures { let way = way_by_either near.entry.now far.entry.now in
            sifted result.word result.gone result.kept result.way ≡ sift_of way chain u (64 * j) x }
    { sift_whole_by_either(&near_balls, near, &far_balls, far, words, x, u, j, chain) };
    drop_dense_rows(pairs, &sifter, words, 64 * words, stored.count)
}
