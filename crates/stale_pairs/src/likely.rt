// Few pairs: the rows that are thought to have one are done, each member looked at; all rows that
// have one where some were missed.

ghost use Rattle.std.specs.Prelude.{◌≡◌, ◌*◌, ◌<◌, ◌≤◌, ltb, length};
ghost use Rattle.lists.specs.Lists.{range};
ghost use Rattle.graph.specs.Chart.{count_pairs};
ghost use Rattle.rows.specs.Rows.{row_bit, table_bit};
ghost use Rattle.pairs.specs.Pairs.{tally};
ghost use Rattle.stale_pairs.specs.Stale.{HasHops, way_by, way_by_either, dropped, drop_of};
ghost use Rattle.stale_pairs.specs.Stale.{IsSifter, Drops, among, pairs_in, pairs_below, NextLikely, Covers};
ghost use Rattle.stale_pairs.specs.RowsDone.{RowsDone};

use crate::Dropping;
use crate::passing::{drop_row, next_row};
use crate::sift::{Sifted, sift_by, sift_by_either};
use pairs::Farthest;

// ---- the rows that are thought to have a pair

// The next row from u on that is thought to have a pair, all rows where none is.
#[tactic(auto, using(crate::proofs::LikelyRows::likely_next, crate::proofs::LikelyRows::likely_none))]
fn next_likely(likely: &[u64], words: usize, rows: usize, u: usize) -> usize
    requires { (words < 513) × (words ≤ length likely.now) × (u ≤ rows) }
    ensures { NextLikely words rows likely.now u result }
{
    match rows::next_member(likely, words, u) {
        Some(p) => p.min(rows),
        None => rows,
    }
}

// Takes the rows that have no pair out of those that are thought to have one. Nothing is promised
// of what is thought.
fn forget_bare(pairs: &[u64], likely: &mut [u64], words: usize, rows: usize)
    requires { (words < 513)
        × (words * (64 * words) ≤ length pairs.now)
        × (rows ≤ 64 * words)
        × (words ≤ length likely.old) }
{
    let mut u = next_likely(&*likely, words, rows, 0);
    while u < rows {
        if rows::all_zero(&pairs[words * u..words * u + words]) {
            let w = likely[u / 64];
            likely[u / 64] = words::without_bit(w, u % 64);
        }
        u = next_likely(&*likely, words, rows, u + 1);
    }
}

// Looks through the first rows for those that have a pair, and thinks it of these alone, of which
// it promises that none is missing.
#[tactic(auto, using(crate::proofs::LikelyRows::covers_start, crate::proofs::LikelyRows::covers_more))]
fn note_rows(pairs: &[u64], likely: &mut [u64], words: usize, rows: usize)
    requires { (words < 513)
        × (words * (64 * words) ≤ length pairs.now)
        × (rows ≤ 64 * words)
        × (words ≤ length likely.old) }
    ensures { Covers words rows pairs.now likely.new }
{
    rows::clear(likely, words);
    let mut u = next_row(pairs, words, rows, 0, false);
    while u < rows {
        rows::row_set(likely, words, 0, u);
        u = next_row(pairs, words, rows, u + 1, false);
    }
}

// ---- some rows

// Drops the stale pairs of those of the first rows that are thought to have a pair, a row after the
// other. No more than `total` pairs stand in the first rows, so that no row is looked at behind the
// last of these.
fn drop_likely<F: Fn(u64, usize, usize) -> Sifted>(
    pairs: &mut [u64],
    likely: &[u64],
    sifter: &F,
    words: usize,
    rows: usize,
    total: u32,
) -> Dropping
    requires room { (words < 513)
        × (words * (64 * words) ≤ length pairs.old)
        × (rows ≤ 64 * words)
        × (words ≤ length likely.now)
        × (pairs_in words (among rows (row_bit words likely.now)) pairs.old ≤ total) }
    requires sifter { IsSifter words (F.pre sifter.now) (F.post sifter.now) }
    ensures { let done = among rows (row_bit words likely.now) in
        Drops words (F.post sifter.now) done pairs.old pairs.new result }
{
    let mut gone: u32 = 0;
    let mut count: u32 = 0;
    let mut way: u16 = 0;
    // A row is jumped to, so that no range counts the rows.
    let mut u = next_likely(likely, words, rows, 0);
    while u < rows {
        let row = drop_row(pairs, sifter, words, u);
        gone += row.gone;
        count += row.count;
        way = way.max(row.way);
        if gone + count == total {
            u = rows;
        } else {
            u = next_likely(likely, words, rows, u + 1);
        }
    }
    Dropping { gone, count, way }
}

// Drops the stale pairs of the first rows in place: those rows have their pairs that stay, the
// others are as they were, and the pairs gone are counted. No more than `total` pairs stand in
// them. First the rows that are thought to have a pair are done. Nothing is promised of what is
// thought: where fewer pairs are met, all rows are looked through and those that have one are done,
// some again, which costs time and changes nothing. How a word is sifted is told, by one search or
// by two, and the compiler writes it into the loop.
pub fn drop_rows<F: Fn(u64, usize, usize) -> Sifted>(
    pairs: &mut [u64],
    likely: &mut [u64],
    sifter: &F,
    words: usize,
    rows: usize,
    total: u32,
) -> Dropping
    requires room { (words < 513)
        × (words * (64 * words) ≤ length pairs.old)
        × (rows ≤ 64 * words)
        × (words ≤ length likely.old)
        × (pairs_below words rows pairs.old ≤ total) }
    requires sifter { IsSifter words (F.pre sifter.now) (F.post sifter.now) }
    ensures { Drops words (F.post sifter.now) (λ u. ltb u rows) pairs.old pairs.new result }
{
    let first = drop_likely(pairs, &*likely, sifter, words, rows, total);
    if first.gone + first.count == total {
        if first.gone != 0 && first.count != 0 {
            forget_bare(&*pairs, likely, words, rows);
        }
        return first;
    }
    note_rows(&*pairs, likely, words, rows);
    let rest = drop_likely(pairs, &*likely, sifter, words, rows, total - first.gone);
    Dropping {
        gone: first.gone + rest.gone,
        count: rest.count,
        way: first.way.max(rest.way),
    }
}

// ---- the whole table

// Drops the stale pairs member by member.
#[tactic(auto, using(crate::proofs::StaleTable::below_all))]
pub(crate) fn drop_few(
    pairs: &mut [u64],
    likely: &mut [u64],
    hops: &[u16],
    words: usize,
    stored: Farthest,
) -> Dropping
    requires { HasHops words pairs.old hops.now
        × (words ≤ length likely.old)
        × (count_pairs (range (64 * words)) (table_bit words pairs.old) ≤ stored.count) }
    ensures left { let way = way_by hops.now in
        let after = dropped (tally pairs.new result.count) result.way in
        after ≡ drop_of words way stored.chain pairs.old }
    ensures done { let way = way_by hops.now in
        RowsDone words way stored.chain (λ u. ltb u (64 * words)) pairs.old pairs.new result.gone }
{
    let chain = stored.chain;
    let sifter = |x: u64, u: usize, j: usize| sift_by(hops, x, u, j, chain);
    drop_rows(pairs, likely, &sifter, words, 64 * words, stored.count)
}

// The same by two searches.
#[tactic(auto, using(crate::proofs::StaleTable::below_all))]
pub(crate) fn drop_few_either(
    pairs: &mut [u64],
    likely: &mut [u64],
    near: &[u16],
    far: &[u16],
    words: usize,
    stored: Farthest,
) -> Dropping
    requires { HasHops words pairs.old near.now
        × HasHops words pairs.old far.now
        × (words ≤ length likely.old)
        × (count_pairs (range (64 * words)) (table_bit words pairs.old) ≤ stored.count) }
    ensures left { let way = way_by_either near.now far.now in
        let after = dropped (tally pairs.new result.count) result.way in
        after ≡ drop_of words way stored.chain pairs.old }
    ensures done { let way = way_by_either near.now far.now in
        RowsDone words way stored.chain (λ u. ltb u (64 * words)) pairs.old pairs.new result.gone }
{
    let chain = stored.chain;
    let sifter = |x: u64, u: usize, j: usize| sift_by_either(near, far, x, u, j, chain);
    drop_rows(pairs, likely, &sifter, words, 64 * words, stored.count)
}
