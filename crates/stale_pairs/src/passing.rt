// One row of the pair table, and the rows without a pair, which are passed.

ghost use Rattle.std.specs.Prelude.{◌≡◌, ◌+◌, ◌*◌, ◌<◌, ◌≤◌, eqb, length};
ghost use Rattle.stale_pairs.specs.Stale.{Bare, IsSifter, Drops};

use crate::Dropping;
use crate::sift::Sifted;

// Drops the stale pairs of row u, a word at a time. Words without a pair are passed: most of a row
// has none.
pub(crate) fn drop_row<F: Fn(u64, usize, usize) -> Sifted>(
    pairs: &mut [u64],
    sifter: &F,
    words: usize,
    u: usize,
) -> Dropping
    requires room { (words < 513) × (words * (64 * words) ≤ length pairs.old) × (u < 64 * words) }
    requires sifter { IsSifter words (F.pre sifter.now) (F.post sifter.now) }
    ensures { Drops words (F.post sifter.now) (λ p. eqb p u) pairs.old pairs.new result }
{
    let base = words * u;
    let mut gone: u32 = 0;
    let mut count: u32 = 0;
    let mut way: u16 = 0;
    for j in 0..words {
        let i = base + j;
        let old = pairs[i];
        if old != 0 {
            let left = sifter(old, u, j);
            pairs[i] = left.word;
            gone += left.gone;
            count += left.kept;
            way = way.max(left.way);
        }
    }
    Dropping { gone, count, way }
}

// ---- rows without a pair

// Where the rows from u on that have no pair end, as far as whole groups of 8 tell: two groups a
// turn, while there are two.
#[tactic(auto, using(crate::proofs::BareRows::group_inside))]
fn bare_groups(pairs: &[u64], words: usize, rows: usize, u: usize) -> usize
    requires { (words < 513) × (words * (64 * words) ≤ length pairs.now) × (rows ≤ 64 * words) × (u ≤ rows) }
    ensures { Bare words rows pairs.now u result }
{
    // A for over the turns was tried: it sets up its range at each call, and `next_row` then takes
    // 4 to 20 % more instructions.
    let mut p = u;
    while p + 16 <= rows {
        if !rows::all_zero(&pairs[words * p..words * p + 8 * words]) {
            return p;
        }
        p += 8;
        if !rows::all_zero(&pairs[words * p..words * p + 8 * words]) {
            return p;
        }
        p += 8;
    }
    p
}

// The next row from u on that has a pair, all rows where none has. In a dense table it is mostly u
// itself, which is looked at first; in others most rows have none, and so most are passed 8 at a
// time.
#[tactic(auto, using(crate::proofs::BareRows::row_inside))]
pub(crate) fn next_row(pairs: &[u64], words: usize, rows: usize, u: usize, is_dense: bool) -> usize
    requires { (words < 513) × (words * (64 * words) ≤ length pairs.now) × (rows ≤ 64 * words) × (u ≤ rows) }
    ensures { Bare words rows pairs.now u result }
{
    if is_dense {
        if u < rows {
            if !rows::all_zero(&pairs[words * u..words * u + words]) {
                return u;
            }
        }
    }
    for p in bare_groups(pairs, words, rows, u)..rows {
        if !rows::all_zero(&pairs[words * p..words * p + words]) {
            return p;
        }
    }
    rows
}
