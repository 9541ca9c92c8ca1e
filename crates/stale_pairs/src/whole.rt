// One word of a row, sifted whole by the codes that a search finds near enough: its balls. Row k of
// a table of balls has the codes whose hop is below k.

ghost use Rattle.std.specs.Prelude.{ℕ, ◌≡◌, false, ◌&&◌, ◌||◌, ◌+◌, ◌*◌, ◌<◌, ◌≤◌, eqb, length};
ghost use Rattle.stale_pairs.specs.Stale.{way_by, way_by_either, sifted, sift_of, greatest_bit};
ghost use Rattle.stale_pairs.specs.Balls.{TakesWord, nearer, ring, AreBalls};
ghost use Rattle.rows.specs.Rows.{table_bit};

use crate::sift::Sifted;

// ---- the balls of a search

// Row k of a table that is all 0 gets the codes whose hop is k - 1, for each k up to `most`.
#[tactic(auto, using(crate::proofs::Balls::ring_end))]
fn put_rings(balls: &mut [u64], hops: &[u16], words: usize, most: usize)
    requires { (words < 513)
        × (words * most + words ≤ length balls.old)
        × (64 * words ≤ length hops.now)
        × (most < 64 * words)
        × ((k v : ℕ) → table_bit words balls.old k v ≡ false) }
    ensures { (k v : ℕ) → v < 64 * words → table_bit words balls.new k v ≡ ring hops.now most k v }
{
    for v in 0..64 * words {
        let h = hops[v] as usize;
        if h < most {
            rows::row_set(balls, words, h + 1, v);
        }
    }
}

// Adds the members of row k to the row behind it: a union of sets, by whole words.
fn add_row(balls: &mut [u64], words: usize, k: usize)
    requires { (words < 513) × (words * (k + 1) + words ≤ length balls.old) × (k + 1 < 64 * words) }
    ensures { let P = table_bit words balls.old in
        (p v : ℕ) → v < 64 * words → table_bit words balls.new p v ≡ (P p v || (eqb p (k + 1) && P k v)) }
{
    let from = words * k;
    let to = words * (k + 1);
    for j in 0..words {
        balls[to + j] |= balls[from + j];
    }
}

// Makes the balls of a search, up to the row `most`, in a table that is all 0.
#[tactic(auto, using(crate::proofs::Balls::ball_end))]
pub(crate) fn put_balls(balls: &mut [u64], hops: &[u16], words: usize, most: usize)
    requires { (words < 513)
        × (words * most + words ≤ length balls.old)
        × (64 * words ≤ length hops.now)
        × (most < 64 * words)
        × ((k v : ℕ) → table_bit words balls.old k v ≡ false) }
    ensures { AreBalls words most hops.now balls.new }
{
    put_rings(balls, hops, words, most);
    for k in 0..most {
        add_row(balls, words, k);
    }
}

// Word j of the codes to which the way from u is below d: a row of the balls.
#[tactic(auto, using(crate::proofs::Balls::ball_fits, crate::proofs::Balls::ball_word_lem))]
fn ball_word(balls: &[u64], hops: &[u16], words: usize, u: usize, d: u16, j: usize) -> u64
    requires { (words < 513) × AreBalls words d hops.now balls.now × (u < length hops.now) × (j < words) }
    ensures { result ≡ nearer (way_by hops.now) u d j }
{
    let k = d.saturating_sub(hops[u]) as usize;
    balls[words * k + j]
}

// What is nearer than d by either of two searches.
#[tactic(auto, using(crate::proofs::Balls::nearer_either))]
fn ball_word_either(
    near_balls: &[u64],
    near: &[u16],
    far_balls: &[u64],
    far: &[u16],
    words: usize,
    u: usize,
    d: u16,
    j: usize,
) -> u64
    requires { (words < 513)
        × AreBalls words d near.now near_balls.now
        × AreBalls words d far.now far_balls.now
        × (u < length near.now)
        × (u < length far.now)
        × (j < words) }
    ensures { result ≡ nearer (way_by_either near.now far.now) u d j }
{
    ball_word(near_balls, near, words, u, d, j) | ball_word(far_balls, far, words, u, d, j)
}

// ---- a word

// The greatest way of the members of x, word j of row u, and no more than chain: that from which on
// down some member is farther.
fn greatest_way<F: Fn(usize, u16, usize) -> u64>(
    take: &F,
    x: u64,
    u: usize,
    j: usize,
    chain: u16,
) -> u16
    requires asked { (d : ℕ) → d ≤ chain → F.pre take.now u d j }
    requires told { (way : ℕ → ℕ → ℕ) × TakesWord u j chain (F.post take.now) way }
    ensures { (way : ℕ → ℕ → ℕ)
        → TakesWord u j chain (F.post take.now) way
        → result ≡ greatest_bit way chain u (64 * j) x }
{
    let mut d = chain;
    while d > 0 {
        if x & !take(u, d, j) != 0 {
            return d;
        }
        d -= 1;
    }
    0
}

// `sift` by whole words: what takes a member out is that it is nearer than the chain. Where one
// stays, the greatest way is the chain.
fn sift_whole<F: Fn(usize, u16, usize) -> u64>(
    take: &F,
    x: u64,
    u: usize,
    j: usize,
    chain: u16,
) -> Sifted
    requires asked { (d : ℕ) → d ≤ chain → F.pre take.now u d j }
    requires told { (way : ℕ → ℕ → ℕ) × TakesWord u j chain (F.post take.now) way }
    ensures { (way : ℕ → ℕ → ℕ)
        → TakesWord u j chain (F.post take.now) way
        → sifted result.word result.gone result.kept result.way ≡ sift_of way chain u (64 * j) x }
{
    let near = take(u, chain, j);
    let word = x & !near;
    let mut way = chain;
    if word == 0 {
        way = greatest_way(take, x, u, j, chain);
    }
    Sifted {
        word,
        gone: words::count(x & near),
        kept: words::count(word),
        way,
    }
}

// A word sifted whole by one search.
#[tactic(auto, using(crate::proofs::Balls::fewer_balls))]
pub(crate) fn sift_whole_by(
    balls: &[u64],
    hops: &[u16],
    words: usize,
    x: u64,
    u: usize,
    j: usize,
    chain: u16,
) -> Sifted
    requires { (words < 513) × AreBalls words chain hops.now balls.now × (u < length hops.now) × (j < words) }
    ensures { sifted result.word result.gone result.kept result.way ≡ sift_of (way_by hops.now) chain u (64 * j) x }
{
    let take = |u: usize, d: u16, j: usize| ball_word(balls, hops, words, u, d, j);
    sift_whole(&take, x, u, j, chain)
}

// A word sifted whole by two searches.
#[tactic(auto, using(crate::proofs::Balls::fewer_balls))]
pub(crate) fn sift_whole_by_either(
    near_balls: &[u64],
    near: &[u16],
    far_balls: &[u64],
    far: &[u16],
    words: usize,
    x: u64,
    u: usize,
    j: usize,
    chain: u16,
) -> Sifted
    requires { (words < 513)
        × AreBalls words chain near.now near_balls.now
        × AreBalls words chain far.now far_balls.now
        × (u < length near.now)
        × (u < length far.now)
        × (j < words) }
    ensures { let way = way_by_either near.now far.now in
        sifted result.word result.gone result.kept result.way ≡ sift_of way chain u (64 * j) x }
{
    let take = |u: usize, d: u16, j: usize| ball_word_either(
        near_balls, near, far_balls, far, words, u, d, j,
    );
    sift_whole(&take, x, u, j, chain)
}
