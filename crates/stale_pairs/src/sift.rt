// One word of a row: its stale members taken out one by one, those that go and those that stay
// counted, and the greatest way of those that were there.

ghost use Rattle.std.specs.Prelude.{ℕ, ◌≡◌, ◌+◌, ◌*◌, ◌^◌, ◌<◌, ◌≤◌, min, length};
ghost use Rattle.stale_pairs.specs.Stale.{TellsWord, way_by, way_by_either, sifted, sift_of};

// The way from u to v by the hops of a search, and no more than chain. Two hops may pass 65,535, so
// they are summed at 32 bits.
fn way_by(hops: &[u16], u: usize, v: usize, chain: u16) -> u16
    requires { (u < length hops.now) × (v < length hops.now) }
    ensures { result ≡ min chain (way_by hops.now u v) }
{
    let near = hops[u] as u32;
    let far = hops[v] as u32;
    (near + far).min(chain as u32) as u16
}

// The lesser of the ways from u to v by the hops of two searches, and no more than chain.
fn way_by_either(near: &[u16], far: &[u16], u: usize, v: usize, chain: u16) -> u16
    requires { (u < length near.now) × (v < length near.now) × (u < length far.now) × (v < length far.now) }
    ensures { result ≡ min chain (way_by_either near.now far.now u v) }
{
    let least = way_by(near, u, v, chain);
    way_by(far, u, v, least)
}

// The members of a word that stay, how many went and how many stay, and the greatest way of those
// that were there. They are counted as they are met: few words of a pair table have many.
#[derive(Clone, Copy)]
pub struct Sifted {
    pub word: u64,
    pub gone: u32,
    pub kept: u32,
    pub way: u16,
}

// Takes the stale members out of x, whose bit b stands for the pair of u and first + b: those whose
// way is below chain. What tells the way of a pair is a function, so that the loop over one search
// has no test more than that search asks.
#[tactic(auto, using(crate::proofs::Sifting::sift_end))]
fn sift<F: Fn(usize, usize) -> u16>(tell: &F, x: u64, u: usize, first: usize, chain: u16) -> Sifted
    requires small { first + 64 < 2 ^ 64 }
    requires asked { (b : ℕ) → b < 64 → F.pre tell.now u (first + b) }
    requires told { (way : ℕ → ℕ → ℕ) × TellsWord u first chain (F.post tell.now) way }
    ensures { (way : ℕ → ℕ → ℕ)
        → TellsWord u first chain (F.post tell.now) way
        → sifted result.word result.gone result.kept result.way ≡ sift_of way chain u first x }
{
    let mut word = x;
    let mut gone: u32 = 0;
    let mut kept: u32 = 0;
    let mut way: u16 = 0;
    let mut left = x;
    while left != 0 {
        let b = words::least(left);
        let d = tell(u, first + b);
        way = way.max(d);
        if d < chain {
            word = words::without_bit(word, b);
            gone += 1;
            left = words::clear_least(left, b);
        } else {
            kept += 1;
            left = words::clear_least(left, b);
        }
    }
    Sifted {
        word,
        gone,
        kept,
        way,
    }
}

// ---- by the way that a search tells, or the lesser of those of two

// A word sifted by one search.
pub(crate) fn sift_by(hops: &[u16], x: u64, u: usize, j: usize, chain: u16) -> Sifted
    requires { (u < length hops.now) × (64 * j + 64 ≤ length hops.now) }
    ensures { sifted result.word result.gone result.kept result.way ≡ sift_of (way_by hops.now) chain u (64 * j) x }
{
    let tell = |u: usize, v: usize| way_by(hops, u, v, chain);
    sift(&tell, x, u, 64 * j, chain)
}

// A word sifted by two.
pub(crate) fn sift_by_either(
    near: &[u16],
    far: &[u16],
    x: u64,
    u: usize,
    j: usize,
    chain: u16,
) -> Sifted
    requires { (u < length near.now)
        × (64 * j + 64 ≤ length near.now)
        × (u < length far.now)
        × (64 * j + 64 ≤ length far.now) }
    ensures { let way = way_by_either near.now far.now in
        sifted result.word result.gone result.kept result.way ≡ sift_of way chain u (64 * j) x }
{
    let tell = |u: usize, v: usize| way_by_either(near, far, u, v, chain);
    sift(&tell, x, u, 64 * j, chain)
}
