// The pair table with the number of its pairs, and a search's own pairs added to it. A row of words may be up to 512 long.
// What a function ensures of table and count is one equation, so that callers rewrite by it. A row's width comes beside it, as crate `rows` says.
// Table and count come as two values: a struct of both, which says once that the count is the table's (`Counted`), was tried, and through a `&mut` to it the
// count is kept in memory in `put_lower`'s loop over the pairs: the program `follow` took 5.3 % more instructions.

#![tactic(auto)]

ghost use Rattle.std.specs.Prelude.{◌≡◌, ◌||◌, ◌&&◌, ◌+◌, ◌*◌, ◌<◌, ◌≤◌, eqb, ltb, length};
ghost use Rattle.words.specs.Bits.{bit, word_of};
ghost use Rattle.rows.specs.Rows.{table_bit, in_word};
ghost use Rattle.pairs.specs.Pairs.{Counted, tally, tally_of, pairs_with, settle_of};

// A chain, and how many pairs are that far apart.
#[derive(Clone, Copy)]
pub struct Farthest {
    pub chain: u16,
    pub count: u32,
}

// Puts the pair low < high into the table, and answers how many pairs it then has.
#[tactic(auto, using(rows::proofs::Places::row_fits, crate::proofs::Tallies::tally_fits))]
fn put_pair(pairs: &mut [u64], words: usize, low: usize, high: usize, count: u32) -> u32
    requires { Counted words pairs.old count × (low < 64 * words) × (high < 64 * words) }
    ensures { let before = pairs.old in
        tally pairs.new result ≡ tally_of words (λ u v. table_bit words before u v || (eqb u low && eqb v high)) before }
{
    if rows::row_test(&*pairs, words, low, high) {
        return count;
    }
    rows::row_set(pairs, words, low, high);
    count + 1
}

// The members below high of x, which is word j of a row. The bound on j keeps their numbers in a usize.
#[tactic(auto, using(crate::proofs::WordPairs::part_some))]
pub fn lower_part(x: u64, j: usize, high: usize) -> u64
    requires { j < 512 }
    ensures { result ≡ word_of 64 (λ b. bit x b && ltb (64 * j + b) high) }
{
    let first = 64 * j;
    if high <= first {
        return 0;
    }
    if first + 64 <= high {
        return x;
    }
    words::below(x, high - first)
}

// Puts the pairs of low with the members of x, which is word j of a row, and answers how many pairs the table then has: a union
// of sets, by whole words. A word without members adds nothing, so its ones are not counted.
#[tactic(auto, using(rows::proofs::Places::row_fits, crate::proofs::Tallies::tally_fits, crate::proofs::WordPairs::word_few))]
fn put_upper(pairs: &mut [u64], words: usize, low: usize, j: usize, x: u64, count: u32) -> u32
    requires { Counted words pairs.old count × (low < 64 * words) × (j < words) }
    ensures { let before = pairs.old in
        tally pairs.new result ≡ tally_of words (λ u v. table_bit words before u v || (eqb u low && in_word j x v)) before }
{
    if x == 0 {
        return count;
    }
    let i = words * low + j;
    let old = pairs[i];
    pairs[i] = old | x;
    count + words::count(x & !old)
}

// Puts the pairs of the members of x, which is word j of a row, with high, and answers how many pairs the table then has.
#[tactic(auto, using(crate::proofs::Tallies::holds_length))]
fn put_lower(pairs: &mut [u64], words: usize, j: usize, x: u64, high: usize, count: u32) -> u32
    requires { Counted words pairs.old count × (high < 64 * words) × (j < words) }
    ensures { let before = pairs.old in
        tally pairs.new result ≡ tally_of words (λ u v. table_bit words before u v || (eqb v high && in_word j x u)) before }
{
    let mut sum = count;
    let mut left = x;
    while left != 0 {
        let low = 64 * j + words::least(left);
        sum = put_pair(pairs, words, low, high, sum);
        left = words::drop_least(left);
    }
    sum
}

// Adds the pairs of r with each member of the row last, and answers how many pairs the table then has.
// Those above r stand in row r itself, and go in a word at a time; those below r each have a row of their own.
#[tactic(auto, using(crate::proofs::Tallies::holds_length))]
pub fn add_pairs(pairs: &mut [u64], last: &[u64], words: usize, r: usize, count: u32) -> u32
    requires { Counted words pairs.old count × (words ≤ length last.now) × (r < 64 * words) }
    ensures { let before = pairs.old in
        tally pairs.new result
        ≡ tally_of words (λ u v. table_bit words before u v || pairs_with words last.now r u v) before }
{
    let mut sum = count;
    for j in 0..words {
        let x = last[j];
        let up_to = lower_part(x, j, r + 1);
        let below = lower_part(x, j, r);
        sum = put_upper(pairs, words, r, j, x & !up_to, sum);
        sum = put_lower(pairs, words, j, below, r, sum);
    }
    sum
}

// The pairs after a search from r with eccentricity e: r's own alone if e is above the chain before it, r's own added if e is that chain and not 0.
#[tactic(auto, using(crate::proofs::Settling::settle_zero, crate::proofs::Settling::settle_below))]
pub fn settle(
    pairs: &mut [u64],
    last: &[u64],
    words: usize,
    r: usize,
    e: u16,
    before: Farthest,
) -> u32
    requires { Counted words pairs.old before.count × (words ≤ length last.now) × (r < 64 * words) }
    ensures { tally pairs.new result ≡ settle_of words last.now r e before.chain (tally pairs.old before.count) }
{
    if before.chain < e {
        rows::clear_table(pairs, words);
        return add_pairs(pairs, last, words, r, 0);
    }
    if e == before.chain {
        if e != 0 {
            return add_pairs(pairs, last, words, r, before.count);
        }
        return before.count;
    }
    before.count
}
