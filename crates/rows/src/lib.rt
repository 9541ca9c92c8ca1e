// Sets of numbers below 64 * words as rows of words, and tables of such rows. A row or table may stand in a longer buffer, as a rule allows: so each call is
// told a row's width, `words`, which is a table's stride too. No slice's own length tells it, and a type for it would be taken apart at each index. Which codes
// and words are in range, and how far a row or table has to reach, depends on that number, so each contract says it.
// What a function ensures of a row or table that it changes is one equation, so that callers rewrite by it.

#![tactic(auto)]

ghost use Rattle.std.specs.Prelude.{◌≡◌, true, false, not, ◌+◌, ◌*◌, ◌^◌, ◌<◌, ◌≤◌, eqb, length};
ghost use Rattle.lists.specs.Lists.{range, mapl, countb, anyb, allb, overwrite};
ghost use Rattle.rows.specs.Rows.{row_bit, table_bit, encode_row, put_bit, InTable};
ghost use Rattle.rows.specs.Next.{NextIs};

// ---- one bit of a table

// Whether v is a member of row u.
#[tactic(auto, using(crate::proofs::Written::table_in))]
pub fn row_test(t: &[u64], words: usize, u: usize, v: usize) -> bool
    requires { InTable words t.now u v }
    ensures { result ≡ table_bit words t.now u v }
{
    words::test(t[words * u + v / 64], v % 64)
}

// Puts v into row u.
#[tactic(auto, using(crate::proofs::Puts::put_with), unfolding(crate::specs::Rows::put_bit))]
pub fn row_set(t: &mut [u64], words: usize, u: usize, v: usize)
    requires { InTable words t.old u v }
    ensures { t.new ≡ put_bit words u v true t.old }
{
    let i = words * u + v / 64;
    let w = t[i];
    t[i] = words::with_bit(w, v % 64);
}

// ---- the members of a row

// How many members row u of a table has. The bound on words keeps the sum in a usize.
#[tactic(auto, using(crate::proofs::Scan::count_word, crate::proofs::Scan::count_few, lists::proofs::Ranges::count_nothing))]
pub fn degree(t: &[u64], words: usize, u: usize) -> usize
    requires { (words * u + words ≤ length t.now) × (u < 64 * words) × (words < 2 ^ 32) }
    ensures { result ≡ countb (table_bit words t.now u) (range (64 * words)) }
{
    let base = words * u;
    let mut sum: usize = 0;
    for x in &t[base..base + words] {
        sum += words::count(*x) as usize;
    }
    sum
}

// The least member of a row that is at or past from. The bound on words keeps its number in a usize.
#[tactic(auto, using(crate::proofs::Scan::passed_all, crate::proofs::Written::row_past))]
pub fn next_member(row: &[u64], words: usize, from: usize) -> Option<usize>
    requires { (words ≤ length row.now) × (words < 2 ^ 32) }
    ensures { NextIs words row.now from result }
{
    let i = from / 64;
    if words <= i {
        return None;
    }
    let w = row[i] >> (from % 64);
    if w != 0 {
        return Some(from + words::least(w));
    }
    for j in i + 1..words {
        let x = row[j];
        if x != 0 {
            return Some(64 * j + words::least(x));
        }
    }
    None
}

// Whether a row has no member.
pub fn is_empty(row: &[u64], words: usize) -> bool
    requires { words ≤ length row.now }
    ensures { result ≡ not (anyb (row_bit words row.now) (range (64 * words))) }
{
    row[..words].iter().all(|x| *x == 0)
}

// ---- a row as a set

// Takes every member out of a row. (One generic `fill` for words and numbers was tried: nothing is known of what a clone of a `T` is, so that its proof did
// not close.)
pub fn clear(row: &mut [u64], words: usize)
    requires { words ≤ length row.old }
    ensures { row.new ≡ overwrite (encode_row words (λ v. false)) row.old }
{
    row[..words].fill(0);
}

// ---- words of a table

// Whether every word of a part is 0: one union and one test, without a branch at each word.
#[tactic(auto, using(crate::proofs::Zeros::union_zero))]
pub fn all_zero(part: &[u64]) -> bool
    ensures { result ≡ allb (λ x. eqb x 0) part.now }
{
    part.iter().fold(0, |union, x| union | *x) == 0
}

// Makes a table 0, by groups of 64 words: a group that is 0 already is only read, as most of a pair table is.
#[tactic(auto, using(crate::proofs::Filled::filled_zero))]
pub fn clear_table(t: &mut [u64], words: usize)
    requires { words * (64 * words) ≤ length t.old }
    ensures { t.new ≡ overwrite (encode_row (words * (64 * words)) (λ v. false)) t.old }
{
    for g in 0..words * words {
        let group = &mut t[64 * g..64 * g + 64];
        if !all_zero(&*group) {
            group.fill(0);
        }
    }
}

// ---- tables of numbers

// Puts x into the first n places of a table of numbers.
pub fn fill(table: &mut [u16], n: usize, x: u16)
    requires { n ≤ length table.old }
    ensures { table.new ≡ overwrite (mapl (λ v. x) (range n)) table.old }
{
    table[..n].fill(x);
}
