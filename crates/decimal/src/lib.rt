// Numbers of 64 bits in decimal: written into lent memory, and read from the front of a text. What writes text takes the place from which it writes and
// answers the place behind it, here and in `report`, `sentences` and `summaries`: both are numbers by value, which stay in registers, where a writer behind a
// `&mut` is kept in memory (so of the line buffer, crate `line_buffer`).

#![tactic(auto)]

ghost use Rattle.std.specs.Prelude.{◌≡◌, ◌+◌, ◌^◌, ◌≤◌, ◌<◌, length};
ghost use Rattle.decimal.specs.Decimal.{decimal, field, two_digits};
ghost use Rattle.decimal.specs.Placed.{Placed};
ghost use Rattle.decimal.specs.Front.{front_of};
ghost use Rattle.decimal.specs.Strip.{goes_on, strip_decimal};

// How many digits a number below 10,000,000,000 has, and so any of 32 bits: by comparisons, which are quicker than a division for each digit.
#[tactic(auto, using(crate::proofs::Numbers::ten_digits))]
fn few_digits(n: u64) -> usize
    requires { n < 10 ^ 10 }
    ensures { result ≡ length (decimal n) }
{
    if n < 10 {
        return 1;
    }
    if n < 100 {
        return 2;
    }
    if n < 1000 {
        return 3;
    }
    if n < 10000 {
        return 4;
    }
    if n < 100000 {
        return 5;
    }
    if n < 1000000 {
        return 6;
    }
    if n < 10000000 {
        return 7;
    }
    if n < 100000000 {
        return 8;
    }
    if n < 1000000000 {
        return 9;
    }
    10
}

// How many digits a number has: from 10,000,000,000 on, the last ten and those before them.
#[tactic(auto, using(crate::proofs::Numbers::long_numbers))]
fn digits(n: u64) -> usize
    ensures { result ≡ length (decimal n) }
{
    if n < 10000000000 {
        return few_digits(n);
    }
    10 + few_digits(n / 10000000000)
}

// Puts the two digits of a number below 100 at a place of the line, a zero where it has one.
fn put_two(line: &mut [u8], at: usize, n: u64)
    requires { (n < 100) × (at + 2 ≤ length line.old) }
    ensures { Placed (two_digits n) at line.old (at + 2) line.new }
{
    line[at] = 48 + (n / 10) as u8;
    line[at + 1] = 48 + (n % 10) as u8;
}

// Puts a number below 100 at a place of the line, and answers the place behind it.
#[tactic(auto, using(crate::proofs::Numbers::short_numbers))]
fn put_short(line: &mut [u8], at: usize, n: u64) -> usize
    requires { (n < 100) × (at + length (decimal n) ≤ length line.old) }
    ensures { Placed (decimal n) at line.old result line.new }
{
    if n < 10 {
        line[at] = 48 + n as u8;
        return at + 1;
    }
    put_two(line, at, n);
    at + 2
}

// Puts a number at a place of the line, two digits a turn from its last to its first, and answers the place behind it.
#[inline(never)]
#[tactic(auto, using(crate::proofs::Numbers::filling))]
fn put_long(line: &mut [u8], at: usize, n: u64) -> usize
    requires { at + length (decimal n) ≤ length line.old }
    ensures { Placed (decimal n) at line.old result line.new }
{
    let end = at + digits(n);
    // The number says when its digits end, not the place: a for over the places would divide once more, for the first digits.
    let mut i = end;
    let mut m = n;
    while 100 <= m {
        i -= 2;
        put_two(line, i, m % 100);
        m /= 100;
    }
    put_short(line, at, m);
    end
}

// Puts a number at a place of the line, and answers the place behind it. Most are short, and a short one is put without counting its digits.
#[inline]
#[tactic(auto, using(crate::proofs::Numbers::three_digits))]
pub fn put_number(line: &mut [u8], at: usize, n: u64) -> usize
    requires { at + length (decimal n) ≤ length line.old }
    ensures { Placed (decimal n) at line.old result line.new }
{
    if n < 100 {
        return put_short(line, at, n);
    }
    if n < 1000 {
        line[at] = 48 + (n / 100) as u8;
        put_two(line, at + 1, n % 100);
        return at + 3;
    }
    put_long(line, at, n)
}

// Puts a space and a number at a place of the line.
#[tactic(auto, using(crate::proofs::Numbers::fields))]
pub fn put_field(line: &mut [u8], at: usize, n: u64) -> usize
    requires { at + length (field (decimal n)) ≤ length line.old }
    ensures { Placed (field (decimal n)) at line.old result line.new }
{
    line[at] = b' ';
    put_number(line, at + 1, n)
}

// Whether the digit d may follow those of n: no zero leads, and the limit holds. It divides, so that no product passes 64 bits.
#[tactic(auto, unfolding(crate::specs::Strip::goes_on))]
fn goes_on(limit: u64, n: u64, d: u64) -> bool
    ensures { result ≡ goes_on limit n d }
{
    n != 0 && d <= limit && n <= (limit - d) / 10
}

// Reads the number at the front of a text: all the digits there are, without a leading zero, and at most the limit. The rest begins behind them.
#[tactic(auto, using(crate::proofs::Strips::went_on), unfolding(crate::specs::Strip::strip_decimal, crate::specs::Strip::strip_more))]
pub fn leading(text: &[u8], limit: u64) -> Option<(u64, &[u8])>
    ensures { front_of result ≡ strip_decimal limit text.now }
{
    let (first, rest) = text.split_first()?;
    if !first.is_ascii_digit() {
        return None;
    }
    let mut n = (*first - 48) as u64;
    if limit < n {
        return None;
    }
    let mut left = rest;
    while let Some((c, more)) = left.split_first()
        && c.is_ascii_digit()
    {
        let d = (*c - 48) as u64;
        if !goes_on(limit, n, d) {
            return None;
        }
        n = 10 * n + d;
        left = more;
    }
    Some((n, left))
}
