// A word of 64 bits as a set of the numbers below 64. One bit is tested, set and cleared here alone, by shift and
// mask, as a rule says, and members are walked from the least on, by trailing zeros, as another says. Whoever
// joins, cuts or counts whole words means no single bit: a union or a difference of sets, or their number.

#![tactic(auto)]

ghost use Rattle.std.specs.Prelude.{◌≡◌, not, ◌&&◌, ◌||◌, ◌<◌, eqb, ltb};
ghost use Rattle.lists.specs.Lists.{range, countb};
ghost use Rattle.words.specs.Bits.{bit, word_of};
ghost use Rattle.words.specs.Least.{IsLeast, WithoutLeast};

// Whether bit b of w is set.
#[tactic(auto, using(crate::proofs::Digits::and_one), unfolding(crate::specs::Bits::bit, crate::proofs::Digits::digit))]
pub fn test(w: u64, b: usize) -> bool
    requires { b < 64 }
    ensures { result ≡ bit w b }
{
    (w >> b) & 1 == 1
}

// The word w with bit b set.
pub fn with_bit(w: u64, b: usize) -> u64
    requires { b < 64 }
    ensures { result ≡ word_of 64 (λ k. eqb k b || bit w k) }
{
    w | (1u64 << b)
}

// The word w with bit b cleared.
pub fn without_bit(w: u64, b: usize) -> u64
    requires { b < 64 }
    ensures { result ≡ word_of 64 (λ k. bit w k && not (eqb k b)) }
{
    w & !(1u64 << b)
}

// How many bits of w are set.
#[tactic(auto, using(crate::proofs::Counts::ones_count))]
pub fn count(w: u64) -> u32
    ensures { result ≡ countb (bit w) (range 64) }
{
    u64::count_ones(w)
}

// The least set bit of a word that has one.
#[tactic(auto, using(crate::proofs::Lowest::least_is))]
pub fn least(w: u64) -> usize
    requires { 0 < w }
    ensures { IsLeast w result }
{
    u64::trailing_zeros(w) as usize
}

// The word w without its least set bit, which is b: by shift and mask, as any bit is cleared.
#[tactic(auto, using(crate::proofs::Lowest::cleared))]
pub fn clear_least(w: u64, b: usize) -> u64
    requires { (0 < w) × IsLeast w b }
    ensures { WithoutLeast w result }
{
    without_bit(w, b)
}

// The word w without its least set bit, whichever it is: the cursor of a search's walks and of the pairs below a
// depot, which take a fifth more instructions by `clear_least`. What it clears is a copy's, never a table's.
#[tactic(auto, using(crate::proofs::Lowest::drop_is))]
pub fn drop_least(w: u64) -> u64
    requires { 0 < w }
    ensures { WithoutLeast w result }
{
    w & (w - 1)
}

// The members of w that are above b.
#[tactic(auto, using(crate::proofs::Masks::word_above))]
pub fn above(w: u64, b: usize) -> u64
    requires { b < 64 }
    ensures { result ≡ word_of 64 (λ k. bit w k && ltb b k) }
{
    w & (!1u64 << b)
}

// The members of w that are below b.
pub fn below(w: u64, b: usize) -> u64
    requires { b < 64 }
    ensures { result ≡ word_of 64 (λ k. bit w k && ltb k b) }
{
    w & ((1u64 << b) - 1)
}
