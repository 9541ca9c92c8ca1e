// What a search left of the targets, a row of the depots that count: the greatest hop of one, the targets at it, and the hops of those above a code added.
// Words outside, set bits inside: a code that is no target costs nothing. A row's width comes beside it, as crate `rows` says.

#![tactic(auto)]

ghost use Rattle.std.specs.Prelude.{[], ◌≡◌, ◌&&◌, ◌+◌, ◌*◌, ◌^◌, ◌<◌, ◌≤◌, eqb, ltb, length, get_or};
ghost use Rattle.lists.specs.Lists.{range, filterb, anyb, sum_of, max_of, overwrite};
ghost use Rattle.words.specs.Bits.{bit, word_of};
ghost use Rattle.graph.specs.Distance.{vertices};
ghost use Rattle.rows.specs.Rows.{row_bit, encode_row};
ghost use Rattle.map.specs.Memory.{network_of};
ghost use Rattle.targets.specs.Hops.{hop_in, IsLastLayer};
ghost use Rattle.targets.specs.Reach.{farthest_of, reached, reach_of};

// ---- what a search left

// The targets, a row of the depots that count, with the hop table of a search. Each size is said once, here; the bound on words keeps a sum in a u64.
#[derive(Clone, Copy)]
pub struct TargetHops<'a> {
    pub targets: &'a [u64],
    pub hops: &'a [u16],
    pub words: usize,
    pub ghost row_fits: { words ≤ length targets.now },
    pub ghost hops_fit: { 64 * words ≤ length hops.now },
    pub ghost few_words: { words < 2 ^ 32 },
}

// The same after a search to this depth, with the row that holds its last layer.
#[derive(Clone, Copy)]
pub struct TargetSearch<'a> {
    pub seen: TargetHops<'a>,
    pub last: &'a [u64],
    pub depth: u16,
    pub ghost last_fits: { seen.words ≤ length last.now },
}

// ---- the greatest hop

impl TargetHops<'_> {
    // The greatest hop of a target in word w of the row. The word is a copy, from which each member leaves as it is looked at.
    #[tactic(auto, using(crate::proofs::Words::comparing))]
    fn greatest_of_word(&self, w: usize) -> u16
        requires { w < self.now.words }
        ensures { result ≡ max_of (hop_in self.now.hops.now w (get_or self.now.targets.now w 0)) (range 64) }
    {
        let mut most: u16 = 0;
        let mut x = self.targets[w];
        while x != 0 {
            let b = words::least(x);
            most = most.max(self.hops[64 * w + b]);
            x = words::clear_least(x, b);
        }
        most
    }

    // The greatest hop of a target, by one pass over all of them.
    #[tactic(auto, using(crate::proofs::Rows::comparing))]
    fn greatest_of_all(&self) -> u16
        ensures { let targets = vertices (network_of self.now.words self.now.targets.now []) in
            result ≡ max_of (λ v. get_or self.now.hops.now v 0) targets }
    {
        let mut most: u16 = 0;
        for w in 0..self.words {
            most = most.max(self.greatest_of_word(w));
        }
        most
    }
}

// Whether two rows have a member in common: one test at the end, without a branch at each word.
fn meet(a: &[u64], b: &[u64], words: usize) -> bool
    requires { (words ≤ length a.now) × (words ≤ length b.now) }
    ensures { result ≡ anyb (λ v. row_bit words a.now v && row_bit words b.now v) (range (64 * words)) }
{
    let mut both: u64 = 0;
    for w in 0..words {
        both |= a[w] & b[w];
    }
    both != 0
}

impl TargetSearch<'_> {
    // As far as a target lies, by the last layer: the depth where a target is in it, and else by a pass.
    #[tactic(auto, using(crate::proofs::Partners::far))]
    fn farthest(&self) -> u16
        ensures { let S = self.now.seen in
            result ≡ farthest_of S.words S.targets.now S.hops.now self.now.last.now self.now.depth }
    {
        if meet(self.last, self.seen.targets, self.seen.words) {
            return self.depth;
        }
        self.seen.greatest_of_all()
    }

    // The greatest hop of a target after a search that reached all of them.
    #[tactic(auto, using(crate::proofs::Partners::farthest_is))]
    pub fn greatest_hop(&self) -> u16
        requires { let S = self.now.seen in
            IsLastLayer S.words S.targets.now self.now.last.now S.hops.now self.now.depth }
        ensures { let S = self.now.seen in
            result ≡ max_of (λ v. get_or S.hops.now v 0) (vertices (network_of S.words S.targets.now [])) }
    {
        self.farthest()
    }
}

// ---- the targets at it

impl TargetHops<'_> {
    // The targets of word w whose hop is e. The word is a copy, from which each member leaves as it is looked at.
    #[tactic(auto, using(crate::proofs::Partners::kept_none))]
    fn word_at(&self, w: usize, e: u16) -> u64
        requires { w < self.now.words }
        ensures { let word = get_or self.now.targets.now w 0 in
            result ≡ word_of 64 (λ b. bit word b && eqb (get_or self.now.hops.now (64 * w + b) 0) e) }
    {
        let mut here = self.targets[w];
        let mut x = here;
        while x != 0 {
            let b = words::least(x);
            if self.hops[64 * w + b] != e {
                here = words::without_bit(here, b);
            }
            x = words::clear_least(x, b);
        }
        here
    }

    // The targets whose hop is e, by one pass over all of them.
    // The contract says how long the row is, here and in what else writes one: the caller's row changes, so that no field of a struct of shared slices can.
    #[tactic(auto, using(crate::proofs::Partners::put_all))]
    fn put_at(&self, row: &mut [u64], e: u16)
        requires { self.now.words ≤ length row.old }
        ensures { let S = self.now in
            let here = encode_row S.words (λ v. row_bit S.words S.targets.now v && eqb (get_or S.hops.now v 0) e) in
            row.new ≡ overwrite here row.old }
    {
        for w in 0..self.words {
            row[w] = self.word_at(w, e);
        }
    }
}

// As far as a target lies from a depot, and what of it is the depot's own: the same if it is a target, and else 0, which makes no pair.
#[derive(Clone, Copy)]
pub struct Span {
    pub ecc: u16,
    pub own: u16,
}

impl TargetSearch<'_> {
    // The targets that are in the last layer: what two sets share, by whole words.
    #[tactic(auto, using(crate::proofs::Partners::put_all))]
    fn put_both(&self, row: &mut [u64])
        requires { self.now.seen.words ≤ length row.old }
        ensures { let S = self.now.seen in
            let both = encode_row S.words (λ v. row_bit S.words S.targets.now v && row_bit S.words self.now.last.now v) in
            row.new ≡ overwrite both row.old }
    {
        let targets = self.seen.targets;
        for w in 0..self.seen.words {
            row[w] = targets[w] & self.last[w];
        }
    }

    // After a search from r: how far the targets lie, and in the row its partners, the targets at that hop. What is no target has none.
    #[tactic(auto, using(crate::proofs::Partners::reaching))]
    pub fn reach(&self, row: &mut [u64], r: usize) -> Span
        requires { (self.now.seen.words ≤ length row.old) × (r < 64 * self.now.seen.words) }
        ensures { let S = self.now.seen in
            let found = reach_of S.words S.targets.now S.hops.now self.now.last.now r self.now.depth row.old in
            reached result.ecc result.own row.new ≡ found }
    {
        let e = self.farthest();
        if !map::is_open(self.seen.targets, self.seen.words, r) {
            rows::clear(row, self.seen.words);
            return Span { ecc: e, own: 0 };
        }
        if e == self.depth {
            self.put_both(row);
        } else {
            self.seen.put_at(row, e);
        }
        Span { ecc: e, own: e }
    }
}

// ---- the targets above a code

// The word of which every bit is a member.
const FULL: u64 = u64::MAX;

// The targets above a code: their hops added, and how many they are.
#[derive(Clone, Copy)]
pub struct Later {
    pub sum: u64,
    pub pairs: u64,
}

// The hops of the 64 codes of word w of a row, added. It is lent the table alone: how large its numbers are is known of a slice, and not of a field.
fn sum_of_all(hops: &[u16], w: usize) -> u64
    requires { (64 * w + 64 ≤ length hops.now) × (w < 2 ^ 32) }
    ensures { result ≡ sum_of (λ b. get_or hops.now (64 * w + b) 0) (range 64) }
{
    hops[64 * w..64 * w + 64]
        .iter()
        .map(|hop| *hop as u64)
        .sum()
}

// The hops of the members that word w of a row holds, added. A full word, of which a large map has most, is gone through without a test for each code.
#[tactic(auto, using(crate::proofs::Words::summing))]
fn sum_of_word(hops: &[u16], w: usize, word: u64) -> u64
    requires { (64 * w + 64 ≤ length hops.now) × (w < 2 ^ 32) }
    ensures is { result ≡ sum_of (hop_in hops.now w word) (range 64) }
    ensures few { result ≤ 65535 * 64 }
{
    if word == FULL {
        return sum_of_all(hops, w);
    }
    let mut sum: u64 = 0;
    let mut x = word;
    while x != 0 {
        let b = words::least(x);
        sum += hops[64 * w + b] as u64;
        x = words::clear_least(x, b);
    }
    sum
}

impl TargetHops<'_> {
    // The targets above u.
    #[tactic(auto, using(crate::proofs::Rows::summed_few))]
    pub fn sum_above(&self, u: usize) -> Later
        requires { u < 64 * self.now.words }
        ensures { let S = self.now in
            let later = filterb (λ v. ltb u v) (vertices (network_of S.words S.targets.now [])) in
            (result.sum ≡ sum_of (λ v. get_or S.hops.now v 0) later) × (result.pairs ≡ length later) }
    {
        let hops = self.hops;
        let first = u / 64;
        let x = words::above(self.targets[first], u % 64);
        let mut sum = sum_of_word(hops, first, x);
        let mut pairs = words::count(x) as u64;
        for w in first + 1..self.words {
            let word = self.targets[w];
            sum += sum_of_word(hops, w, word);
            pairs += words::count(word) as u64;
        }
        Later { sum, pairs }
    }
}
