// One step of a breadth-first search: from the frontier, the last layer that was reached, to the next one. Rows of 1 to 512 words.
// A row's width comes beside it, as crate `rows` says.

#![tactic(auto)]

ghost use Rattle.std.specs.Prelude.{◌≡◌, true, not, ◌||◌, ◌+◌, ◌*◌, ◌<◌, ◌≤◌, eqb, length};
ghost use Rattle.lists.specs.Lists.{overwrite};
ghost use Rattle.words.specs.Bits.{bit, word_of};
ghost use Rattle.rows.specs.Rows.{row_bit, table_bit, encode_row, in_word};
ghost use Rattle.frontier.specs.Steps.{SearchRoom, AreWords, no_words, put_word, hop_set, visited, visit_of, taken, take_of};
ghost use Rattle.frontier.specs.Steps.{stepped, step_of, left_after, row_of, turned, turn_of, four_list, union_of};

// Four words side by side. They are passed by value, so that a walk keeps them in registers whatever tables lie beside them.
#[derive(Clone, Copy)]
struct Four {
    a: u64,
    b: u64,
    c: u64,
    d: u64,
}

// Makes word j of a row x. Past the row there is none.
#[tactic(auto, using(crate::proofs::Links::put_here, crate::proofs::Links::put_past))]
fn put_word(row: &mut [u64], words: usize, j: usize, x: u64)
    requires { words ≤ length row.old }
    ensures { row.new ≡ put_word words j x row.old }
{
    if j < words {
        row[j] = x;
    }
}

// Takes the codes that are not left out of next, and those of next out of those left: sets by whole words. Answers
// whether next has one: the or of all its words tells by one test at the end.
#[tactic(auto, using(crate::proofs::Passes::taking))]
fn take_left(left: &mut [u64], next: &mut [u64], words: usize) -> bool
    requires { (words ≤ length left.old) × (words ≤ length next.old) }
    ensures { taken result next.new left.new ≡ take_of words next.old left.old }
{
    let mut all: u64 = 0;
    for j in 0..words {
        let x = next[j] & left[j];
        next[j] = x;
        left[j] &= !x;
        all |= x;
    }
    all != 0
}

// Puts next into the other row.
#[tactic(auto, using(crate::proofs::Passes::passing))]
fn pass_on(other: &mut [u64], next: &[u64], words: usize)
    requires { (words ≤ length other.old) × (words ≤ length next.now) }
    ensures { other.new ≡ overwrite (encode_row words (row_bit words next.now)) other.old }
{
    for j in 0..words {
        other[j] = next[j];
    }
}

// ---- rows of four words

// The codes of got that are left in the first four words of a row, which are taken out of it.
#[tactic(auto, using(crate::proofs::Straight::four_taken))]
fn take_four(left: &mut [u64], got: Four) -> Four
    requires { (4 ≤ length left.old) × AreWords got }
    ensures { taken (not (eqb (union_of result) 0)) (four_list result) left.new ≡ take_of 4 (four_list got) left.old }
{
    let a = got.a & left[0];
    left[0] &= !a;
    let b = got.b & left[1];
    left[1] &= !b;
    let c = got.c & left[2];
    left[2] &= !c;
    let d = got.d & left[3];
    left[3] &= !d;
    Four { a, b, c, d }
}

// Makes the first four words of a row these.
#[tactic(auto, using(crate::proofs::Straight::four_put))]
fn put_four(row: &mut [u64], next: Four)
    requires { 4 ≤ length row.old }
    ensures { row.new ≡ overwrite (four_list next) row.old }
{
    row[0] = next.a;
    row[1] = next.b;
    row[2] = next.c;
    row[3] = next.d;
}

// ---- two rows by turns

// Of two rows, the one that holds layer k: the layers at even distance pass through the first.
#[tactic(auto, unfolding(crate::specs::Steps::row_of))]
fn row_of<'a>(even: &'a [u64], odd: &'a [u64], k: u16) -> &'a [u64]
    ensures { result.now ≡ row_of k even.now odd.now }
{
    if k % 2 == 0 { even } else { odd }
}

// ---- a visit

// The word x with the members of word j of a table's row besides, the row of bit b of word w: a union of sets. Past the row there is none.
// Where word w begins and where bit b stands are added last, so that the first is a constant in a loop over the bits.
// No method of `Visit`: that the words of a slice fit 64 bits is known of a parameter, and of a field it is not.
#[tactic(auto, using(crate::proofs::Links::with_bit_lem))]
fn with_word(links: &[u64], x: u64, words: usize, w: usize, b: usize, j: usize) -> u64
    requires { (words * (64 * w) + (words * b + words) ≤ length links.now) × (words < 513) × (w < words) × (b < 64) }
    ensures { result ≡ word_of 64 (λ i. bit x i || table_bit words links.now (64 * w + b) (64 * j + i)) }
{
    if words <= j {
        return x;
    }
    x | links[words * (64 * w) + (words * b + j)]
}

// What a step goes over: rows of so many words, the table of links that they are in, the hops of the codes, and the hop k of those that it visits.
#[derive(Drop)]
struct Visit<'a> {
    links: &'a [u64],
    hops: &'a mut [u16],
    words: usize,
    k: u16,
    ghost room: { SearchRoom words links.now hops.now },
}

impl Visit<'_> {
    ghost use Rattle.frontier.specs.Visits.{Goes, IsSameVisit};

    // Visits one member, bit b of word w of a layer: it gets the hop k, and the codes linked to it come into the four words from word j on.
    fn reach_one(&mut self, from: Four, w: usize, b: usize, j: usize) -> Four
        requires { (w < self.old.words) × (b < 64) × (j < self.old.words) }
        ensures { Goes j (λ u. eqb u (64 * w + b)) self.old from self.new result }
    {
        let links = self.links;
        let words = self.words;
        self.hops[64 * w + b] = self.k;
        Four {
            a: with_word(links, from.a, words, w, b, j),
            b: with_word(links, from.b, words, w, b, j + 1),
            c: with_word(links, from.c, words, w, b, j + 2),
            d: with_word(links, from.d, words, w, b, j + 3),
        }
    }

    // Visits the members that word w of a layer holds: each gets the hop k, and the codes linked to it come into the four words from word j on.
    // The word is a copy, from which each member leaves as it is visited. Two members a turn: what is left after one stands beside what was there, so
    // that no word is copied.
    #[tactic(auto, using(crate::proofs::Visits::bits_start))]
    fn reach_word(&mut self, from: Four, w: usize, word: u64, j: usize) -> Four
        requires { AreWords from × (w < self.old.words) × (j < self.old.words) }
        ensures { Goes j (in_word w word) self.old from self.new result }
    {
        let mut got = from;
        let mut x = word;
        while x != 0 {
            let b = words::least(x);
            got = self.reach_one(got, w, b, j);
            let y = words::drop_least(x);
            if y != 0 {
                let c = words::least(y);
                got = self.reach_one(got, w, c, j);
                x = words::drop_least(y);
            } else {
                x = y;
            }
        }
        got
    }

    // Visits the members of a layer, word by word: each gets the hop k, and the codes linked to it are the four words from word j on.
    #[tactic(auto, using(crate::proofs::Visits::words_start))]
    fn reach_layer(&mut self, layer: &[u64], j: usize) -> Four
        requires { (self.old.words ≤ length layer.now) × (j < self.old.words) }
        ensures { Goes j (row_bit self.old.words layer.now) self.old no_words self.new result }
    {
        let mut got = Four {
            a: 0,
            b: 0,
            c: 0,
            d: 0,
        };
        for w in 0..self.words {
            got = self.reach_word(got, w, layer[w], j);
        }
        got
    }

    // Visits the members of a layer: each gets the hop k, and the codes linked to it are next. Four words of next at a time, so that a row of
    // four is visited once; a longer one gets its hops again with each four.
    #[tactic(auto, using(crate::proofs::Visits::next_start))]
    fn reach_next(&mut self, layer: &[u64], next: &mut [u64])
        requires { (self.old.words ≤ length next.old) × (self.old.words ≤ length layer.now) }
        ensures same { IsSameVisit self.old self.new }
        ensures visited { let before = visited next.old self.old.hops.now in
            let after = visited next.new self.new.hops.now in
            after ≡ visit_of self.old.words self.old.links.now layer.now self.old.k before }
    {
        let words = self.words;
        for j in (0..words).step_by(4) {
            let got = self.reach_layer(layer, j);
            put_word(next, words, j, got.a);
            put_word(next, words, j + 1, got.b);
            put_word(next, words, j + 2, got.c);
            put_word(next, words, j + 3, got.d);
        }
    }

    // Gives the members that word w of a layer holds the hop k.
    #[tactic(auto, using(crate::proofs::Marks::marks_start))]
    fn mark_word(&mut self, w: usize, word: u64)
        requires { w < self.old.words }
        ensures same { IsSameVisit self.old self.new }
        ensures marked { self.new.hops.now ≡ hop_set self.old.words self.old.k (in_word w word) self.old.hops.now }
    {
        let mut x = word;
        while x != 0 {
            self.hops[64 * w + words::least(x)] = self.k;
            x = words::drop_least(x);
        }
    }

    // Gives the members of a layer the hop k. It is the last one, so that no row of links is read: on the worst maps that is half of all rows.
    #[tactic(auto, using(crate::proofs::Marks::layer_start))]
    fn mark_layer(&mut self, layer: &[u64])
        requires { self.old.words ≤ length layer.now }
        ensures same { IsSameVisit self.old self.new }
        ensures marked { let W = self.old.words in
            self.new.hops.now ≡ hop_set W self.old.k (row_bit W layer.now) self.old.hops.now }
    {
        for w in 0..self.words {
            self.mark_word(w, layer[w]);
        }
    }

    // The step for rows of any width: what is next goes through the row that is lent for it.
    fn step_wide(
        &mut self,
        layer: &[u64],
        other: &mut [u64],
        left: &mut [u64],
        next: &mut [u64],
    ) -> bool
        requires { (self.old.words ≤ length layer.now)
            × (self.old.words ≤ length other.old)
            × (self.old.words ≤ length left.old)
            × (self.old.words ≤ length next.old) }
        ensures same { IsSameVisit self.old self.new }
        ensures stepped { stepped result self.new.hops.now other.new
            ≡ step_of self.old.words self.old.links.now layer.now self.old.k self.old.hops.now other.old left.old }
        ensures left { result ≡ true → left.new ≡ left_after self.old.words self.old.links.now layer.now left.old }
    {
        let words = self.words;
        if rows::is_empty(&*left, words) {
            self.mark_layer(layer);
            return false;
        }
        self.reach_next(layer, next);
        if !take_left(left, next, words) {
            return false;
        }
        pass_on(other, &*next, words);
        true
    }

    // The step for rows of four words: what is next stays in registers, and is looked at once.
    fn step_four(&mut self, even: &mut [u64], odd: &mut [u64], left: &mut [u64]) -> bool
        requires { (self.old.words ≡ 4)
            × (4 ≤ length even.old)
            × (4 ≤ length odd.old)
            × (4 ≤ length left.old) }
        ensures same { IsSameVisit self.old self.new }
        ensures turned { turned result self.new.hops.now even.new odd.new
            ≡ turn_of self.old.words self.old.links.now self.old.k self.old.hops.now even.old odd.old left.old }
        ensures left { let layer = row_of self.old.k even.old odd.old in
            result ≡ true → left.new ≡ left_after self.old.words self.old.links.now layer left.old }
    {
        let k = self.k;
        if rows::is_empty(&*left, 4) {
            self.mark_layer(row_of(&*even, &*odd, k));
            return false;
        }
        let got = self.reach_layer(row_of(&*even, &*odd, k), 0);
        let next = take_four(left, got);
        if next.a | next.b | next.c | next.d == 0 {
            return false;
        }
        if k % 2 == 0 {
            put_four(odd, next);
            return true;
        }
        put_four(even, next);
        true
    }
}

// ---- the step

// One step of a search, from the layer at distance k to the next one: the row of k's parity holds the layer, and the other one takes the next, whose codes
// leave `left`. Answers whether there is a next layer. Where there is none, what stands in left afterwards is free, and in next it always is.
pub fn step(
    links: &[u64],
    hops: &mut [u16],
    even: &mut [u64],
    odd: &mut [u64],
    left: &mut [u64],
    next: &mut [u64],
    words: usize,
    k: u16,
) -> bool
    requires { SearchRoom words links.now hops.old
        × (words ≤ length even.old)
        × (words ≤ length odd.old)
        × (words ≤ length left.old)
        × (words ≤ length next.old) }
    ensures turned { turned result hops.new even.new odd.new
        ≡ turn_of words links.now k hops.old even.old odd.old left.old }
    ensures left { let layer = row_of k even.old odd.old in
        result ≡ true → left.new ≡ left_after words links.now layer left.old }
{
    let mut visit = Visit {
        links,
        hops,
        words,
        k,
    };
    if words == 4 {
        return visit.step_four(even, odd, left);
    }
    if k % 2 == 0 {
        return visit.step_wide(&*even, odd, left, next);
    }
    visit.step_wide(&*odd, even, left, next)
}
