// The record of one map, the tests of a bit of its tables, and emptying a map. A row's width comes beside it, as crate `rows` says.

#![tactic(auto)]

pub mod promises;

ghost use Rattle.std.specs.Prelude.{[], ◌≡◌, ◌*◌, ◌^◌, ◌<◌, ◌≤◌, length};
ghost use Rattle.std.specs.Iterator.{YieldsFirst, item_count};
ghost use Rattle.lists.specs.Lists.{overwrite};
ghost use Rattle.rows.specs.Rows.{row_bit, encode_row};
ghost use Rattle.graph.specs.Network.{delivers};
ghost use Rattle.graph.specs.Distance.{vertices};
ghost use Rattle.map.specs.Memory.{base, network_of, yard_network};
ghost use Rattle.map.specs.Room.{long_enough};
ghost use Rattle.map.specs.Slices.{sizes_with, lengths_in, scratch_sizes, room_sizes};
ghost use Rattle.map.specs.Bits.{IsLent, sound_link, sound_yards, sound_pair};
ghost use Rattle.map.specs.Depots.{NextOpen, depots_left};
ghost use Rattle.outcome.specs.Answers.{answer_of, leaves};
ghost use Rattle.map.specs.Empty.{empty_record, empty_call};

use outcome::Refusal;

// ---- the shape of a map, in specifications `base` (specs/Memory)

// the words of a row, of the open set and of a layer
pub const WORDS: usize = 4;

// the codes: so many rows a table has, and so many numbers the hop, bound and skip tables
pub const PLACES: usize = 64 * WORDS;

// the words of the link table and of the pair table
pub const TABLE: usize = WORDS * PLACES;

// the skip table's mark of a searched depot, and of any that was neither searched nor skipped
pub const SEARCHED: u16 = 256;

pub const OTHER: u16 = 257;

// the hop of a closed code, and the bound of a depot that has none
pub const UNREACHED: u16 = 65535;

// ---- the open set

// Whether v is open. The open set is lent as row 0 of a table.
#[tactic(auto, using(rows::proofs::Written::table_zero))]
pub fn is_open(members: &[u64], words: usize, v: usize) -> bool
    requires { (words ≤ length members.now) × (v < 64 * words) }
    ensures { result ≡ row_bit words members.now v }
{
    rows::row_test(members, words, 0, v)
}

// The open depot with the lowest code at or past `from`. Whatever goes through the depots in rising code asks here, by `open_depots`.
#[tactic(auto, using(crate::proofs::Depots::next_depot))]
pub fn next_open(members: &[u64], words: usize, from: usize) -> Option<usize>
    requires { (words ≤ length members.now) × (words < 2 ^ 32) }
    ensures { NextOpen (network_of words members.now []) from result }
{
    rows::next_member(members, words, from)
}

// Gives the open depots in rising code, those at or past `from` that are left.
#[derive(Drop)]
pub struct OpenDepots<'a> {
    members: &'a [u64; WORDS],
    from: usize,
}

impl<'a> Iterator for OpenDepots<'a> {
    type Item = usize;

    ghost next_gives = { YieldsFirst depots_left };

    ghost remaining = { item_count depots_left };

    #[tactic(auto, using(crate::proofs::Depots::depot_taken, crate::proofs::Theorems::network_open_below), unfolding(crate::specs::Depots::depots_left))]
    fn next(&mut self) -> Option<usize> {
        let members = self.members;
        let v = next_open(members, WORDS, self.from)?;
        self.from = v + 1;
        Some(v)
    }
}

// All open depots in rising code.
#[tactic(auto, using(crate::proofs::Depots::depots_all), unfolding(crate::specs::Depots::depots_left))]
pub fn open_depots<'a>(members: &'a [u64; WORDS]) -> OpenDepots<'a>
    ensures { depots_left result ≡ vertices (network_of base.words members.now []) }
{
    OpenDepots { members, from: 0 }
}

// ---- the yards

// Takes the yards out of a row that holds the open set, by whole words: the depots that deliver are left.
#[tactic(auto, using(crate::proofs::Yards::delivering_start, crate::proofs::Yards::delivering_end))]
pub fn keep_delivering(members: &mut [u64], yards: &[u64], words: usize)
    requires { (words ≤ length members.old) × (words ≤ length yards.now) }
    ensures { let G = yard_network words members.old yards.now [] in
        members.new ≡ overwrite (encode_row words (delivers G)) members.old }
{
    for j in 0..words {
        members[j] &= !yards[j];
    }
}

// Whether every yard is open.
pub fn yards_are_open(members: &[u64], yards: &[u64], words: usize) -> bool
    requires { (words ≤ length members.now) × (words ≤ length yards.now) }
    ensures { result ≡ sound_yards (64 * words) (yard_network words members.now yards.now []) }
{
    (0..words).all(|j| yards[j] & !members[j] == 0)
}

// ---- whether a bit may stand

// Whether a bit v of row u may stand: u and v are open and differ, and row v has bit u.
#[tactic(auto, using(rows::proofs::Places::row_fits), unfolding(crate::specs::Bits::sound_link, crate::specs::Memory::network_of))]
pub fn link_is_sound(members: &[u64], links: &[u64], words: usize, u: usize, v: usize) -> bool
    requires { IsLent words members.now links.now × (u < 64 * words) × (v < 64 * words) }
    ensures { result ≡ sound_link (network_of words members.now links.now) u v }
{
    if !is_open(members, words, u) {
        return false;
    }
    if !is_open(members, words, v) {
        return false;
    }
    if u == v {
        return false;
    }
    rows::row_test(links, words, v, u)
}

// Whether bit `high` of row `low` of the pair table may stand: low < high, and both are of the row that is lent, the depots that deliver.
#[tactic(auto, unfolding(crate::specs::Bits::sound_pair, graph::specs::Network::delivers, crate::specs::Memory::network_of))]
pub fn pair_is_sound(delivering: &[u64], words: usize, low: usize, high: usize) -> bool
    requires { (words ≤ length delivering.now) × (low < 64 * words) × (high < 64 * words) }
    ensures { result ≡ sound_pair (network_of words delivering.now []) low high }
{
    if high <= low {
        return false;
    }
    if !is_open(delivering, words, low) {
        return false;
    }
    is_open(delivering, words, high)
}

// ---- the room

// The lengths of the buffers that a reckoning, an opening or a link is lent beside links and pairs.
#[derive(Clone, Copy)]
pub struct Lengths {
    pub hops: usize,
    pub bounds: usize,
    pub skips: usize,
    pub even: usize,
    pub odd: usize,
}

impl Lengths {
    // Whether these, and a link and a pair table of these lengths, have their named sizes.
    #[tactic(auto, using(crate::proofs::Longs::size_tests))]
    pub fn are_long(self, links: usize, pairs: usize) -> bool
        ensures { result ≡ long_enough base (sizes_with links pairs self) }
    {
        if links < TABLE {
            return false;
        }
        if pairs < TABLE {
            return false;
        }
        if self.hops < PLACES {
            return false;
        }
        if self.bounds < PLACES {
            return false;
        }
        if self.skips < PLACES {
            return false;
        }
        if self.even < WORDS {
            return false;
        }
        WORDS <= self.odd
    }
}

// What a search is lent: the hop table and the two layer rows.
#[derive(Drop)]
pub struct Scratch<'a> {
    pub hops: &'a mut [u16],
    pub even: &'a mut [u64],
    pub odd: &'a mut [u64],
}

impl Scratch<'_> {
    // Whether these, and a link table of this length, have their named sizes. What a search is not lent counts as whole.
    pub fn is_long(&self, links: usize) -> bool
        ensures { result ≡ long_enough base (scratch_sizes links self.now) }
    {
        let lengths = Lengths {
            hops: self.hops.len(),
            bounds: PLACES,
            skips: PLACES,
            even: self.even.len(),
            odd: self.odd.len(),
        };
        lengths.are_long(links, TABLE)
    }
}

// What a reckoning, an opening or a link is lent beside the link table: pair, hop, bound and
// skip table, and the two layer rows.
#[derive(Drop)]
pub struct Room<'a> {
    pub pairs: &'a mut [u64],
    pub hops: &'a mut [u16],
    pub bounds: &'a mut [u16],
    pub skips: &'a mut [u16],
    pub even: &'a mut [u64],
    pub odd: &'a mut [u64],
}

impl Room<'_> {
    // The lengths of these beside the pairs.
    pub fn lengths(&self) -> Lengths
        ensures { result ≡ lengths_in self.now }
    {
        Lengths {
            hops: self.hops.len(),
            bounds: self.bounds.len(),
            skips: self.skips.len(),
            even: self.even.len(),
            odd: self.odd.len(),
        }
    }

    // Whether these, and a link table of this length, have their named sizes.
    pub fn is_long(&self, links: usize) -> bool
        ensures { result ≡ long_enough base (room_sizes links self.now) }
    {
        self.lengths().are_long(links, self.pairs.len())
    }
}

// ---- emptying

// The record of one map: the members of the open set (one row), number open, longest chain, pair count, and the yard set (one row).
#[derive(Clone, Copy, PartialEq, Eq)]
pub struct Record {
    pub members: [u64; WORDS],
    pub number: u16,
    pub chain: u16,
    pub count: u32,
    pub yards: [u64; WORDS],
}

// The record of an empty map.
#[tactic(auto, using(crate::proofs::Empties::none_record))]
pub fn empty_record() -> Record
    ensures { result ≡ empty_record base.words }
{
    Record {
        members: [0u64; WORDS],
        number: 0,
        chain: 0,
        count: 0,
        yards: [0u64; WORDS],
    }
}

// Empties a map: both tables become zero, and the record handed out is the empty map's. Refused only with 1, where a table is short: then the record
// that was passed stands.
// A table is cleared as one row of 1,024 words.
#[tactic(auto, using(crate::proofs::Empties::emptyings))]
pub fn empty_map(rec: Record, links: &mut [u64], pairs: &mut [u64]) -> Result<Record, Refusal>
    ensures { leaves (answer_of result) (links.new, pairs.new) ≡ empty_call base links.old pairs.old }
{
    if links.len() < TABLE || pairs.len() < TABLE {
        return Err(Refusal::Short);
    }
    rows::clear(links, TABLE);
    rows::clear(pairs, TABLE);
    Ok(empty_record())
}
