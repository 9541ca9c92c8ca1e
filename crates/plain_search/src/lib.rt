// What the test programs hold the map to: the plain list of rule 9, a simple search from every depot, and the figures that follow from it.
// Nothing of the proved map is used: each bit and each distance stands in a place of its own.

#![tactic(auto)]

ghost use Rattle.std.specs.Prelude.{◌≡◌, true, false, map, flat_map, slice_set, slice_index_or, unwrap_or, ℕ, ◌<◌};
ghost use Rattle.std.specs.List.{list_all};
ghost use Rattle.plain_search.specs.Sheets.{standing, empty_sheet, is_open, rising, refusal_of, linked, far};
ghost use Rattle.plain_search.specs.Sheets.{IsGreatest, AreEccentricities, ArePairs, IsOpening};

mod codes;
pub mod marks;
pub mod tables;

pub use codes::Codes;
use std::cmp::Ordering;

// A code is below this.
pub const CODES: usize = 256;

// How an opening that was accepted changed the longest chain.
#[derive(Clone, Copy, PartialEq, Eq)]
pub enum Change {
    Grew,
    Kept,
    Shrank,
}

// What a call is refused for; its number is that of the rules.
#[derive(Clone, Copy, PartialEq, Eq)]
pub enum Refusal {
    Short = 1,
    Spoilt,
    Apart,
    Absent,
    Taken,
    Lonely,
    Unsorted,
    Unknown,
}

// The plain list, a set of open codes and a set of links; and what a search from every depot finds on it.
#[derive(Clone, Copy)]
pub struct Sheet {
    // Whether a code is that of an open depot.
    pub depots: [bool; CODES],
    // Whether two codes are linked.
    pub links: [[bool; CODES]; CODES],
    // The distance of two codes, none where no walk joins them.
    pub distances: [[Option<u16>; CODES]; CODES],
    // The greatest distance from a code, 0 from a closed one.
    pub eccentricities: [u16; CODES],
    // Whether two codes, the lower one first, are a farthest pair.
    pub pairs: [[bool; CODES]; CODES],
    // The longest chain.
    pub chain: u16,
}

impl Sheet {
    // The sheet of the empty network.
    pub fn new() -> Sheet
        ensures { result ≡ empty_sheet }
    {
        Sheet {
            depots: [false; CODES],
            links: [[false; CODES]; CODES],
            distances: [[None; CODES]; CODES],
            eccentricities: [0; CODES],
            pairs: [[false; CODES]; CODES],
            chain: 0,
        }
    }

    // How many depots are open.
    pub fn number(&self) -> usize
        ensures { result ≡ standing self.now.depots }
    {
        self.depots.iter().filter(|open| **open).count()
    }

    // How many pairs are farthest.
    pub fn count(&self) -> usize
        ensures { result ≡ standing (flat_map (λ row. row) self.now.pairs) }
    {
        self.pairs
            .as_flattened()
            .iter()
            .filter(|pair| **pair)
            .count()
    }

    // ---- the search: from depot to depot in the order in which it comes to them, and from each by its whole row of links

    // The distances of all codes from a depot. No contract says that they are these: the test compares them with the map's, which are proved.
    fn search(&self, start: u8) -> [Option<u16>; CODES] {
        let mut distances = [None; CODES];
        distances[usize::from(start)] = Some(0u16);
        let mut queue = Codes::new();
        queue.push(start);
        for k in 0..CODES {
            let Some(code) = queue.items().get(k) else {
                break;
            };
            let u = usize::from(*code);
            let next = distances[u].map(|d| d.saturating_add(1));
            for (v, linked) in self.links[u].iter().enumerate() {
                if *linked && distances[v].is_none() {
                    distances[v] = next;
                    queue.push(v as u8);
                }
            }
        }
        distances
    }

    // What a search from every depot finds: its distances, and the greatest of them.
    fn search_each(&mut self)
        ensures depots { self.new.depots ≡ self.old.depots }
        ensures links { self.new.links ≡ self.old.links }
        ensures eccentricities { AreEccentricities self.new CODES }
    {
        for u in 0..CODES {
            if self.depots[u] {
                let distances = self.search(u as u8);
                self.distances[u] = distances;
                self.eccentricities[u] = greatest(&distances);
            }
        }
    }

    // The figures of the links and the open set, by a search from every depot.
    fn figure(&mut self)
        ensures depots { self.new.depots ≡ self.old.depots }
        ensures links { self.new.links ≡ self.old.links }
        ensures eccentricities { AreEccentricities self.new CODES }
        ensures chain { IsGreatest self.new.eccentricities self.new.chain }
        ensures pairs { ArePairs self.new CODES }
    {
        self.search_each();
        self.chain = self.eccentricities.iter().copied().max().unwrap_or(0);
        for u in 0..CODES {
            self.pairs[u] = farthest(u, &self.distances[u], self.chain);
        }
    }

    // ---- the plain list

    // Whether each of these codes is that of an open depot.
    fn are_open(&self, codes: &[u8]) -> bool
        ensures { result ≡ list_all (is_open self.now.depots) codes.now }
    {
        codes.iter().all(|v| self.depots[usize::from(*v)])
    }

    // What an opening is refused for, if it is.
    fn refusal(&self, code: u8, neighbours: &[u8], short: bool) -> Option<Refusal>
        ensures { result ≡ refusal_of self.now.depots code neighbours.now short }
    {
        if short {
            return Some(Refusal::Short);
        }
        if self.depots[usize::from(code)] {
            return Some(Refusal::Taken);
        }
        if neighbours.is_empty() && self.number() != 0 {
            return Some(Refusal::Lonely);
        }
        if !is_rising(neighbours) {
            return Some(Refusal::Unsorted);
        }
        if !self.are_open(neighbours) {
            return Some(Refusal::Unknown);
        }
        None
    }

    // Takes an accepted notice in.
    #[tactic(auto, using(crate::proofs::Linked::linked_next, crate::proofs::Linked::linked_none))]
    fn accept(&mut self, code: u8, neighbours: &[u8])
        ensures depots { self.new.depots ≡ slice_set self.old.depots code true }
        ensures links { self.new.links ≡ linked self.old.links code neighbours.now }
        ensures chain { self.new.chain ≡ self.old.chain }
    {
        let own = usize::from(code);
        self.depots[own] = true;
        for v in neighbours {
            let near = usize::from(*v);
            self.links[own][near] = true;
            self.links[near][own] = true;
        }
    }

    // What an opening is to be answered. The sheet is then that of the network after it.
    pub fn open(&mut self, code: u8, neighbours: &[u8], short: bool) -> Result<Change, Refusal>
        ensures { IsOpening self.old self.new code neighbours.now short result }
    {
        if let Some(refusal) = self.refusal(code, neighbours, short) {
            return Err(refusal);
        }
        let before = self.chain;
        self.accept(code, neighbours);
        self.figure();
        Ok(match self.chain.cmp(&before) {
            Ordering::Greater => Change::Grew,
            Ordering::Equal => Change::Kept,
            Ordering::Less => Change::Shrank,
        })
    }
}

// Whether each code is above the one before it.
fn is_rising(codes: &[u8]) -> bool
    ensures { result ≡ rising codes.now }
{
    codes.is_sorted_by(|a, b| a < b)
}

// The greatest of the distances from a depot.
fn greatest(distances: &[Option<u16>; CODES]) -> u16
    ensures { IsGreatest (map (λ d. unwrap_or d 0) distances.now) result }
{
    distances.iter().map(|d| d.unwrap_or(0)).max().unwrap_or(0)
}

// Whether v is above u, and at a distance from it that is as long as the chain.
fn is_far(u: usize, v: usize, distance: Option<u16>, chain: u16) -> bool
    ensures { result ≡ far chain u v distance }
{
    match distance {
        Some(d) => u < v && d == chain,
        None => false,
    }
}

// Whether each code is that far from u.
fn farthest(u: usize, distances: &[Option<u16>; CODES], chain: u16) -> [bool; CODES]
    ensures { (v : ℕ) → v < CODES → slice_index_or result v false ≡ far chain u v (slice_index_or distances.now v None) }
{
    let mut row = [false; CODES];
    for v in 0..CODES {
        row[v] = is_far(u, v, distances[v], chain);
    }
    row
}
