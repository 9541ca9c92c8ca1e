// A line's map, and the notices that it takes.
use admission::Link;
use map::{Record, Room};
use outcome::{Outcome, Refusal};
use std::fmt;
use step::Asked;

// The map: both tables and the record.
#[derive(Clone, Copy, PartialEq, Eq)]
pub(crate) struct Map {
    links: [u64; map::TABLE],
    pairs: [u64; map::TABLE],
    rec: Record,
}

// A notice: a depot opens beside another one, or two depots are linked.
#[derive(Clone, Copy)]
pub(crate) enum Notice {
    Opening { code: u8, near: u8 },
    Link { first: u8, second: u8 },
}

impl Map {
    // The map after the depots 0, 1 and 2 have opened in a path.
    pub(crate) fn begin() -> Map {
        let mut map = Map {
            links: [0; map::TABLE],
            pairs: [0; map::TABLE],
            rec: map::empty_record(),
        };
        let _ = map.open(0, b"");
        let _ = map.open(1, &[0]);
        let _ = map.open(2, &[1]);
        map
    }

    // The map after these notices in their order; those that were refused are handed in again.
    pub(crate) fn after<const N: usize>(notices: [Notice; N]) -> Map {
        let mut map = Map::begin();
        let mut refused = [false; N];
        for (notice, refused) in notices.iter().zip(refused.iter_mut()) {
            *refused = matches!(map.take(*notice), Outcome::Refused(_));
        }
        for (notice, refused) in notices.iter().zip(&refused) {
            if *refused {
                let _ = map.take(*notice);
            }
        }
        map
    }

    // A call on scratch that no call has used. How it came out.
    fn call(&mut self, asked: Asked<'_>) -> Outcome {
        let mut hops = [0; map::PLACES];
        let mut bounds = [0; map::PLACES];
        let mut skips = [0; map::PLACES];
        let mut even = [0; map::WORDS];
        let mut odd = [0; map::WORDS];
        let mut room = Room {
            pairs: &mut self.pairs,
            hops: &mut hops,
            bounds: &mut bounds,
            skips: &mut skips,
            even: &mut even,
            odd: &mut odd,
        };
        let got = step::step(self.rec, &mut self.links, &mut room, asked);
        self.rec = got.after;
        got.report.outcome
    }

    // The opening of a depot.
    fn open(&mut self, code: u8, neighbours: &[u8]) -> Outcome {
        self.call(Asked::Opening(opening::Notice {
            yard: false,
            code,
            neighbours,
        }))
    }

    // Takes a notice, unless it is refused.
    pub(crate) fn take(&mut self, notice: Notice) -> Outcome {
        match notice {
            Notice::Opening { code, near } => self.open(code, &[near]),
            Notice::Link { first, second } => self.call(Asked::Link(Link { first, second })),
        }
    }

    // Takes lines that are handed over as one batch. How many are left over.
    pub(crate) fn take_batch(&mut self, lines: &[u8]) -> Result<u8, Refusal> {
        let mut left = [0; batch::LIMIT];
        let mut hops = [0; map::PLACES];
        let mut bounds = [0; map::PLACES];
        let mut skips = [0; map::PLACES];
        let mut even = [0; map::WORDS];
        let mut odd = [0; map::WORDS];
        let mut room = Room {
            pairs: &mut self.pairs,
            hops: &mut hops,
            bounds: &mut bounds,
            skips: &mut skips,
            even: &mut even,
            odd: &mut odd,
        };
        let batched = batch_opening::open_batch(
            self.rec,
            &mut self.links,
            &mut room,
            &mut left,
            lines,
        )?;
        self.rec = batched.after;
        Ok(batched.left)
    }
}

// A map's figures: depots open, chain, pairs.
impl fmt::Display for Map {
    fn fmt<W: fmt::Write>(&self, f: &mut fmt::Formatter<W>) -> fmt::Result {
        let number = self.rec.number;
        let chain = self.rec.chain;
        let count = self.rec.count;
        write!(f, "({number} {chain} {count})")
    }
}
