// The calls, on all that is lent to them; and what they answer and leave, held to the sheet.
use crate::notices::Notice;
use map::{Record, Room};
use outcome::Outcome;
use plain_search::marks::{are_covered, searched};
use plain_search::tables::bits_are;
use plain_search::{CODES, Change, Refusal, Sheet};
use update::Report;

// The scratch of a call.
#[derive(Clone, Copy, PartialEq, Eq)]
pub(crate) struct Scratch {
    pub(crate) hops: [u16; map::PLACES],
    pub(crate) bounds: [u16; map::PLACES],
    pub(crate) skips: [u16; map::PLACES],
    pub(crate) even: [u64; map::WORDS],
    pub(crate) odd: [u64; map::WORDS],
}

// What is lent: the map, which is both tables and the record, and scratch.
#[derive(Clone, Copy, PartialEq, Eq)]
pub(crate) struct Lent {
    pub(crate) links: [u64; map::TABLE],
    pub(crate) pairs: [u64; map::TABLE],
    pub(crate) rec: Record,
    pub(crate) scratch: Scratch,
}

// The number of an opening's refusal, which comes without searches: a test besides, so that it is no `From`.
pub(crate) fn number_of(opening: Report) -> Option<u8> {
    match opening.outcome {
        Outcome::Refused(number) if opening.searches == 0 => Some(number),
        _ => None,
    }
}

// How an accepted opening changed the chain, as the plain list says it. No `From`: of a refused one there is nothing.
pub(crate) fn change_of(opening: Report) -> Option<Change> {
    match opening.outcome {
        Outcome::Accepted(outcome::Change::Grew) => Some(Change::Grew),
        Outcome::Accepted(outcome::Change::Kept) => Some(Change::Kept),
        Outcome::Accepted(outcome::Change::Shrank) => Some(Change::Shrank),
        Outcome::Refused(_) => None,
    }
}

impl Lent {
    // The empty map, and scratch of no use.
    pub(crate) fn empty() -> Lent {
        let mut links = [9; map::TABLE];
        let mut pairs = [9; map::TABLE];
        let spent = Record {
            members: [9; map::WORDS],
            number: 9,
            chain: 9,
            count: 9,
            yards: [9; map::WORDS],
        };
        let rec = map::empty_map(spent, &mut links, &mut pairs).unwrap_or(spent);
        let scratch = Scratch {
            hops: [7; map::PLACES],
            bounds: [7; map::PLACES],
            skips: [7; map::PLACES],
            even: [7; map::WORDS],
            odd: [7; map::WORDS],
        };
        Lent {
            links,
            pairs,
            rec,
            scratch,
        }
    }

    // ---- the calls

    // An opening. Of its second layer row only three words are lent where a buffer is to be short.
    pub(crate) fn open(&mut self, notice: &Notice) -> Report {
        let odd = &mut self.scratch.odd[..];
        let words = if notice.short { 3 } else { map::WORDS };
        let mut room = Room {
            pairs: &mut self.pairs,
            hops: &mut self.scratch.hops,
            bounds: &mut self.scratch.bounds,
            skips: &mut self.scratch.skips,
            even: &mut self.scratch.even,
            odd: &mut odd[..words],
        };
        let asked = opening::Notice {
            yard: false,
            code: notice.code,
            neighbours: notice.neighbours.items(),
        };
        lent_opening::open(&mut self.rec, &mut self.links, &mut room, asked)
    }

    // A whole reckoning: the number of searches.
    pub(crate) fn reckon(&mut self) -> Result<u16, outcome::Refusal> {
        let mut room = Room {
            pairs: &mut self.pairs,
            hops: &mut self.scratch.hops,
            bounds: &mut self.scratch.bounds,
            skips: &mut self.scratch.skips,
            even: &mut self.scratch.even,
            odd: &mut self.scratch.odd,
        };
        let reckoned = reckon::reckon_all(self.rec, &self.links, &mut room)?;
        self.rec = reckoned.after;
        Ok(reckoned.searches)
    }

    // A search of the code s: its eccentricity and its depth.
    pub(crate) fn search(&mut self, s: u8) -> Result<(u16, u16), outcome::Refusal> {
        let mut scratch = map::Scratch {
            hops: &mut self.scratch.hops,
            even: &mut self.scratch.even,
            odd: &mut self.scratch.odd,
        };
        let reach = search::search_from(self.rec, &self.links, &mut scratch, s)?;
        Ok((reach.ecc, reach.depth))
    }

    // ---- what they left

    // Whether a call, which answers the number of its refusal, is refused for this, with nothing changed.
    pub(crate) fn refuses<F: FnOnce(&mut Lent) -> Option<u8>>(
        &self,
        refusal: Refusal,
        call: F,
    ) -> bool
        requires { F.IsAlwaysCallable call }
    {
        let mut left = *self;
        call(&mut left) == Some(refusal as u8) && left == *self
    }

    // Whether there are as many marks as searches; and, where rounds were run, every depot that was not searched is covered.
    pub(crate) fn is_marked(&self, searches: u16, rounds: bool, sheet: &Sheet) -> bool {
        usize::from(searches) == searched(&self.scratch.skips)
            && (!rounds || are_covered(&self.scratch.skips, sheet, self.rec.chain))
    }

    // Whether an opening answers that the chain changed so, with the right marks.
    pub(crate) fn opens(&mut self, notice: &Notice, want: Change, sheet: &Sheet) -> bool {
        let opening = self.open(notice);
        change_of(opening) == Some(want)
            && self.is_marked(opening.searches, want == Change::Shrank, sheet)
    }

    // Whether a whole reckoning finds the true figures, whatever they were.
    pub(crate) fn is_reckoned(&self, sheet: &Sheet) -> bool {
        let mut left = *self;
        left.reckon()
            .is_ok_and(|searches| left.is_marked(searches, true, sheet))
            && left.is_true(sheet)
    }

    // Whether a search of the code s hands back, as its last layer, the depots farthest from s by the plain search.
    fn hands_back(&mut self, s: u8, e: u16, farthest: &[bool; CODES]) -> bool {
        let rows = search::search_rows(
            self.rec,
            &self.links,
            &mut self.scratch.hops,
            &mut self.scratch.even,
            &mut self.scratch.odd,
            s,
        );
        bits_are(rows.last, farthest)
            && rows
                .found
                .is_ok_and(|reach| reach.ecc == e && reach.depth == e)
    }

    // Whether a search of the code s finds the distances, the eccentricity, which without yards is the depth, and the farthest depots of the plain search.
    fn finds(&self, s: u8, sheet: &Sheet) -> bool {
        let mut left = *self;
        let own = usize::from(s);
        let e = sheet.eccentricities[own];
        let farthest = sheet.distances[own].map(|d| d == Some(e));
        left.search(s) == Ok((e, e))
            && left.scratch.hops == sheet.distances[own].map(|d| d.unwrap_or(u16::MAX))
            && bits_are(
                search::last_layer(&left.scratch.even, &left.scratch.odd, e),
                &farthest,
            )
            && left.hands_back(s, e, &farthest)
    }

    // Whether a search of the code s finds what the plain search found, or is refused if it is closed.
    pub(crate) fn is_searched(&self, s: u8, sheet: &Sheet) -> bool {
        if sheet.depots[usize::from(s)] {
            self.finds(s, sheet)
        } else {
            self.refuses(
                Refusal::Absent,
                |m| m.search(s).err().map(outcome::Refusal::number),
            )
        }
    }

    // Whether a map is that of the plain list, with the figures and farthest pairs of the plain search: every bit of the tables and the open set, and no yard.
    pub(crate) fn is_true(&self, sheet: &Sheet) -> bool {
        bits_are(&self.links, sheet.links.as_flattened())
            && bits_are(&self.pairs, sheet.pairs.as_flattened())
            && bits_are(&self.rec.members, &sheet.depots)
            && self.rec.yards == [0; map::WORDS]
            && usize::from(self.rec.number) == sheet.number()
            && self.rec.chain == sheet.chain
            && self.rec.count as usize == sheet.count()
    }
}
