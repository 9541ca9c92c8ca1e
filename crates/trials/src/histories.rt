// Histories of openings from the empty map: after each call the map is held to the plain list and to a simple search from every depot; after the last
// one a whole reckoning and a search of every code are too.
use crate::calls::{Lent, number_of};
use crate::notices::{Kind, code};
use crate::tally::Tally;
use plain_search::tables::flip;
use plain_search::{Refusal, Sheet};

// A history: its network, what is lent to its calls, the sheet that they are held to, and the cases so far.
#[derive(Drop)]
pub(crate) struct History {
    kind: Kind,
    pub(crate) lent: Lent,
    pub(crate) sheet: Sheet,
    pub(crate) tally: Tally,
}

// What the calls of a random history are bent for, in turn.
const BENDS: [Refusal; 8] = [
    Refusal::Short,
    Refusal::Spoilt,
    Refusal::Apart,
    Refusal::Absent,
    Refusal::Taken,
    Refusal::Lonely,
    Refusal::Unsorted,
    Refusal::Unknown,
];

// What is lent to a call, bent in its record: a chain too long or a pair too many, or depot j open, which nothing is linked to.
fn bend(lent: &mut Lent, bent: Option<Refusal>, j: u8) {
    match bent {
        Some(Refusal::Spoilt) if j % 16 == 1 => lent.rec.chain = 256,
        Some(Refusal::Spoilt) => lent.rec.count = lent.rec.count.saturating_add(1),
        Some(Refusal::Apart) => {
            flip(&mut lent.rec.members, usize::from(code(j)));
            lent.rec.number = lent.rec.number.saturating_add(1);
        }
        _ => {}
    }
}

impl History {
    // The history that has not begun, after these cases.
    pub(crate) fn new(kind: Kind, tally: Tally) -> History {
        History {
            kind,
            lent: Lent::empty(),
            sheet: Sheet::new(),
            tally,
        }
    }

    // The opening of depot j, bent.
    fn turn(&mut self, j: u8, bent: Option<Refusal>) {
        let notice = self.kind.notice(j, bent);
        let mut lent = self.lent;
        bend(&mut lent, bent, j);
        let want = match bent {
            Some(refusal @ (Refusal::Spoilt | Refusal::Apart)) => Err(refusal),
            _ => self
                .sheet
                .open(notice.code, notice.neighbours.items(), notice.short),
        };
        let answered = match want {
            Ok(change) => {
                let opened = lent.opens(&notice, change, &self.sheet);
                self.lent = lent;
                opened
            }
            Err(refusal) => lent.refuses(refusal, |m| number_of(m.open(&notice))),
        };
        let meant = want.err() == bent;
        self.tally
            .see(answered && meant && self.lent.is_true(&self.sheet));
    }

    // The calls of depot j: in a history at random a bent one stands before each opening. An absent depot is searched from.
    fn add(&mut self, j: u8) {
        if let Kind::Random = self.kind {
            match BENDS[usize::from(j % 8)] {
                Refusal::Absent => self.tally.see(
                    self.lent.refuses(
                        Refusal::Absent,
                        |m| m.search(code(j)).err().map(outcome::Refusal::number),
                    ),
                ),
                bent => self.turn(j, Some(bent)),
            }
        }
        self.turn(j, None);
    }

    // So many depots of a history, from the first.
    pub(crate) fn grow(&mut self, depots: usize) {
        for j in (0..=u8::MAX).take(depots) {
            self.add(j);
        }
    }

    // A search of every code, after a whole reckoning from figures out of range.
    fn search_each(&mut self) {
        let mut falsely = self.lent;
        falsely.rec.chain = 999;
        falsely.rec.count = 5;
        falsely.pairs = [7; map::TABLE];
        self.tally.see(falsely.is_reckoned(&self.sheet));
        for s in 0..=u8::MAX {
            self.tally.see(self.lent.is_searched(s, &self.sheet));
        }
    }

    // A whole history of so many depots.
    pub(crate) fn follow(&mut self, depots: usize) {
        self.grow(depots);
        self.search_each();
    }
}

// ---- the groups

// A history of 256 depots that ends with this chain and this number of pairs.
pub(crate) fn ends(kind: Kind, chain: u16, count: u32) -> Tally {
    let mut history = History::new(kind, Tally::new());
    history.follow(256);
    let rec = history.lent.rec;
    history.tally.see(rec.chain == chain && rec.count == count);
    history.tally
}

// A whole history of so many depots.
pub(crate) fn follow(kind: Kind, depots: usize) -> Tally {
    let mut history = History::new(kind, Tally::new());
    history.follow(depots);
    history.tally
}

// Every growth of four depots: 3 neighbour sets for the third, 7 for the fourth.
pub(crate) fn all_four() -> Tally {
    let mut tally = Tally::new();
    for k in 0..21 {
        let mut history = History::new(Kind::Four(k), tally);
        history.follow(4);
        tally = history.tally;
    }
    tally
}
