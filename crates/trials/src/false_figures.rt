// False but sound figures: a chain that is not the longest, and pairs that are not the farthest. An opening takes them and follows the same
// steps; what it leaves is sound again, and a whole reckoning mends it.
use crate::calls::{Lent, change_of, number_of};
use crate::histories::History;
use crate::notices::{Kind, code, place};
use crate::tally::Tally;
use plain_search::tables::flip;
use plain_search::{Change, Refusal};

// The pairs of the first three depots that may be claimed, the one with the lower code first.
const PAIRS: [(u8, u8); 3] = [(0, 1), (2, 0), (2, 1)];

// Puts false figures into what is lent: this chain, and those of the pairs whose bits are set in a number.
fn claim(lent: &mut Lent, chain: u16, claimed: u8) {
    lent.pairs = [0; map::TABLE];
    for (i, (low, high)) in PAIRS.iter().enumerate() {
        if claimed >> i & 1 == 1 {
            flip(&mut lent.pairs, place(*low, code(*high)));
        }
    }
    lent.rec.chain = chain;
    lent.rec.count = claimed.count_ones();
}

// What an opening on false figures answered, and the figures that it left.
#[derive(Clone, Copy, PartialEq, Eq)]
struct Opened {
    change: Change,
    searches: u16,
    chain: u16,
    count: u32,
}

// The opening of depot j of a growth of four on false figures; none unless it was accepted with the right marks, another opening of the same code is refused as
// taken and not as spoilt, and a whole reckoning finds the true figures.
fn open(growth: u8, j: u8, chain: u16, claimed: u8) -> Option<Opened> {
    let kind = Kind::Four(growth);
    let mut history = History::new(kind, Tally::new());
    history.grow(usize::from(j));
    claim(&mut history.lent, chain, claimed);
    let notice = kind.notice(j, None);
    let _ = history
        .sheet
        .open(notice.code, notice.neighbours.items(), notice.short);
    let opening = history.lent.open(&notice);
    let change = change_of(opening)?;
    let again = kind.notice(j % 4 + 1, Some(Refusal::Taken));
    let rounds = change == Change::Shrank;
    let right = history
        .lent
        .is_marked(opening.searches, rounds, &history.sheet)
        && history
            .lent
            .refuses(Refusal::Taken, |m| number_of(m.open(&again)))
        && history.lent.is_reckoned(&history.sheet);
    right.then_some(Opened {
        change,
        searches: opening.searches,
        chain: history.lent.rec.chain,
        count: history.lent.rec.count,
    })
}

// The worked case of an opening that leaves these figures after so many searches.
fn leaves(change: Change, searches: u16, chain: u16, count: u32) -> Option<Opened> {
    Some(Opened {
        change,
        searches,
        chain,
        count,
    })
}

// What the steps of rule 4 give on figures that no network has: an empty map with a chain shrinks to 0; two depots with their pair and chain 0 grow, and
// the old pair goes; a path of three with chain 9 and its ends as pair, the fourth depot at the middle, has candidate 4, which no search reaches, and no
// pair is left.
fn worked() -> Tally {
    let mut tally = Tally::new();
    tally.see(open(0, 0, 9, 0) == leaves(Change::Shrank, 1, 0, 0));
    tally.see(open(1, 2, 0, 1) == leaves(Change::Grew, 1, 2, 1));
    tally.see(open(4, 3, 9, 2) == leaves(Change::Shrank, 3, 4, 0));
    tally
}

// The worked cases; and on three depots of each of 21 growths each of 8 sets of pairs with each of 6 chains.
pub(crate) fn all() -> Tally {
    let mut tally = worked();
    for chain in [0, 1, 2, 3, 4, 255] {
        for claimed in 0..8 {
            for growth in 0..21 {
                tally.see(open(growth, 3, chain, claimed).is_some());
            }
        }
    }
    tally
}
