// Single spoilt bits: each bit of the used rows of a small map's link table, turned over, has every call refused, and nothing changed.
use crate::calls::{Lent, number_of};
use crate::histories::History;
use crate::notices::{Kind, code, place};
use crate::tally::Tally;
use plain_search::Refusal;
use plain_search::tables::flip;

// Whether the opening of a fifth depot, a reckoning and a search are refused with bit v of depot i's row turned over.
fn are_refused(mut lent: Lent, i: u8, v: u8) -> bool {
    flip(&mut lent.links, place(i, v));
    let notice = Kind::Path.notice(4, None);
    lent.refuses(Refusal::Spoilt, |m| number_of(m.open(&notice)))
        && lent.refuses(
            Refusal::Spoilt,
            |m| m.reckon().err().map(outcome::Refusal::number),
        )
        && lent.refuses(
            Refusal::Spoilt,
            |m| m.search(code(0)).err().map(outcome::Refusal::number),
        )
}

// A network of four, and all bits of its four rows.
pub(crate) fn all() -> Tally {
    let mut history = History::new(Kind::Four(4), Tally::new());
    history.grow(4);
    for i in 0..4 {
        for v in 0..=u8::MAX {
            history.tally.see(are_refused(history.lent, i, v));
        }
    }
    history.tally
}
