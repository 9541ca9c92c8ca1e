// The calls that open a depot or a yard and that link two.
ghost use Rattle.std.specs.Prelude.{◌≡◌, true, false, ◌≤◌, length};
ghost use Rattle.map.specs.Slices.{lent_in, lent_before, lent_after, IsSameRoom};
ghost use Rattle.graph.specs.Updates.{opens, joins};
ghost use Rattle.graph.specs.Opening.{notice_of};
ghost use Rattle.step.specs.Asks.{update_of};
ghost use Rattle.c_values.specs.Words.{record_words};
ghost use Rattle.c_updates.specs.UpdateOuts.{handed_by, update_out};

use admission::Link;
use map::Room;
use opening::Notice;
use outcome::{Outcome, Refusal};
use step::Asked;
use update::Returned;

// Hands what an update gave to its caller: the letter, and then record and number of searches are written; or the number of the refusal.
#[tactic(auto, unfolding(crate::specs::UpdateOuts::handed_by))]
fn hand_over(words: &mut [u64], searches: &mut u16, got: Returned) -> u8
    requires { record_words ≤ length words.old }
    ensures { let report = got.report in
        (result, (words.new, searches.new))
        ≡ handed_by report.outcome got.after report.searches words.old searches.old }
{
    let report = got.report;
    let outcome = report.outcome;
    match outcome {
        Outcome::Accepted(_) => {
            c_values::put_record(words, got.after);
            *searches = report.searches;
            outcome::letter(outcome)
        }
        Outcome::Refused(k) => k,
    }
}

// A call that changes the network, whatever it asks for.
#[tactic(auto, unfolding(crate::specs::UpdateOuts::update_out))]
fn change(
    words: &mut [u64],
    links: &mut [u64],
    room: &mut Room<'_>,
    searches: &mut u16,
    asked: Asked<'_>,
) -> u8
    ensures same { IsSameRoom room.old room.new }
    ensures left { let before = lent_in room.old in
        let after = lent_in room.new in
        (result, (words.new, searches.new), (links.new, after))
        ≡ update_out words.old links.old before (update_of asked.entry) searches.old }
{
    if words.len() < c_values::RECORD_WORDS {
        return Refusal::Short.number();
    }
    let rec = c_values::record_of(&*words);
    let got = step::step(rec, links, room, asked);
    hand_over(words, searches, got)
}

// The opening of a depot that delivers. 71 (G, grew), 75 (K, kept) or 83 (S, shrank), and the number of searches; or the number of the refusal.
#[unsafe(no_mangle)]
pub extern "C" fn zorpedi_open(
    words: &mut [u64],
    links: &mut [u64],
    pairs: &mut [u64],
    hops: &mut [u16],
    bounds: &mut [u16],
    skips: &mut [u16],
    even: &mut [u64],
    odd: &mut [u64],
    searches: &mut u16,
    code: u8,
    neighbours: &[u8],
) -> u8
    ensures { let before = lent_before pairs hops bounds skips even odd in
        let after = lent_after pairs hops bounds skips even odd in
        let asked = opens (notice_of false code neighbours.now) in
        (result, (words.new, searches.new), (links.new, after))
        ≡ update_out words.old links.old before asked searches.old }
{
    let mut room = Room {
        pairs,
        hops,
        bounds,
        skips,
        even,
        odd,
    };
    let notice = Notice {
        yard: false,
        code,
        neighbours,
    };
    change(words, links, &mut room, searches, Asked::Opening(notice))
}

// The opening of a yard, which makes no chain grow: a call of its own, since C's interface has a name for each kind.
// 75 (K, kept) or 83 (S, shrank), and the number of searches; or the number of the refusal.
#[unsafe(no_mangle)]
pub extern "C" fn zorpedi_open_yard(
    words: &mut [u64],
    links: &mut [u64],
    pairs: &mut [u64],
    hops: &mut [u16],
    bounds: &mut [u16],
    skips: &mut [u16],
    even: &mut [u64],
    odd: &mut [u64],
    searches: &mut u16,
    code: u8,
    neighbours: &[u8],
) -> u8
    ensures { let before = lent_before pairs hops bounds skips even odd in
        let after = lent_after pairs hops bounds skips even odd in
        let asked = opens (notice_of true code neighbours.now) in
        (result, (words.new, searches.new), (links.new, after))
        ≡ update_out words.old links.old before asked searches.old }
{
    let mut room = Room {
        pairs,
        hops,
        bounds,
        skips,
        even,
        odd,
    };
    let notice = Notice {
        yard: true,
        code,
        neighbours,
    };
    change(words, links, &mut room, searches, Asked::Opening(notice))
}

// The link of two open depots. 75 (K, kept) or 83 (S, shrank), and the number of searches; or the number of the refusal.
#[unsafe(no_mangle)]
pub extern "C" fn zorpedi_link(
    words: &mut [u64],
    links: &mut [u64],
    pairs: &mut [u64],
    hops: &mut [u16],
    bounds: &mut [u16],
    skips: &mut [u16],
    even: &mut [u64],
    odd: &mut [u64],
    searches: &mut u16,
    first: u8,
    second: u8,
) -> u8
    ensures { let before = lent_before pairs hops bounds skips even odd in
        let after = lent_after pairs hops bounds skips even odd in
        let asked = joins first second in
        (result, (words.new, searches.new), (links.new, after))
        ≡ update_out words.old links.old before asked searches.old }
{
    let mut room = Room {
        pairs,
        hops,
        bounds,
        skips,
        even,
        odd,
    };
    let link = Link { first, second };
    change(words, links, &mut room, searches, Asked::Link(link))
}
