// The calls that empty a map, search from a depot, reckon the whole.
ghost use Rattle.std.specs.Prelude.{◌≡◌};
ghost use Rattle.map.specs.Slices.{tables_before, tables_after, lent_before, lent_after};
ghost use Rattle.c_maps.specs.Outs.{empty_out, search_out, reckon_out};

use map::{Room, Scratch};
use outcome::Refusal;

// Empties a map. 0; or 1 (short).
#[tactic(auto, unfolding(crate::specs::Outs::empty_out, c_values::specs::Outs::on_words))]
#[unsafe(no_mangle)]
pub extern "C" fn zorpedi_empty(words: &mut [u64], links: &mut [u64], pairs: &mut [u64]) -> u8
    ensures { (result, words.new, (links.new, pairs.new)) ≡ empty_out words.old links.old pairs.old }
{
    if words.len() < c_values::RECORD_WORDS {
        return Refusal::Short.number();
    }
    let rec = c_values::record_of(&*words);
    match map::empty_map(rec, links, pairs) {
        Ok(after) => {
            c_values::put_record(words, after);
            0
        }
        Err(refusal) => refusal.number(),
    }
}

// The search from a depot. 0, its eccentricity, which is to depots that deliver, and its depth, the distance of the last layer, which is of all open
// depots; or 1 (short), 2 (spoilt), 3 (apart), 4 (absent).
#[tactic(auto, unfolding(crate::specs::Outs::search_out, c_values::specs::Outs::on_words))]
#[unsafe(no_mangle)]
pub extern "C" fn zorpedi_search(
    words: &[u64],
    links: &[u64],
    hops: &mut [u16],
    even: &mut [u64],
    odd: &mut [u64],
    eccentricity: &mut u16,
    depth: &mut u16,
    code: u8,
) -> u8
    ensures { let before = tables_before hops even odd in
        let after = tables_after hops even odd in
        (result, (eccentricity.new, depth.new), after)
        ≡ search_out words.now links.now before (eccentricity.old, depth.old) code }
{
    if words.len() < c_values::RECORD_WORDS {
        return Refusal::Short.number();
    }
    let rec = c_values::record_of(words);
    let mut scratch = Scratch { hops, even, odd };
    match search::search_from(rec, links, &mut scratch, code) {
        Ok(reach) => {
            *eccentricity = reach.ecc;
            *depth = reach.depth;
            0
        }
        Err(refusal) => refusal.number(),
    }
}

// The whole reckoning. 0, and the number of searches; or 1 (short), 2 (spoilt), 3 (apart).
#[tactic(auto, unfolding(crate::specs::Outs::reckon_out, c_values::specs::Outs::on_words))]
#[unsafe(no_mangle)]
pub extern "C" fn zorpedi_reckon(
    words: &mut [u64],
    links: &[u64],
    pairs: &mut [u64],
    hops: &mut [u16],
    bounds: &mut [u16],
    skips: &mut [u16],
    even: &mut [u64],
    odd: &mut [u64],
    searches: &mut u16,
) -> u8
    ensures { let before = lent_before pairs hops bounds skips even odd in
        let after = lent_after pairs hops bounds skips even odd in
        (result, (words.new, searches.new), after)
        ≡ reckon_out words.old links.now before searches.old }
{
    if words.len() < c_values::RECORD_WORDS {
        return Refusal::Short.number();
    }
    let rec = c_values::record_of(&*words);
    let mut room = Room {
        pairs,
        hops,
        bounds,
        skips,
        even,
        odd,
    };
    match reckon::reckon_all(rec, links, &mut room) {
        Ok(reckoned) => {
            c_values::put_record(words, reckoned.after);
            *searches = reckoned.searches;
            0
        }
        Err(refusal) => refusal.number(),
    }
}
