// The calls on depots near one.
ghost use Rattle.std.specs.Prelude.{◌≡◌};
ghost use Rattle.map.specs.Slices.{tables_before, tables_after};
ghost use Rattle.c_maps.specs.Nears.{within_out, nearest_out};

use map::Scratch;
use outcome::Refusal;

// The depots at most k handovers from a depot. 0, and how many they are; or 1 (short), 2 (spoilt), 3 (apart), 4 (absent).
#[tactic(auto, unfolding(crate::specs::Nears::within_out, c_values::specs::Outs::on_words))]
#[unsafe(no_mangle)]
pub extern "C" fn zorpedi_within(
    words: &[u64],
    links: &[u64],
    hops: &mut [u16],
    even: &mut [u64],
    odd: &mut [u64],
    codes: &mut [u8],
    count: &mut u16,
    code: u8,
    k: u32,
) -> u8
    ensures { let before = tables_before hops even odd in
        let after = tables_after hops even odd in
        (result, count.new, (after, codes.new))
        ≡ within_out words.now links.now before codes.old count.old code k }
{
    if words.len() < c_values::RECORD_WORDS {
        return Refusal::Short.number();
    }
    let rec = c_values::record_of(words);
    let mut scratch = Scratch { hops, even, odd };
    match nearby::within(rec, links, &mut scratch, codes, code, k) {
        Ok(n) => {
            *count = n;
            0
        }
        Err(refusal) => refusal.number(),
    }
}

// The open depot of a list nearest to a depot. 0, the depot found and its distance; or 1 (short), 2 (spoilt), 3 (apart), 4 (absent), 10 (nobody).
#[tactic(auto, unfolding(crate::specs::Nears::nearest_out, c_values::specs::Outs::on_words))]
#[unsafe(no_mangle)]
pub extern "C" fn zorpedi_nearest(
    words: &[u64],
    links: &[u64],
    hops: &mut [u16],
    even: &mut [u64],
    odd: &mut [u64],
    found: &mut u8,
    distance: &mut u16,
    code: u8,
    listed: &[u8],
) -> u8
    ensures { let before = tables_before hops even odd in
        let after = tables_after hops even odd in
        let asked = listed.now in
        (result, (found.new, distance.new), after)
        ≡ nearest_out words.now links.now before (found.old, distance.old) code asked }
{
    if words.len() < c_values::RECORD_WORDS {
        return Refusal::Short.number();
    }
    let rec = c_values::record_of(words);
    let mut scratch = Scratch { hops, even, odd };
    match nearby::nearest(rec, links, &mut scratch, code, listed) {
        Ok(nearest) => {
            *found = nearest.code;
            *distance = nearest.distance;
            0
        }
        Err(refusal) => refusal.number(),
    }
}
