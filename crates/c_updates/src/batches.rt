// The call on openings in a batch.
ghost use Rattle.std.specs.Prelude.{◌≡◌};
ghost use Rattle.map.specs.Slices.{lent_before, lent_after};
ghost use Rattle.c_updates.specs.BatchOuts.{batch_out};

use map::Room;
use outcome::Refusal;

// Openings by up to 64 notice lines. 0, and how many lines are left over; or 1 (short), 2 (spoilt), 3 (apart), 11 (overfull), 12 (bare), 9 (garbled).
#[tactic(auto, unfolding(crate::specs::BatchOuts::batch_out))]
#[unsafe(no_mangle)]
pub extern "C" fn zorpedi_open_batch(
    words: &mut [u64],
    links: &mut [u64],
    pairs: &mut [u64],
    hops: &mut [u16],
    bounds: &mut [u16],
    skips: &mut [u16],
    even: &mut [u64],
    odd: &mut [u64],
    left: &mut [u8],
    count: &mut u8,
    lines: &[u8],
) -> u8
    ensures { let before = lent_before pairs hops bounds skips even odd in
        let after = lent_after pairs hops bounds skips even odd in
        let asked = lines.now in
        (result, (words.new, count.new), (links.new, after, left.new))
        ≡ batch_out words.old links.old before left.old count.old asked }
{
    if words.len() < c_values::RECORD_WORDS {
        return Refusal::Short.number();
    }
    let rec = c_values::record_of(&*words);
    let mut room = Room {
        pairs,
        hops,
        bounds,
        skips,
        even,
        odd,
    };
    match batch_opening::open_batch(rec, links, &mut room, left, lines) {
        Ok(batched) => {
            c_values::put_record(words, batched.after);
            *count = batched.left;
            0
        }
        Err(refusal) => refusal.number(),
    }
}
