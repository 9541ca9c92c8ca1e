// The call of the network report.
ghost use Rattle.std.specs.Prelude.{◌≡◌};
ghost use Rattle.map.specs.Slices.{tables_before, tables_after};
ghost use Rattle.c_maps.specs.Summaries.{summary_out};

use map::Scratch;
use outcome::Refusal;

// The network report. 0, the sum of the distances, the number of pairs, quotient and remainder of the mean; or 1 (short), 2 (spoilt), 3 (apart),
// 15 (too few).
#[tactic(auto, unfolding(crate::specs::Summaries::summary_out, c_values::specs::Outs::on_words))]
#[unsafe(no_mangle)]
pub extern "C" fn zorpedi_summary(
    words: &[u64],
    links: &[u64],
    hops: &mut [u16],
    even: &mut [u64],
    odd: &mut [u64],
    counts: &mut [u16],
    sum: &mut u64,
    pair_number: &mut u64,
    quotient: &mut u64,
    remainder: &mut u64,
) -> u8
    ensures { let before = tables_before hops even odd in
        let after = tables_after hops even odd in
        (result, (sum.new, pair_number.new, quotient.new, remainder.new), (after, counts.new))
        ≡ summary_out words.now links.now before counts.old (sum.old, pair_number.old, quotient.old, remainder.old) }
{
    if words.len() < c_values::RECORD_WORDS {
        return Refusal::Short.number();
    }
    let rec = c_values::record_of(words);
    let mut scratch = Scratch { hops, even, odd };
    match summary::summarise(rec, links, &mut scratch, counts) {
        Ok(summary) => {
            *sum = summary.sum;
            *pair_number = summary.pairs;
            *quotient = summary.quotient;
            *remainder = summary.remainder;
            0
        }
        Err(refusal) => refusal.number(),
    }
}
