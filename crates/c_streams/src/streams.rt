// The step of the stream.
ghost use Rattle.std.specs.Prelude.{◌≡◌};
ghost use Rattle.map.specs.Slices.{lent_before, lent_after};
ghost use Rattle.c_streams.specs.Feeds.{FedValues, feed_out, finish_out};

use line_buffer::Reports;
use map::{Lengths, Room};
use stream::Progress;

// Feeds a piece of a stream's input. 0, with the bytes of the piece used and the bytes of reports written; or 1 (short), 2 (spoilt), 3 (apart).
// The map is checked once in a call, so large pieces are quicker.
#[unsafe(no_mangle)]
pub extern "C" fn zorpedi_feed(
    words: &mut [u64],
    links: &mut [u64],
    pairs: &mut [u64],
    hops: &mut [u16],
    bounds: &mut [u16],
    skips: &mut [u16],
    even: &mut [u64],
    odd: &mut [u64],
    line: &mut [u8],
    out: &mut [u8],
    lines: &mut u32,
    held: &mut usize,
    used: &mut usize,
    written: &mut usize,
    piece: &[u8],
) -> u8
    ensures { let before = lent_before pairs hops bounds skips even odd in
        let after = lent_after pairs hops bounds skips even odd in
        let values : FedValues = (words.old, lines.old, held.old, used.old, written.old) in
        (result, (words.new, lines.new, held.new, used.new, written.new), (links.new, after, line.new, out.new))
        ≡ feed_out values (links.old, before, line.old, out.old) piece.now }
{
    let lengths = Lengths {
        hops: hops.len(),
        bounds: bounds.len(),
        skips: skips.len(),
        even: even.len(),
        odd: odd.len(),
    };
    if let Err(refusal) = c_values::step_refusal(
        &*words,
        &*links,
        &*pairs,
        lengths,
        line.len(),
        out.len(),
        *held,
    ) {
        return refusal.number();
    }
    let mut room = Room {
        pairs,
        hops,
        bounds,
        skips,
        even,
        odd,
    };
    let rec = c_values::record_of(&*words);
    let progress = Progress {
        rec,
        lines: *lines,
        held: *held,
    };
    let fed = stream::feed(
        progress,
        links,
        &mut room,
        line,
        out,
        piece,
        &mut Reports::new(),
    );
    let now = fed.progress;
    c_values::put_record(words, now.rec);
    *lines = now.lines;
    *held = now.held;
    *used = fed.used;
    *written = fed.written;
    0
}

// Ends a stream: a last stretch that is held is a line too. 0, with the bytes of reports written; or 1 (short), 2 (spoilt), 3 (apart).
#[unsafe(no_mangle)]
pub extern "C" fn zorpedi_finish(
    words: &mut [u64],
    links: &mut [u64],
    pairs: &mut [u64],
    hops: &mut [u16],
    bounds: &mut [u16],
    skips: &mut [u16],
    even: &mut [u64],
    odd: &mut [u64],
    line: &[u8],
    out: &mut [u8],
    lines: &mut u32,
    held: &mut usize,
    written: &mut usize,
) -> u8
    ensures { let before = lent_before pairs hops bounds skips even odd in
        let after = lent_after pairs hops bounds skips even odd in
        let values : FedValues = (words.old, lines.old, held.old, 0, written.old) in
        (result, (words.new, lines.new, held.new, 0, written.new), (links.new, after, line.now, out.new))
        ≡ finish_out values (links.old, before, line.now, out.old) }
{
    let lengths = Lengths {
        hops: hops.len(),
        bounds: bounds.len(),
        skips: skips.len(),
        even: even.len(),
        odd: odd.len(),
    };
    if let Err(refusal) = c_values::step_refusal(
        &*words,
        &*links,
        &*pairs,
        lengths,
        line.len(),
        out.len(),
        *held,
    ) {
        return refusal.number();
    }
    let mut room = Room {
        pairs,
        hops,
        bounds,
        skips,
        even,
        odd,
    };
    let rec = c_values::record_of(&*words);
    let progress = Progress {
        rec,
        lines: *lines,
        held: *held,
    };
    let fed = stream::finish(progress, links, &mut room, line, out, &mut Reports::new());
    let now = fed.progress;
    c_values::put_record(words, now.rec);
    *lines = now.lines;
    *held = now.held;
    *written = fed.written;
    0
}
