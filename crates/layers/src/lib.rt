// Breadth-first search over any table of rows, layer by layer. A row's width comes beside it, as crate `rows` says.

#![tactic(auto)]

ghost use Rattle.std.specs.Prelude.{◌≡◌, not, ◌&&◌, ◌*◌, ◌<◌, ◌≤◌, length};
ghost use Rattle.lists.specs.Lists.{overwrite};
ghost use Rattle.rows.specs.Rows.{row_bit, encode_row};
ghost use Rattle.layers.specs.Layers.{last_layer, searched, search_table};
ghost use Rattle.map.specs.Slices.{tables_in, IsSameScratch};
ghost use Rattle.frontier.specs.Steps.{SearchRoom};
ghost use Rattle.layers.specs.Begin.{HoldsEnds, search_begun, search_begin_of};

use map::Scratch;

// Makes left the members that the row first does not have: a difference of sets, by whole words.
#[tactic(auto, using(crate::proofs::Leaving::leaving))]
fn leave_others(left: &mut [u64], members: &[u64], first: &[u64], words: usize)
    requires { (words ≤ length left.old) × (words ≤ length members.now) × (words ≤ length first.now) }
    ensures { left.new ≡ overwrite (encode_row words (λ v. row_bit words members.now v && not (row_bit words first.now v))) left.old }
{
    for j in 0..words {
        left[j] = members[j] & !first[j];
    }
}

// The start of a search: no hop, the start alone in the even row, all other members left.
#[tactic(auto, using(crate::proofs::Searching::alone, crate::proofs::Searching::begin_is))]
fn begin(members: &[u64], scratch: &mut Scratch<'_>, left: &mut [u64], words: usize, start: usize)
    requires { (0 < words)
        × (words < 513)
        × (words ≤ length members.now)
        × (64 * words ≤ length scratch.old.hops.now)
        × (words ≤ length scratch.old.even.now)
        × (words ≤ length scratch.old.odd.now)
        × (words ≤ length left.old)
        × (start < 64 * words) }
    ensures same { IsSameScratch scratch.old scratch.new }
    ensures begun { search_begun (tables_in scratch.new) left.new
        ≡ search_begin_of words members.now start (tables_in scratch.old) left.old }
{
    rows::fill(scratch.hops, 64 * words, map::UNREACHED);
    rows::clear(scratch.odd, words);
    let even = &mut *scratch.even;
    rows::clear(even, words);
    rows::row_set(even, words, 0, start);
    leave_others(left, members, &*even, words);
}

// A search from start over any table of links, whose bits all stand for members: hop table and layer rows, and the distance of the last layer. The members
// that are not reached yet are left; where none is, the layer just made is the last one. What stands in left and next afterwards is free.
pub fn search_table(
    members: &[u64],
    links: &[u64],
    scratch: &mut Scratch<'_>,
    left: &mut [u64],
    next: &mut [u64],
    words: usize,
    start: usize,
) -> u16
    requires { SearchRoom words links.now scratch.old.hops.now
        × HoldsEnds words members.now links.now
        × (words ≤ length scratch.old.even.now)
        × (words ≤ length scratch.old.odd.now)
        × (words ≤ length left.old)
        × (words ≤ length next.old)
        × (start < 64 * words) }
    ensures same { IsSameScratch scratch.old scratch.new }
    ensures left { searched result (tables_in scratch.new) ≡ search_table words links.now start (tables_in scratch.old) }
{
    begin(members, scratch, left, words, start);
    let hops = &mut *scratch.hops;
    let even = &mut *scratch.even;
    let odd = &mut *scratch.odd;
    // The layers end where a step reaches nothing new, so that no range counts them. One call serves both parities, so that the step is compiled into
    // this loop.
    let mut k: u16 = 0;
    while frontier::step(links, hops, even, odd, left, next, words, k) {
        k += 1;
    }
    k
}

// The last layer of a search to this depth, handed back as a part of what was lent, with the lender's
// lifetime: the row of the depth's parity. Here alone is it picked: whoever goes on from a search takes
// what this hands back.
#[tactic(auto, using(crate::proofs::Parts::parts))]
pub fn last_layer<'a>(even: &'a [u64], odd: &'a [u64], words: usize, depth: u16) -> &'a [u64]
    ensures { result.now ≡ last_layer words depth even.now odd.now }
{
    let row = if depth % 2 == 0 { even } else { odd };
    &row[..words.min(row.len())]
}
