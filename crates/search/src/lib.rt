// The public search (rule 3), and what refuses it.

#![tactic(auto)]

pub mod promises;

ghost use Rattle.std.specs.Prelude.{◌≡◌, [], ◌<◌, ◌≤◌, length, get_or};
ghost use Rattle.lists.specs.Lists.{max_of};
ghost use Rattle.graph.specs.Distance.{vertices, unreached, dist};
ghost use Rattle.layers.specs.Begin.{HoldsEnds};
ghost use Rattle.layers.specs.Layers.{last_layer, searched, search_table};
ghost use Rattle.outcome.specs.Answers.{answer_of, refusal_in, leaves};
ghost use Rattle.map.specs.Room.{AreLong, tables};
ghost use Rattle.map.specs.Slices.{tables_at, tables_in, scratch_sizes, IsSameScratch};
ghost use Rattle.map.specs.Memory.{base, places, network_of, table_network};
ghost use Rattle.targets.specs.Hops.{IsLastLayer};
ghost use Rattle.search.specs.SearchCall.{search_refusal, search_call, last_of};

use map::{Lengths, Record, Scratch};
use outcome::Refusal;
use targets::{TargetHops, TargetSearch};

// ---- the search itself

// The search on a table that nothing refuses, on local memory for the codes left and the next layer.
pub fn search_sound(members: &[u64], links: &[u64], scratch: &mut Scratch<'_>, start: usize) -> u16
    requires { AreLong base (scratch_sizes (length links.now) scratch.old)
        × HoldsEnds base.words members.now links.now
        × (start < places base) }
    ensures same { IsSameScratch scratch.old scratch.new }
    ensures left { searched result (tables_in scratch.new) ≡ search_table base.words links.now start (tables_in scratch.old) }
{
    let mut left = [0u64; map::WORDS];
    let mut next = [0u64; map::WORDS];
    layers::search_table(
        members,
        links,
        scratch,
        &mut left,
        &mut next,
        map::WORDS,
        start,
    )
}

// What a search found: the eccentricity, which is to targets, the depots that deliver, and the distance of the last layer, which is of all open depots.
#[derive(Clone, Copy)]
pub struct Reach {
    pub ecc: u16,
    pub depth: u16,
}

// The greatest hop of a target after a search to this depth, which reached all of them.
#[tactic(auto, using(layers::proofs::Parts::last_long))]
fn greatest(targets: &[u64], scratch: &Scratch<'_>, depth: u16) -> u16
    requires { let T = tables_in scratch.now in
        (base.words ≤ length targets.now)
        × (places base ≤ length T.hops)
        × (base.words ≤ length T.even)
        × (base.words ≤ length T.odd)
        × IsLastLayer base.words targets.now (last_layer base.words depth T.even T.odd) T.hops depth }
    ensures { result ≡ max_of (λ v. get_or scratch.now.hops.now v 0) (vertices (network_of base.words targets.now [])) }
{
    let last = last_layer(&*scratch.even, &*scratch.odd, depth);
    let seen = TargetHops {
        targets,
        hops: &*scratch.hops,
        words: map::WORDS,
    };
    TargetSearch { seen, last, depth }.greatest_hop()
}

// The same search, with its eccentricity to the targets, a row of the depots that count. All of them must be reached.
#[tactic(auto, using(crate::proofs::Reaches::last_is, crate::proofs::Reaches::ecc_is))]
pub fn search_to(
    members: &[u64],
    targets: &[u64],
    links: &[u64],
    scratch: &mut Scratch<'_>,
    start: usize,
) -> Reach
    requires { let N = table_network base.words links.now in
        let depots = vertices (network_of base.words targets.now []) in
        (base.words ≤ length targets.now)
        × AreLong base (scratch_sizes (length links.now) scratch.old)
        × HoldsEnds base.words members.now links.now
        × (start < places base)
        × (max_of (dist N start) depots < unreached) }
    ensures same { IsSameScratch scratch.old scratch.new }
    ensures left { searched result.depth (tables_in scratch.new) ≡ search_table base.words links.now start (tables_in scratch.old) }
    ensures ecc { let N = table_network base.words links.now in
        result.ecc ≡ max_of (dist N start) (vertices (network_of base.words targets.now [])) }
{
    let depth = search_sound(members, links, scratch, start);
    let ecc = greatest(targets, &*scratch, depth);
    Reach { ecc, depth }
}

// ---- the public call

// The first refusal of a search that holds, by the lengths of hop table and layer rows. It only reads. A search is lent no pairs, bounds and skips, and
// looks at no figures. Every call that searches from a code begins with it.
pub fn search_refusal(
    rec: Record,
    links: &[u64],
    hops: usize,
    even: usize,
    odd: usize,
    code: u8,
) -> Result<(), Refusal>
    ensures { refusal_in (answer_of result) ≡ search_refusal base rec links.now hops even odd code }
{
    let lengths = Lengths {
        hops,
        bounds: map::PLACES,
        skips: map::PLACES,
        even,
        odd,
    };
    lent_map::map_refusal(rec, links, None, lengths.are_long(links.len(), map::TABLE))?;
    let members = rec.members;
    if !map::is_open(&members, map::WORDS, code as usize) {
        return Err(Refusal::Absent);
    }
    Ok(())
}

// The search from a depot: its eccentricity and the distance of the last layer, with distances in the hop table and the last two layers in the rows; or
// the first refusal that holds, and then nothing is changed.
pub fn search_from(
    rec: Record,
    links: &[u64],
    scratch: &mut Scratch<'_>,
    code: u8,
) -> Result<Reach, Refusal>
    ensures same { IsSameScratch scratch.old scratch.new }
    ensures left { leaves (answer_of result) (tables_in scratch.new) ≡ search_call base rec links.now (tables_in scratch.old) code }
{
    search_refusal(
        rec,
        links,
        scratch.hops.len(),
        scratch.even.len(),
        scratch.odd.len(),
        code,
    )?;
    let members = rec.members;
    let mut delivering = rec.members;
    let yards = rec.yards;
    map::keep_delivering(&mut delivering, &yards, map::WORDS);
    Ok(search_to(&members, &delivering, links, scratch, code as usize))
}

// The last layer of a search to this depth: a part of whichever lent row holds it. The eccentricity does not tell the row: where the last layer holds
// yards alone it is less than the depth, and may have the other parity.
pub fn last_layer<'a>(even: &'a [u64], odd: &'a [u64], depth: u16) -> &'a [u64]
    ensures { result.now ≡ last_layer base.words depth even.now odd.now }
{
    layers::last_layer(even, odd, map::WORDS, depth)
}

// The answer of a search with its last layer, and what the two layer rows hold after it.
#[derive(Clone, Copy)]
pub struct Rows<'a> {
    pub found: Result<Reach, Refusal>,
    pub last: &'a [u64],
    pub even: &'a [u64],
    pub odd: &'a [u64],
}

// The part that is handed back, which of a refused call is empty.
fn last_part<'a>(found: Result<Reach, Refusal>, even: &'a [u64], odd: &'a [u64]) -> &'a [u64]
    ensures { result.now ≡ last_of base.words (answer_of found) even.now odd.now }
{
    match found {
        Ok(reach) => last_layer(even, odd, reach.depth),
        Err(_) => &even[..0],
    }
}

// The search with its last layer (rule 3.3): the part of the row that holds it, beside both rows, so that no word is left unsaid. Of a refused call the
// part is empty. The three buffers are lent one by one, since the part is handed back with its lender's lifetime.
pub fn search_rows<'a>(
    rec: Record,
    links: &[u64],
    hops: &mut [u16],
    even: &'a mut [u64],
    odd: &'a mut [u64],
    code: u8,
) -> Rows<'a>
    ensures left { let left = tables hops.new result.even.now result.odd.now in
        leaves (answer_of result.found) left
        ≡ search_call base rec links.now (tables_at hops.entry even.entry odd.entry) code }
    ensures last { let found = answer_of result.found in
        result.last.now ≡ last_of base.words found result.even.now result.odd.now }
{
    let mut scratch = Scratch {
        hops: &mut *hops,
        even: &mut *even,
        odd: &mut *odd,
    };
    let found = search_from(rec, links, &mut scratch, code);
    let even = &even[..];
    let odd = &odd[..];
    let last = last_part(found, even, odd);
    Rows {
        found,
        last,
        even,
        odd,
    }
}
