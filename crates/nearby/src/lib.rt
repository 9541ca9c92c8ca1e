// The depots near one (rules 13.1 to 13.4): all within so many handovers of it, and the nearest of a list. Each is one search and one pass over what it left.

#![tactic(auto)]

pub mod promises;

ghost use Rattle.std.specs.Prelude.{[], ◌≡◌, ◌<◌, ◌≤◌, leb, length, get_or};
ghost use Rattle.lists.specs.Lists.{filterb};
ghost use Rattle.outcome.specs.Answers.{answer_of, leaves};
ghost use Rattle.graph.specs.Distance.{vertices};
ghost use Rattle.graph.specs.Nearby.{nearer_of, nearest_from};
ghost use Rattle.rows.specs.Rows.{row_bit};
ghost use Rattle.map.specs.Slices.{tables_in, IsSameScratch};
ghost use Rattle.map.specs.Memory.{base, places, network_of};
ghost use Rattle.nearby.specs.Steps.{codes_listed, list_more, list_over, FirstListed};
ghost use Rattle.nearby.specs.WithinCall.{within_call};
ghost use Rattle.nearby.specs.NearestCall.{nearest_call};

use map::{Record, Scratch};
use outcome::Refusal;

// ---- within so many handovers

// Puts the code v behind the `count` that are listed where its hop is at most k, and answers how many are listed then. A struct of the
// places, which are the caller's, and their count would be made for this one call and taken apart behind it.
#[tactic(auto, using(std::proofs::lemmas::Bool::Decides::nat_tests), unfolding(crate::specs::Steps::list_more))]
fn put_near(codes: &mut [u8], count: usize, v: usize, hop: u16, k: u32) -> usize
    requires { (hop ≤ k → count < length codes.old) × (v < places base) }
    ensures { codes_listed result codes.new ≡ list_more (leb hop k) v count codes.old }
{
    if k < hop as u32 {
        return count;
    }
    codes[count] = v as u8;
    count + 1
}

// Writes the open codes whose hop is at most k over the first places of `codes`, rising, and answers how many.
#[tactic(auto, using(crate::proofs::Writing::writing_all))]
fn list_within(members: &[u64; map::WORDS], scratch: &Scratch<'_>, codes: &mut [u8], k: u32) -> u16
    requires { (places base ≤ length scratch.now.hops.now) × (places base ≤ length codes.old) }
    ensures { let depots = vertices (network_of base.words members.now []) in
        codes_listed result codes.new ≡ list_over (filterb (λ v. leb (get_or scratch.now.hops.now v 0) k) depots) codes.old }
{
    let mut count: usize = 0;
    for v in map::open_depots(members) {
        count = put_near(codes, count, v, scratch.hops[v], k);
    }
    count as u16
}

// The depots at most k handovers from a code, rising, in the first of the lent places, with their number; or the first refusal that holds, and then
// nothing is changed.
pub fn within(
    rec: Record,
    links: &[u64],
    scratch: &mut Scratch<'_>,
    codes: &mut [u8],
    code: u8,
    k: u32,
) -> Result<u16, Refusal>
    ensures same { IsSameScratch scratch.old scratch.new }
    ensures left { let call = within_call base rec links.now (tables_in scratch.old) codes.old code k in
        leaves (answer_of result) (tables_in scratch.new, codes.new) ≡ call }
{
    if codes.len() < map::PLACES {
        return Err(Refusal::Short);
    }
    search::search_refusal(
        rec,
        links,
        scratch.hops.len(),
        scratch.even.len(),
        scratch.odd.len(),
        code,
    )?;
    let members = rec.members;
    search::search_sound(&members, links, scratch, code as usize);
    Ok(list_within(&members, &*scratch, codes, k))
}

// ---- the nearest of a list

// What a choice found: the code with its distance.
#[derive(Clone, Copy)]
pub struct NearestDepot {
    pub code: u8,
    pub distance: u16,
}

// The first code of a list that is open.
fn first_listed(members: &[u64; map::WORDS], listed: &[u8]) -> Option<usize>
    ensures { FirstListed (filterb (row_bit base.words members.now) listed.now) result }
{
    listed
        .iter()
        .map(|v| *v as usize)
        .find(|v| map::is_open(members, map::WORDS, *v))
}

// Of two codes the one with the smaller hop, the lower one on a tie.
#[tactic(auto, using(crate::proofs::Choosing::nearer_two))]
fn nearer(hops: &[u16], c: usize, v: usize) -> usize
    requires { (c < length hops.now) × (v < length hops.now) }
    ensures { result ≡ nearer_of (λ u. get_or hops.now u 0) c v }
{
    if hops[v] < hops[c] {
        return v;
    }
    if hops[c] < hops[v] {
        return c;
    }
    v.min(c)
}

// The nearest of `first` and the open codes of a list.
#[tactic(auto, using(crate::proofs::Choosing::choosing))]
fn nearest_listed(
    members: &[u64; map::WORDS],
    scratch: &Scratch<'_>,
    listed: &[u8],
    first: usize,
) -> usize
    requires { (places base ≤ length scratch.now.hops.now) × (first < places base) }
    ensures { let depots = filterb (row_bit base.words members.now) listed.now in
        (result ≡ nearest_from (λ u. get_or scratch.now.hops.now u 0) first depots) × (result < places base) }
{
    let mut found = first;
    for v in listed {
        let code = *v as usize;
        if map::is_open(members, map::WORDS, code) {
            found = nearer(&*scratch.hops, found, code);
        }
    }
    found
}

// Of a list of codes the open depot nearest to a code, the lowest on a tie, with its distance; or the first refusal that holds, and then nothing is
// changed. Whether the list has an open depot is seen before the search, which writes.
pub fn nearest(
    rec: Record,
    links: &[u64],
    scratch: &mut Scratch<'_>,
    code: u8,
    listed: &[u8],
) -> Result<NearestDepot, Refusal>
    ensures same { IsSameScratch scratch.old scratch.new }
    ensures left { let call = nearest_call base rec links.now (tables_in scratch.old) code listed.now in
        leaves (answer_of result) (tables_in scratch.new) ≡ call }
{
    search::search_refusal(
        rec,
        links,
        scratch.hops.len(),
        scratch.even.len(),
        scratch.odd.len(),
        code,
    )?;
    let members = rec.members;
    let first = first_listed(&members, listed).ok_or(Refusal::Nobody)?;
    search::search_sound(&members, links, scratch, code as usize);
    let found = nearest_listed(&members, &*scratch, listed, first);
    let distance = scratch.hops[found];
    Ok(NearestDepot {
        code: found as u8,
        distance,
    })
}
