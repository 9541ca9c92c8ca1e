// What refuses lent memory before a call looks at what it is asked (rule 8.1, numbers 1 to 3): buffers too short, words that are no map, a map
// in parts. A row's width comes beside it, as crate `rows` says.

#![tactic(auto)]

ghost use Rattle.std.specs.Prelude.{[], ◌≡◌, true, not, ◌||◌, ◌*◌, ◌<◌, ◌≤◌, ltb, length, get_or, is_some};
ghost use Rattle.lists.specs.Lists.{range, allb};
ghost use Rattle.graph.specs.Network.{IsSound};
ghost use Rattle.graph.specs.Distance.{unreached, connected};
ghost use Rattle.rows.specs.Rows.{row_bit, table_bit};
ghost use Rattle.map.specs.Memory.{base, places, table_words, network_of, map_network};
ghost use Rattle.map.specs.Bits.{IsLent};
ghost use Rattle.checks.specs.Sound.{sound_figures};
ghost use Rattle.outcome.specs.Refusals.{refused_by};
ghost use Rattle.map.specs.Slices.{IsSameScratch};
ghost use Rattle.lent_map.specs.Faults.{pairs_in, lent_refusal};

use map::{Record, Scratch};
use outcome::Refusal;

// ---- connectedness

// Whether the code v is closed or has a hop.
#[tactic(auto, using(crate::proofs::Connects::reached_closed, crate::proofs::Connects::reached_open))]
fn is_reached(members: &[u64], hops: &[u16], words: usize, v: usize) -> bool
    requires { (64 * words ≤ length hops.now) × (words ≤ length members.now) × (v < 64 * words) }
    ensures { result ≡ (not (row_bit words members.now v) || ltb (get_or hops.now v 0) unreached) }
{
    if !map::is_open(members, words, v) {
        return true;
    }
    hops[v] < map::UNREACHED
}

// Whether every open code has a hop.
fn all_reached(members: &[u64], hops: &[u16], words: usize) -> bool
    requires { (words < 513) × (64 * words ≤ length hops.now) × (words ≤ length members.now) }
    ensures { result ≡ allb (λ v. not (row_bit words members.now v) || ltb (get_or hops.now v 0) unreached) (range (64 * words)) }
{
    (0..64 * words).all(|v| is_reached(members, hops, words, v))
}

// Whether the depots are connected: a search from the lowest open code, in the memory lent for it, reaches every one.
// What stands in that memory afterwards is free.
#[tactic(auto, using(crate::proofs::Connects::none_open, layers::proofs::Ends::holds_ends))]
pub fn is_connected(
    members: &[u64],
    links: &[u64],
    scratch: &mut Scratch<'_>,
    left: &mut [u64],
    next: &mut [u64],
    words: usize,
) -> bool
    requires { IsLent words members.now links.now
        × (64 * words ≤ length scratch.old.hops.now)
        × (words ≤ length scratch.old.even.now)
        × (words ≤ length scratch.old.odd.now)
        × (words ≤ length left.old)
        × (words ≤ length next.old)
        × IsSound (network_of words members.now links.now) }
    ensures same { IsSameScratch scratch.old scratch.new }
    ensures connected { result ≡ connected (network_of words members.now links.now) }
{
    let lowest = rows::next_member(members, words, 0);
    let Some(start) = lowest else {
        return true;
    };
    layers::search_table(members, links, scratch, left, next, words, start);
    all_reached(members, &*scratch.hops, words)
}

// The same for rows of four words, on local memory, so that a refused call changes nothing.
pub fn map_is_connected(members: &[u64], links: &[u64]) -> bool
    requires { IsLent base.words members.now links.now × IsSound (network_of base.words members.now links.now) }
    ensures { result ≡ connected (network_of base.words members.now links.now) }
{
    let mut hops = [0u16; map::PLACES];
    let mut even = [0u64; map::WORDS];
    let mut odd = [0u64; map::WORDS];
    let mut left = [0u64; map::WORDS];
    let mut next = [0u64; map::WORDS];
    let mut scratch = Scratch {
        hops: &mut hops,
        even: &mut even,
        odd: &mut odd,
    };
    is_connected(
        members,
        links,
        &mut scratch,
        &mut left,
        &mut next,
        map::WORDS,
    )
}

// ---- the refusal

// Whether the stored figures are sound, where the call goes by them, and so is lent the pairs. Only there the yards are taken out of a copy of the open
// set: the check asks for the depots that deliver.
#[tactic(auto, using(checks::proofs::Theorems::figures_delivering))]
fn stored_are_sound(rec: Record, pairs: Option<&[u64]>) -> bool
    requires { is_some pairs ≡ true → table_words base ≤ length (pairs_in pairs) }
    ensures { let G = map_network base rec [] in
        result ≡ (not (is_some pairs.entry) || sound_figures (places base) G (table_bit base.words (pairs_in pairs.entry)) rec.chain rec.count) }
{
    let Some(stored) = pairs else {
        return true;
    };
    let mut delivering = rec.members;
    let yards = rec.yards;
    map::keep_delivering(&mut delivering, &yards, map::WORDS);
    checks::figures_are_sound(&delivering, stored, map::WORDS, rec.chain, rec.count)
}

// The first refusal of lent memory that holds, whatever the call is asked. It only reads: `long` tells whether every buffer has its named size; a call that
// goes by the stored figures lends the pairs besides.
#[tactic(auto, using(crate::proofs::Refuses::refusals))]
pub fn map_refusal(
    rec: Record,
    links: &[u64],
    pairs: Option<&[u64]>,
    long: bool,
) -> Result<(), Refusal>
    requires { (long ≡ true → table_words base ≤ length links.now)
        × (long ≡ true → is_some pairs ≡ true → table_words base ≤ length (pairs_in pairs)) }
    ensures { refused_by result ≡ lent_refusal base long (is_some pairs.entry) rec links.now (pairs_in pairs.entry) }
{
    if !long {
        return Err(Refusal::Short);
    }
    let members = rec.members;
    let yards = rec.yards;
    if !checks::links_are_sound(&members, &yards, links, map::WORDS, rec.number) {
        return Err(Refusal::Spoilt);
    }
    if !stored_are_sound(rec, pairs) {
        return Err(Refusal::Spoilt);
    }
    if !map_is_connected(&members, links) {
        return Err(Refusal::Apart);
    }
    Ok(())
}
