// Whether a notice may be opened (refusals 5 to 8), and the links of the depot that it opens; whether two depots may be linked (4, 13, 14), and their
// link. A row of words may be longer than a map's, up to 512: a code is a byte, and so stands in a row. A row's width comes beside it, as crate `rows` says.

#![tactic(auto)]

ghost use Rattle.std.specs.Prelude.{[], ◌≡◌, false, ◌&&◌, ◌||◌, ◌*◌, ◌<◌, ◌≤◌, eqb, ltb, length};
ghost use Rattle.lists.specs.Lists.{allb, memb, overwrite, first_of};
ghost use Rattle.graph.specs.Distance.{vertices};
ghost use Rattle.graph.specs.Opening.{notice_of, strictly_rising, is_empty, open_faults};
ghost use Rattle.graph.specs.Linking.{link_faults};
ghost use Rattle.rows.specs.Rows.{row_bit, table_bit, encode_table};
ghost use Rattle.map.specs.Memory.{base, network_of};
ghost use Rattle.outcome.specs.Refusals.{refused_by};

use outcome::Refusal;

// ---- refusals 5 to 8

// Whether no depot is named and some are open: the depot would be alone.
#[tactic(auto, using(crate::proofs::Notices::lonely_named, crate::proofs::Notices::lonely_first))]
fn is_lonely(members: &[u64], words: usize, neighbours: &[u8]) -> bool
    requires { words ≤ length members.now }
    ensures { result ≡ (is_empty neighbours.now && ltb 0 (length (vertices (network_of words members.now [])))) }
{
    if neighbours.len() != 0 {
        return false;
    }
    !rows::is_empty(members, words)
}

// Whether each code is above the one before it.
fn is_rising(neighbours: &[u8]) -> bool
    ensures { result ≡ strictly_rising neighbours.now }
{
    neighbours.is_sorted_by(|a, b| a < b)
}

// Whether each code is open.
fn all_open(members: &[u64], words: usize, neighbours: &[u8]) -> bool
    requires { (base.words ≤ words) × (words < 513) × (words ≤ length members.now) }
    ensures { result ≡ allb (row_bit words members.now) neighbours.now }
{
    neighbours
        .iter()
        .all(|v| map::is_open(members, words, *v as usize))
}

// The first of the refusals 5 to 8 that holds. They ask only which codes are open, so no link is lent; nor do they ask whether the notice
// or any open depot is a yard (`faults_any`, proofs/Theorems).
#[tactic(auto, using(crate::proofs::Notices::refusals))]
pub fn notice_refusal(
    members: &[u64],
    words: usize,
    code: u8,
    neighbours: &[u8],
) -> Result<(), Refusal>
    requires { (base.words ≤ words) × (words < 513) × (words ≤ length members.now) }
    ensures { refused_by result ≡ first_of (open_faults (network_of words members.now []) (notice_of false code neighbours.now)) }
{
    if map::is_open(members, words, code as usize) {
        return Err(Refusal::Taken);
    }
    if is_lonely(members, words, neighbours) {
        return Err(Refusal::Lonely);
    }
    if !is_rising(neighbours) {
        return Err(Refusal::Unsorted);
    }
    if !all_open(members, words, neighbours) {
        return Err(Refusal::Unknown);
    }
    Ok(())
}

// ---- the links of a new depot

// Links a code with each neighbour, both ways.
#[tactic(auto, using(crate::proofs::Linking::linking))]
pub fn link_depot(links: &mut [u64], words: usize, code: u8, neighbours: &[u8])
    requires { (base.words ≤ words) × (words < 513) × (words * (64 * words) ≤ length links.old) }
    ensures { let before = links.old in
        let others = neighbours.now in
        let table = encode_table words (λ u v. (eqb u code && memb v others) || (eqb v code && memb u others) || table_bit words before u v) in
        links.new ≡ overwrite table before }
{
    let a = code as usize;
    for neighbour in neighbours {
        let v = *neighbour as usize;
        rows::row_set(links, words, a, v);
        rows::row_set(links, words, v, a);
    }
}

// ---- a link between two depots

// The codes of two depots that are to be linked. The calls hand both on together.
#[derive(Clone, Copy)]
pub struct Link {
    pub first: u8,
    pub second: u8,
}

// The first of the refusals 4, 13 and 14 that holds.
#[tactic(auto, using(crate::proofs::Links::refusals, crate::proofs::Linking::in_table))]
pub fn link_refusal(members: &[u64], links: &[u64], words: usize, link: Link) -> Result<(), Refusal>
    requires { (base.words ≤ words)
        × (words < 513)
        × (words ≤ length members.now)
        × (words * (64 * words) ≤ length links.now) }
    ensures { refused_by result ≡ first_of (link_faults (network_of words members.now links.now) link.first link.second) }
{
    if !map::is_open(members, words, link.first as usize) {
        return Err(Refusal::Absent);
    }
    if !map::is_open(members, words, link.second as usize) {
        return Err(Refusal::Absent);
    }
    if link.first == link.second {
        return Err(Refusal::Itself);
    }
    if rows::row_test(links, words, link.first as usize, link.second as usize) {
        return Err(Refusal::Linked);
    }
    Ok(())
}

// Links two codes, both ways.
#[tactic(auto, using(crate::proofs::Linking::in_table))]
pub fn link_codes(links: &mut [u64], words: usize, link: Link)
    requires { (base.words ≤ words) × (words < 513) × (words * (64 * words) ≤ length links.old) }
    ensures { let before = links.old in
        let a = link.first in
        let b = link.second in
        let table = encode_table words (λ u v. (eqb u a && eqb v b) || (eqb v a && eqb u b) || table_bit words before u v) in
        links.new ≡ overwrite table before }
{
    rows::row_set(links, words, link.first as usize, link.second as usize);
    rows::row_set(links, words, link.second as usize, link.first as usize);
}
