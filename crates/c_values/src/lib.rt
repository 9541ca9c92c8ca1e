// What the calls for other languages share: the record as eleven lent words, the outcome of an answer's number, the refusal of a stream's step.

#![tactic(auto)]

ghost use Rattle.std.specs.Prelude.{◌≡◌, ◌++◌, ◌+◌, ◌≤◌, length, take, drop};
ghost use Rattle.lists.specs.Lists.{overwrite};
ghost use Rattle.map.specs.Memory.{base};
ghost use Rattle.map.specs.Slices.{sizes_with};
ghost use Rattle.outcome.specs.Refusals.{refused_by};
ghost use Rattle.c_values.specs.Words.{record_words, words_of, clamped_of};
ghost use Rattle.c_values.specs.Outcomes.{outcome_of};
ghost use Rattle.c_values.specs.Refusal.{step_refusal};

use map::{Lengths, Record};
use outcome::{Change, Outcome, Refusal};

// ---- the record

// the words that a record is lent for C: its open set, then number open, chain and pair count, then its yard set; in specifications `record_words`
pub const RECORD_WORDS: usize = 2 * map::WORDS + 3;

// where the figures stand, behind the open set, and the yard set behind these; in specifications `base.words`, and one, two and three past it
const NUMBER_WORD: usize = map::WORDS;

const CHAIN_WORD: usize = map::WORDS + 1;

const COUNT_WORD: usize = map::WORDS + 2;

const YARDS_WORD: usize = map::WORDS + 3;

// The row of four words from a place on.
fn row_at(words: &[u64], at: usize) -> [u64; map::WORDS]
    requires { at + base.words ≤ length words.now }
    ensures { result ≡ take base.words (drop at words.now) }
{
    let mut row = [0u64; map::WORDS];
    row.copy_from_slice(&words[at..at + map::WORDS]);
    row
}

// The record in eleven lent words. A figure that is too large for its field becomes the largest that the field holds, which no map has, so that it is found
// spoilt.
#[tactic(auto, unfolding(crate::specs::Words::clamped_of))]
pub fn record_of(words: &[u64]) -> Record
    requires { record_words ≤ length words.now }
    ensures { result ≡ clamped_of words.now }
{
    let members = row_at(words, 0);
    let yards = row_at(words, YARDS_WORD);
    let number = words[NUMBER_WORD];
    let chain = words[CHAIN_WORD];
    let count = words[COUNT_WORD];
    Record {
        members,
        number: u16::try_from(number).unwrap_or(u16::MAX),
        chain: u16::try_from(chain).unwrap_or(u16::MAX),
        count: u32::try_from(count).unwrap_or(u32::MAX),
        yards,
    }
}

// Puts a row into the four words from a place on; the others stay.
#[tactic(auto, using(crate::proofs::Words::row_put))]
fn put_row(words: &mut [u64], at: usize, row: &[u64])
    requires { (at + base.words ≤ length words.old) × (length row.now ≡ base.words) }
    ensures { let before = words.old in words.new ≡ overwrite (take at before ++ row.now) before }
{
    words[at..at + map::WORDS].copy_from_slice(row);
}

// Puts a record into eleven lent words; words past them stay.
#[tactic(auto, using(crate::proofs::Words::write_record))]
pub fn put_record(words: &mut [u64], rec: Record)
    requires { record_words ≤ length words.old }
    ensures { words.new ≡ overwrite (words_of rec) words.old }
{
    let members = rec.members;
    put_row(words, 0, &members);
    words[NUMBER_WORD] = rec.number as u64;
    words[CHAIN_WORD] = rec.chain as u64;
    words[COUNT_WORD] = rec.count as u64;
    let yards = rec.yards;
    put_row(words, YARDS_WORD, &yards);
}

// ---- an answer's number

// The outcome that an answer's number stands for: a letter of an accepted opening, or a refusal's number. That is C's reading of the number, so that it is no
// `From` of the outcome's own.
#[tactic(auto, unfolding(crate::specs::Outcomes::outcome_of))]
pub fn outcome_of(answer: u8) -> Outcome
    ensures { result ≡ outcome_of answer }
{
    if answer == 71 {
        return Outcome::Accepted(Change::Grew);
    }
    if answer == 75 {
        return Outcome::Accepted(Change::Kept);
    }
    if answer == 83 {
        return Outcome::Accepted(Change::Shrank);
    }
    Outcome::Refused(answer)
}

// ---- the step of a stream

// The first refusal of a step that holds. It only reads.
#[tactic(auto, using(crate::proofs::Clamps::map_clamp), unfolding(crate::specs::Refusal::step_refusal))]
pub fn step_refusal(
    words: &[u64],
    links: &[u64],
    pairs: &[u64],
    lengths: Lengths,
    line: usize,
    out: usize,
    held: usize,
) -> Result<(), Refusal>
    ensures { let long = sizes_with (length links.now) (length pairs.now) lengths in
        refused_by result ≡ step_refusal words.now links.now pairs.now long line out held }
{
    if words.len() < RECORD_WORDS
        || line < notice::LINE_LIMIT
        || out < report::BUFFER_LIMIT
        || notice::LINE_LIMIT < held
    {
        return Err(Refusal::Short);
    }
    update::map_refusal(record_of(words), links, pairs, lengths)
}
