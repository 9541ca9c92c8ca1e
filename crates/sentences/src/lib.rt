// Sentences that tell the outcome of a call: the writer into lent memory, and the reader, its inverse.
//
// Writer and reader have the same parts: the start, which tells the event, the middle, which tells the outcome, and the figures. Most parts are a text with
// a number behind it.

#![tactic(auto)]

pub mod promises;

ghost use Rattle.std.specs.Prelude.{◌≡◌, ◌++◌, ◌+◌, ◌≤◌, length, option_copied};
ghost use Rattle.std.specs.Result.{result_unwrap_or};
ghost use Rattle.decimal.specs.Decimal.{decimal};
ghost use Rattle.decimal.specs.Front.{front_of};
ghost use Rattle.decimal.specs.Placed.{Placed};
ghost use Rattle.sentences.specs.Sentence.{start_of, middle_of, figures_of, sentence_of, half_limit};
ghost use Rattle.sentences.specs.Readers.{behind, part};
ghost use Rattle.sentences.specs.Reading.{read_event, read_link, read_outcome, read_said, read_sentence};
ghost use Rattle.sentences.specs.Calls.{write_call};

use outcome::{Change, Outcome, Refusal, Written};

// the bytes that a sentence is lent; in specifications `buffer_limit`
pub const BUFFER_LIMIT: usize = 160;

// What a call did: it opened a depot or a yard, linked two depots in the frame's order, or closed one.
#[derive(Clone, Copy)]
pub enum Event {
    Depot(u16),
    Yard(u16),
    Link(u16, u16),
    Closing(u16),
}

// What a sentence tells: the event, its outcome, and the four figures of the stream's line.
#[derive(Clone, Copy)]
pub struct Said {
    pub event: Event,
    pub outcome: Outcome,
    pub depots: u16,
    pub chain: u16,
    pub pairs: u32,
    pub searches: u16,
}

// Writes a sentence at the start of the caller's buffer, and answers its length.
#[tactic(auto, unfolding(crate::specs::Calls::write_call))]
pub fn write_sentence(line: &mut [u8], said: Said) -> Result<usize, Refusal>
    ensures { (result, line.new) ≡ write_call said line.old }
{
    if line.len() < BUFFER_LIMIT {
        return Err(Refusal::Short);
    }
    Ok(put_sentence(line, 0, said))
}

// The same, with the caller's buffer handed back and the part of it that was written: it is empty
// exactly where the buffer is too short.
#[tactic(auto, using(crate::proofs::Calls::handed))]
pub fn sentence_line<'a>(line: &'a mut [u8], said: Said) -> Written<'a>
    ensures same { result.lent.ghost_name ≡ line.entry.ghost_name }
    ensures length { result.length ≡ result_unwrap_or (write_call said line.old).0 0 }
    ensures lent { result.lent.now ≡ (write_call said line.old).1 }
{
    let length = write_sentence(&mut *line, said).unwrap_or(0);
    Written { lent: line, length }
}

// Reads a sentence, which is the whole text.
#[tactic(auto, unfolding(crate::specs::Reading::read_sentence))]
pub fn read_sentence(text: &[u8]) -> Result<Said, Refusal>
    ensures { result ≡ read_sentence text.now }
{
    match read_said(text) {
        Some((said, [])) => Ok(said),
        _ => Err(Refusal::Garbled),
    }
}

// ---- writing

// Puts a sentence at a place of the line: 104 bytes hold it.
#[tactic(auto, using(crate::proofs::Lengths::figures_most))]
fn put_sentence(line: &mut [u8], at: usize, said: Said) -> usize
    requires { at + 104 ≤ length line.old }
    ensures placed { Placed (sentence_of said) at line.old result line.new }
    ensures within { result ≤ at + 104 }
{
    let event = said.event;
    let outcome = said.outcome;
    let a = put_event(line, at, event);
    let b = put_outcome(line, a, outcome);
    put_figures(line, b, said)
}

// Puts the start of a sentence at a place of the line: 23 bytes hold it.
#[tactic(auto, using(decimal::proofs::Decimals::decimal_half), unfolding(crate::specs::Sentence::start_of))]
fn put_event(line: &mut [u8], at: usize, event: Event) -> usize
    requires { at + 23 ≤ length line.old }
    ensures placed { Placed (start_of event) at line.old result line.new }
    ensures within { result ≤ at + 23 }
{
    match event {
        Event::Depot(n) => put_part(line, at, b"Opening depot ", n as u64),
        Event::Yard(n) => put_part(line, at, b"Opening yard ", n as u64),
        Event::Link(m, n) => {
            let next = put_part(line, at, b"Linking ", m as u64);
            put_part(line, next, b" and ", n as u64)
        }
        Event::Closing(n) => put_part(line, at, b"Closing ", n as u64),
    }
}

// Puts the middle of a sentence at a place of the line: 21 bytes hold it.
#[tactic(auto, using(decimal::proofs::Decimals::decimal_byte), unfolding(crate::specs::Sentence::middle_of))]
fn put_outcome(line: &mut [u8], at: usize, outcome: Outcome) -> usize
    requires { at + 21 ≤ length line.old }
    ensures placed { Placed (middle_of outcome) at line.old result line.new }
    ensures within { result ≤ at + 21 }
{
    match outcome {
        Outcome::Accepted(c) => match c {
            Change::Grew => put_text(line, at, b" grew the chain"),
            Change::Kept => put_text(line, at, b" kept the chain"),
            Change::Shrank => put_text(line, at, b" shrank the chain"),
        },
        Outcome::Refused(n) => put_part(line, at, b" was refused with ", n as u64),
    }
}

// Puts the figures and the full stop at a place of the line.
#[tactic(auto, unfolding(crate::specs::Sentence::figures_of))]
fn put_figures(line: &mut [u8], at: usize, said: Said) -> usize
    requires { at + length (figures_of said) ≤ length line.old }
    ensures { Placed (figures_of said) at line.old result line.new }
{
    let a = put_part(line, at, b": ", said.depots as u64);
    let b = put_part(line, a, b" open, chain ", said.chain as u64);
    let c = put_part(line, b, b", pairs ", said.pairs as u64);
    let d = put_part(line, c, b", searches ", said.searches as u64);
    put_text(line, d, b".")
}

// Puts a text and a number behind it at a place of the line.
fn put_part(line: &mut [u8], at: usize, text: &[u8], n: u64) -> usize
    requires { at + length (text.now ++ decimal n) ≤ length line.old }
    ensures { Placed (text.now ++ decimal n) at line.old result line.new }
{
    let next = put_text(line, at, text);
    decimal::put_number(line, next, n)
}

// Puts a text at a place of the line.
fn put_text(line: &mut [u8], at: usize, text: &[u8]) -> usize
    requires { at + length text.now ≤ length line.old }
    ensures { Placed text.now at line.old result line.new }
{
    let end = at + text.len();
    line[at..end].copy_from_slice(text);
    end
}

// ---- reading: each of these answers what stands at the front of the text, with the rest

// Reads all of a sentence, up to its full stop.
#[tactic(auto, using(crate::proofs::Parts::part_within), unfolding(crate::specs::Reading::read_said))]
fn read_said(text: &[u8]) -> Option<(Said, &[u8])>
    ensures { front_of result ≡ read_said text.now }
{
    let (event, rest) = read_event(text)?;
    let (outcome, rest) = read_outcome(rest)?;
    let (depots, rest) = read_half(rest, b": ")?;
    let (chain, rest) = read_half(rest, b" open, chain ")?;
    let (pairs, rest) = read_part(rest, b", pairs ", u32::MAX as u64)?;
    let (searches, rest) = read_half(rest, b", searches ")?;
    let rest = skip(rest, b".")?;
    let pairs = pairs as u32;
    Some((
        Said {
            event,
            outcome,
            depots,
            chain,
            pairs,
            searches,
        },
        rest,
    ))
}

// Reads the start of a sentence.
#[tactic(auto, unfolding(crate::specs::Reading::read_event))]
fn read_event(text: &[u8]) -> Option<(Event, &[u8])>
    ensures { front_of result ≡ read_event text.now }
{
    if let Some((n, rest)) = read_half(text, b"Opening depot ") {
        return Some((Event::Depot(n), rest));
    }
    if let Some((n, rest)) = read_half(text, b"Opening yard ") {
        return Some((Event::Yard(n), rest));
    }
    if let Some((n, rest)) = read_half(text, b"Closing ") {
        return Some((Event::Closing(n), rest));
    }
    read_link(text)
}

// Reads the start of a link's sentence: its codes in the order of its frame.
#[tactic(auto, unfolding(crate::specs::Reading::read_link))]
fn read_link(text: &[u8]) -> Option<(Event, &[u8])>
    ensures { front_of result ≡ read_link text.now }
{
    let (m, rest) = read_half(text, b"Linking ")?;
    let (n, rest) = read_half(rest, b" and ")?;
    Some((Event::Link(m, n), rest))
}

// Reads the middle of a sentence.
#[tactic(auto, using(crate::proofs::Parts::part_within), unfolding(crate::specs::Reading::read_outcome))]
fn read_outcome(text: &[u8]) -> Option<(Outcome, &[u8])>
    ensures { front_of result ≡ read_outcome text.now }
{
    if let Some(rest) = skip(text, b" grew the chain") {
        return Some((Outcome::Accepted(Change::Grew), rest));
    }
    if let Some(rest) = skip(text, b" kept the chain") {
        return Some((Outcome::Accepted(Change::Kept), rest));
    }
    if let Some(rest) = skip(text, b" shrank the chain") {
        return Some((Outcome::Accepted(Change::Shrank), rest));
    }
    let (n, rest) = read_part(text, b" was refused with ", u8::MAX as u64)?;
    Some((Outcome::Refused(n as u8), rest))
}

// Reads a text that has to stand there, and a number of 16 bits behind it.
#[tactic(auto, using(crate::proofs::Parts::part_within))]
fn read_half<'a>(text: &'a [u8], wanted: &[u8]) -> Option<(u16, &'a [u8])>
    ensures { front_of result ≡ part wanted.now half_limit text.now }
{
    let (n, rest) = read_part(text, wanted, u16::MAX as u64)?;
    Some((n as u16, rest))
}

// Reads a text that has to stand there, and the number behind it.
#[tactic(auto, unfolding(crate::specs::Readers::part))]
fn read_part<'a>(text: &'a [u8], wanted: &[u8], limit: u64) -> Option<(u64, &'a [u8])>
    ensures { front_of result ≡ part wanted.now limit text.now }
{
    decimal::leading(skip(text, wanted)?, limit)
}

// Passes a text that has to stand there.
#[tactic(auto, unfolding(crate::specs::Readers::behind))]
fn skip<'a>(text: &'a [u8], wanted: &[u8]) -> Option<&'a [u8]>
    ensures { option_copied result ≡ behind wanted.now text.now }
{
    text.strip_prefix(wanted)
}
