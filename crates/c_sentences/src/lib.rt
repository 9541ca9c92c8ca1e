// The calls for C, C++ and Rust on sentences: plain numbers, and slices as pointer and length. A letter and a refusal stand apart, since one number
// cannot tell them: 71 is both. Each asks nothing: bad input gets its numbered refusal, and then nothing lent has changed, the lent numbers included.

#![tactic(auto)]

ghost use Rattle.std.specs.Prelude.{◌≡◌};
ghost use Rattle.c_sentences.specs.declared.Numbers.{Numbers};
ghost use Rattle.c_sentences.specs.Numbers.{event_of, outcome_of, said_of, event_numbers, outcome_numbers, numbers_of};
ghost use Rattle.c_sentences.specs.Outs.{write_out, read_out};

use outcome::{Change, Outcome, Refusal};
use sentences::{Event, Said};

// What is said as the nine numbers that a call takes or lends: kind, code and other code; letter and refusal; depots, chain, pairs and searches.
#[derive(Clone, Copy)]
struct Numbers {
    event: (u8, u16, u16),
    outcome: (u8, u8),
    figures: (u16, u16, u32, u16),
}

// ---- numbers into what is said

// The event of a kind, as frames number it, and its codes: a kind of one code has 0 for the other.
#[tactic(auto, unfolding(crate::specs::Numbers::event_of))]
fn event_of(numbers: (u8, u16, u16)) -> Option<Event>
    ensures { result ≡ event_of numbers }
{
    let (kind, code, other) = numbers;
    match (kind, other) {
        (1, 0) => Some(Event::Depot(code)),
        (2, _) => Some(Event::Link(code, other)),
        (3, 0) => Some(Event::Closing(code)),
        (4, 0) => Some(Event::Yard(code)),
        _ => None,
    }
}

// The outcome of a letter, 0 for a refused call, and a refusal, 0 beside a letter.
#[tactic(auto, unfolding(crate::specs::Numbers::outcome_of))]
fn outcome_of(numbers: (u8, u8)) -> Option<Outcome>
    ensures { result ≡ outcome_of numbers }
{
    let (letter, refusal) = numbers;
    match (letter, refusal) {
        (0, _) => Some(Outcome::Refused(refusal)),
        (b'G', 0) => Some(Outcome::Accepted(Change::Grew)),
        (b'K', 0) => Some(Outcome::Accepted(Change::Kept)),
        (b'S', 0) => Some(Outcome::Accepted(Change::Shrank)),
        _ => None,
    }
}

// What is said by all numbers.
#[tactic(auto, unfolding(crate::specs::Numbers::said_of))]
fn said_of(numbers: Numbers) -> Option<Said>
    ensures { result ≡ said_of numbers }
{
    let event = event_of(numbers.event)?;
    let outcome = outcome_of(numbers.outcome)?;
    let (depots, chain, pairs, searches) = numbers.figures;
    Some(Said {
        event,
        outcome,
        depots,
        chain,
        pairs,
        searches,
    })
}

// ---- what is said into numbers

// Kind and codes of an event.
#[tactic(auto, unfolding(crate::specs::Numbers::event_numbers))]
fn event_numbers(event: Event) -> (u8, u16, u16)
    ensures { result ≡ event_numbers event }
{
    match event {
        Event::Depot(n) => (1, n, 0),
        Event::Link(m, n) => (2, m, n),
        Event::Closing(n) => (3, n, 0),
        Event::Yard(n) => (4, n, 0),
    }
}

// Letter and refusal of an outcome.
#[tactic(auto, unfolding(crate::specs::Numbers::outcome_numbers))]
fn outcome_numbers(outcome: Outcome) -> (u8, u8)
    ensures { result ≡ outcome_numbers outcome }
{
    match outcome {
        Outcome::Accepted(_) => (outcome::letter(outcome), 0),
        Outcome::Refused(n) => (0, n),
    }
}

// All numbers of what is said.
#[tactic(auto, unfolding(crate::specs::Numbers::numbers_of))]
fn numbers_of(said: Said) -> Numbers
    ensures { result ≡ numbers_of said }
{
    Numbers {
        event: event_numbers(said.event),
        outcome: outcome_numbers(said.outcome),
        figures: (said.depots, said.chain, said.pairs, said.searches),
    }
}

// ---- the calls

// Writes the sentence of an outcome into line (160 bytes). 0, and the sentence's length; or 1 (short), 9 (garbled: no outcome has these numbers).
#[tactic(auto, unfolding(crate::specs::Outs::write_out, sentences::specs::Calls::write_call))]
#[unsafe(no_mangle)]
pub extern "C" fn zorpedi_sentence(
    line: &mut [u8],
    length: &mut usize,
    kind: u8,
    code: u16,
    other: u16,
    letter: u8,
    refusal: u8,
    depots: u16,
    chain: u16,
    pairs: u32,
    searches: u16,
) -> u8
    ensures { let n : Numbers = record {
      event = (kind, code, other);
      outcome = (letter, refusal);
      figures = (depots, chain, pairs, searches);
    } in
        (result, length.new, line.new) ≡ write_out n line.old length.old }
{
    if line.len() < sentences::BUFFER_LIMIT {
        return Refusal::Short.number();
    }
    let numbers = Numbers {
        event: (kind, code, other),
        outcome: (letter, refusal),
        figures: (depots, chain, pairs, searches),
    };
    let Some(said) = said_of(numbers) else {
        return Refusal::Garbled.number();
    };
    match sentences::write_sentence(line, said) {
        Ok(end) => {
            *length = end;
            0
        }
        Err(refusal) => refusal.number(),
    }
}

// Reads a sentence, which is the whole text. 0, and its outcome in numbers; or 9 (garbled).
#[tactic(auto, unfolding(crate::specs::Outs::read_out))]
#[unsafe(no_mangle)]
pub extern "C" fn zorpedi_read_sentence(
    kind: &mut u8,
    code: &mut u16,
    other: &mut u16,
    letter: &mut u8,
    refusal: &mut u8,
    depots: &mut u16,
    chain: &mut u16,
    pairs: &mut u32,
    searches: &mut u16,
    text: &[u8],
) -> u8
    ensures { let before : Numbers = record {
      event = (kind.old, code.old, other.old);
      outcome = (letter.old, refusal.old);
      figures = (depots.old, chain.old, pairs.old, searches.old);
    } in
        let after : Numbers = record {
          event = (kind.new, code.new, other.new);
          outcome = (letter.new, refusal.new);
          figures = (depots.new, chain.new, pairs.new, searches.new);
        } in
        (result, after) ≡ read_out text.now before }
{
    match sentences::read_sentence(text) {
        Ok(said) => {
            let numbers = numbers_of(said);
            (*kind, *code, *other) = numbers.event;
            (*letter, *refusal) = numbers.outcome;
            (*depots, *chain, *pairs, *searches) = numbers.figures;
            0
        }
        Err(refusal) => refusal.number(),
    }
}
