// Outcomes told as sentences, each on a line. A line that spells no frame names no event, and keeps its report.

#![tactic(auto)]

pub mod promises;

ghost use Rattle.std.specs.Prelude.{◌≡◌, [], ◌∷◌, ◌++◌, ◌+◌, ◌≤◌, length};
ghost use Rattle.lists.specs.Lists.{overwrite};
ghost use Rattle.decimal.specs.Placed.{Placed};
ghost use Rattle.notice.specs.Lines.{line_end};
ghost use Rattle.sentences.specs.Sentence.{sentence_of};
ghost use Rattle.sentences.specs.Calls.{buffer_limit};
ghost use Rattle.narration.specs.Narration.{event_in, said_on, as_sentences};

use line_buffer::{Reports, Tells};
use report::ReportFields;
use sentences::{Event, Said};

// Tells each outcome as a sentence, and a line without an event as its report.
#[derive(Clone, Copy)]
pub struct Sentences {
    reports: Reports,
}

impl Sentences {
    // Those of a stream that begins anywhere.
    pub fn new() -> Self {
        Sentences {
            reports: Reports::new(),
        }
    }
}

impl Tells for Sentences {
    ghost manner = { as_sentences };

    fn room(&self) -> usize {
        sentences::BUFFER_LIMIT + 1
    }

    #[tactic(auto, unfolding(crate::specs::Narration::sentence_text))]
    fn put(
        &mut self,
        out: &mut [u8],
        at: usize,
        read: Option<&[u8]>,
        report: ReportFields,
    ) -> usize {
        match read {
            Some(frame) => put_sentence(out, at, said_on(event_in(frame), report)),
            None => self.reports.put(out, at, None, report),
        }
    }
}

// The event that a frame names, by its kind.
#[tactic(auto, unfolding(crate::specs::Narration::event_in))]
fn event_in(frame: &[u8]) -> Event
    requires { 3 ≤ length frame.now }
    ensures { result ≡ event_in frame.now }
{
    let code = frame[1] as u16;
    if !notice::opens_depot(frame[0]) {
        return Event::Link(code, frame[2] as u16);
    }
    if notice::opens_yard(frame[0]) {
        return Event::Yard(code);
    }
    Event::Depot(code)
}

// What is said of an event, by its report.
fn said_on(event: Event, report: ReportFields) -> Said
    ensures { result ≡ said_on event report }
{
    Said {
        event,
        outcome: report.outcome,
        depots: report.depots,
        chain: report.chain,
        pairs: report.pairs,
        searches: report.searches,
    }
}

// Puts a sentence and the line's end at a place of the buffer.
#[tactic(auto, using(crate::proofs::Putting::sentence_put))]
fn put_sentence(out: &mut [u8], at: usize, said: Said) -> usize
    requires { at + (buffer_limit + 1) ≤ length out.old }
    ensures { Placed (sentence_of said ++ line_end ∷ []) at out.old result out.new }
{
    let end = at + put_said(&mut out[at..at + sentences::BUFFER_LIMIT], said);
    out[end] = 10;
    end + 1
}

// Writes a sentence into the bytes that it is lent, and answers how long the part is that is handed back.
#[tactic(auto, using(crate::proofs::Putting::said_put))]
fn put_said(lent: &mut [u8], said: Said) -> usize
    requires { buffer_limit ≤ length lent.old }
    ensures over { lent.new ≡ overwrite (sentence_of said) lent.old }
    ensures long { result ≡ length (sentence_of said) }
{
    let written = sentences::sentence_line(lent, said);
    written.part().len()
}
