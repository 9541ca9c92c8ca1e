// The texts of a line that most lines have like the one before: the number without its last digit, and the figures, since most lines of a long stream are
// refused and change none. They are kept, and copied where they stay.

ghost use Rattle.std.specs.Prelude.{◌≡◌, true, ◌+◌, ◌≤◌, length, take};
ghost use Rattle.decimal.specs.Decimal.{decimal};
ghost use Rattle.decimal.specs.Placed.{Placed};
ghost use Rattle.report.specs.Line.{figures_text};

use crate::ReportFields;
use outcome::Outcome;

// Copies a text of k to twice k bytes: k at its start and k at its end, which are all of it. Each is one word where k is a constant.
#[inline]
fn copy_ends(to: &mut [u8], text: &[u8], k: usize)
    requires { (length to.old ≡ length text.now) × (k ≤ length text.now) × (length text.now ≤ k + k) }
    ensures { to.new ≡ text.now }
{
    let end = text.len() - k;
    to[..k].copy_from_slice(&text[..k]);
    to[end..].copy_from_slice(&text[end..]);
}

// Puts a text of k to twice k bytes at a place of the line.
#[inline]
fn put_ends(line: &mut [u8], at: usize, text: &[u8], k: usize) -> usize
    requires { (at + length text.now ≤ length line.old) × (k ≤ length text.now) × (length text.now ≤ k + k) }
    ensures { Placed text.now at line.old result line.new }
{
    let end = at + text.len();
    copy_ends(&mut line[at..end], text, k);
    end
}

// ---- the number

// The tens of the number that was kept last, and their text. Those of 4 to 8 digits are kept.
#[derive(Clone, Copy)]
pub(crate) struct KeptTens {
    tens: u32,
    text: [u8; 8],
    length: usize,
    ghost in_range: { (4 ≤ length) × (length ≤ 8) },
    ghost stands: { take length text ≡ decimal tens },
}

// The tens of a number, whose text it is.
fn keep_tens(text: &[u8], tens: u32) -> KeptTens
    requires { (text.now ≡ decimal tens) × (4 ≤ length text.now) × (length text.now ≤ 8) }
{
    let length = text.len();
    let mut short = [0u8; 8];
    copy_ends(&mut short[..length], text, 4);
    KeptTens {
        tens,
        text: short,
        length,
    }
}

impl KeptTens {
    // Some tens, which are as good as any.
    fn new() -> Self {
        KeptTens {
            tens: 1000,
            text: *b"1000    ",
            length: 4,
        }
    }

    // Puts a number at a place of the line: the tens that are kept, and the last digit; or other tens, which are kept then.
    #[tactic(auto, using(crate::proofs::Texts::tens_kept))]
    pub(crate) fn put(&mut self, line: &mut [u8], at: usize, n: u32) -> usize
        requires { at + length (decimal n) ≤ length line.old }
        ensures { Placed (decimal n) at line.old result line.new }
    {
        let tens = n / 10;
        if self.tens == tens {
            let text = self.text;
            let end = put_ends(line, at, &text[..self.length], 4);
            line[end] = 48 + (n % 10) as u8;
            return end + 1;
        }
        let end = decimal::put_number(line, at, n as u64);
        if at + 5 <= end && end <= at + 9 {
            *self = keep_tens(&line[at..end - 1], tens);
        }
        end
    }
}

// ---- the figures

// Puts the figures of a report at a place of the line.
#[tactic(auto, using(crate::proofs::Texts::figures_put), unfolding(crate::specs::Line::figures_text))]
fn put_figures(line: &mut [u8], at: usize, report: ReportFields) -> usize
    requires { at + length (figures_text report) ≤ length line.old }
    ensures { Placed (figures_text report) at line.old result line.new }
{
    let a = decimal::put_field(line, at, report.depots as u64);
    let b = decimal::put_field(line, a, report.chain as u64);
    let c = decimal::put_field(line, b, report.pairs as u64);
    decimal::put_field(line, c, report.searches as u64)
}

// Whether two reports without searches have the same figures.
#[tactic(auto, using(crate::proofs::Texts::figures_same))]
fn is_same(r: ReportFields, s: ReportFields) -> bool
    requires { (r.searches ≡ 0) × (s.searches ≡ 0) }
    ensures { result ≡ true → figures_text r ≡ figures_text s }
{
    r.depots == s.depots && r.chain == s.chain && r.pairs == s.pairs
}

// The report whose figures were kept last, and their text. Those of a refused line are kept, which made no search: they have 8 bytes at least, and 16 at most
// where the map is one of 256 depots.
#[derive(Clone, Copy)]
pub(crate) struct KeptFigures {
    last: ReportFields,
    text: [u8; 16],
    length: usize,
    ghost in_range: { (8 ≤ length) × (length ≤ 16) },
    ghost no_searches: { last.searches ≡ 0 },
    ghost stands: { take length text ≡ figures_text last },
}

// The figures of a report, whose text it is.
fn keep_figures(text: &[u8], report: ReportFields) -> KeptFigures
    requires { (text.now ≡ figures_text report) × (length text.now ≤ 16) × (report.searches ≡ 0) }
{
    let length = text.len();
    let mut short = [0u8; 16];
    copy_ends(&mut short[..length], text, 8);
    KeptFigures {
        last: report,
        text: short,
        length,
    }
}

impl KeptFigures {
    // The figures of a map that is empty.
    fn new() -> Self {
        let none = ReportFields {
            number: 0,
            outcome: Outcome::Refused(0),
            depots: 0,
            chain: 0,
            pairs: 0,
            searches: 0,
        };
        KeptFigures {
            last: none,
            text: *b" 0 0 0 0        ",
            length: 8,
        }
    }

    // Puts the figures of a report at a place of the line: those that are kept, or others, which are kept then. A line with searches was accepted, and hardly
    // any has the figures of the one before it.
    pub(crate) fn put(&mut self, line: &mut [u8], at: usize, report: ReportFields) -> usize
        requires { at + length (figures_text report) ≤ length line.old }
        ensures { Placed (figures_text report) at line.old result line.new }
    {
        if report.searches == 0 && is_same(self.last, report) {
            let text = self.text;
            return put_ends(line, at, &text[..self.length], 8);
        }
        let end = put_figures(line, at, report);
        if report.searches == 0 && end - at <= 16 {
            *self = keep_figures(&line[at..end], report);
        }
        end
    }
}

// ---- both

// What is kept of the last lines.
#[derive(Clone, Copy)]
pub struct KeptTexts {
    pub(crate) tens: KeptTens,
    pub(crate) figures: KeptFigures,
}

impl KeptTexts {
    // For a first line.
    pub fn new() -> Self {
        KeptTexts {
            tens: KeptTens::new(),
            figures: KeptFigures::new(),
        }
    }
}
