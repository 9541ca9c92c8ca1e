// Report lines, each beside its text, and a buffer one byte too short, which has none.
use crate::tally::Tally;
use outcome::{Change, Outcome};
use report::{KeptTexts, ReportFields};

// Whether a report's line, in a buffer of 48 bytes, is the text, and the buffer keeps what stands behind it.
fn is_line(fields: ReportFields, text: &[u8]) -> bool {
    let mut line = [b'x'; 48];
    let written = report::report_line(&mut KeptTexts::new(), &mut line, fields);
    let length = written.length;
    let whole = &written.lent[..];
    if whole.len() != 48 || length > 48 {
        return false;
    }
    let part = &whole[..length];
    part == text && whole[47] == b'x'
}

// Whether a buffer of 47 bytes is handed back without a line, unchanged.
fn is_refused(fields: ReportFields) -> bool {
    let mut line = [b'x'; 47];
    let written = report::report_line(&mut KeptTexts::new(), &mut line, fields);
    let length = written.length;
    let whole = &written.lent[..];
    length == 0 && whole == [b'x'; 47].as_slice()
}

// The first line of a day, a refused one, the longest, and the buffer too short.
pub(crate) fn all() -> Tally {
    let first = ReportFields {
        number: 1,
        outcome: Outcome::Accepted(Change::Kept),
        depots: 1,
        chain: 0,
        pairs: 0,
        searches: 1,
    };
    let refused = ReportFields {
        number: 20,
        outcome: Outcome::Refused(9),
        depots: 2,
        chain: 1,
        pairs: 1,
        searches: 0,
    };
    let longest = ReportFields {
        number: u32::MAX,
        outcome: Outcome::Refused(255),
        depots: u16::MAX,
        chain: u16::MAX,
        pairs: u32::MAX,
        searches: u16::MAX,
    };
    let mut tally = Tally::new();
    tally.see(is_line(first, b"1 K 1 0 0 1\n"));
    tally.see(is_line(refused, b"20 R9 2 1 1 0\n"));
    tally.see(is_line(longest, b"4294967295 R255 65535 65535 4294967295 65535\n"));
    tally.see(is_refused(longest));
    tally
}
