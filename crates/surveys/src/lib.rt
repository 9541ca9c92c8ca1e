// A run over notice files, over any that can be opened by their numbers and any writer: the line of
// each, in the order of the numbers, and a last line that totals them.
#![tactic(auto)]

ghost use Rattle.std.specs.Prelude.{◌≡◌, ◌+◌, ◌≤◌, ◌<◌, ℕ, List, Option, Some, length, IfSome, IfOk};
ghost use Rattle.map.specs.Memory.{base, places};
ghost use Rattle.map.specs.Slices.{lent_in, IsSameRoom};
ghost use Rattle.stream.specs.Feeding.{IsReady};
ghost use Rattle.stream.specs.Pieces.{HasBegun};
ghost use Rattle.feeding.specs.Reading.{standing};
ghost use Rattle.summaries.specs.Run.{room, files_limit};
ghost use Rattle.summaries.specs.Calls.{AreOfFiles};
ghost use Rattle.surveys.specs.Surveys.{Follows, ReportsFile, SurveysFile, Surveys};

use feeding::Ending;
use line_buffer::Reports;
use map::{Room, Scratch};
use outcome::Refusal;
use std::io;
use std::io::{ErrorKind, Read, Write};
use stream::Progress;
use summaries::Totals;
use summary::Summary;

// The files of a run, by their numbers from 0 on.
pub trait Files {
    type File: Read + Drop;

    // the bytes of the file of a number, where they are known
    ghost bytes: { Self → ℕ → Option (List ℕ) };

    // Opens the file of this number. One that cannot be opened is said.
    fn open(&self, i: u32) -> Option<Self::File>
        ensures { IfSome result (λ file. IfSome (bytes self.now i) (λ all. Self.File.Read.remaining file ≡ Some all)) };

    // Says that reading the file of this number failed.
    fn say(&self, i: u32, why: io::Error);
}

// A stream that has followed a file, and whether all of that could be read.
#[derive(Clone, Copy)]
struct Followed {
    progress: Progress,
    whole: bool,
}

// Follows the file of this number, as far as it can be read.
fn follow_file<S: Files>(
    files: &S,
    i: u32,
    begun: Progress,
    links: &mut [u64],
    room: &mut Room<'_>,
    line: &mut [u8],
    out: &mut [u8],
    input: &mut [u8],
) -> Followed
    requires { IsReady begun links.old (lent_in room.old) line.old
        × (48 ≤ length out.old) × (0 < length input.old) }
    ensures same { IsSameRoom room.old room.new }
    ensures left { IsReady result.progress links.new (lent_in room.new) line.new }
    ensures follows { let before = standing begun links.old (lent_in room.old) line.old in
        let after = standing result.progress links.new (lent_in room.new) line.new in
        Follows (S.bytes files.now i) before after result.whole }
{
    let Some(mut file) = files.open(i) else {
        return Followed {
            progress: begun,
            whole: false,
        };
    };
    let ended = feeding::answer_all(
        begun,
        links,
        room,
        line,
        out,
        input,
        &mut file,
        &mut Reports::new(),
        &mut io::sink(),
    );
    match ended.ending {
        Ending::Whole | Ending::Stopped => Followed {
            progress: ended.progress,
            whole: true,
        },
        Ending::Failed(why) | Ending::Unwritten(why) => {
            files.say(i, why);
            Followed {
                progress: ended.progress,
                whole: false,
            }
        }
        Ending::Endless => {
            files.say(i, io::Error::from(ErrorKind::FileTooLarge));
            Followed {
                progress: ended.progress,
                whole: false,
            }
        }
    }
}

// The report on a file's map, or the number of its refusal, and whether all of the file could be
// read.
#[derive(Clone, Copy)]
struct Reported {
    answer: Result<Summary, u8>,
    whole: bool,
}

// Follows the file of this number on a stream that has begun, and reports on its map.
fn report_file<S: Files>(
    files: &S,
    i: u32,
    begun: Progress,
    links: &mut [u64],
    room: &mut Room<'_>,
    line: &mut [u8],
    counts: &mut [u16],
    out: &mut [u8],
    input: &mut [u8],
) -> Reported
    requires begun { HasBegun (standing begun links.old (lent_in room.old) line.old) }
    requires room { (48 ≤ length out.old) × (0 < length input.old)
        × (places base ≤ length counts.old) }
    ensures { ReportsFile (S.bytes files.now i) result }
{
    let followed = follow_file(files, i, begun, links, room, line, out, input);
    let mut scratch = Scratch {
        hops: &mut *room.hops,
        even: &mut *room.even,
        odd: &mut *room.odd,
    };
    let answer = summary::summarise(followed.progress.rec, &*links, &mut scratch, counts);
    Reported {
        answer: answer.map_err(Refusal::number),
        whole: followed.whole,
    }
}

// The totals with a file, and whether all of that could be read.
#[derive(Clone, Copy)]
struct Surveyed {
    totals: Totals,
    whole: bool,
}

// Reports on the file of this number, followed from an empty map, and adds it to the totals.
#[tactic(auto, using(summaries::proofs::Theorems::written_part))]
fn survey_file<S: Files, W: Write>(
    files: &S,
    i: u32,
    out: &mut [u8],
    input: &mut [u8],
    totals: Totals,
    to: &mut W,
) -> io::Result<Surveyed>
    requires { (room ≤ length out.old) × (0 < length input.old)
        × AreOfFiles totals × (totals.files < files_limit) }
    ensures surveys { SurveysFile (S.bytes files.now i) totals
        (W.contents to.old) (W.contents to.new) result }
    ensures of_files { IfOk result (λ x. AreOfFiles x.totals
        × (x.totals.files ≡ totals.files + 1)) }
{
    let mut links = [0u64; map::TABLE];
    let mut pairs = [0u64; map::TABLE];
    let mut hops = [0u16; map::PLACES];
    let mut bounds = [0u16; map::PLACES];
    let mut skips = [0u16; map::PLACES];
    let mut even = [0u64; map::WORDS];
    let mut odd = [0u64; map::WORDS];
    let mut line = [0u8; notice::LINE_LIMIT];
    let mut counts = [0u16; map::PLACES];
    let begun = stream::begin(&mut links, &mut pairs);
    let mut room = Room {
        pairs: &mut pairs,
        hops: &mut hops,
        bounds: &mut bounds,
        skips: &mut skips,
        even: &mut even,
        odd: &mut odd,
    };
    let reported = report_file(
        files,
        i,
        begun,
        &mut links,
        &mut room,
        &mut line,
        &mut counts,
        out,
        input,
    );
    let put = summaries::put_file(out, 0, totals, reported.answer);
    let end = put.at;
    match feeding::system::write_all(to, &out[..end]) {
        Ok(()) => Ok(Surveyed {
            totals: put.totals,
            whole: reported.whole,
        }),
        Err(why) => Err(why),
    }
}

// Reports on so many files, in the order of their numbers, and totals them: whether all of them could
// be read. A write that fails ends the run.
#[tactic(auto, using(summaries::proofs::Theorems::written_part))]
pub fn survey<S: Files, W: Write>(files: &S, count: u32, to: &mut W) -> io::Result<bool>
    requires { count ≤ files_limit }
    ensures { Surveys (S.bytes files.now) count (W.contents to.old) (W.contents to.new) result }
{
    let mut out = [0u8; 65536];
    let mut input = [0u8; 65536];
    let mut totals = Totals {
        sum: 0,
        pairs: 0,
        files: 0,
    };
    let mut whole = true;
    for i in 0..count {
        match survey_file(files, i, &mut out, &mut input, totals, to) {
            Ok(file) => {
                totals = file.totals;
                whole &= file.whole;
            }
            Err(why) => return Err(why),
        }
    }
    let end = summaries::put_total(&mut out, 0, totals);
    match feeding::system::write_all(to, &out[..end]) {
        Ok(()) => Ok(whole),
        Err(why) => Err(why),
    }
}
