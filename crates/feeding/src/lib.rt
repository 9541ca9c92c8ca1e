// The reading loop of the programs that follow notices: the bytes of an input, fed to the stream as
// they come. What a read brings is answered, and written where its answers are wanted, before the
// next read, so that a person or a scanner on a pipe sees each answer at once; a file goes through
// in large pieces.
#![tactic(auto)]

ghost use Rattle.std.specs.Prelude.{◌≡◌, ◌≤◌, ◌<◌, length};
ghost use Rattle.map.specs.Slices.{lent_in, IsSameRoom};
ghost use Rattle.stream.specs.Feeding.{IsReady};
ghost use Rattle.stream.specs.Pieces.{HasBegun};
ghost use Rattle.feeding.specs.Reading.{standing, Answers, Reads, AppendsLast, IsTold, status_of};

pub mod system;

use line_buffer::Tells;
use map::Room;
use std::env::{Env, FillError};
use std::io;
use std::io::{ErrorKind, Read, Write};
use std::process::ExitCode;
use stream::Progress;

// Answers a piece, and hands the answers on as the buffer fills. Whether to go on: not if the
// stream has had its lines; then nothing more is read.
fn answer<T: Tells, W: Write>(
    progress: &mut Progress,
    links: &mut [u64],
    room: &mut Room<'_>,
    line: &mut [u8],
    out: &mut [u8],
    piece: &[u8],
    tell: &mut T,
    to: &mut W,
) -> io::Result<bool>
    requires { IsReady progress.old links.old (lent_in room.old) line.old
        × (T.manner.room ≤ length out.old) }
    ensures same { IsSameRoom room.old room.new }
    ensures left { IsReady progress.new links.new (lent_in room.new) line.new }
    ensures answers { let before = standing progress.old links.old (lent_in room.old) line.old in
        let after = standing progress.new links.new (lent_in room.new) line.new in
        Answers T.manner before after (W.contents to.old) (W.contents to.new) piece.now result }
{
    let mut rest = piece;
    while !rest.is_empty() {
        let fed = stream::feed(*progress, links, room, line, out, rest, tell);
        *progress = fed.progress;
        system::write_all(to, &out[..fed.written])?;
        if fed.used == 0 {
            return Ok(false);
        }
        rest = &rest[fed.used..];
    }
    Ok(!line_buffer::is_stopped(&*tell, progress.lines, 0, out.len()))
}

// How the reading of an input came to its end: nothing more was to be read, the input is whole, a
// read failed, a write failed, or the input is longer than a loop counts, which none is.
#[derive(Clone, Copy)]
pub enum Ending {
    Stopped,
    Whole,
    Failed(io::Error),
    Unwritten(io::Error),
    Endless,
}

// How the input ended, and the stream's progress: what it holds of a last line is to be answered
// unless the reading was stopped or a write failed.
#[derive(Clone, Copy)]
pub struct Ended {
    pub progress: Progress,
    pub ending: Ending,
}

// Answers an input to its end. A proved loop has to end, and nothing says that the input does: so
// the loop counts its turns, up to a number that no run comes to, since each reads a byte at least.
pub fn answer_all<R: Read, T: Tells, W: Write>(
    begun: Progress,
    links: &mut [u64],
    room: &mut Room<'_>,
    line: &mut [u8],
    out: &mut [u8],
    input: &mut [u8],
    from: &mut R,
    tell: &mut T,
    to: &mut W,
) -> Ended
    requires { IsReady begun links.old (lent_in room.old) line.old
        × (T.manner.room ≤ length out.old) × (0 < length input.old) }
    ensures same { IsSameRoom room.old room.new }
    ensures left { IsReady result.progress links.new (lent_in room.new) line.new }
    ensures reads { let before = standing begun links.old (lent_in room.old) line.old in
        let after = standing result.progress links.new (lent_in room.new) line.new in
        Reads T.manner before after (R.remaining from.old) (R.remaining from.new)
        (W.contents to.old) (W.contents to.new) result.ending }
{
    let mut progress = begun;
    for turn in 0..u64::MAX {
        let n = match system::read_some(input, from) {
            Ok(n) => n,
            Err(why) => {
                return Ended {
                    progress,
                    ending: Ending::Failed(why),
                };
            }
        };
        if n == 0 {
            return Ended {
                progress,
                ending: Ending::Whole,
            };
        }
        match answer(&mut progress, links, room, line, out, &input[..n], tell, to) {
            Ok(true) => {}
            Ok(false) => {
                return Ended {
                    progress,
                    ending: Ending::Stopped,
                };
            }
            Err(why) => {
                return Ended {
                    progress,
                    ending: Ending::Unwritten(why),
                };
            }
        }
    }
    Ended {
        progress,
        ending: Ending::Endless,
    }
}

// Answers a last stretch that the stream holds.
fn answer_last<T: Tells, W: Write>(
    progress: Progress,
    links: &mut [u64],
    room: &mut Room<'_>,
    line: &[u8],
    out: &mut [u8],
    tell: &mut T,
    to: &mut W,
) -> io::Result<()>
    requires { IsReady progress links.old (lent_in room.old) line.now }
    ensures { let last = standing progress links.old (lent_in room.old) line.now in
        AppendsLast T.manner last out.old (W.contents to.old) (W.contents to.new) result }
{
    let fed = stream::finish(progress, links, room, line, out, tell);
    system::write_all(to, &out[..fed.written])
}

// Tells the answers to a whole input, from the beginning of a stream: those to what was read before,
// where a read fails. A last stretch without an ending is answered too.
fn tell_all<R: Read, T: Tells, W: Write>(
    begun: Progress,
    links: &mut [u64],
    room: &mut Room<'_>,
    line: &mut [u8],
    out: &mut [u8],
    input: &mut [u8],
    from: &mut R,
    tell: &mut T,
    to: &mut W,
) -> Ending
    requires begun { HasBegun (standing begun links.old (lent_in room.old) line.old) }
    requires room { (T.manner.room ≤ length out.old) × (0 < length input.old) }
    ensures { IsTold T.manner (R.remaining from.old) (R.remaining from.new)
        (W.contents to.old) (W.contents to.new) result }
{
    let ended = answer_all(begun, links, room, line, out, input, from, tell, to);
    match ended.ending {
        Ending::Whole | Ending::Failed(_) | Ending::Endless => {}
        Ending::Stopped | Ending::Unwritten(_) => return ended.ending,
    }
    match answer_last(ended.progress, links, room, &*line, out, tell, to) {
        Ok(()) => ended.ending,
        Err(why) => Ending::Unwritten(why),
    }
}

// Tells the answers to a whole input, from an empty map.
pub fn tell_input<R: Read, T: Tells, W: Write>(from: &mut R, tell: &mut T, to: &mut W) -> Ending
    requires { T.manner.room ≤ 65536 }
    ensures { IsTold T.manner (R.remaining from.old) (R.remaining from.new)
        (W.contents to.old) (W.contents to.new) result }
{
    let mut links = [0u64; map::TABLE];
    let mut pairs = [0u64; map::TABLE];
    let mut hops = [0u16; map::PLACES];
    let mut bounds = [0u16; map::PLACES];
    let mut skips = [0u16; map::PLACES];
    let mut even = [0u64; map::WORDS];
    let mut odd = [0u64; map::WORDS];
    let mut line = [0u8; notice::LINE_LIMIT];
    let mut out = [0u8; 65536];
    let mut input = [0u8; 65536];
    let begun = stream::begin(&mut links, &mut pairs);
    let mut room = Room {
        pairs: &mut pairs,
        hops: &mut hops,
        bounds: &mut bounds,
        skips: &mut skips,
        even: &mut even,
        odd: &mut odd,
    };
    tell_all(
        begun, &mut links, &mut room, &mut line, &mut out, &mut input, from, tell, to,
    )
}

// ---- the whole of a program that tells the answers to standard input on standard output

// What is said to have failed where a read or a write fails.
#[derive(Clone, Copy)]
pub struct Names<'a> {
    pub input: &'a [u8],
    pub output: &'a [u8],
}

// The exit status of a program whose input ended so.
fn status_of(ending: Ending) -> u8
    ensures { result ≡ status_of ending }
{
    match ending {
        Ending::Whole | Ending::Stopped => 0,
        Ending::Failed(_) | Ending::Unwritten(_) | Ending::Endless => 1,
    }
}

// Says what failed of an input that ended so.
pub fn say_ending(rt: &HostRuntime, ending: Ending, names: Names<'_>) {
    match ending {
        Ending::Whole | Ending::Stopped => {}
        Ending::Failed(why) => system::say(rt, names.input, why),
        Ending::Unwritten(why) => system::say(rt, names.output, why),
        Ending::Endless => system::say(rt, names.input, io::Error::from(ErrorKind::FileTooLarge)),
    }
}

// Answers standard input from an empty map. That a read failed is said where the answers before it
// could be written.
pub fn run<T: Tells>(rt: &HostRuntime, tell: &mut T, names: Names<'_>) -> ExitCode
    requires { T.manner.room ≤ 65536 }
{
    let ending = tell_input(&mut rt.stdin(), tell, &mut io::writer(rt));
    say_ending(rt, ending, names);
    ExitCode::from(status_of(ending))
}

// ---- the arguments

// What the arguments behind the program's name ask for: there is none, `--help` stands alone, or
// they are any others.
#[derive(Clone, Copy)]
pub enum Asked {
    Nothing,
    Help,
    Other,
}

pub fn read_arguments(rt: &impl Env) -> Asked {
    let mut word = [0u8; 6];
    match rt.arg(1, &mut word) {
        Err(FillError::NotPresent) => Asked::Nothing,
        Ok(n) if n == word.len() && word == *b"--help" && !is_there(rt, 2) => Asked::Help,
        _ => Asked::Other,
    }
}

// Whether there is an argument of this number.
fn is_there(rt: &impl Env, i: usize) -> bool {
    !matches!(rt.arg(i, &mut []), Err(FillError::NotPresent))
}

// Prints a program's usage, which was asked for.
pub fn print_usage(rt: &HostRuntime, usage: &str, output: &[u8]) -> ExitCode {
    match system::write_out(rt, usage.as_bytes(), output) {
        true => ExitCode::SUCCESS,
        false => ExitCode::FAILURE,
    }
}

// Says how the program is used, which was used otherwise.
pub fn refuse_usage(rt: &HostRuntime, usage: &str) -> ExitCode {
    let _ = rt.stderr().write_all(usage.as_bytes());
    ExitCode::from(2)
}
