// Reads and writes that fail aloud: a call that was interrupted is tried again, any other failure is said on standard error in one line, with the
// system's words. What tries again counts how often, since a proved loop has to end; no run uses the tries up.
ghost use Rattle.std.specs.Prelude.{◌≤◌, ◌<◌, length, IfOk, OnOk};
ghost use Rattle.std.specs.Io.{ReadsAtMost, WritesAtMost};
ghost use Rattle.std.specs.Io.KnownBytes.{ReadConsumes, WriteAppends, Appends};
ghost use Rattle.feeding.specs.Reading.{AppendsPart};

use std::io;
use std::io::{ErrorKind, Read, Write};

// Reads what the input has, as far as the buffer holds it: how many bytes, 0 at its end.
pub fn read_some<R: Read>(input: &mut [u8], from: &mut R) -> io::Result<usize>
    ensures bound { ReadsAtMost result input.new }
    ensures bytes { ReadConsumes (R.remaining from.old) (R.remaining from.new) result input.new }
{
    for _ in 0..u64::MAX {
        match from.read(input) {
            Err(why) if why.kind() == ErrorKind::Interrupted => {}
            done => return done,
        }
    }
    Err(io::Error::from(ErrorKind::Interrupted))
}

// Writes what the writer takes of the bytes, which are some, at once: how many it took, at least one. (One loop for this and `read_some`, over a
// closure, would be no plainer: both contracts would have to go through the closure's states.)
fn write_some<W: Write>(to: &mut W, out: &[u8]) -> io::Result<usize>
    ensures bound { IfOk result (λ n. (0 < n) × (n ≤ length out.now)) }
    ensures bytes { WriteAppends (W.contents to.old) (W.contents to.new) result out.now }
{
    for _ in 0..u64::MAX {
        match to.write(out) {
            Ok(0) => return Err(io::Error::from(ErrorKind::WriteZero)),
            Err(why) if why.kind() == ErrorKind::Interrupted => {}
            done => return done,
        }
    }
    Err(io::Error::from(ErrorKind::Interrupted))
}

// Writes all of the bytes. Where that fails a first part of them is written, and nothing else. (The library's `write_all` gives up after 64 interruptions,
// and does not say what is written where it fails.)
pub fn write_all<W: Write>(to: &mut W, out: &[u8]) -> io::Result<()>
    ensures ok { OnOk result (Appends (W.contents to.old) (W.contents to.new) out.now) }
    ensures part { AppendsPart (W.contents to.old) (W.contents to.new) out.now }
{
    let mut rest = out;
    while !rest.is_empty() {
        let n = write_some(to, rest)?;
        rest = &rest[n..];
    }
    Ok(())
}

// Writes all of the bytes to standard output. Where that fails it is said of the name, and the answer is false.
pub fn write_out(rt: &HostRuntime, out: &[u8], name: &[u8]) -> bool {
    match write_all(&mut io::writer(rt), out) {
        Ok(()) => true,
        Err(why) => {
            say(rt, name, why);
            false
        }
    }
}

// Says on standard error in one line that what has this name failed, and why, in the system's words. Where that fails too, nothing is left to say it to.
pub fn say(rt: &HostRuntime, name: &[u8], why: io::Error) {
    let to = rt.stderr();
    let _ = to.write_all(name);
    let _ = match format!(in rt.alloc(); "{why}") {
        Ok(text) => {
            let said = words(text.as_str());
            println!(to; ": {said}")
        }
        Err(_) => println!(to; ": {why}"),
    };
}

// The system's words for an error, without the number that stands behind them.
fn words(text: &str) -> &str {
    text.split_once(" (os error ")
        .map_or(text, |(said, _)| said)
}
