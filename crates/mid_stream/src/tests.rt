ghost use Rattle.std.specs.Prelude.{None};

use feeding::Ending;
use line_buffer::Reports;
use std::alloc::Global;
use std::io;
use std::io::{ErrorKind, Read, Write};
use std::test::Fail;
use surveys::Files;

// Three notices and a last stretch, and what is told of them.
const NOTICES: &[u8] = b"010000\n01010100\n01020101\n0102";

const REPORTS: &[u8] = b"1 K 1 0 0 1\n2 G 2 1 1 1\n3 G 3 2 1 1\n4 R9 3 2 1 0\n";

// A path of three depots, and two that are linked: their lines.
const PAIR: &[u8] = b"010A00\n010B010A\n";

const LINES: &[u8] = b"4 3 1 1\n1 1 1 0\n5 4 1 1\n";

// The same where the second cannot be opened.
const WITH_NONE: &[u8] = b"4 3 1 1\nR15\n4 3 1 1\n";

// Gives at most five bytes a call, and is interrupted before each. Behind its bytes it ends, or
// fails.
#[derive(Drop)]
struct Drip {
    bytes: &'static [u8],
    fails: bool,
    interrupts: bool,
}

fn new_drip(bytes: &'static [u8], fails: bool) -> Drip {
    Drip {
        bytes,
        fails,
        interrupts: true,
    }
}

impl Read for Drip {
    fn read(&mut self, buf: &mut [u8]) -> io::Result<usize> {
        self.interrupts = !self.interrupts;
        if !self.interrupts {
            return Err(io::Error::from(ErrorKind::Interrupted));
        }
        if self.bytes.is_empty() && self.fails {
            return Err(io::Error::from(ErrorKind::ConnectionReset));
        }
        let n = self.bytes.len().min(5).min(buf.len());
        buf[..n].copy_from_slice(&self.bytes[..n]);
        self.bytes = &self.bytes[n..];
        Ok(n)
    }
}

// Takes at most three bytes a call, and is interrupted before each. It fails where it has so many.
#[derive(Drop)]
struct Sip {
    got: Vec<u8>,
    most: usize,
    interrupts: bool,
}

fn new_sip(alloc: Global, most: usize) -> Sip {
    Sip {
        got: Vec::new(alloc),
        most,
        interrupts: true,
    }
}

impl Write for Sip {
    fn write(&mut self, buf: &[u8]) -> io::Result<usize> {
        self.interrupts = !self.interrupts;
        if !self.interrupts {
            return Err(io::Error::from(ErrorKind::Interrupted));
        }
        let n = buf
            .len()
            .min(3)
            .min(self.most.saturating_sub(self.got.len()));
        if n == 0 {
            return Err(io::Error::from(ErrorKind::StorageFull));
        }
        self.got.extend_from_slice(&buf[..n])?;
        Ok(n)
    }

    fn flush(&mut self) -> io::Result<()> {
        Ok(())
    }
}

// ---- a stream

#[test]
fn all_is_told(rt: HostRuntime) -> Result<(), Fail> {
    let mut input = NOTICES;
    let mut output = Vec::new(rt.alloc());
    let ending = feeding::tell_input(&mut input, &mut Reports::new(), &mut output);
    assert!(rt; matches!(ending, Ending::Whole));
    assert_eq!(rt; output.as_slice(), REPORTS);
    Ok(())
}

#[test]
fn a_read_fails(rt: HostRuntime) -> Result<(), Fail> {
    let mut output = new_sip(rt.alloc(), 1000);
    let mut input = new_drip(NOTICES, true);
    let ending = feeding::tell_input(&mut input, &mut Reports::new(), &mut output);
    assert!(rt; matches!(ending, Ending::Failed(why) if why.kind() == ErrorKind::ConnectionReset));
    assert_eq!(rt; output.got.as_slice(), REPORTS);
    Ok(())
}

#[test]
fn a_write_fails(rt: HostRuntime) -> Result<(), Fail> {
    let mut output = new_sip(rt.alloc(), 20);
    let mut input = new_drip(NOTICES, true);
    let ending = feeding::tell_input(&mut input, &mut Reports::new(), &mut output);
    assert!(rt; matches!(ending, Ending::Unwritten(why) if why.kind() == ErrorKind::StorageFull));
    assert_eq!(rt; output.got.as_slice(), &REPORTS[..20]);
    Ok(())
}

// ---- files

// Of which all have these bytes but for the second.
#[derive(Drop)]
struct Two {
    second: Second,
}

#[derive(Clone, Copy)]
enum Second {
    There,
    Missing,
    Failing,
}

impl Files for Two {
    type File = Drip;

    ghost bytes = { λ _ _. None };

    fn open(&self, i: u32) -> Option<Drip> {
        match (i, self.second) {
            (0, _) => Some(new_drip(NOTICES, false)),
            (_, Second::There) => Some(new_drip(PAIR, false)),
            (_, Second::Missing) => None,
            (_, Second::Failing) => Some(new_drip(PAIR, true)),
        }
    }

    fn say(&self, _i: u32, _why: io::Error) {}
}

#[test]
fn all_files_are_told(rt: HostRuntime) -> Result<(), Fail> {
    let mut output = Vec::new(rt.alloc());
    let files = Two {
        second: Second::There,
    };
    assert!(rt; matches!(surveys::survey(&files, 2, &mut output), Ok(true)));
    assert_eq!(rt; output.as_slice(), LINES);
    Ok(())
}

#[test]
fn a_file_cannot_be_read(rt: HostRuntime) -> Result<(), Fail> {
    let mut output = new_sip(rt.alloc(), 1000);
    let missing = Two {
        second: Second::Missing,
    };
    assert!(rt; matches!(surveys::survey(&missing, 2, &mut output), Ok(false)));
    assert_eq!(rt; output.got.as_slice(), WITH_NONE);
    let mut output = new_sip(rt.alloc(), 1000);
    let failing = Two {
        second: Second::Failing,
    };
    assert!(rt; matches!(surveys::survey(&failing, 2, &mut output), Ok(false)));
    assert_eq!(rt; output.got.as_slice(), LINES);
    Ok(())
}

#[test]
fn a_line_cannot_be_written(rt: HostRuntime) -> Result<(), Fail> {
    let mut output = new_sip(rt.alloc(), 10);
    let files = Two {
        second: Second::There,
    };
    assert!(rt;
        matches!(surveys::survey(&files, 2, &mut output), Err(why) if why.kind() == ErrorKind::StorageFull)
    );
    assert_eq!(rt; output.got.as_slice(), &LINES[..10]);
    Ok(())
}
