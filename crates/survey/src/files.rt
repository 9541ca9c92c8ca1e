// The files of a run, by the arguments that name them. What fails is said on standard error: the
// program, the file's name and the system's words.
ghost use Rattle.std.specs.Prelude.{None};

use std::env::{Env, FillError};
use std::fs::File;
use std::io;
use surveys::Files;

// As many bytes as the system takes for a file's name.
const NAME_LIMIT: usize = 4096;

// The system's numbers for a name that is too long, and for bytes that are no text.
const TOO_LONG: i32 = 36;

const NO_TEXT: i32 = 84;

// How many arguments there are, with the program's name.
pub(crate) fn count_arguments(rt: &impl Env) -> usize {
    for i in 0..usize::MAX {
        if let Err(FillError::NotPresent) = rt.arg(i, &mut []) {
            return i;
        }
    }
    usize::MAX
}

// The files that the arguments behind the program's name name: what they have is not known.
#[derive(Drop)]
pub(crate) struct Named<'a> {
    pub(crate) rt: &'a HostRuntime,
}

// Opens the file of this name, which has to be text.
fn open_named(rt: &HostRuntime, name: &[u8]) -> io::Result<File> {
    let path = str::from_utf8(name).map_err(|_| io::Error::from_raw_os_error(NO_TEXT))?;
    File::open(rt, path)
}

// Says that the file of this name failed, and why.
fn say_name(rt: &HostRuntime, name: &[u8], why: io::Error) {
    let _ = rt.stderr().write_all(b"survey: ");
    feeding::system::say(rt, name, why);
}

impl Files for Named<'_> {
    type File = File;

    ghost bytes = { λ _ _. None };

    // A name that does not fit into the buffer opens no file, and is said as far as it does.
    fn open(&self, i: u32) -> Option<File> {
        let mut name = [0u8; NAME_LIMIT];
        let Ok(named) = self.rt.arg(i as usize + 1, &mut name) else {
            say_name(self.rt, &name, io::Error::from_raw_os_error(TOO_LONG));
            return None;
        };
        match open_named(self.rt, &name[..named]) {
            Ok(file) => Some(file),
            Err(why) => {
                say_name(self.rt, &name[..named], why);
                None
            }
        }
    }

    fn say(&self, i: u32, why: io::Error) {
        let mut name = [0u8; NAME_LIMIT];
        let named = self.rt.arg(i as usize + 1, &mut name).unwrap_or(0);
        say_name(self.rt, &name[..named], why);
    }
}
